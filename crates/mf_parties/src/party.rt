//! A party, what is read of it, and how it changes.
ghost use Rattle.std.specs.Prelude.{◌≡◌, OnOk, OnErr, slice_set, if◌then◌else◌};
ghost use Rattle.std.specs.Str.{bytes_eq};
ghost use Rattle.mf_objects.specs.Changes.{with_what, goes_with};
ghost use Rattle.mf_objects.specs.Descriptors as fds;
ghost use Rattle.mf_objects.specs.Live as live;
ghost use Rattle.mf_plan.specs.Names.{child_name};
ghost use Rattle.mf_parties.specs.Changing.{changed, grown};
ghost use Rattle.mf_parties.specs.Parties.{is_of};

use crate::change::{Change, Growth};
use crate::party_id::PartyId;
use crate::what::What;
use mf_elem::{LabelValue, SLOTS};
use mf_item::Kind;
use mf_names::Name;
use std::alloc::AllocError;
use std::marker::Model;

/// A live entity, with the values of its label.
#[derive(Drop)]
pub struct Party {
    pub id: PartyId,
    pub name: Name,
    pub label: [LabelValue; SLOTS],
    pub what: What,
}

impl Model for Party {
    ghost use Rattle.mf_objects.specs.Live.{LiveEntity};
    ghost use Rattle.mf_parties.specs.Parties.{data_of};

    ghost Value = { LiveEntity };

    ghost view = { λ p.
        record { id = p.id; name = p.name; label = p.label; what = data_of p.what } };
}

impl Party {
    pub fn has_id(&self, id: PartyId) -> bool
        ensures { result ≡ live.has_id id self.now }
    {
        self.id.is(id)
    }

    /// Whether it is of this kind and has the name.
    pub fn is_named(&self, kind: Kind, name: &str) -> bool
        ensures { result ≡ live.is_one_named (is_of kind) name.now self.now }
    {
        self.what.is_of(kind) && self.name.as_str() == name
    }

    /// Whether it is the entry of this name in a directory.
    pub fn is_child(&self, dir: PartyId, name: &str) -> bool
        ensures { result ≡ live.is_one_named (live.is_entry dir) name.now self.now }
    {
        self.what.is_entry(dir) && self.name.as_str() == name
    }

    /// Whether it is the process that the task gave that name as a child.
    pub fn is_child_process(&self, task: &str, child: &str) -> bool
        ensures { result
            ≡ live.is_one_named live.is_process (child_name task.now child.now) self.now }
    {
        self.what.is_of(Kind::Process) && is_child_name(self.name.as_str(), task, child)
    }

    /// Whether it is an entry of this directory.
    pub fn is_entry(&self, dir: PartyId) -> bool
        ensures { result ≡ live.is_entry dir self.now.what }
    {
        self.what.is_entry(dir)
    }

    /// Whether it is this process, or a pipe or a socket that the process made.
    pub fn goes_with(&self, process: PartyId) -> bool
        ensures { result ≡ goes_with process self.now }
    {
        self.has_id(process) || self.what.is_made_by(process)
    }

    /// Closes what it has open on a file.
    pub fn close_on(&mut self, file: PartyId)
        ensures { self.new ≡ with_what (fds.with_fds (fds.closed_on file)) self.old }
    {
        self.what.close_on(file);
    }

    /// Changes the party of this id, and leaves any other as it is.
    pub fn change_at(&mut self, id: PartyId, change: &Change)
        ensures { self.new
            ≡ (if live.has_id id self.old then changed change.now self.old else self.old) }
    {
        if self.has_id(id) {
            self.change(change);
        }
    }

    fn change(&mut self, change: &Change)
        ensures { self.new ≡ changed change.now self.old }
    {
        match change {
            Change::Empty => self.what.empty(),
            Change::Receive => self.what.receive(),
            Change::Mode(mode) => self.what.set_mode(*mode),
            Change::Close(number) => self.what.close(*number),
            Change::Label(label) => self.label = *label,
            Change::Value(slot, value) => set_value(&mut self.label, *slot, value),
        }
    }

    /// Makes the change. If memory runs out, the party is unchanged.
    pub fn grow(&mut self, growth: Growth) -> Result<(), AllocError>
        ensures ok { OnOk result (self.new ≡ grown growth.entry self.old) }
        ensures err { OnErr result (self.new ≡ self.old) }
    {
        match growth {
            Growth::Bytes(bytes) => self.what.append(bytes),
            Growth::Message(message) => self.what.push_message(message),
            Growth::Open(file) => self.what.open(file),
        }
    }
}

fn set_value(label: &mut [LabelValue; SLOTS], slot: u8, value: &LabelValue)
    ensures { label.new ≡ slice_set label.old slot value.now }
{
    let place = slot as usize;
    if place < SLOTS {
        label[place] = *value;
    }
}

/// Whether it is the full name of the task's child: that of the task, a dot, and its own.
fn is_child_name(name: &str, task: &str, child: &str) -> bool
    ensures { result ≡ bytes_eq name.now (child_name task.now child.now) }
{
    let Some(rest) = name.as_bytes().strip_prefix(task.as_bytes()) else {
        return false;
    };
    let Some(own) = rest.strip_prefix(b".") else {
        return false;
    };
    own == child.as_bytes()
}
