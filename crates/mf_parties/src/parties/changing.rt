//! Changes of one party. If memory runs out, the parties are as they were.
ghost use Rattle.std.specs.Prelude.{◌≡◌, ◌<◌, [], drop, map, OnErr, OnOk, position, if◌then◌else◌};
ghost use Rattle.mf_objects.specs.declared.limits.TheConstants.{ID_LIMIT};
ghost use Rattle.mf_objects.specs.Changes as changes;
ghost use Rattle.mf_objects.specs.Descriptors as fds;
ghost use Rattle.mf_objects.specs.Labels.{with_value, with_label};
ghost use Rattle.mf_objects.specs.Live as live;
ghost use Rattle.mf_objects.specs.Lives.{is_regular, IsLive};
ghost use Rattle.mf_parties.specs.Changing.{changed, grown};
ghost use Rattle.mf_parties.specs.Parties.{data_of};
ghost use Rattle.mf_parties.specs.Standing.{IsOpenable};

use super::Parties;
use crate::change::{Change, Growth};
use crate::party::Party;
use crate::party_id::PartyId;
use crate::text::Text;
use crate::what::{OpenFile, What};
use mf_elem::{LabelValue, SLOTS};
use mf_names::Name;
use std::alloc::{AllocError, Global};

impl Parties {
    /// Adds a party under the next id.
    pub fn add(
        &mut self,
        alloc: Global,
        name: &str,
        label: &[LabelValue; SLOTS],
        what: What,
    ) -> Result<(), AllocError>
        requires next { self.old.next < ID_LIMIT }
        requires unopened { fds.fds_of (data_of what) ≡ [] }
        ensures ok { OnOk result (self.new
            ≡ changes.with_entity self.old name.now label.now (data_of what)) }
        ensures err { OnErr result (self.new ≡ self.old) }
    {
        let party = Party {
            id: PartyId::new(self.next),
            name: Name::from_str(alloc, name)?,
            label: *label,
            what,
        };
        self.list.push(party)?;
        self.next += 1;
        Ok(())
    }

    /// Appends to a file or a pipe.
    pub fn append(&mut self, id: PartyId, bytes: &[u8]) -> Result<(), AllocError>
        ensures ok { OnOk result (self.new
            ≡ changes.with_change (changes.with_what (changes.appended bytes.now)) self.old id) }
        ensures err { OnErr result (self.new ≡ self.old) }
    {
        self.grow_at(id, Growth::Bytes(bytes))
    }

    /// Appends a message to those of a socket.
    pub fn deliver(&mut self, alloc: Global, id: PartyId, bytes: &[u8]) -> Result<(), AllocError>
        ensures ok { OnOk result (self.new
            ≡ changes.with_change
            (changes.with_what (changes.with_messages (changes.with_message bytes.now)))
            self.old id) }
        ensures err { OnErr result (self.new ≡ self.old) }
    {
        let message = Text::copy_of(alloc, bytes)?;
        self.grow_at(id, Growth::Message(message))
    }

    /// Opens a file for a process.
    pub fn open(&mut self, id: PartyId, file: OpenFile) -> Result<(), AllocError>
        requires { IsLive is_regular self.old file.file }
        ensures ok { OnOk result (self.new
            ≡ changes.with_change (changes.with_what (fds.with_fds (fds.opened file)))
            self.old id) }
        ensures err { OnErr result (self.new ≡ self.old) }
    {
        self.grow_at(id, Growth::Open(file))
    }

    /// Empties a pipe.
    pub fn empty(&mut self, id: PartyId)
        ensures { self.new ≡ changes.with_change (changes.with_what changes.cleared) self.old id }
    {
        self.change_at(id, &Change::Empty);
    }

    /// Takes the oldest message of a socket.
    pub fn receive(&mut self, id: PartyId)
        ensures { self.new
            ≡ changes.with_change (changes.with_what (changes.with_messages (drop 1))) self.old id }
    {
        self.change_at(id, &Change::Receive);
    }

    /// Gives a file these mode bits.
    pub fn set_mode(&mut self, id: PartyId, mode: u16)
        ensures { self.new
            ≡ changes.with_change (changes.with_what (changes.with_mode mode)) self.old id }
    {
        self.change_at(id, &Change::Mode(mode));
    }

    /// Closes what a process has open under this number.
    pub fn close(&mut self, id: PartyId, number: u32)
        ensures { self.new
            ≡ changes.with_change (changes.with_what (fds.with_fds (fds.closed number)))
            self.old id }
    {
        self.change_at(id, &Change::Close(number));
    }

    /// Gives its label these values.
    pub fn relabel(&mut self, id: PartyId, label: &[LabelValue; SLOTS])
        ensures { self.new ≡ changes.with_change (with_label label.now) self.old id }
    {
        self.change_at(id, &Change::Label(*label));
    }

    /// Gives a slot of its label this value.
    pub fn set_value(&mut self, id: PartyId, slot: u8, value: LabelValue)
        ensures { self.new ≡ changes.with_change (with_value slot value) self.old id }
    {
        self.change_at(id, &Change::Value(slot, value));
    }

    fn change_at(&mut self, id: PartyId, change: &Change)
        ensures { self.new ≡ changes.with_change (changed change.now) self.old id }
    {
        change_in(&mut self.list, id, change);
    }

    fn grow_at(&mut self, id: PartyId, growth: Growth) -> Result<(), AllocError>
        requires { IsOpenable self.old growth }
        ensures ok { OnOk result (self.new ≡ changes.with_change (grown growth.entry) self.old id) }
        ensures err { OnErr result (self.new ≡ self.old) }
    {
        let Some(place) = place_of(&self.list, id) else {
            return Ok(());
        };
        self.list[place].grow(growth)
    }
}

/// The place of a party in the list.
fn place_of(list: &[Party], id: PartyId) -> Option<usize>
    ensures { result ≡ position (λ e. live.has_id id e) list.now }
{
    list.iter().position(|party| party.has_id(id))
}

fn change_in(list: &mut [Party], id: PartyId, change: &Change)
    ensures { list.new
        ≡ map (λ e. if live.has_id id e then changed change.now e else e) list.old }
{
    for party in list.iter_mut() {
        party.change_at(id, change);
    }
}
