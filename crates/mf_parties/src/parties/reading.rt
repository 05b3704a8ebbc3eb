//! What parties hold. What doesn't live, or is of another kind, holds nothing: no bytes, no messages, numbers that are 0.
ghost use Rattle.std.specs.Prelude.{◌≡◌, IsSome, IfSome, length, count_by, slice_index_or};
ghost use Rattle.std.specs.Option.{option_copied};
ghost use Rattle.mf_elem.specs.declared.label.LabelValue.TheVariants as values;
ghost use Rattle.mf_objects.specs.Live as live;
ghost use Rattle.mf_objects.specs.Lives.{is_regular, IsLive, value_at, view_at};
ghost use Rattle.mf_objects.specs.Descriptors as fds;
ghost use Rattle.mf_plan.specs.Views.{is_dir};

use super::Parties;
use crate::party::Party;
use crate::party_id::PartyId;
use crate::text::Text;
use crate::what::{OpenFile, no_file};
use mf_cred::{Cred, FileView};
use mf_elem::{LabelValue, SLOTS};
use mf_item::{Kind, ObjectView, SubjectView};
use mf_names::MOST_DESCRIPTORS;

impl Parties {
    /// Whether it is a process, a vnode, a pipe or a socket.
    pub fn kind(&self, id: PartyId) -> Kind
        ensures { result ≡ live.kind_at self.now id }
    {
        match self.at(id) {
            None => Kind::Process,
            Some(party) => party.what.kind(),
        }
    }

    /// Whether it is a directory.
    pub fn is_dir(&self, id: PartyId) -> bool
        ensures { result ≡ is_dir self.now id }
    {
        match self.at(id) {
            None => false,
            Some(party) => party.what.is_dir(),
        }
    }

    /// The attributes of a file. A process has its real uid and its first group.
    pub fn file(&self, id: PartyId) -> FileView
        ensures { result ≡ live.file_at self.now id }
    {
        match self.at(id) {
            None => no_file(),
            Some(party) => party.what.file_view(),
        }
    }

    /// The credential of a process.
    pub fn cred(&self, id: PartyId) -> Cred
        ensures { result ≡ live.cred_at self.now id }
    {
        match self.at(id) {
            None => Cred::default(),
            Some(party) => party.what.cred(),
        }
    }

    /// The bytes of a file or a pipe.
    pub fn content(&self, id: PartyId) -> &[u8]
        ensures { result.now ≡ live.content_at self.now id }
    {
        match self.at(id) {
            None => &[],
            Some(party) => party.what.content(),
        }
    }

    /// The messages of a socket, oldest first.
    pub fn messages(&self, id: PartyId) -> &[Text]
        ensures { result.now ≡ live.messages_at self.now id }
    {
        match self.at(id) {
            None => &[],
            Some(party) => party.what.messages(),
        }
    }

    /// How many entries a directory has, or messages a socket.
    pub fn count(&self, id: PartyId) -> usize
        ensures { result ≡ live.count_at self.now id }
    {
        match self.at(id) {
            None => 0,
            Some(party) => party.what.count(entry_count(&self.list, id)),
        }
    }

    /// The values of its label.
    pub fn label(&self, id: PartyId) -> [LabelValue; SLOTS]
        requires { IsSome (live.live_at self.now id) }
        ensures { result ≡ live.label_at self.now id }
    {
        match self.at(id) {
            None => [LabelValue::Unset; SLOTS],
            Some(party) => party.label,
        }
    }

    /// What a slot of its label holds.
    pub fn value(&self, id: PartyId, slot: u8) -> LabelValue
        ensures { result ≡ value_at self.now id slot }
    {
        match self.at(id) {
            None => LabelValue::Unset,
            Some(party) => value_in(&party.label, slot),
        }
    }

    /// The party as the object of a check.
    pub fn object(&self, id: PartyId) -> ObjectView
        requires { IsSome (live.live_at self.now id) }
        ensures { result ≡ view_at self.now id }
    {
        match self.at(id) {
            None => ObjectView {
                id: id.number(),
                kind: Kind::Process,
                file: no_file(),
                label: [LabelValue::Unset; SLOTS],
            },
            Some(party) => ObjectView {
                id: id.number(),
                kind: party.what.kind(),
                file: party.what.file_view(),
                label: party.label,
            },
        }
    }

    /// The subject of a check: the credential of the caller, with the id and the label of a party, which is the caller itself or
    /// the socket that it sends from, whoever made that.
    pub fn subject(&self, caller: PartyId, of: PartyId) -> SubjectView
        requires { IsSome (live.live_at self.now of) }
        ensures { result ≡ record {
          id = of.0;
          cred = live.cred_at self.now caller;
          label = live.label_at self.now of;
        } }
    {
        SubjectView {
            id: of.number(),
            cred: self.cred(caller),
            label: self.label(of),
        }
    }

    /// What a process has open under this number.
    pub fn fd(&self, id: PartyId, number: u32) -> Option<OpenFile>
        ensures value { result ≡ fds.fd_in (fds.fds_at self.now id) number }
        ensures regular { IfSome result (λ fd. IsLive is_regular self.now fd.file) }
    {
        // Reading a field brings what is true of all parties into the proof.
        let _next = self.next;
        with_number(self.open_files(id), number).copied()
    }

    /// How many files a process has open.
    pub fn fd_count(&self, id: PartyId) -> usize
        ensures { result ≡ length (fds.fds_at self.now id) }
    {
        self.open_files(id).len()
    }

    /// The lowest number under which a process has nothing open.
    pub fn lowest_free(&self, id: PartyId) -> u32
        ensures { result ≡ fds.lowest_free (fds.fds_at self.now id) }
    {
        lowest_free(self.open_files(id))
    }

    fn open_files(&self, id: PartyId) -> &[OpenFile]
        ensures { result.now ≡ fds.fds_at self.now id }
    {
        match self.at(id) {
            None => &[],
            Some(party) => party.what.open_files(),
        }
    }
}

fn entry_count(list: &[Party], dir: PartyId) -> usize
    ensures { result ≡ count_by (λ e. live.is_entry dir e.what) list.now }
{
    list.iter().filter(|party| party.is_entry(dir)).count()
}

fn value_in(label: &[LabelValue; SLOTS], slot: u8) -> LabelValue
    ensures { result ≡ slice_index_or label.now slot values.Unset }
{
    match label.get(slot as usize) {
        Some(value) => *value,
        None => LabelValue::Unset,
    }
}

fn with_number(files: &[OpenFile], number: u32) -> Option<&OpenFile>
    ensures { option_copied result ≡ fds.fd_in files.now number }
{
    files.iter().find(|fd| fd.has_number(number))
}

/// The lowest number that none of them has, and the number of all numbers where each is taken.
fn lowest_free(files: &[OpenFile]) -> u32
    ensures { result ≡ fds.lowest_free files.now }
{
    let mut number = 0;
    while number < MOST_DESCRIPTORS && with_number(files, number).is_some() {
        number += 1;
    }
    number
}
