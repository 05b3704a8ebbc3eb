//! Changes of what a party is. None of them changes anything in what is of another kind.
ghost use Rattle.std.specs.Prelude.{◌≡◌, drop, OnOk, OnErr};
ghost use Rattle.mf_objects.specs.Changes as change;
ghost use Rattle.mf_objects.specs.Descriptors as fds;
ghost use Rattle.mf_parties.specs.Parties.{data_of};

use super::{OpenFile, What};
use crate::party_id::PartyId;
use crate::text::Text;
use std::alloc::AllocError;

impl What {
    /// Appends to a file or a pipe. If memory runs out, it is unchanged.
    pub(crate) fn append(&mut self, text: &[u8]) -> Result<(), AllocError>
        ensures ok { OnOk result (data_of self.new ≡ change.appended text.now (data_of self.old)) }
        ensures err { OnErr result (data_of self.new ≡ data_of self.old) }
    {
        match self {
            What::Vnode(_, _, content) => content.extend_from_slice(text),
            What::Pipe(_, bytes) => bytes.extend_from_slice(text),
            What::Process(..) | What::Socket(..) => Ok(()),
        }
    }

    /// Appends a message to those of a socket. If memory runs out, they are unchanged.
    pub(crate) fn push_message(&mut self, message: Text) -> Result<(), AllocError>
        ensures ok { OnOk result (data_of self.new
            ≡ change.with_messages (change.with_message message) (data_of self.old)) }
        ensures err { OnErr result (data_of self.new ≡ data_of self.old) }
    {
        match self {
            What::Socket(_, messages) => {
                messages.push(message)?;
                Ok(())
            }
            What::Process(..) | What::Vnode(..) | What::Pipe(..) => Ok(()),
        }
    }

    /// Adds a file to those that a process has open. If memory runs out, they are unchanged.
    pub(crate) fn open(&mut self, file: OpenFile) -> Result<(), AllocError>
        ensures ok { OnOk result (data_of self.new
            ≡ fds.with_fds (fds.opened file) (data_of self.old)) }
        ensures err { OnErr result (data_of self.new ≡ data_of self.old) }
    {
        match self {
            What::Process(_, files) => {
                files.push(file)?;
                Ok(())
            }
            What::Vnode(..) | What::Pipe(..) | What::Socket(..) => Ok(()),
        }
    }

    /// Empties a pipe.
    pub(crate) fn empty(&mut self)
        ensures { data_of self.new ≡ change.cleared (data_of self.old) }
    {
        match self {
            What::Pipe(_, bytes) => bytes.clear(),
            What::Process(..) | What::Vnode(..) | What::Socket(..) => {}
        }
    }

    /// Takes the oldest message of a socket.
    pub(crate) fn receive(&mut self)
        ensures { data_of self.new ≡ change.with_messages (drop 1) (data_of self.old) }
    {
        match self {
            What::Socket(_, messages) => drop_first(messages),
            What::Process(..) | What::Vnode(..) | What::Pipe(..) => {}
        }
    }

    /// Gives a file these mode bits.
    pub(crate) fn set_mode(&mut self, mode: u16)
        ensures { data_of self.new ≡ change.with_mode mode (data_of self.old) }
    {
        match self {
            What::Vnode(_, file, _) => file.mode = mode,
            What::Process(..) | What::Pipe(..) | What::Socket(..) => {}
        }
    }

    /// Closes what a process has open under this number.
    pub(crate) fn close(&mut self, number: u32)
        ensures { data_of self.new ≡ fds.with_fds (fds.closed number) (data_of self.old) }
    {
        match self {
            What::Process(_, files) => close(files, number),
            What::Vnode(..) | What::Pipe(..) | What::Socket(..) => {}
        }
    }

    /// Closes what a process has open on a file.
    pub(crate) fn close_on(&mut self, file: PartyId)
        ensures { data_of self.new ≡ fds.with_fds (fds.closed_on file) (data_of self.old) }
    {
        match self {
            What::Process(_, files) => close_on(files, file),
            What::Vnode(..) | What::Pipe(..) | What::Socket(..) => {}
        }
    }
}

fn drop_first(messages: &mut Vec<Text>)
    ensures { messages.new.items ≡ drop 1 messages.old.items }
{
    if !messages.is_empty() {
        messages.remove(0);
    }
}

fn close(files: &mut Vec<OpenFile>, number: u32)
    ensures { files.new.items ≡ fds.closed number files.old.items }
{
    files.retain(|file| !file.has_number(number));
}

fn close_on(files: &mut Vec<OpenFile>, file: PartyId)
    ensures { files.new.items ≡ fds.closed_on file files.old.items }
{
    files.retain(|other| !other.is_on(file));
}
