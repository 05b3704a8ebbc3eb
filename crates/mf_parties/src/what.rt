//! What a party is, and what a process has open.
ghost use Rattle.std.specs.Prelude.{◌≡◌, IfOk, false};
ghost use Rattle.mf_objects.specs.Changes as change;
ghost use Rattle.mf_objects.specs.Descriptors as fds;
ghost use Rattle.mf_objects.specs.Live as live;
ghost use Rattle.mf_parties.specs.Parties.{data_of, is_of};

mod changing;

use crate::party_id::PartyId;
use crate::text::Text;
use mf_cred::{Cred, Duplicate, FileView};
use mf_elem::LabelValue;
use mf_item::Kind;
use std::alloc::{AllocError, Global};
use std::marker::Model;

/// A file that a process has open.
#[derive(Clone, Copy)]
pub struct OpenFile {
    /// The number under which the process names it.
    pub number: u32,
    pub file: PartyId,
    /// Whether it is open for reading.
    pub read: bool,
    /// Whether it is open for writing.
    pub write: bool,
    /// What mac_biba had in its slot of the process's label when the file was opened; Unset where it
    /// wasn't booted.
    pub subject: LabelValue,
    /// The same of the file's label.
    pub object: LabelValue,
}

impl Model for OpenFile {
    ghost use Rattle.mf_objects.specs.declared.descriptors.Fd.{Fd};

    ghost Value = { Fd };

    ghost view = { λ a. record {
      number = a.number;
      file = a.file;
      read = a.read;
      write = a.write;
      subject = a.subject;
      object = a.object;
    } };

    ghost inverse = { λ fd. record {
      number = fd.number;
      file = fd.file;
      read = fd.read;
      write = fd.write;
      subject = fd.subject;
      object = fd.object;
    } };
}

/// What a party is, with its own data.
#[derive(Drop)]
pub enum What {
    /// Its credential, and the files that it has open in the order of their opening.
    Process(Cred, Vec<OpenFile>),
    /// The directory that holds it, its attributes, and its bytes.
    Vnode(Option<PartyId>, FileView, Vec<u8>),
    /// The process that made it, and the bytes in it.
    Pipe(PartyId, Vec<u8>),
    /// The process that made it, and the messages that wait, oldest first.
    Socket(PartyId, Vec<Text>),
}

impl OpenFile {
    pub(crate) fn has_number(&self, number: u32) -> bool
        ensures { result ≡ fds.has_number number self.now }
    {
        self.number == number
    }

    pub(crate) fn is_on(&self, file: PartyId) -> bool
        ensures { result ≡ fds.is_on file self.now }
    {
        self.file.is(file)
    }
}

impl What {
    /// A process that has nothing open.
    pub fn process(alloc: Global, cred: &Cred) -> What
        ensures { data_of result ≡ change.new_process cred.now }
    {
        What::Process(cred.copy(), Vec::new(alloc))
    }

    /// A file or a directory.
    pub fn file(
        alloc: Global,
        dir: PartyId,
        file: FileView,
        text: &[u8],
    ) -> Result<What, AllocError>
        ensures { IfOk result (λ what. data_of what ≡ change.new_vnode dir file text.now) }
    {
        let content = Vec::from_slice(alloc, text)?;
        Ok(What::Vnode(Some(dir), file, content))
    }

    /// An empty pipe.
    pub fn pipe(alloc: Global, maker: PartyId) -> What
        ensures { data_of result ≡ change.new_pipe maker }
    {
        What::Pipe(maker, Vec::new(alloc))
    }

    /// A socket without a message.
    pub fn socket(alloc: Global, maker: PartyId) -> What
        ensures { data_of result ≡ change.new_socket maker }
    {
        What::Socket(maker, Vec::new(alloc))
    }

    /// The kind of entity that this is.
    pub(crate) fn kind(&self) -> Kind
        ensures { result ≡ live.kind_of (data_of self.now) }
    {
        match self {
            What::Process(..) => Kind::Process,
            What::Vnode(..) => Kind::Vnode,
            What::Pipe(..) => Kind::Pipe,
            What::Socket(..) => Kind::Socket,
        }
    }

    /// Whether it is of this kind.
    pub(crate) fn is_of(&self, kind: Kind) -> bool
        ensures { result ≡ is_of kind (data_of self.now) }
    {
        match kind {
            Kind::Process => matches!(self, What::Process(..)),
            Kind::Vnode => matches!(self, What::Vnode(..)),
            Kind::Pipe => matches!(self, What::Pipe(..)),
            Kind::Socket => matches!(self, What::Socket(..)),
        }
    }

    /// The attributes of a file. A process has its real uid and its first group, and all else is zero.
    pub(crate) fn file_view(&self) -> FileView
        ensures { result ≡ live.file_of (data_of self.now) }
    {
        match self {
            What::Vnode(_, file, _) => *file,
            What::Process(cred, _) => process_file(cred),
            What::Pipe(..) | What::Socket(..) => no_file(),
        }
    }

    /// Whether it is a directory.
    pub(crate) fn is_dir(&self) -> bool
        ensures { result ≡ (live.file_of (data_of self.now)).dir }
    {
        match self {
            What::Vnode(_, file, _) => file.dir,
            What::Process(..) | What::Pipe(..) | What::Socket(..) => false,
        }
    }

    /// The credential of a process; that of uid 0 and group 0 for anything else.
    pub(crate) fn cred(&self) -> Cred
        ensures { result ≡ live.cred_of (data_of self.now) }
    {
        match self {
            What::Process(cred, _) => cred.copy(),
            What::Vnode(..) | What::Pipe(..) | What::Socket(..) => Cred::default(),
        }
    }

    /// The bytes of a file or a pipe.
    pub(crate) fn content(&self) -> &[u8]
        ensures { result.now ≡ live.content_of (data_of self.now) }
    {
        match self {
            What::Vnode(_, _, content) => content.as_slice(),
            What::Pipe(_, bytes) => bytes.as_slice(),
            What::Process(..) | What::Socket(..) => &[],
        }
    }

    /// The messages of a socket, oldest first.
    pub(crate) fn messages(&self) -> &[Text]
        ensures { result.now ≡ live.messages_of (data_of self.now) }
    {
        match self {
            What::Socket(_, messages) => messages.as_slice(),
            What::Process(..) | What::Vnode(..) | What::Pipe(..) => &[],
        }
    }

    /// How many messages a socket has, and for all else the number of entries that is given.
    pub(crate) fn count(&self, entries: usize) -> usize
        ensures { result ≡ live.count_of entries (data_of self.now) }
    {
        match self {
            What::Socket(_, messages) => messages.len(),
            What::Process(..) | What::Vnode(..) | What::Pipe(..) => entries,
        }
    }

    /// Whether it is an entry of this directory.
    pub(crate) fn is_entry(&self, dir: PartyId) -> bool
        ensures { result ≡ live.is_entry dir (data_of self.now) }
    {
        match self {
            What::Vnode(Some(parent), _, _) => parent.is(dir),
            What::Vnode(None, ..) | What::Process(..) | What::Pipe(..) | What::Socket(..) => false,
        }
    }

    /// Whether this process made it.
    pub(crate) fn is_made_by(&self, process: PartyId) -> bool
        ensures { result ≡ live.is_made_by process (data_of self.now) }
    {
        match self {
            What::Pipe(maker, _) | What::Socket(maker, _) => maker.is(process),
            What::Process(..) | What::Vnode(..) => false,
        }
    }

    /// What a process has open, in the order of the opening.
    pub(crate) fn open_files(&self) -> &[OpenFile]
        ensures { result.now ≡ fds.fds_of (data_of self.now) }
    {
        match self {
            What::Process(_, fds) => fds.as_slice(),
            What::Vnode(..) | What::Pipe(..) | What::Socket(..) => &[],
        }
    }
}

/// How a process is seen as an object.
fn process_file(cred: &Cred) -> FileView
    ensures { result ≡ live.process_file cred.now }
{
    let groups = cred.groups.as_slice();
    owned(cred.ruid, groups.first().copied().unwrap_or(0))
}

/// The attributes of what is no file.
pub(crate) fn no_file() -> FileView
    ensures { result ≡ live.no_file }
{
    owned(0, 0)
}

/// Attributes with an owner and a group alone.
fn owned(uid: u32, gid: u32) -> FileView
    ensures { result ≡ record { uid = uid; gid = gid; mode = 0; dir = false } }
{
    FileView {
        uid,
        gid,
        mode: 0,
        dir: false,
    }
}
