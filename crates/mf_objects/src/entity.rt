//! Entities, and what each kind of them holds.
ghost use Rattle.std.specs.Prelude.{◌≡◌, ◌==◌, ◌↔◌, IsTrue, ◌≤◌, nat_le, length, ◌∷◌, ◌&&◌, OnOk, OnErr, [], drop, slice_index_or};
ghost use Rattle.std.specs.Str.{bytes_eq};
ghost use Rattle.mf_names.specs.declared.limits.TheConstants.{CONTENT_LIMIT, SCRIPT_LIMIT};
ghost use Rattle.mf_objects.specs.Index as index;
ghost use Rattle.mf_objects.specs.Live as live;
ghost use Rattle.mf_objects.specs.Lives.{is_held_by};
ghost use Rattle.mf_objects.specs.Sound.{IsSeenSo};
ghost use Rattle.mf_objects.specs.Changes as change;
ghost use Rattle.mf_objects.specs.Descriptors as fds;
ghost use Rattle.mf_objects.specs.Fits.{FitsBytes, FitsMessage, HasMessage};
ghost use Rattle.mf_objects.specs.Titles as title;

mod descriptors;

use crate::descriptors::Descriptors;
use crate::id::Id;
use crate::index::{Group, same_name};
use crate::limits::PIPE_LIMIT;
use crate::messages::Messages;
use mf_cred::{ArrayVec, Cred, Duplicate, FileView};
use mf_item::{Kind, ObjectView};
use mf_names::{Bytes, CONTENT_LIMIT, Name, SCRIPT_LIMIT};
use mf_slots::Label;
use std::alloc::AllocError;

/// A process: its credential, and the files that it has open.
#[derive(Drop)]
pub struct Process {
    pub cred: Cred,
    pub fds: Descriptors,
}

/// A directory or a regular file: the directory that holds it, its attributes, and its bytes. A directory has no bytes, and
/// the root is held by no directory.
#[derive(Drop)]
pub struct Vnode {
    pub parent: Option<Id>,
    pub file: FileView,
    pub content: Bytes<CONTENT_LIMIT>,
}

/// A pipe: the process that made it, and the bytes that nobody has read.
#[derive(Drop)]
pub struct Pipe {
    pub maker: Id,
    pub bytes: Bytes<PIPE_LIMIT>,
}

/// A socket: the process that made it, and the messages that nobody has received.
#[derive(Drop)]
pub struct Socket {
    pub maker: Id,
    pub messages: Messages,
}

/// What an entity is, with the data of its kind.
#[derive(Drop)]
pub enum EntityData {
    Process(Process),
    Vnode(Vnode),
    Pipe(Pipe),
    Socket(Socket),
}

/// A live entity, whose label's values lie in the zones.
#[derive(Drop)]
pub struct Entity {
    pub id: Id,
    pub name: Name,
    pub label: Label,
    pub what: EntityData,
}

impl EntityData {
    /// The kind of entity that this is.
    pub fn kind(&self) -> Kind
        ensures { result ≡ live.kind_of self.now }
    {
        match self {
            EntityData::Process(_) => Kind::Process,
            EntityData::Vnode(_) => Kind::Vnode,
            EntityData::Pipe(_) => Kind::Pipe,
            EntityData::Socket(_) => Kind::Socket,
        }
    }

    /// The attributes of a file or a directory. A process has its real uid and its first group, and all
    /// else is zero.
    pub fn file(&self) -> FileView
        ensures { result ≡ live.file_of self.now }
    {
        match self {
            EntityData::Vnode(vnode) => vnode.file,
            EntityData::Process(process) => process_file(&process.cred),
            EntityData::Pipe(_) | EntityData::Socket(_) => FileView {
                uid: 0,
                gid: 0,
                mode: 0,
                dir: false,
            },
        }
    }

    /// The credential of a process; uid 0 and group 0 for anything else.
    pub fn cred(&self) -> Cred
        ensures { result ≡ live.cred_of self.now }
    {
        match self {
            EntityData::Process(process) => process.cred.copy(),
            EntityData::Vnode(_) | EntityData::Pipe(_) | EntityData::Socket(_) => no_cred(),
        }
    }

    /// Whether this is its credential.
    pub fn has_cred(&self, cred: &Cred) -> bool
        ensures { IsTrue result ↔ (cred.now ≡ live.cred_of self.now) }
    {
        match self {
            EntityData::Process(process) => cred.same(&process.cred),
            EntityData::Vnode(_) | EntityData::Pipe(_) | EntityData::Socket(_) => cred.same(
                &no_cred(),
            ),
        }
    }

    /// The bytes that a file or a pipe holds; none for anything else.
    pub fn content(&self) -> &[u8]
        ensures value { result.now ≡ live.content_of self.now }
        ensures most { length result.now ≤ CONTENT_LIMIT }
    {
        match self {
            EntityData::Vnode(vnode) => vnode.content.as_slice(),
            EntityData::Pipe(pipe) => pipe.bytes.as_slice(),
            EntityData::Process(_) | EntityData::Socket(_) => &[],
        }
    }

    /// The oldest message of a socket; no bytes where there is none.
    pub fn message(&self) -> &[u8]
        ensures value { result.now ≡ slice_index_or (live.messages_of self.now) 0 [] }
        ensures most { length result.now ≤ SCRIPT_LIMIT }
    {
        match self {
            EntityData::Socket(socket) => socket.messages.first(),
            EntityData::Process(_) | EntityData::Vnode(_) | EntityData::Pipe(_) => &[],
        }
    }

    /// The directory that holds it, if one does.
    pub fn parent(&self) -> Option<Id>
        ensures { result ≡ title.parent_of self.now }
    {
        match self {
            EntityData::Vnode(vnode) => vnode.parent,
            EntityData::Process(_) | EntityData::Pipe(_) | EntityData::Socket(_) => None,
        }
    }

    /// Whether it is a file or a directory that this directory holds.
    pub fn is_entry(&self, dir: Id) -> bool
        ensures { result ≡ live.is_entry dir self.now }
    {
        match self {
            EntityData::Vnode(vnode) => is_held_by(dir, vnode.parent),
            EntityData::Process(_) | EntityData::Pipe(_) | EntityData::Socket(_) => false,
        }
    }

    /// The group in which its name differs.
    pub fn group(&self) -> Group
        ensures { result ≡ index.group_of self.now }
    {
        match self {
            EntityData::Process(_) => Group::Processes,
            EntityData::Vnode(vnode) => Group::Entries(vnode.parent),
            EntityData::Pipe(_) => Group::Pipes,
            EntityData::Socket(_) => Group::Sockets,
        }
    }

    /// Whether it belongs to the group.
    pub fn is_in(&self, group: Group) -> bool
        ensures { result ≡ index.is_in group self.now }
    {
        match group {
            Group::Processes => matches!(self, EntityData::Process(_)),
            Group::Pipes => matches!(self, EntityData::Pipe(_)),
            Group::Sockets => matches!(self, EntityData::Socket(_)),
            Group::Entries(None) => false,
            Group::Entries(Some(dir)) => self.is_entry(dir),
        }
    }

    /// Whether it is a pipe or a socket that this process made.
    pub fn is_made_by(&self, maker: Id) -> bool
        ensures { result ≡ live.is_made_by maker self.now }
    {
        match self {
            EntityData::Process(_) | EntityData::Vnode(_) => false,
            EntityData::Pipe(pipe) => pipe.maker.0 == maker.0,
            EntityData::Socket(socket) => socket.maker.0 == maker.0,
        }
    }

    /// Appends to a regular file or a pipe. If memory runs out, it is unchanged.
    pub fn append(&mut self, text: &[u8]) -> Result<(), AllocError>
        requires { FitsBytes (length text.now) self.old }
        ensures ok { OnOk result (self.new ≡ change.appended text.now self.old) }
        ensures err { OnErr result (self.new ≡ self.old) }
        ensures group { index.group_of self.new ≡ index.group_of self.old }
        ensures fds { fds.fds_of self.new ≡ fds.fds_of self.old }
    {
        match self {
            EntityData::Vnode(vnode) => vnode.content.append(text),
            EntityData::Pipe(pipe) => pipe.bytes.append(text),
            EntityData::Process(_) | EntityData::Socket(_) => Ok(()),
        }
    }

    /// Empties a pipe.
    pub fn clear(&mut self)
        ensures value { self.new ≡ change.cleared self.old }
        ensures group { index.group_of self.new ≡ index.group_of self.old }
        ensures fds { fds.fds_of self.new ≡ fds.fds_of self.old }
    {
        match self {
            EntityData::Pipe(pipe) => pipe.bytes.clear(),
            EntityData::Process(_) | EntityData::Vnode(_) | EntityData::Socket(_) => {}
        }
    }

    /// Appends a message to those of a socket. If memory runs out, they are unchanged.
    pub fn push_message(&mut self, message: Bytes<SCRIPT_LIMIT>) -> Result<(), AllocError>
        requires { FitsMessage self.old }
        ensures ok { OnOk result (self.new
            ≡ change.with_messages (change.with_message message) self.old) }
        ensures err { OnErr result (self.new ≡ self.old) }
        ensures group { index.group_of self.new ≡ index.group_of self.old }
        ensures fds { fds.fds_of self.new ≡ fds.fds_of self.old }
    {
        match self {
            EntityData::Socket(socket) => socket.messages.push(message),
            EntityData::Process(_) | EntityData::Vnode(_) | EntityData::Pipe(_) => Ok(()),
        }
    }

    /// Removes the oldest message of a socket and returns it.
    pub fn pop_message(&mut self) -> Bytes<SCRIPT_LIMIT>
        requires { HasMessage self.old }
        ensures rest { self.new ≡ change.with_messages (drop 1) self.old }
        ensures oldest { live.messages_of self.old ≡ result ∷ live.messages_of self.new }
        ensures group { index.group_of self.new ≡ index.group_of self.old }
        ensures fds { fds.fds_of self.new ≡ fds.fds_of self.old }
    {
        match self {
            EntityData::Socket(socket) => socket.messages.pop(),
            EntityData::Process(_) | EntityData::Vnode(_) | EntityData::Pipe(_) => unreachable!(),
        }
    }

    /// Gives a file or a directory these mode bits.
    pub fn set_mode(&mut self, mode: u16)
        ensures value { self.new ≡ change.with_mode mode self.old }
        ensures group { index.group_of self.new ≡ index.group_of self.old }
        ensures fds { fds.fds_of self.new ≡ fds.fds_of self.old }
    {
        match self {
            EntityData::Vnode(vnode) => vnode.file.mode = mode,
            EntityData::Process(_) | EntityData::Pipe(_) | EntityData::Socket(_) => {}
        }
    }
}

/// How a process is seen as an object.
fn process_file(cred: &Cred) -> FileView
    ensures { result ≡ live.process_file cred.now }
{
    let gid = match cred.groups.as_slice().first() {
        Some(group) => *group,
        None => 0,
    };
    FileView {
        uid: cred.ruid,
        gid,
        mode: 0,
        dir: false,
    }
}

fn is_held_by(dir: Id, parent: Option<Id>) -> bool
    ensures { result ≡ is_held_by dir parent }
{
    match parent {
        None => false,
        Some(parent) => parent.0 == dir.0,
    }
}

fn no_cred() -> Cred
    ensures { result ≡ live.no_cred }
{
    Cred {
        uid: 0,
        ruid: 0,
        svuid: 0,
        groups: ArrayVec::one(0),
    }
}

impl Entity {
    /// Whether it has this id.
    pub fn has_id(&self, id: Id) -> bool
        ensures { result ≡ (self.now.id.0 == id.0) }
    {
        self.id.0 == id.0
    }

    /// Whether its id is at least `n`.
    pub fn is_from(&self, n: u32) -> bool
        ensures { result ≡ nat_le n self.now.id.0 }
    {
        self.id.0 >= n
    }

    /// Whether it is a file or a directory that this directory holds.
    pub fn is_entry(&self, dir: Id) -> bool
        ensures { result ≡ live.is_entry dir self.now.what }
    {
        self.what.is_entry(dir)
    }

    /// Whether policies see it so, but for its label.
    pub fn is_seen_so(&self, view: &ObjectView) -> bool
        ensures { IsTrue result ↔ IsSeenSo self.now view.now }
    {
        view.id == self.id.0 && view.kind == self.what.kind() && view.file == self.what.file()
    }

    /// Whether it belongs to the group and has this name.
    pub fn is_member(&self, group: Group, name: &str) -> bool
        ensures { result ≡ (index.is_in group self.now.what && bytes_eq self.now.name name.now) }
    {
        self.what.is_in(group) && same_name(self.name.as_str(), name)
    }
}
