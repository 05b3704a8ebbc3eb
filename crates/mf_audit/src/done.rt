//! What a call that may be done hands back, and what it changes.
ghost use Rattle.std.specs.Prelude.{◌≡◌};
ghost use Rattle.mf_audit.specs.declared.done.Effect.TheVariants as does;
ghost use Rattle.mf_audit.specs.declared.done.Shown.TheVariants as shown;

use mf_elem::Request;
use mf_errno::Module;
use mf_parties::{OpenFile, PartyId};
use mf_policy::Change;

/// What a call hands back. It isn't made: replies of a history are compared with it.
#[derive(Clone, Copy)]
pub enum Shown {
    /// Nothing.
    Nothing,
    /// The first bytes of a file or a pipe.
    Head(PartyId),
    /// The oldest message of a socket.
    Message(PartyId),
    /// The names in a directory.
    Names(PartyId),
    /// A label.
    Label(PartyId),
    /// How many bytes a pipe holds.
    Size(PartyId),
    /// The attributes of a file or a directory.
    Stat(PartyId),
    /// The listed modules.
    Modules,
    /// The rules about files.
    Rules,
    /// The number of a rule that is added.
    Rule(u32),
    /// The label slot of a module that is loaded, where it wants one.
    Slot(Option<u8>),
    /// The number under which a file is opened.
    Fd(u32),
}

/// What a call changes.
#[derive(Drop)]
pub enum Effect<'c> {
    /// Nothing.
    Nothing,
    /// A child of the task has this name.
    Fork(&'c str),
    /// A file, or a directory, of that name and mode lies in the directory.
    MakeFile {
        dir: PartyId,
        name: &'c str,
        mode: u16,
        is_dir: bool,
    },
    MakePipe(&'c str),
    MakeSocket(&'c str),
    /// Bytes go into a file or a pipe.
    Append(PartyId, &'c [u8]),
    /// A message goes into a socket.
    Deliver(PartyId, &'c [u8]),
    /// A pipe is emptied.
    Empty(PartyId),
    /// The oldest message of a socket is taken.
    Receive(PartyId),
    SetMode(PartyId, u16),
    /// The caller has one descriptor more.
    Open(OpenFile),
    /// The caller's descriptor of this number is closed.
    Close(u32),
    Unlink(PartyId),
    /// The caller exits, and its pipes and sockets go with it.
    End,
    Relabel(PartyId, Request),
    Load(Module),
    Unload(Module),
    /// A setting of the module changes.
    Set(Module, Change),
}

/// What a call that may be done hands back and changes.
#[derive(Drop)]
pub struct Done<'c> {
    pub shown: Shown,
    pub effect: Effect<'c>,
}

impl<'c> Done<'c> {
    /// What hands this back, and changes nothing.
    pub(crate) fn shows(shown: Shown) -> Done<'c>
        ensures { result ≡ record { shown = shown; effect = does.Nothing } }
    {
        Done {
            shown,
            effect: Effect::Nothing,
        }
    }

    /// What changes this, and hands nothing back.
    pub(crate) fn changes(effect: Effect<'c>) -> Done<'c>
        ensures shown { result.shown ≡ shown.Nothing }
        ensures effect { result.effect ≡ effect.entry }
    {
        Done {
            shown: Shown::Nothing,
            effect,
        }
    }
}
