//! What may change in one party.

use crate::text::Text;
use crate::what::OpenFile;
use mf_elem::{LabelValue, SLOTS};

/// A change that takes no memory. It changes nothing in a party of another kind.
#[derive(Drop)]
pub enum Change {
    /// A pipe is emptied.
    Empty,
    /// A socket's oldest message is taken.
    Receive,
    /// A file gets these mode bits.
    Mode(u16),
    /// A process closes what it has open under this number.
    Close(u32),
    /// These are the values of its label.
    Label([LabelValue; SLOTS]),
    /// A slot of its label gets this value.
    Value(u8, LabelValue),
}

/// A change that takes memory. It changes nothing in a party of another kind.
#[derive(Drop)]
pub enum Growth<'a> {
    /// Bytes are appended to a file or a pipe.
    Bytes(&'a [u8]),
    /// A message is appended to those of a socket.
    Message(Text),
    /// A process opens a file.
    Open(OpenFile),
}
