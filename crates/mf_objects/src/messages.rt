//! Messages, which contracts see as lists of bytes.
ghost use Rattle.std.specs.Prelude.{◌≡◌, ◌≤◌, ◌<◌, [], ◌∷◌, ◌++◌, length, OnOk, OnErr, slice_index_or};
ghost use Rattle.mf_names.specs.declared.limits.TheConstants.{SCRIPT_LIMIT};
ghost use Rattle.mf_objects.specs.declared.limits.TheConstants.{MOST_MESSAGES};

use mf_names::{Bytes, SCRIPT_LIMIT};
use std::alloc::{AllocError, Global};
use std::marker::Model;

/// The messages of a socket, oldest first. Contracts see the list of their bytes.
#[derive(Drop)]
pub struct Messages {
    items: Vec<Bytes<SCRIPT_LIMIT>>,
}

impl Model for Messages {
    ghost use Rattle.std.specs.Prelude.{List, ℕ, ◌≤◌, vec_len};
    ghost use Rattle.mf_objects.specs.declared.limits.TheConstants.{MOST_MESSAGES};

    ghost Value = { List (List ℕ) };

    ghost view = { λ a. a.items.items };

    ghost invariant = { λ a. vec_len a.items ≤ MOST_MESSAGES };
}

impl Messages {
    /// No messages.
    pub fn new(alloc: Global) -> Messages
        ensures { result ≡ [] }
    {
        Messages {
            items: Vec::new(alloc),
        }
    }

    /// How many messages wait.
    pub fn len(&self) -> usize
        ensures value { result ≡ length self.now }
        ensures most { length self.now ≤ MOST_MESSAGES }
    {
        self.items.len()
    }

    /// Appends a message. If memory runs out, the messages are unchanged.
    pub fn push(&mut self, message: Bytes<SCRIPT_LIMIT>) -> Result<(), AllocError>
        requires { length self.old < MOST_MESSAGES }
        ensures ok { OnOk result (self.new ≡ self.old ++ message ∷ []) }
        ensures err { OnErr result (self.new ≡ self.old) }
    {
        self.items.push(message)?;
        Ok(())
    }

    /// The oldest message; no bytes where there is none.
    pub fn first(&self) -> &[u8]
        ensures value { result.now ≡ slice_index_or self.now 0 [] }
        ensures most { length result.now ≤ SCRIPT_LIMIT }
    {
        match self.items.first() {
            Some(message) => message.as_slice(),
            None => &[],
        }
    }

    /// Removes the oldest message and returns it.
    pub fn pop(&mut self) -> Bytes<SCRIPT_LIMIT>
        requires { 0 < length self.old }
        ensures { self.old ≡ result ∷ self.new }
    {
        self.items.remove(0)
    }
}
