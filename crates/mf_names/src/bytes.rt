//! Texts of a limited length.
ghost use Rattle.std.specs.Prelude.{◌≡◌, ◌≤◌, ◌+◌, [], ◌++◌, length, vec_len, OnOk, OnErr, IfOk};

use std::alloc::{AllocError, Global};
use std::marker::Model;

/// At most `MOST` bytes. Contracts see their list.
#[derive(Drop)]
pub struct Bytes<const MOST: usize> {
    items: Vec<u8>,
}

impl<const MOST: usize> Model for Bytes<MOST> {
    ghost use Rattle.std.specs.Prelude.{List, ℕ, ◌≤◌, vec_len};

    ghost Value = { List ℕ };

    ghost view = { λ a. a.items.items };

    ghost invariant = { λ a. vec_len a.items ≤ MOST };
}

impl<const MOST: usize> Bytes<MOST> {
    /// No bytes.
    pub fn new(alloc: Global) -> Self
        ensures { result ≡ [] }
    {
        Bytes {
            items: Vec::new(alloc),
        }
    }

    /// These bytes.
    pub fn from_vec(items: Vec<u8>) -> Self
        requires { vec_len items ≤ MOST }
        ensures { result ≡ items.items }
    {
        Bytes { items }
    }

    /// The bytes of a text.
    pub fn copy_of(alloc: Global, text: &[u8]) -> Result<Self, AllocError>
        requires { length text.now ≤ MOST }
        ensures { IfOk result (λ bytes. bytes ≡ text.now) }
    {
        let items = Vec::from_slice(alloc, text)?;
        Ok(Bytes { items })
    }

    /// The bytes in order.
    pub fn as_slice(&self) -> &[u8]
        ensures value { result.now ≡ self.now }
        ensures most { length self.now ≤ MOST }
    {
        self.items.as_slice()
    }

    /// Appends the text. If memory runs out, the bytes are unchanged.
    pub fn append(&mut self, text: &[u8]) -> Result<(), AllocError>
        requires { length self.old + length text.now ≤ MOST }
        ensures ok { OnOk result (self.new ≡ self.old ++ text.now) }
        ensures err { OnErr result (self.new ≡ self.old) }
    {
        self.items.extend_from_slice(text)?;
        Ok(())
    }

    /// Removes all bytes.
    pub fn clear(&mut self)
        ensures { self.new ≡ [] }
    {
        self.items.clear();
    }
}
