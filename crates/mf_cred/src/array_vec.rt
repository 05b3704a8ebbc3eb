//! A list of at most `N` items inside the value itself, which needs no allocator.
ghost use Rattle.std.specs.Prelude.{◌≡◌, ◌<◌, ◌≤◌, [], ◌∷◌, ◌++◌, length};

use std::marker::Model;

/// A value that can be copied without an allocator, and so without failing.
pub trait Duplicate: Default + Drop {
    /// A copy.
    fn copy(&self) -> Self
        ensures { result ≡ self.now };
}

impl Duplicate for u32 {
    fn copy(&self) -> u32 {
        *self
    }
}

/// A list of at most `N` items, which contracts see as the list of its items.
#[derive(Drop)]
pub struct ArrayVec<T, const N: usize> {
    inner: arrayvec::ArrayVec<T, N>,
}

impl<T, const N: usize> Model for ArrayVec<T, N> {
    ghost use Rattle.std.specs.Prelude.{List, length, ◌≤◌};

    ghost Value = { List T };

    ghost view = { λ v. v.inner.items };

    ghost invariant = { λ v. length v.inner.items ≤ N };
}

impl<T: Default + Drop, const N: usize> ArrayVec<T, N> {
    /// No items.
    pub fn new() -> Self
        ensures { result ≡ [] }
    {
        ArrayVec {
            inner: arrayvec::ArrayVec::new(),
        }
    }

    /// The one item.
    pub fn one(item: T) -> Self
        requires { 0 < N }
        ensures { result ≡ item ∷ [] }
    {
        let mut items = ArrayVec::new();
        items.push(item);
        items
    }

    /// The number of items.
    pub fn len(&self) -> usize
        ensures value { result ≡ length self.now }
        ensures fits { length self.now ≤ N }
    {
        self.inner.len()
    }

    /// Appends `item`. There must be room.
    pub fn push(&mut self, item: T)
        requires { length self.old < N }
        ensures { self.new ≡ self.old ++ item ∷ [] }
    {
        self.inner.push(item);
    }

    /// Takes all items out. The room that they lay in stays, so that a list can be filled again where it lies.
    pub fn clear(&mut self)
        ensures { self.new ≡ [] }
    {
        self.inner.clear();
    }

    /// The items in order.
    pub fn as_slice(&self) -> &[T]
        ensures value { result.now ≡ self.now }
        ensures fits { length self.now ≤ N }
    {
        self.inner.as_slice()
    }
}

impl<T: Duplicate, const N: usize> ArrayVec<T, N> {
    /// A copy, which needs no allocator.
    pub fn copy(&self) -> Self
        ensures { result ≡ self.now }
    {
        let mut copy = ArrayVec::new();
        for item in self.as_slice() {
            copy.push(item.copy());
        }
        copy
    }
}

impl<T: Default + Drop, const N: usize> Default for ArrayVec<T, N> {
    ghost is_default = { λ items. items ≡ [] };

    fn default() -> Self {
        ArrayVec::new()
    }
}
