//! Sets of numbers as bits.
ghost use Rattle.std.specs.Prelude.{◌≡◌, ◌||◌, ◌==◌, ◌+◌, ◌/◌, ◌%◌, ◌^◌, ◌<◌, ◌≤◌, ◌↔◌, ℕ, [], ◌∷◌, bit_and, bit_or, IfOk, IsTrue, OnErr, OnOk, length, slice_index, slice_set};
ghost use Rattle.mf_flow.specs.Listed.{has_bit};

use std::alloc::{AllocError, Global};
use std::marker::Model;

/// A set of numbers: those below 64 in one word, which takes no memory. Contracts see all words.
#[derive(Drop)]
pub struct Bits {
    first: u64,
    more: Vec<u64>,
}

impl Model for Bits {
    ghost use Rattle.std.specs.Prelude.{ℕ, List, ◌∷◌};

    ghost Value = { List ℕ };

    ghost view = { λ a. a.first ∷ a.more.items };
}

impl Bits {
    /// No numbers.
    pub fn new(alloc: Global) -> Bits
        ensures { result ≡ 0 ∷ [] }
    {
        Bits {
            first: 0,
            more: Vec::new(alloc),
        }
    }

    /// Whether no word is needed but the first, and that has no bit.
    pub fn is_blank(&self) -> bool {
        self.first == 0 && self.more.is_empty()
    }

    /// Whether the number is in the set.
    pub fn has(&self, number: usize) -> bool
        ensures { result ≡ has_bit self.now number }
    {
        (self.word(number / 64) >> (number % 64)) & 1 == 1
    }

    /// Puts a number into the set.
    pub fn add(&mut self, number: usize) -> Result<(), AllocError>
        ensures ok { OnOk result ((n : ℕ) → has_bit self.new n ≡ (has_bit self.old n || n == number)) }
        ensures err { OnErr result (self.new ≡ self.old) }
    {
        let place = number / 64;
        self.make_room(place + 1)?;
        let word = self.word(place);
        self.put(place, word | 1 << (number % 64));
        Ok(())
    }

    /// Whether all numbers of another set are in the set.
    pub fn has_all(&self, other: &Bits) -> bool
        ensures { IsTrue result ↔ ((k : ℕ) → k < length other.now → bit_and (slice_index self.now k) (slice_index other.now k)
            ≡ slice_index other.now k) }
    {
        for k in 0..other.words() {
            if self.word(k) & other.word(k) != other.word(k) {
                return false;
            }
        }
        true
    }

    /// Puts all numbers of another set into the set.
    pub fn add_all(&mut self, other: &Bits) -> Result<(), AllocError>
        ensures ok { OnOk result ((n : ℕ) → has_bit self.new n ≡ (has_bit self.old n || has_bit other.now n)) }
        ensures err { OnErr result (self.new ≡ self.old) }
    {
        self.make_room(other.words())?;
        for k in 0..other.words() {
            let word = self.word(k);
            self.put(k, word | other.word(k));
        }
        Ok(())
    }

    /// An equal set.
    pub fn copy(&self, alloc: Global) -> Result<Bits, AllocError>
        ensures { IfOk result (λ set. set ≡ self.now) }
    {
        let more = Vec::from_slice(alloc, self.more.as_slice())?;
        Ok(Bits {
            first: self.first,
            more,
        })
    }

    /// The number of words.
    fn words(&self) -> usize
        ensures { result ≡ length self.now }
    {
        1 + self.more.len()
    }

    /// The word at a place, which is 0 where there is none.
    fn word(&self, place: usize) -> u64
        ensures { result ≡ slice_index self.now place }
    {
        if place == 0 {
            return self.first;
        }
        match self.more.get(place - 1) {
            None => 0,
            Some(word) => *word,
        }
    }

    /// Sets the word at a place.
    fn put(&mut self, place: usize, word: u64)
        requires { place < length self.old }
        ensures { self.new ≡ slice_set self.old place word }
    {
        if place == 0 {
            self.first = word;
        } else {
            self.more[place - 1] = word;
        }
    }

    /// Makes room for so many words: new ones have no bit.
    fn make_room(&mut self, words: usize) -> Result<(), AllocError>
        ensures same { OnOk result ((k : ℕ) → slice_index self.new k ≡ slice_index self.old k) }
        ensures room { OnOk result (words ≤ length self.new) }
        ensures err { OnErr result (self.new ≡ self.old) }
    {
        if words > self.more.len() + 1 {
            self.more.resize(words - 1, 0)?;
        }
        Ok(())
    }
}
