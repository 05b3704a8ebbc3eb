//! Slot numbers, each of which is given once.
ghost use Rattle.mf_elem.specs.declared.label.TheConstants.{SLOTS};
ghost use Rattle.std.specs.Prelude.{◌≡◌, ◌+◌, ◌<◌, ◌≤◌, MatchOption, IfNone, IfSome};

use mf_elem::SLOTS;
use std::marker::Model;

/// The numbers of the label slots, from 0. Each policy that labels gets the next one. Contracts see how many were given.
#[derive(Drop)]
pub struct SlotNumbers {
    given: u8,
}

impl Model for SlotNumbers {
    ghost use Rattle.mf_elem.specs.declared.label.TheConstants.{SLOTS};
    ghost use Rattle.std.specs.Prelude.{ℕ, ◌≤◌};

    ghost Value = { ℕ };

    ghost view = { λ a. a.given };

    ghost invariant = { λ a. a.given ≤ SLOTS };
}

impl SlotNumbers {
    /// No number is given yet.
    pub fn new() -> SlotNumbers
        ensures { result ≡ 0 }
    {
        SlotNumbers { given: 0 }
    }

    /// How many numbers were given.
    pub fn given(&self) -> u8
        ensures value { result ≡ self.now }
        ensures most { self.now ≤ SLOTS }
    {
        self.given
    }

    /// The next slot number, None where all were given. A number is never given again.
    pub fn take(&mut self) -> Option<u8>
        ensures given { IfSome result (λ n. (n ≡ self.old) × (n < SLOTS) × (self.new ≡ n + 1)) }
        ensures none { IfNone result ((self.old ≡ SLOTS) × (self.new ≡ self.old)) }
    {
        if self.given as usize == SLOTS {
            return None;
        }
        self.given += 1;
        Some(self.given - 1)
    }
}
