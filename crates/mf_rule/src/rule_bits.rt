//! Sets of numbers of rules, as bits.
ghost use Rattle.std.specs.Prelude.{◌≡◌, ◌==◌, ◌<◌, ℕ, ◌||◌, true, false, MatchOption, ◌+◌};
ghost use Rattle.std.specs.List.{list_any};
ghost use Rattle.mf_rule.specs.RuleBits as spec;

use crate::rule_list::MAX_RULES;
use std::marker::Model;

/// A set of numbers below 256: a bit for each, from the lowest on.
#[derive(Clone, Copy, PartialEq, Eq)]
pub struct Bits {
    low: u128,
    high: u128,
}

impl Bits {
    /// No numbers.
    pub fn none() -> Bits
        ensures { result ≡ spec.no_bits }
    {
        Bits { low: 0, high: 0 }
    }

    /// Puts a number into the set, or takes it out.
    pub fn put(&mut self, number: u32, is_in: bool)
        requires { number < 256 }
        ensures { self.new ≡ spec.with_bit number is_in self.old }
    {
        if number < 128 {
            self.low = with_bit(self.low, number, is_in);
        } else {
            self.high = with_bit(self.high, number - 128, is_in);
        }
    }

    /// The numbers that are in one of the two.
    pub fn or(&self, other: &Bits) -> Bits
        ensures { (n : ℕ) → spec.has_bit n result
            ≡ (spec.has_bit n self.now || spec.has_bit n other.now) }
    {
        Bits {
            low: self.low | other.low,
            high: self.high | other.high,
        }
    }

    /// Whether the number is in the set.
    pub fn has(&self, number: u32) -> bool
        requires { number < 256 }
        ensures { result ≡ spec.has_bit number self.now }
    {
        if number < 128 {
            (self.low >> number) & 1 == 1
        } else {
            (self.high >> (number - 128)) & 1 == 1
        }
    }

    /// Takes the least number out.
    pub fn take_least(&mut self) -> Option<u32>
        ensures { MatchOption result (spec.IsEmpty self.old)
            (λ n. spec.IsLeastBit n self.old × (self.new ≡ spec.with_bit n false self.old)
            × (self.new.low + self.new.high < self.old.low + self.old.high)) }
    {
        let number = self.least()?;
        self.put(number, false);
        Some(number)
    }

    fn least(&self) -> Option<u32>
        ensures { MatchOption result (spec.IsEmpty self.now) (λ n. spec.IsLeastBit n self.now) }
    {
        if self.low != 0 {
            Some(self.low.trailing_zeros())
        } else if self.high != 0 {
            Some(128 + self.high.trailing_zeros())
        } else {
            None
        }
    }
}

fn with_bit(word: u128, place: u32, is_in: bool) -> u128
    requires { place < 128 }
    ensures { result ≡ spec.word_with place is_in word }
{
    if is_in {
        word | 1 << place
    } else {
        word & !(1 << place)
    }
}

/// Numbers of rules, as `RuleList::candidates` answers. Contracts see them as a rising list.
#[derive(Drop)]
pub struct RuleBits {
    bits: Bits,
}

impl Model for RuleBits {
    ghost use Rattle.std.specs.Prelude.{List, ℕ};
    ghost use Rattle.mf_rule.specs.RuleBits.{numbers};

    ghost Value = { List ℕ };

    ghost view = { λ numbers_of. numbers numbers_of.bits };
}

impl RuleBits {
    pub(crate) fn of(bits: Bits) -> RuleBits
        ensures { result ≡ spec.numbers bits }
    {
        RuleBits { bits }
    }

    /// Whether the number is among them.
    pub fn has(&self, number: u32) -> bool
        ensures { result ≡ list_any (λ n. n == number) self.now }
    {
        number < MAX_RULES && self.bits.has(number)
    }
}
