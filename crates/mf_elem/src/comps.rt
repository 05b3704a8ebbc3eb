//! Compartments: a set of numbers from 1 to 256.
ghost use Rattle.std.specs.Prelude.{◌≡◌, ◌+◌, ◌-◌, ◌<◌, ◌≤◌, length};
ghost use Rattle.std.specs.List.{list_any, range_with_len};
ghost use Rattle.std.specs.Ordering.{nat_cmp};
ghost use Rattle.std.specs.Cmp.Lexicographic.{slice_cmp};
ghost use Rattle.std.specs.FinSet as set;
ghost use Rattle.mf_elem.specs.Comps.{DifferFirstAt, compartments_of, is_there, no_comps, rising, with_compartment};

use std::cmp::Ordering;

/// The greatest compartment; the least is 1.
pub const LAST_COMPARTMENT: u16 = 256;

/// The compartments of a grade, numbered 1 to 256 as in mac_mls(4); mac_biba(4) numbers them 0 to 255. Compartment n is
/// bit n - 1, counted through the words, so equal sets are equal values.
#[derive(Clone, Copy, PartialEq, Eq, Debug)]
pub struct Comps {
    words: [u64; 4],
}

impl Comps {
    /// No compartments.
    pub fn empty() -> Comps
        ensures set { compartments_of result ≡ set.empty }
        ensures value { result ≡ no_comps }
    {
        Comps { words: [0; 4] }
    }

    /// The set with compartment `n` added.
    pub fn with(mut self, n: u16) -> Comps
        requires least { 1 ≤ n }
        requires greatest { n ≤ LAST_COMPARTMENT }
        ensures set { compartments_of result ≡ set.insert (compartments_of self) n }
        ensures value { result ≡ with_compartment self n }
    {
        set_bit(&mut self.words, (n - 1) as usize);
        self
    }

    /// Whether the compartment is in the set.
    pub fn has(&self, n: u16) -> bool
        requires least { 1 ≤ n }
        requires greatest { n ≤ LAST_COMPARTMENT }
        ensures { result ≡ set.contains (compartments_of self.now) n }
    {
        let place = (n - 1) as usize;
        (self.words[place / 64] >> (place % 64)) & 1 == 1
    }

    /// Whether all of the other's compartments are in the set.
    pub fn contains(&self, other: &Comps) -> bool
        ensures { result ≡ set.is_subset (compartments_of other.now) (compartments_of self.now) }
    {
        is_covered(&other.words, &self.words)
    }

    /// Whether there are no compartments in the set.
    pub fn is_empty(&self) -> bool
        ensures { result ≡ set.is_subset (compartments_of self.now) set.empty }
    {
        Comps::empty().contains(self)
    }

    /// The order of the sets as rising lists, number by number: a proper beginning comes first.
    pub fn compare(&self, other: &Comps) -> Ordering
        ensures { result ≡ slice_cmp nat_cmp (rising self.now) (rising other.now) }
    {
        compare_words(&self.words, &other.words)
    }
}

/// Sets the bit of a place.
fn set_bit(words: &mut [u64], place: usize)
    requires four { length words.old ≡ 4 }
    requires within { place < LAST_COMPARTMENT }
    ensures set { compartments_of (record { words = words.new })
        ≡ set.insert (compartments_of (record { words = words.old })) (place + 1) }
    ensures value { with_compartment (record { words = words.old }) (place + 1)
        ≡ record { words = words.new } }
{
    words[place / 64] |= 1 << (place % 64);
}

/// Whether each bit of one is a bit of the other.
fn is_covered(theirs: &[u64], mine: &[u64]) -> bool
    requires four { length theirs.now ≡ 4 }
    requires four_too { length mine.now ≡ 4 }
    ensures { result ≡ set.is_subset (compartments_of (record { words = theirs.now }))
        (compartments_of (record { words = mine.now })) }
{
    for k in 0..4 {
        if theirs[k] & mine[k] != theirs[k] {
            return false;
        }
    }
    true
}

/// The order of two sets by the least compartment that one of them alone has.
fn compare_words(mine: &[u64], theirs: &[u64]) -> Ordering
    requires four { length mine.now ≡ 4 }
    requires four_too { length theirs.now ≡ 4 }
    ensures { result ≡ slice_cmp nat_cmp (rising (record { words = mine.now }))
        (rising (record { words = theirs.now })) }
{
    for k in 0..4 {
        let unequal = mine[k] ^ theirs[k];
        if unequal != 0 {
            let bit = unequal.trailing_zeros() as usize;
            return compare_at(mine, theirs, 64 * k + bit);
        }
    }
    Ordering::Equal
}

/// The order of two sets that differ first at this place: the one that has its bit comes first, unless the other has no
/// greater compartment.
fn compare_at(mine: &[u64], theirs: &[u64], place: usize) -> Ordering
    requires four { length mine.now ≡ 4 }
    requires four_too { length theirs.now ≡ 4 }
    requires differ { DifferFirstAt mine.now theirs.now place }
    ensures { result ≡ slice_cmp nat_cmp (rising (record { words = mine.now }))
        (rising (record { words = theirs.now })) }
{
    if (mine[place / 64] >> (place % 64)) & 1 == 1 {
        if has_from(theirs, place) {
            Ordering::Less
        } else {
            Ordering::Greater
        }
    } else if has_from(mine, place) {
        Ordering::Greater
    } else {
        Ordering::Less
    }
}

/// Whether a bit is set at this place or at a greater one.
fn has_from(words: &[u64], place: usize) -> bool
    requires four { length words.now ≡ 4 }
    requires within { place < LAST_COMPARTMENT }
    ensures { result ≡ list_any (is_there words.now)
        (range_with_len (place + 1) (LAST_COMPARTMENT - place)) }
{
    if words[place / 64] >> (place % 64) != 0 {
        return true;
    }
    for k in place / 64 + 1..4 {
        if words[k] != 0 {
            return true;
        }
    }
    false
}
