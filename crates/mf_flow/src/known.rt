//! The elements that have come, each with its number.
ghost use Rattle.std.specs.Prelude.{◌≡◌, ◌↔◌, [], IfOk, IsTrue, MatchOption, OnErr};
ghost use Rattle.mf_flow.specs.Listed.{AreNumbered, IsNumberIn, IsOtherAt, IsPlaceOf};

use crate::order::compare;
use mf_elem::Elem;
use std::alloc::{AllocError, Global};
use std::cmp::Ordering;
use std::marker::Model;

/// An element that has come, and its number.
#[derive(Clone, Copy)]
pub struct Numbered {
    pub element: Elem,
    pub number: usize,
}

/// The elements that have come, in the order in which they are listed, numbered as they came.
#[derive(Drop)]
pub struct Known {
    items: Vec<Numbered>,
}

impl Model for Known {
    ghost use Rattle.std.specs.Prelude.{List};
    ghost use Rattle.mf_flow.specs.declared.known.Numbered.{Numbered};

    ghost Value = { List Numbered };

    ghost view = { λ a. a.items.items };
}

impl Known {
    /// None has come.
    pub fn new(alloc: Global) -> Known
        ensures { result ≡ [] }
    {
        Known {
            items: Vec::new(alloc),
        }
    }

    /// The elements in order.
    pub fn as_slice(&self) -> &[Numbered]
        ensures { result.now ≡ self.now }
    {
        self.items.as_slice()
    }

    /// The number of an element, which gets one where it is new. If memory runs out, nothing changes.
    pub fn number_of(&mut self, element: &Elem) -> Result<usize, AllocError>
        requires { AreNumbered self.old }
        ensures numbered { AreNumbered self.new }
        ensures ok { IfOk result (λ number. IsNumberIn element.now number self.old self.new) }
        ensures err { OnErr result (self.new ≡ self.old) }
    {
        let place = place_of(self.items.as_slice(), element);
        let found = number_at(self.items.as_slice(), place, element)?;
        match found {
            Some(number) => Ok(number),
            None => self.add(place, element),
        }
    }

    /// Puts a new element at its place, and returns its number. If memory runs out, nothing changes.
    fn add(&mut self, place: usize, element: &Elem) -> Result<usize, AllocError>
        requires numbered { AreNumbered self.old }
        requires place { IsPlaceOf element.now self.old place }
        requires other { IsOtherAt element.now self.old place }
        ensures numbered { AreNumbered self.new }
        ensures ok { IfOk result (λ number. IsNumberIn element.now number self.old self.new) }
        ensures err { OnErr result (self.new ≡ self.old) }
    {
        let number = self.items.len();
        self.items.insert(
            place,
            Numbered {
                element: *element,
                number,
            },
        )?;
        Ok(number)
    }
}

/// The number of the element at a place, where it is this one. Two values of one element can't come, since the words of a set
/// fit: they are refused.
fn number_at(items: &[Numbered], place: usize, element: &Elem) -> Result<Option<usize>, AllocError>
    requires { AreNumbered items.now }
    ensures { IfOk result (λ found. MatchOption found (IsOtherAt element.now items.now place)
        (λ number. IsNumberIn element.now number items.now items.now)) }
{
    match items.get(place) {
        None => Ok(None),
        Some(known) if is_value(&known.element, element) => Ok(Some(known.number)),
        Some(known) if compare(&known.element, element).is_eq() => Err(AllocError),
        Some(_) => Ok(None),
    }
}

/// Whether the two are one value.
fn is_value(element: &Elem, other: &Elem) -> bool
    ensures { IsTrue result ↔ (element.now ≡ other.now) }
{
    *element == *other
}

/// The place of an element among those in order: behind those that come before it.
fn place_of(items: &[Numbered], element: &Elem) -> usize
    requires { AreNumbered items.now }
    ensures { IsPlaceOf element.now items.now result }
{
    let mut low = 0;
    let mut high = items.len();
    while low < high {
        let middle = low + (high - low) / 2;
        match compare(&items[middle].element, element) {
            Ordering::Less => low = middle + 1,
            Ordering::Equal | Ordering::Greater => high = middle,
        }
    }
    low
}
