//! The sources of all entities.
ghost use Rattle.std.specs.Prelude.{◌≡◌, [], ◌∷◌, ◌++◌, false, None, length, slice_set, IfOk, IsTrue, OnErr, OnOk};
ghost use Rattle.mf_flow.specs.Listed.{AreNumbered, IsJoinedBy, IsWithin, KeepsLists, has_bit, listed, row_numbered, words_at};
ghost use Rattle.mf_objects.specs.Live.{live_at};
ghost use Rattle.mf_flow.specs.Order.{union};
ghost use Rattle.mf_flow.specs.Rows.{AreKept, set_at};
ghost use Rattle.mf_flow.specs.Sources.{held_by, own_source};

use crate::bits::Bits;
use crate::elem_set::ElemSet;
use crate::known::Known;
use mf_elem::Elem;
use mf_objects::{MOST_ENTITIES, Objects};
use std::alloc::{AllocError, Global};
use std::marker::Model;

/// The sources of each entity, by the number of its id. Contracts see the list of sets.
#[derive(Drop)]
pub struct SetList {
    known: Known,
    /// Each set by the numbers of its elements.
    sets: Vec<Bits>,
    /// How many sets there were when those of entities that are gone were last emptied.
    swept: usize,
}

impl Model for SetList {
    ghost use Rattle.std.specs.Prelude.{List};
    ghost use Rattle.mf_elem.specs.declared.elem.Elem.{Elem};
    ghost use Rattle.mf_flow.specs.Listed.{AreSets, rows_of};

    ghost Value = { List (List Elem) };

    ghost view = { λ a. rows_of a.known a.sets.items };

    ghost invariant = { λ a. AreSets a.known a.sets.items };
}

impl SetList {
    /// No sets.
    pub fn new(alloc: Global) -> Self
        ensures { result ≡ [] }
    {
        SetList {
            known: Known::new(alloc),
            sets: Vec::new(alloc),
            swept: 0,
        }
    }

    /// Appends the set of the entity of the next number: its own element, and its maker's sources. None where it has no
    /// element, or is labelled equal.
    pub fn push(
        &mut self,
        alloc: Global,
        own: Option<Elem>,
        maker: Option<u32>,
    ) -> Result<(), AllocError>
        ensures { OnOk result (self.new
            ≡ self.old ++ held_by own (union (own_source own) (row_numbered self.old maker)) ∷ []) }
    {
        let inherited = copy_at(alloc, self.sets.as_slice(), maker)?;
        let set = with_own(alloc, &mut self.known, own, inherited)?;
        self.sets.push(set)?;
        Ok(())
    }

    /// Starts the set of the entity of that number anew, where there is one: with its own element alone.
    pub fn restart(
        &mut self,
        alloc: Global,
        number: u32,
        own: Option<Elem>,
    ) -> Result<(), AllocError>
        ensures { OnOk result (self.new ≡ slice_set self.old number (own_source own)) }
    {
        let set = with_own(alloc, &mut self.known, own, Bits::new(alloc))?;
        put_at(&mut self.sets, number, set);
        Ok(())
    }

    /// Empties the set of the entity of that number, where there is one.
    pub fn clear(&mut self, alloc: Global, number: u32)
        ensures { self.new ≡ slice_set self.old number [] }
    {
        put_at(&mut self.sets, number, Bits::new(alloc));
    }

    /// The set of the entity of that number, which is empty where there is none.
    pub fn list_of(&self, alloc: Global, number: u32) -> Result<ElemSet, AllocError>
        ensures { IfOk result (λ set. set ≡ set_at self.now number) }
    {
        match self.sets.get(number as usize) {
            None => Ok(ElemSet::new(alloc)),
            Some(set) => ElemSet::listed(alloc, &self.known, set),
        }
    }

    /// Whether the set of the one can get nothing from the other's.
    pub fn has_all(&self, to: u32, from: u32) -> bool
        ensures { IsTrue result → slice_set self.now to
            (union (set_at self.now to) (set_at self.now from)) ≡ self.now }
    {
        let (to, from) = (to as usize, from as usize);
        if to >= self.sets.len() {
            return true;
        }
        if from >= self.sets.len() {
            return true;
        }
        self.sets[to].has_all(&self.sets[from])
    }

    /// The sources of the one come to the other.
    pub fn join(&mut self, alloc: Global, to: u32, from: u32) -> Result<(), AllocError>
        ensures { OnOk result (self.new ≡ slice_set self.old to
            (union (set_at self.old to) (set_at self.old from))) }
    {
        let given = copy_at(alloc, self.sets.as_slice(), Some(from))?;
        join_at(&mut self.sets, to, &given)
    }

    /// The sources of each of two come to the other: to each those that the other had before.
    pub fn exchange(&mut self, alloc: Global, one: u32, other: u32) -> Result<(), AllocError>
        ensures { OnOk result (self.new ≡ (let first = slice_set self.old one
            (union (set_at self.old one) (set_at self.old other)) in
            slice_set first other (union (set_at first other) (set_at self.old one)))) }
    {
        let mine = copy_at(alloc, self.sets.as_slice(), Some(one))?;
        let theirs = copy_at(alloc, self.sets.as_slice(), Some(other))?;
        join_at(&mut self.sets, one, &theirs)?;
        join_at(&mut self.sets, other, &mine)
    }

    /// Whether the set of the entity of that number is as good as freed.
    fn is_blank_at(&self, number: u32) -> bool {
        match self.sets.get(number as usize) {
            None => true,
            Some(set) => set.is_blank(),
        }
    }

    /// Whether so many entities came since the last sweep as may live at once.
    fn is_due(&self) -> bool {
        self.sets.len().saturating_sub(self.swept) >= MOST_ENTITIES as usize
    }

    /// Notes that a sweep is over.
    fn set_swept(&mut self)
        ensures { self.new ≡ self.old }
    {
        self.swept = self.sets.len();
    }
}

/// Frees the sets of entities that are gone, where enough came since this was last done: so at most twice as many have
/// elements as may live at once.
pub fn sweep(alloc: Global, objects: &Objects, sets: &mut SetList)
    ensures { AreKept objects.now sets.old sets.new }
{
    if !sets.is_due() {
        return;
    }
    for number in 0..objects.next_id() {
        free_if_gone(alloc, objects, sets, number);
    }
    sets.set_swept();
}

fn free_if_gone(alloc: Global, objects: &Objects, sets: &mut SetList, number: u32)
    ensures { AreKept objects.now sets.old sets.new }
{
    if sets.is_blank_at(number) || is_live(objects, number) {
        return;
    }
    sets.clear(alloc, number);
}

/// Whether the entity of that number lives.
fn is_live(objects: &Objects, number: u32) -> bool
    ensures { result ≡ false → live_at objects.now (record { 0 = number }) ≡ None }
{
    let _live = objects.live();
    match objects.least_from(number) {
        None => false,
        Some(id) => id.number() == number,
    }
}

/// A copy of the set of the entity of that number, which is empty where there is none.
fn copy_at(alloc: Global, sets: &[Bits], number: Option<u32>) -> Result<Bits, AllocError>
    ensures { IfOk result (λ set. set ≡ words_at sets.now number) }
{
    match number {
        None => Ok(Bits::new(alloc)),
        Some(number) => match sets.get(number as usize) {
            None => Ok(Bits::new(alloc)),
            Some(set) => set.copy(alloc),
        },
    }
}

/// A set with the own element of its entity, which may be new. None where it has no element, or is labelled equal.
fn with_own(
    alloc: Global,
    known: &mut Known,
    own: Option<Elem>,
    inherited: Bits,
) -> Result<Bits, AllocError>
    requires numbered { AreNumbered known.old }
    requires within { IsWithin (length known.old) inherited }
    ensures kept { KeepsLists known.old known.new }
    ensures within { IfOk result (λ set. IsWithin (length known.new) set) }
    ensures ok { IfOk result (λ set. listed (has_bit set) known.new
        ≡ held_by own (union (own_source own) (listed (has_bit inherited) known.old))) }
{
    match own {
        None => Ok(Bits::new(alloc)),
        Some(Elem::Equal) => Ok(Bits::new(alloc)),
        Some(element) => with_element(known, &element, inherited),
    }
}

/// A set with one more element, which may be new.
fn with_element(known: &mut Known, element: &Elem, mut set: Bits) -> Result<Bits, AllocError>
    requires numbered { AreNumbered known.old }
    requires within { IsWithin (length known.old) set }
    ensures kept { KeepsLists known.old known.new }
    ensures within { IfOk result (λ set. IsWithin (length known.new) set) }
    ensures ok { IfOk result (λ new. listed (has_bit new) known.new
        ≡ union (element.now ∷ []) (listed (has_bit set) known.old)) }
{
    let number = known.number_of(element)?;
    set.add(number)?;
    Ok(set)
}

/// Puts a set in the place of that of the entity of that number, where there is one.
fn put_at(sets: &mut Vec<Bits>, number: u32, set: Bits)
    ensures { sets.new.items ≡ slice_set sets.old.items number set }
{
    let place = number as usize;
    if place < sets.len() {
        sets[place] = set;
    }
}

/// Puts the numbers of a set into that of the entity of that number, where there is one.
fn join_at(sets: &mut Vec<Bits>, number: u32, given: &Bits) -> Result<(), AllocError>
    ensures ok { OnOk result (IsJoinedBy given.now number sets.old.items sets.new.items) }
    ensures err { OnErr result (sets.new.items ≡ sets.old.items) }
{
    let place = number as usize;
    if place < sets.len() {
        sets[place].add_all(given)?;
    }
    Ok(())
}
