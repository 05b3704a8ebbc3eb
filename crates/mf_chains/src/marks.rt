//! What the parties of a policy hold, each element with the link at the end of its chain.
ghost use Rattle.std.specs.Prelude.{◌≡◌, ◌<◌, ◌+◌, [], ◌∷◌, ◌++◌, if◌then◌else◌, drop, length, map, nat_eq, slice_index_or, true, IfOk, List, OnOk, ℕ};
ghost use Rattle.mf_chains.specs.declared.chain.Chain.{Chain};
ghost use Rattle.mf_chains.specs.declared.chain.Step.{Step as StepValue};
ghost use Rattle.mf_chains.specs.Kept.{stepped, with_lacking};
ghost use Rattle.mf_chains.specs.Chains.{with_step};
ghost use Rattle.mf_chains.specs.Links.{no_chain};
ghost use Rattle.mf_chains.specs.Marks.{AreThere, Extends, kept_in, order_from, set_at};

use crate::chain::Step;
use crate::links::Links;
use mf_elem::Elem;
use mf_flow::compare;
use mf_names::Listing;
use std::alloc::{AllocError, Global};
use std::cmp::Ordering;
use std::marker::Model;

/// An element of a set, and the place of the link at the end of the chain by which it came.
#[derive(Clone, Copy)]
pub struct Mark {
    pub element: Elem,
    pub link: usize,
}

/// What each party holds, in the order of elements. Contracts see the sets by the numbers of ids.
#[derive(Drop)]
pub struct MarkSets {
    sets: Vec<Listing<Mark>>,
}

impl Model for MarkSets {
    ghost use Rattle.mf_chains.specs.Marks.{Sets};

    ghost Value = { Sets };

    ghost view = { λ a. a.sets.items };
}

impl MarkSets {
    /// Nobody holds anything.
    pub fn new(alloc: Global) -> Self
        ensures { result ≡ [] }
    {
        MarkSets {
            sets: Vec::new(alloc),
        }
    }

    /// What the party of that number holds.
    pub fn at(&self, number: u32) -> &[Mark]
        ensures { result.now ≡ set_at self.now number }
    {
        match self.sets.get(number as usize) {
            None => &[],
            Some(set) => set.as_slice(),
        }
    }

    /// Makes this what the party of that number holds.
    pub fn put(&mut self, alloc: Global, number: u32, set: Listing<Mark>) -> Result<(), AllocError>
        ensures { OnOk result ((n : ℕ) → set_at self.new n
            ≡ (if nat_eq n number then set else set_at self.old n)) }
    {
        let place = number as usize;
        reach(alloc, &mut self.sets, place)?;
        self.sets[place] = set;
        Ok(())
    }
}

/// Makes room for the set at that place.
fn reach(alloc: Global, sets: &mut Vec<Listing<Mark>>, place: usize) -> Result<(), AllocError>
    ensures same { OnOk result ((n : ℕ) → set_at sets.new.items n ≡ set_at sets.old.items n) }
    ensures reached { OnOk result (place < length sets.new.items) }
{
    while sets.len() <= place {
        sets.push(Listing::new(alloc))?;
    }
    Ok(())
}

/// What a party with the set holds after another hands on what is given, in this step: its own elements, and those that it lacked.
pub fn joined(
    alloc: Global,
    links: &mut Links,
    set: &[Mark],
    given: &[Mark],
    step: Step,
) -> Result<Listing<Mark>, AllocError>
    requires set { AreThere links.old set.now }
    requires given { AreThere links.old given.now }
    ensures kept { IfOk result (λ new. kept_in links.new new
        ≡ with_lacking (kept_in links.old set.now)
        (map (stepped step) (kept_in links.old given.now))) }
    ensures there { IfOk result (λ new. AreThere links.new new) }
    ensures count { IfOk result (λ new. length links.new + length set.now
        ≡ length links.old + length new) }
    ensures extends { OnOk result (Extends links.old links.new) }
{
    let mut items = Vec::new(alloc);
    let mut mine = 0;
    let mut theirs = 0;
    while theirs < given.len() {
        match order_at(set, mine, &given[theirs]) {
            Ordering::Less => {
                items.push(set[mine])?;
                mine += 1;
            }
            Ordering::Equal => {
                items.push(set[mine])?;
                mine += 1;
                theirs += 1;
            }
            Ordering::Greater => {
                items.push(handed(links, &given[theirs], step)?)?;
                theirs += 1;
            }
        }
    }
    items.extend_from_slice(&set[mine..])?;
    Ok(Listing::from_vec(items))
}

/// Whether a party that holds this set lacks nothing of what another holds.
pub fn lacks_none(set: &[Mark], given: &[Mark]) -> bool
    ensures { (chains : List Chain) (step : StepValue) → result ≡ true
        → with_lacking (kept_in chains set.now) (map (stepped step) (kept_in chains given.now))
        ≡ kept_in chains set.now }
{
    let mut mine = 0;
    let mut theirs = 0;
    while theirs < given.len() {
        match order_at(set, mine, &given[theirs]) {
            Ordering::Less => mine += 1,
            Ordering::Equal => {
                mine += 1;
                theirs += 1;
            }
            Ordering::Greater => return false,
        }
    }
    true
}

/// How the element at that place of a set compares with another; Greater behind the last.
fn order_at(set: &[Mark], place: usize, given: &Mark) -> Ordering
    ensures { result ≡ order_from (drop place set.now) given.now }
{
    match set.get(place) {
        None => Ordering::Greater,
        Some(mark) => compare(&mark.element, &given.element),
    }
}

/// An element that is handed on with this step.
fn handed(links: &mut Links, given: &Mark, step: Step) -> Result<Mark, AllocError>
    requires { given.now.link < length links.old }
    ensures mark { IfOk result
        (λ mark. mark ≡ record { element = given.now.element; link = length links.old }) }
    ensures link { OnOk result (links.new ≡ links.old
        ++ with_step step (slice_index_or links.old given.now.link no_chain) ∷ []) }
{
    let link = links.go_on(given.link, step)?;
    Ok(Mark {
        element: given.element,
        link,
    })
}
