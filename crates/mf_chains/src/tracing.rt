//! Chains traced back over what happened.
ghost use Rattle.std.specs.Prelude.{◌≡◌, ◌↔◌, ◌≤◌, ◌∷◌, length, reverse, IsTrue, List, MatchOption, Some};
ghost use Rattle.mf_chains.specs.declared.happening.Occurrence.{Occurrence as OccurrenceValue};
ghost use Rattle.mf_chains.specs.Chains as spec;
ghost use Rattle.mf_objects.specs.declared.id.Id.{Id as IdValue};
ghost use Rattle.mf_chains.specs.Tracing.{AreApart, HasSteps, IsLastOf, IsOriginOf, LeadsBefore, chain_to};

use crate::chain::{Chain, Step};
use crate::happening::{Happening, Occurrence};
use mf_elem::Elem;
use mf_objects::Id;

/// How the rest of a chain leads to its end, over what happened before.
enum Trace {
    /// The chain begins here.
    Begins,
    /// It leads here from nowhere.
    Breaks,
    /// It leads to this party with so many of its steps.
    Leads { party: Id, steps: usize },
}

/// Whether the chain leads to the party with the element, over what happened, the oldest first.
pub fn leads(past: &[Occurrence], party: Id, element: &Elem, chain: &Chain) -> bool
    requires { AreApart (reverse past.now) }
    ensures { IsTrue result ↔ spec.Leads (reverse past.now) party element.now chain.now }
{
    let mut end = party;
    let mut left = chain.steps.len();
    for place in 0..past.len() {
        let last = &past[past.len() - 1 - place];
        match traced(last, end, left, element, chain) {
            Trace::Begins => return true,
            Trace::Breaks => return false,
            Trace::Leads { party, steps } => {
                end = party;
                left = steps;
            }
        }
    }
    false
}

/// How the chain with so many of its steps leads to the party, before the last that happened.
fn traced(last: &Occurrence, party: Id, steps: usize, element: &Elem, chain: &Chain) -> Trace
    requires { steps ≤ length chain.now.steps }
    ensures leads { (older : List OccurrenceValue) → AreApart (last.now ∷ older)
        → LeadsBefore result older element.now chain.now
        ↔ spec.Leads (last.now ∷ older) party element.now (chain_to chain.now steps) }
    ensures steps { HasSteps result chain.now }
{
    match handing(last, party, steps, chain) {
        Some(giver) => Trace::Leads {
            party: giver,
            steps: steps - 1,
        },
        None if !loses(&last.what, party) => Trace::Leads { party, steps },
        None if begins(last, party, steps, element, chain) => Trace::Begins,
        None => Trace::Breaks,
    }
}

/// Who handed on to the party, where the last that happened is the last of so many steps.
fn handing(last: &Occurrence, party: Id, steps: usize, chain: &Chain) -> Option<Id>
    requires { steps ≤ length chain.now.steps }
    ensures { MatchOption result
        ((giver : IdValue) → spec.giver_of last.now.what party ≡ Some giver
        → IsLastOf chain.now steps (spec.step_at last.now party) → ⊥)
        (λ giver. (spec.giver_of last.now.what party ≡ Some giver)
        × IsLastOf chain.now steps (spec.step_at last.now party)) }
{
    let giver = giver_of(&last.what, party)?;
    if is_last(last, party, steps, chain) {
        Some(giver)
    } else {
        None
    }
}

/// Whether the last that happened is the last of so many steps.
fn is_last(last: &Occurrence, party: Id, steps: usize, chain: &Chain) -> bool
    requires { steps ≤ length chain.now.steps }
    ensures { IsTrue result ↔ IsLastOf chain.now steps (spec.step_at last.now party) }
{
    let step = Step {
        party,
        event: last.event,
        item: last.item,
    };
    steps > 0 && chain.steps.as_slice()[steps - 1] == step
}

/// Whether the chain has no more steps, and its origin is the party's own element, set by the last that happened.
fn begins(last: &Occurrence, party: Id, steps: usize, element: &Elem, chain: &Chain) -> bool
    ensures { IsTrue result ↔ ((spec.own_of last.now.what party ≡ Some element.now)
        × IsOriginOf chain.now steps party last.now.event) }
{
    steps == 0
        && chain.origin == party
        && chain.event == last.event
        && own_of(&last.what, party) == Some(*element)
}

/// Who hands on to the party what it holds.
fn giver_of(what: &Happening, party: Id) -> Option<Id>
    ensures { result ≡ spec.giver_of what.now party }
{
    match what {
        Happening::Labelled {
            party: new,
            own: Some(_),
            maker,
        } if party == *new => *maker,
        Happening::Moves {
            subject,
            object,
            to_subject: true,
            ..
        } if party == *subject => Some(*object),
        Happening::Moves {
            subject,
            object,
            to_object: true,
            ..
        } if party == *object => Some(*subject),
        _ => None,
    }
}

/// The element that the party gets as its own.
fn own_of(what: &Happening, party: Id) -> Option<Elem>
    ensures { result ≡ spec.own_of what.now party }
{
    match what {
        Happening::Labelled {
            party: new,
            own,
            ..
        } if party == *new => *own,
        _ => None,
    }
}

/// Whether the party loses what it held.
fn loses(what: &Happening, party: Id) -> bool
    ensures { result ≡ spec.loses what.now party }
{
    match what {
        Happening::Labelled { party: new, .. } => party == *new,
        Happening::Moves { .. } => false,
    }
}
