//! The chains that are kept over what happened to the parties of a policy.
ghost use Rattle.std.specs.Prelude.{◌≡◌, ◌<◌, ◌≤◌, ◌+◌, ◌-◌, [], if◌then◌else◌, length, nat_eq, reverse, IfErr, IfOk, OnOk, ℕ};
ghost use Rattle.std.specs.Option.{option_map_or};
ghost use Rattle.mf_objects.specs.declared.id.Id.{Id as IdValue};
ghost use Rattle.mf_chains.specs.declared.chain.ChainFault.TheVariants as fault;
ghost use Rattle.mf_chains.specs.Kept as spec;
ghost use Rattle.mf_chains.specs.Chains.{maker_for, step_at};
ghost use Rattle.mf_chains.specs.Marks.{AllAreThere, AreThere, Extends, given_to, kept_at, kept_in, set_at};

use crate::chain::{ChainFault, Step};
use crate::happening::{Happening, Occurrence};
use crate::links::Links;
use crate::marks::{Mark, MarkSets, joined, lacks_none};
use mf_elem::Elem;
use mf_names::Listing;
use mf_objects::Id;
use std::alloc::{AllocError, Global};

/// What each party holds after all that happened, the oldest first. Fails where more than `most` elements come into sets.
pub fn keep_all(
    alloc: Global,
    past: &[Occurrence],
    most: usize,
    links: &mut Links,
    sets: &mut MarkSets,
) -> Result<(), ChainFault>
    requires links { links.old ≡ [] }
    requires sets { sets.old ≡ [] }
    ensures there { OnOk result (AllAreThere links.new sets.new) }
    ensures kept { OnOk result ((p : IdValue) → kept_at links.new sets.new p
        ≡ spec.kept (reverse past.now) p) }
    ensures count { OnOk result (length links.new ≡ spec.additions (reverse past.now)) }
    ensures few { OnOk result (length links.new ≤ most) }
    ensures fault { IfErr result (λ f. f ≡ fault.TooMany
        → most < spec.additions (reverse past.now)) }
{
    for occurrence in past {
        keep(alloc, occurrence, links, sets)?;
        if links.len() > most {
            return Err(ChainFault::TooMany);
        }
    }
    Ok(())
}

/// What each party holds after one thing more.
fn keep(
    alloc: Global,
    occurrence: &Occurrence,
    links: &mut Links,
    sets: &mut MarkSets,
) -> Result<(), AllocError>
    requires { AllAreThere links.old sets.old }
    ensures there { OnOk result (AllAreThere links.new sets.new) }
    ensures kept { OnOk result ((p : IdValue) → kept_at links.new sets.new p
        ≡ spec.kept_after occurrence.now (kept_at links.old sets.old) p) }
    ensures count { OnOk result (length links.new
        ≡ length links.old + spec.added_by occurrence.now (kept_at links.old sets.old)) }
{
    match occurrence.what {
        Happening::Labelled { party, own, maker } => {
            let step = step_of(occurrence, party);
            let set = first_set(alloc, step, own, maker, links, sets)?;
            sets.put(alloc, party.number(), set)
        }
        Happening::Moves {
            subject,
            object,
            to_subject,
            to_object,
        } => {
            if to_subject {
                if to_object {
                    exchange(alloc, occurrence, subject, object, links, sets)
                } else {
                    receive(alloc, occurrence, object, subject, links, sets)
                }
            } else if to_object {
                receive(alloc, occurrence, subject, object, links, sets)
            } else {
                Ok(())
            }
        }
    }
}

fn step_of(occurrence: &Occurrence, party: Id) -> Step
    ensures { result ≡ step_at occurrence.now party }
{
    Step {
        party,
        event: occurrence.event,
        item: occurrence.item,
    }
}

/// What the one party holds after the other hands on to it what it holds.
fn received(
    alloc: Global,
    occurrence: &Occurrence,
    from: Id,
    to: Id,
    links: &mut Links,
    sets: &MarkSets,
) -> Result<Listing<Mark>, AllocError>
    requires { AllAreThere links.old sets.now }
    ensures kept { IfOk result (λ new. kept_in links.new new
        ≡ given_to occurrence.now (kept_at links.old sets.now) from to) }
    ensures there { IfOk result (λ new. AreThere links.new new) }
    ensures count { IfOk result (λ new. length links.new + length (set_at sets.now to.0)
        ≡ length links.old + length new) }
    ensures extends { OnOk result (Extends links.old links.new) }
{
    let step = step_of(occurrence, to);
    joined(
        alloc,
        links,
        sets.at(to.number()),
        sets.at(from.number()),
        step,
    )
}

/// What one party holds comes to another.
fn receive(
    alloc: Global,
    occurrence: &Occurrence,
    from: Id,
    to: Id,
    links: &mut Links,
    sets: &mut MarkSets,
) -> Result<(), AllocError>
    requires { AllAreThere links.old sets.old }
    ensures there { OnOk result (AllAreThere links.new sets.new) }
    ensures kept { OnOk result ((n : ℕ) → kept_in links.new (set_at sets.new n)
        ≡ (if nat_eq n to.0 then given_to occurrence.now (kept_at links.old sets.old) from to
        else kept_in links.old (set_at sets.old n))) }
    ensures count { OnOk result (length links.new + length (set_at sets.old to.0)
        ≡ length links.old
        + length (given_to occurrence.now (kept_at links.old sets.old) from to)) }
    ensures grown { OnOk result (length links.old ≤ length links.new) }
{
    if lacks_none(sets.at(to.number()), sets.at(from.number())) {
        return Ok(());
    }
    let set = received(alloc, occurrence, from, to, links, sets)?;
    sets.put(alloc, to.number(), set)
}

/// What each of two parties holds comes to the other: to each what the other held before.
fn exchange(
    alloc: Global,
    occurrence: &Occurrence,
    subject: Id,
    object: Id,
    links: &mut Links,
    sets: &mut MarkSets,
) -> Result<(), AllocError>
    requires { AllAreThere links.old sets.old }
    ensures there { OnOk result (AllAreThere links.new sets.new) }
    ensures kept { OnOk result ((n : ℕ) → kept_in links.new (set_at sets.new n)
        ≡ (if nat_eq n object.0
        then given_to occurrence.now (kept_at links.old sets.old) subject object
        else if nat_eq n subject.0
        then given_to occurrence.now (kept_at links.old sets.old) object subject
        else kept_in links.old (set_at sets.old n))) }
    ensures count { OnOk result (length links.new ≡ length links.old
        + ((length (given_to occurrence.now (kept_at links.old sets.old) object subject)
        - length (set_at sets.old subject.0))
        + (length (given_to occurrence.now (kept_at links.old sets.old) subject object)
        - length (set_at sets.old object.0)))) }
{
    let to_subject = received(alloc, occurrence, object, subject, links, sets)?;
    let to_object = received(alloc, occurrence, subject, object, links, sets)?;
    sets.put(alloc, subject.number(), to_subject)?;
    sets.put(alloc, object.number(), to_object)
}

/// What a party holds once it is labelled: its own element, and what its maker holds besides. One labelled equal, or without an element, holds nothing.
fn first_set(
    alloc: Global,
    step: Step,
    own: Option<Elem>,
    maker: Option<Id>,
    links: &mut Links,
    sets: &MarkSets,
) -> Result<Listing<Mark>, AllocError>
    requires { AllAreThere links.old sets.now }
    ensures kept { IfOk result (λ new. kept_in links.new new ≡ spec.with_lacking
        (spec.own_kept own step.party step.event)
        (spec.handed_on (maker_for own maker) (kept_at links.old sets.now) step)) }
    ensures there { IfOk result (λ new. AreThere links.new new) }
    ensures count { IfOk result (λ new. length links.new ≡ length links.old + length new) }
    ensures extends { OnOk result (Extends links.old links.new) }
{
    match own {
        None => Ok(Listing::new(alloc)),
        Some(element) => {
            let link = links.begin(step)?;
            let set = [Mark { element, link }];
            joined(alloc, links, &set, held_by(maker, sets), step)
        }
    }
}

/// What the maker holds, where there is one.
fn held_by(maker: Option<Id>, sets: &MarkSets) -> &[Mark]
    ensures { result.now ≡ option_map_or (λ id. set_at sets.now id.0) maker [] }
{
    match maker {
        None => &[],
        Some(id) => sets.at(id.number()),
    }
}
