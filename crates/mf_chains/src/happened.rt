//! What happens to the parties of a policy at the opening, by checks, and as entities come or are relabelled.
ghost use Rattle.std.specs.Prelude.{◌≡◌, ◌<◌, ◌≤◌, ◌++◌, ◌&&◌, length, map, OnOk};
ghost use Rattle.std.specs.Option.{option_copied};
ghost use Rattle.mf_flow.specs.Rows.{may_come as spec_may_come};
ghost use Rattle.mf_policy.specs.Operations.{row_of as row_of_op};
ghost use Rattle.mf_elem.specs.declared.label.TheConstants.{SLOTS};
ghost use Rattle.mf_list.specs.Asked.{slot_of};
ghost use Rattle.mf_plan.specs.Outline.{item_of};
ghost use Rattle.mf_plan.specs.declared.plan.TheConstants.{MOST_CHECKS};
ghost use Rattle.mf_chains.specs.Happenings as spec;

use crate::happening::{Happening, Occurrence};
use mf_elem::{Elem, Request};
use mf_flow::{counts, element_at, has_element, may_come};
use mf_item::CheckOp;
use mf_names::Listing;
use mf_objects::{Fd, Id, Objects};
use mf_plan::{Check, State};
use mf_policy::{Movement, Registration, row_of};
use std::alloc::AllocError;

/// The entities of the opening state come, by rising id.
pub fn push_opening(
    registration: &Registration,
    objects: &Objects,
    past: &mut Listing<Occurrence>,
) -> Result<(), AllocError>
    requires { slot_of registration.now < SLOTS }
    ensures { OnOk result (past.new
        ≡ past.old ++ spec.opening_happenings registration.now objects.now) }
{
    for number in 0..objects.next_id() {
        push_coming(registration, objects, 0, None, number, past)?;
    }
    Ok(())
}

/// What checks that passed move.
pub fn push_moves(
    registration: &Registration,
    state: &State,
    fd: Option<&Fd>,
    event: u32,
    checks: &[Check],
    past: &mut Listing<Occurrence>,
) -> Result<(), AllocError>
    requires slot { slot_of registration.now < SLOTS }
    requires few { length checks.now ≤ MOST_CHECKS }
    ensures { OnOk result (past.new ≡ past.old
        ++ spec.moving_from registration.now state.now (option_copied fd.entry) event 1
        (map (item_of state.now.objects) checks.now)) }
{
    for (place, check) in checks.iter().enumerate() {
        push_counted(registration, state, fd, event, place as u8 + 1, check, past)?;
    }
    Ok(())
}

/// What a check moves, where it counts.
fn push_counted(
    registration: &Registration,
    state: &State,
    fd: Option<&Fd>,
    event: u32,
    number: u8,
    check: &Check,
    past: &mut Listing<Occurrence>,
) -> Result<(), AllocError>
    requires { slot_of registration.now < SLOTS }
    ensures { OnOk result (past.new ≡ past.old
        ++ spec.moving_of registration.now state.now (option_copied fd.entry) event number
        (item_of state.now.objects check.now)) }
{
    if !counts(registration, state, fd, check) {
        return Ok(());
    }
    push_moving(registration, &state.objects, event, number, check, past)
}

/// What a check moves that counts.
#[tactic(auto, unfolding(mf_plan::specs::Outline::item_asking))]
fn push_moving(
    registration: &Registration,
    objects: &Objects,
    event: u32,
    number: u8,
    check: &Check,
    past: &mut Listing<Occurrence>,
) -> Result<(), AllocError>
    requires { slot_of registration.now < SLOTS }
    ensures { OnOk result (past.new ≡ past.old
        ++ spec.moving_with registration.now objects.now event number
        (item_of objects.now check.now) (item_of objects.now check.now).object) }
{
    match check.object {
        None => Ok(()),
        Some(object) => {
            let what = moving_between(registration, objects, check.op, check.subject, object);
            past.push(Occurrence {
                event,
                item: number,
                what,
            })?;
            Ok(())
        }
    }
}

/// The movement of the check of an operation.
fn moving_between(
    registration: &Registration,
    objects: &Objects,
    op: CheckOp,
    subject: Id,
    object: Id,
) -> Happening
    requires { slot_of registration.now < SLOTS }
    ensures { result ≡ (spec.moving_between registration.now objects.now 0 0
        (row_of_op op).movement subject object).what }
{
    let movement = row_of(op).movement;
    Happening::Moves {
        subject,
        object,
        to_subject: comes(
            registration,
            objects,
            is_to_subject(movement),
            subject,
            object,
        ),
        to_object: comes(
            registration,
            objects,
            is_to_object(movement),
            object,
            subject,
        ),
    }
}

/// Whether something comes to the one party from the other, where a movement is so.
fn comes(registration: &Registration, objects: &Objects, moves: bool, to: Id, from: Id) -> bool
    requires { slot_of registration.now < SLOTS }
    ensures { result ≡ (moves && spec_may_come (spec.element_at registration.now objects.now to)
        (spec.element_at registration.now objects.now from)) }
{
    let slot = registration.slot.unwrap_or(0);
    moves && may_come(objects, slot, to.number(), from.number())
}

fn is_to_subject(movement: Movement) -> bool
    ensures { result ≡ spec.is_to_subject movement }
{
    match movement {
        Movement::ToSubject | Movement::BothWays => true,
        Movement::Still | Movement::ToObject => false,
    }
}

fn is_to_object(movement: Movement) -> bool
    ensures { result ≡ spec.is_to_object movement }
{
    match movement {
        Movement::ToObject | Movement::BothWays => true,
        Movement::Still | Movement::ToSubject => false,
    }
}

/// The entity of a number comes, made by that process, or at the opening, where there is one.
pub fn push_coming(
    registration: &Registration,
    objects: &Objects,
    event: u32,
    maker: Option<Id>,
    number: u32,
    past: &mut Listing<Occurrence>,
) -> Result<(), AllocError>
    requires { slot_of registration.now < SLOTS }
    ensures { OnOk result (past.new ≡ past.old
        ++ spec.coming_at registration.now objects.now event maker number) }
{
    let _live = objects.live();
    match objects.least_from(number) {
        Some(id) if id.number() == number => {
            past.push(labelled(registration, objects, event, id, maker))?;
            Ok(())
        }
        _ => Ok(()),
    }
}

/// The entity is relabelled, where the call is done and asks for an element by the policy.
pub fn push_relabelling(
    registration: &Registration,
    objects: &Objects,
    event: u32,
    asked: &Option<(Id, Request)>,
    past: &mut Listing<Occurrence>,
) -> Result<(), AllocError>
    requires { slot_of registration.now < SLOTS }
    ensures { OnOk result (past.new ≡ past.old
        ++ spec.relabelling registration.now objects.now event asked.now) }
{
    match asked {
        Some((id, request)) if has_element(registration.module, request) => {
            past.push(labelled(registration, objects, event, *id, None))?;
            Ok(())
        }
        _ => Ok(()),
    }
}

/// The entity is labelled in an event, behind all its checks.
fn labelled(
    registration: &Registration,
    objects: &Objects,
    event: u32,
    id: Id,
    maker: Option<Id>,
) -> Occurrence
    requires { slot_of registration.now < SLOTS }
    ensures { result
        ≡ spec.labelled event id (spec.element_at registration.now objects.now id) maker }
{
    let slot = registration.slot.unwrap_or(0);
    let own = own_element(element_at(objects, slot, id.number()));
    Occurrence {
        event,
        item: 0,
        what: Happening::Labelled {
            party: id,
            own,
            maker,
        },
    }
}

/// A party's own element: none where it is equal.
fn own_element(element: Option<Elem>) -> Option<Elem>
    ensures { result ≡ spec.own_element element }
{
    match element {
        None | Some(Elem::Equal) => None,
        Some(own) => Some(own),
    }
}
