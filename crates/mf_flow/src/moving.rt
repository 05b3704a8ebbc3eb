//! What the checks of a call move.
ghost use Rattle.std.specs.Prelude.{◌≡◌, ◌<◌, filter, fold, map, OnOk};
ghost use Rattle.std.specs.Option.{option_copied};
ghost use Rattle.mf_elem.specs.declared.label.TheConstants.{SLOTS};
ghost use Rattle.mf_plan.specs.Outline.{item_of};
ghost use Rattle.mf_policy.specs.Operations.{row_of};
ghost use Rattle.mf_list.specs.Asked.{slot_of};
ghost use Rattle.mf_flow.specs.Rows as rows;
ghost use Rattle.mf_flow.specs.Transfers.{counts};

use crate::effective::element_at;
use crate::set_list::SetList;
use crate::transfers::counts;
use mf_elem::Elem;
use mf_item::CheckOp;
use mf_objects::{Fd, Objects};
use mf_plan::{Check, State};
use mf_policy::{Movement, Registration, row_of};
use std::alloc::{AllocError, Global};

/// Whether something can come to the one party from the other. One labelled equal has no sources.
pub fn may_come(objects: &Objects, slot: u8, to: u32, from: u32) -> bool
    requires { slot < SLOTS }
    ensures { result ≡ rows.may_come (rows.element_numbered slot objects.now to)
        (rows.element_numbered slot objects.now from) }
{
    match element_at(objects, slot, to) {
        None | Some(Elem::Equal) => false,
        Some(_) => element_at(objects, slot, from).is_some(),
    }
}

/// The sources of one party come to another. Each check that moves goes through here.
#[inline(always)]
fn receive(
    alloc: Global,
    slot: u8,
    objects: &Objects,
    sets: &mut SetList,
    to: u32,
    from: u32,
) -> Result<(), AllocError>
    requires { slot < SLOTS }
    ensures { OnOk result (sets.new ≡ rows.set_received slot objects.now sets.old to from
        (rows.set_at sets.old from)) }
{
    if sets.has_all(to, from) {
        return Ok(());
    }
    if !may_come(objects, slot, to, from) {
        return Ok(());
    }
    sets.join(alloc, to, from)
}

/// The sources of each of two parties come to the other: to each those that the other had before.
fn exchange(
    alloc: Global,
    slot: u8,
    objects: &Objects,
    sets: &mut SetList,
    subject: u32,
    object: u32,
) -> Result<(), AllocError>
    requires { slot < SLOTS }
    ensures { OnOk result (sets.new ≡ rows.exchanged slot objects.now sets.old subject object) }
{
    if sets.has_all(subject, object) && sets.has_all(object, subject) {
        return Ok(());
    }
    if !may_come(objects, slot, object, subject) {
        return receive(alloc, slot, objects, sets, subject, object);
    }
    if !may_come(objects, slot, subject, object) {
        return receive(alloc, slot, objects, sets, object, subject);
    }
    sets.exchange(alloc, subject, object)
}

/// What the check of an operation moves between its parties.
fn move_between(
    alloc: Global,
    slot: u8,
    objects: &Objects,
    sets: &mut SetList,
    op: CheckOp,
    subject: u32,
    object: u32,
) -> Result<(), AllocError>
    requires { slot < SLOTS }
    ensures { OnOk result (sets.new ≡ rows.rows_between slot objects.now sets.old
        (row_of op).movement subject object) }
{
    match row_of(op).movement {
        Movement::Still => Ok(()),
        Movement::ToSubject => receive(alloc, slot, objects, sets, subject, object),
        Movement::ToObject => receive(alloc, slot, objects, sets, object, subject),
        Movement::BothWays => exchange(alloc, slot, objects, sets, subject, object),
    }
}

/// What a check that passed moves.
#[tactic(auto, unfolding(mf_plan::specs::Outline::item_asking))]
fn move_by(
    alloc: Global,
    slot: u8,
    objects: &Objects,
    sets: &mut SetList,
    check: &Check,
) -> Result<(), AllocError>
    requires { slot < SLOTS }
    ensures { OnOk result (sets.new ≡ rows.rows_by slot objects.now sets.old check.now) }
{
    match check.object {
        None => Ok(()),
        Some(object) => move_between(
            alloc,
            slot,
            objects,
            sets,
            check.op,
            check.subject.number(),
            object.number(),
        ),
    }
}

/// What a check that passed moves by a policy, where it counts.
fn move_counted(
    alloc: Global,
    registration: &Registration,
    state: &State,
    fd: Option<&Fd>,
    sets: &mut SetList,
    check: &Check,
) -> Result<(), AllocError>
    requires { slot_of registration.now < SLOTS }
    ensures { OnOk result (sets.new
        ≡ rows.rows_counted registration.now state.now (option_copied fd.entry) sets.old
        check.now) }
{
    if !counts(registration, state, fd, check) {
        return Ok(());
    }
    let slot = registration.slot.unwrap_or(0);
    move_by(alloc, slot, &state.objects, sets, check)
}

/// What checks that passed move by a policy, one after another: those that count, of a call that goes through this
/// descriptor, or through none.
pub fn move_all(
    alloc: Global,
    registration: &Registration,
    state: &State,
    fd: Option<&Fd>,
    sets: &mut SetList,
    checks: &[Check],
) -> Result<(), AllocError>
    requires { slot_of registration.now < SLOTS }
    ensures { OnOk result (sets.new ≡ fold (rows.rows_moved (slot_of registration.now)
        state.now.objects) sets.old
        (filter (counts registration.now state.now.specs (option_copied fd.entry))
        (map (item_of state.now.objects) checks.now))) }
{
    for check in checks {
        move_counted(alloc, registration, state, fd, sets, check)?;
    }
    Ok(())
}
