//! What Biba, MLS and LOMAC share: the answer to a check, by the two directions of the policy.
ghost use Rattle.std.specs.Prelude.{◌≡◌, ◌<◌, Some, option_copied};
ghost use Rattle.mf_policy.specs.Answer as spec;

use crate::operations::{Test, row_of};
use mf_elem::{Elem, LabelValue, RangeLabel, Request, SLOTS, same_level};
use mf_errno::Errno;
use mf_item::{Item, ObjectView};

/// A policy whose labels have elements.
pub trait Lattice {
    ghost use Rattle.mf_policy.specs.Answer.{LatticePolicy};

    ghost lattice: { LatticePolicy };

    /// Whether a subject of one element may observe an object of another.
    fn may_observe(subject: &Elem, object: &Elem) -> bool
        ensures { result ≡ lattice.may_observe subject.now object.now };

    /// Whether a subject of one element may modify an object of another.
    fn may_modify(subject: &Elem, object: &Elem) -> bool
        ensures { result ≡ lattice.may_modify subject.now object.now };

    /// The policy's part of a request.
    fn part(request: &Request) -> Option<RangeLabel>
        ensures { result ≡ lattice.part request.now };

    /// The answer to a subject of this label that loads or unloads modules.
    fn guard_modules(label: &RangeLabel) -> Errno
        ensures { result ≡ lattice.guard_modules label.now };

    /// The answer to a subject of this element and label that asks for that label of its own.
    fn relabel_credential(subject: &Elem, label: &RangeLabel, asked: &RangeLabel) -> Errno
        ensures { result ≡ lattice.relabel_credential subject.now label.now asked.now };

    /// The answer to it where it asks for that label of an object, whose element is the old one so far.
    fn relabel_object(subject: &Elem, label: &RangeLabel, old: &Elem, asked: &RangeLabel) -> Errno
        ensures { result ≡ lattice.relabel_object subject.now label.now old.now asked.now };
}

/// What such a policy, which holds this slot, answers to an item. No label is copied for it.
pub fn lattice_answer<P: Lattice>(slot: u8, item: &Item) -> Errno
    requires { slot < SLOTS }
    ensures { result ≡ spec.lattice_answer P.lattice slot item.now }
{
    let test = row_of(item.op()).test;
    match &item.subject().label[slot as usize] {
        LabelValue::Range(label) => {
            let object = object_element(item.object(), slot);
            answer_to_label::<P>(test, label, item.request(), object)
        }
        LabelValue::Unset | LabelValue::Number(_) => Errno::Success,
    }
}

/// The answer to a subject of this label with that request. Few checks have one.
fn answer_to_label<P: Lattice>(
    test: Test,
    label: &RangeLabel,
    request: Option<&Request>,
    object: &Option<Elem>,
) -> Errno
    ensures { result ≡ spec.labels_answer P.lattice test label.now
        (spec.part_of P.lattice (option_copied request.entry)) label.now.effective object.now }
{
    match request {
        None => labels_answer::<P>(test, label, &nothing(), &label.effective, object),
        Some(request) => {
            labels_answer::<P>(
                test,
                label,
                &part_of::<P>(request),
                &label.effective,
                object,
            )
        }
    }
}

/// The answer to a subject of this label that asks for that one, by the elements of subject and object, each of which may be
/// unset.
fn labels_answer<P: Lattice>(
    test: Test,
    label: &RangeLabel,
    asked: &RangeLabel,
    subject: &Option<Elem>,
    object: &Option<Elem>,
) -> Errno
    ensures { result
        ≡ spec.labels_answer P.lattice test label.now asked.now subject.now object.now }
{
    let Some(subject) = subject else {
        return Errno::Success;
    };
    match (test, object) {
        (Test::RelabelCredential, _) => P::relabel_credential(subject, label, asked),
        (Test::GuardModules, _) => P::guard_modules(label),
        (_, None) => Errno::Success,
        (Test::RelabelObject, Some(object)) => P::relabel_object(subject, label, object, asked),
        (test, Some(object)) => {
            let may_observe = P::may_observe(subject, object);
            let may_modify = P::may_modify(subject, object);
            element_answer(test, may_observe, may_modify, same_level(subject, object))
        }
    }
}

/// The answer by whether the subject may observe the object, may modify it, and is of its level. Tests of other things
/// pass.
fn element_answer(test: Test, may_observe: bool, may_modify: bool, same_level: bool) -> Errno
    ensures { result ≡ spec.element_answer test may_observe may_modify same_level }
{
    match test {
        Test::Observe(errno) => errno_unless(may_observe, errno),
        Test::Modify => errno_unless(may_modify, Errno::Eacces),
        Test::ObserveAndModify if !may_observe => Errno::Esrch,
        Test::ObserveAndModify => errno_unless(may_modify, Errno::Eacces),
        Test::SameLevel => errno_unless(same_level, Errno::Eacces),
        Test::RelabelObject | Test::RelabelCredential | Test::GuardModules | Test::Pass => {
            Errno::Success
        }
    }
}

/// The label that a slot's value is read as. One without an effective element counts as unset.
pub fn slot_label(value: &LabelValue) -> RangeLabel
    ensures { result ≡ spec.range_label value.now }
{
    match value {
        LabelValue::Range(label) => *label,
        LabelValue::Unset | LabelValue::Number(_) => nothing(),
    }
}

/// The effective element of a slot's value, which may be unset.
fn element_in(value: &LabelValue) -> &Option<Elem>
    ensures { result.now ≡ (spec.range_label value.now).effective }
{
    match value {
        LabelValue::Range(label) => &label.effective,
        LabelValue::Unset | LabelValue::Number(_) => &None,
    }
}

/// That of the slot of the object; unset where there is no object.
fn object_element(object: Option<&ObjectView>, slot: u8) -> &Option<Elem>
    requires { slot < SLOTS }
    ensures { result.now
        ≡ (spec.range_label (spec.object_slot (option_copied object.entry) slot)).effective }
{
    match object {
        Some(view) => element_in(&view.label[slot as usize]),
        None => &None,
    }
}

fn part_of<P: Lattice>(request: &Request) -> RangeLabel
    ensures { result ≡ spec.part_of P.lattice (Some request.now) }
{
    P::part(request).unwrap_or(nothing())
}

/// Success where the test holds, else the error.
pub fn errno_unless(holds: bool, errno: Errno) -> Errno
    ensures { result ≡ spec.errno_unless holds errno }
{
    if holds { Errno::Success } else { errno }
}

fn nothing() -> RangeLabel
    ensures { result ≡ spec.nothing }
{
    RangeLabel {
        effective: None,
        range: None,
    }
}
