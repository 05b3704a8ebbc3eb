//! Which transfers through descriptors count as movements.
ghost use Rattle.std.specs.Option.{option_copied, option_eq};
ghost use Rattle.std.specs.Prelude.{◌≡◌, ◌<◌};
ghost use Rattle.mf_elem.specs.declared.label.TheConstants.{SLOTS};
ghost use Rattle.mf_policy.specs.Answer.{object_slot, range_label};
ghost use Rattle.mf_list.specs.Asked.{slot_of};
ghost use Rattle.mf_plan.specs.Outline.{item_of};
ghost use Rattle.mf_flow.specs.Order as order;
ghost use Rattle.mf_flow.specs.Transfers as spec;

use crate::effective::element_at;
use crate::order::compare;
use mf_elem::Elem;
use mf_errno::Module;
use mf_objects::{Fd, Objects};
use mf_plan::{Check, State};
use mf_policy::{Registration, SpecList, slot_label};

/// Whether a check of a call that goes through this descriptor, or through none, counts for the policy.
pub fn counts(registration: &Registration, state: &State, fd: Option<&Fd>, check: &Check) -> bool
    requires { slot_of registration.now < SLOTS }
    ensures { result ≡ spec.counts registration.now state.now.specs (option_copied fd.entry)
        (item_of state.now.objects check.now) }
{
    match fd {
        None => true,
        Some(fd) => {
            let slot = registration.slot.unwrap_or(0);
            tests_transfers(&state.specs, registration.module)
                || is_as_opened(&state.objects, slot, fd, check)
        }
    }
}

/// Whether the policy of the module tests each transfer, as it is listed.
fn tests_transfers(specs: &SpecList, module: Module) -> bool
    ensures { result ≡ spec.tests_transfers_in specs.now «module» }
{
    match specs.spec_of(module) {
        None => true,
        Some(spec) => spec.tests_transfers(),
    }
}

/// Whether the parties of a transfer have the elements that they had when the file was opened.
#[tactic(auto, unfolding(mf_plan::specs::Outline::item_asking))]
fn is_as_opened(objects: &Objects, slot: u8, fd: &Fd, check: &Check) -> bool
    requires { slot < SLOTS }
    ensures { result ≡ spec.is_as_opened slot fd.now (item_of objects.now check.now) }
{
    let subject = element_at(objects, slot, check.subject.number());
    let object = object_element(objects, slot, check);
    is_same(subject, slot_label(&fd.subject).effective)
        && is_same(object, slot_label(&fd.object).effective)
}

/// The effective element of a check's object, where it has one.
#[tactic(auto, unfolding(mf_plan::specs::Outline::item_asking))]
fn object_element(objects: &Objects, slot: u8, check: &Check) -> Option<Elem>
    requires { slot < SLOTS }
    ensures { result ≡ (range_label
        (object_slot (item_of objects.now check.now).object slot)).effective }
{
    match check.object {
        None => None,
        Some(id) => element_at(objects, slot, id.number()),
    }
}

/// Whether two elements are one, where each may be absent.
fn is_same(element: Option<Elem>, other: Option<Elem>) -> bool
    ensures { result ≡ option_eq order.is_same_element element other }
{
    match (element, other) {
        (None, None) => true,
        (Some(element), Some(other)) => compare(&element, &other).is_eq(),
        _ => false,
    }
}
