//! Why mac_biba(4), mac_mls(4) and mac_lomac(4) deny: by the elements of subject and object, or by the rules for relabels. Labels are
//! looked at where they lie.
ghost use Rattle.std.specs.Prelude.{◌≡◌, ◌<◌, option_copied, unwrap_or};
ghost use Rattle.mf_policy.specs.Answer as answers;
ghost use Rattle.mf_answers.specs.Orders.{policy_of};
ghost use Rattle.mf_answers.specs.Reasons as spec;

use crate::columns::test_of;
use crate::order::{Order, may_modify, may_observe, part_of};
use crate::reasons::Reason;
use crate::relabels::{assign_reason, give_reason, object_reason, own_reason};
use mf_elem::{Elem, LabelValue, RangeLabel, Request, SLOTS, privileged, same_level};
use mf_errno::Errno;
use mf_item::{Item, ObjectView};
use mf_policy::Test;

/// Why the policy, which holds this slot, denies an item.
#[inline(always)]
pub fn lattice_reason(order: Order, slot: u8, item: &Item) -> Option<Reason>
    requires { slot < SLOTS }
    ensures { result ≡ spec.lattice_reason order slot item.now }
{
    match label_in(&item.subject().label[slot as usize]) {
        None => None,
        Some(label) => labels_reason(
            order,
            test_of(item.op()),
            label,
            item.request(),
            object_element(item.object(), slot),
        ),
    }
}

/// Why a subject of this label with that request is denied, where the object has this element. A subject without an element
/// passes, and an object without one passes all tests but those of the subject alone.
#[inline(always)]
fn labels_reason(
    order: Order,
    test: Test,
    label: &RangeLabel,
    request: Option<&Request>,
    object: Option<&Elem>,
) -> Option<Reason>
    ensures { result
        ≡ spec.labels_reason order test label.now
        (answers.part_of (policy_of order) (option_copied request.entry))
        label.now.effective (option_copied object.entry) }
{
    let Some(subject) = &label.effective else {
        return None;
    };
    match test {
        Test::RelabelCredential => {
            credential_reason(order, subject, label, &part_of(order, request))
        }
        Test::GuardModules => guard_reason(order, label),
        Test::RelabelObject => match object {
            None => None,
            Some(old) => relabel_reason(order, subject, label, old, &part_of(order, request)),
        },
        Test::Observe(_) | Test::Modify | Test::ObserveAndModify | Test::SameLevel | Test::Pass =>
            match object {
                None => None,
                Some(object) => element_reason(order, test, subject, object),
            },
    }
}

/// Why a subject of one element doesn't observe or modify an object of another: where it may do neither to a process, it may not
/// observe it. Tests of other things pass.
#[inline(always)]
fn element_reason(order: Order, test: Test, subject: &Elem, object: &Elem) -> Option<Reason>
    ensures { result ≡ spec.element_reason (policy_of order) test subject.now object.now }
{
    match test {
        Test::Observe(errno) => observe_reason(order, subject, object, errno),
        Test::Modify => modify_reason(order, subject, object),
        Test::ObserveAndModify => match observe_reason(order, subject, object, Errno::Esrch) {
            None => modify_reason(order, subject, object),
            Some(reason) => Some(reason),
        },
        Test::SameLevel => level_reason(subject, object),
        Test::RelabelObject | Test::RelabelCredential | Test::GuardModules | Test::Pass => None,
    }
}

#[inline(always)]
fn observe_reason(order: Order, subject: &Elem, object: &Elem, errno: Errno) -> Option<Reason>
    ensures { result ≡ spec.observe_reason (policy_of order) subject.now object.now errno }
{
    if may_observe(order, subject, object) {
        return None;
    }
    Some(Reason::Observe {
        subject: *subject,
        object: *object,
        errno,
    })
}

#[inline(always)]
fn modify_reason(order: Order, subject: &Elem, object: &Elem) -> Option<Reason>
    ensures { result ≡ spec.modify_reason (policy_of order) subject.now object.now }
{
    if may_modify(order, subject, object) {
        return None;
    }
    Some(Reason::Modify {
        subject: *subject,
        object: *object,
    })
}

#[inline(always)]
fn level_reason(subject: &Elem, object: &Elem) -> Option<Reason>
    ensures { result ≡ spec.level_reason subject.now object.now }
{
    if same_level(subject, object) {
        return None;
    }
    Some(Reason::Level {
        subject: *subject,
        object: *object,
    })
}

/// Why a subject of this label doesn't load or unload modules: mac_biba lets the privileged alone.
fn guard_reason(order: Order, label: &RangeLabel) -> Option<Reason>
    ensures { result ≡ spec.guard_reason order label.now }
{
    match order {
        Order::Biba if !privileged(label) => Some(Reason::Unprivileged { own: *label }),
        Order::Biba | Order::Mls | Order::Lomac => None,
    }
}

/// Why a subject of this element and label doesn't get the label that it asks for its own.
fn credential_reason(
    order: Order,
    subject: &Elem,
    label: &RangeLabel,
    asked: &RangeLabel,
) -> Option<Reason>
    ensures { result ≡ spec.credential_reason order subject.now label.now asked.now }
{
    match order {
        Order::Biba | Order::Mls => own_reason(label, asked),
        Order::Lomac => assign_reason(subject, &asked.effective),
    }
}

/// Why it doesn't give that label to an object, whose element is the old one so far.
fn relabel_reason(
    order: Order,
    subject: &Elem,
    label: &RangeLabel,
    old: &Elem,
    asked: &RangeLabel,
) -> Option<Reason>
    ensures { result ≡ spec.relabel_reason order subject.now label.now old.now asked.now }
{
    match order {
        Order::Biba | Order::Mls => object_reason(label, old, asked),
        Order::Lomac => give_reason(subject, old, &asked.effective),
    }
}

/// The label in a slot, where it holds one of the three policies.
fn label_in(value: &LabelValue) -> Option<&RangeLabel>
    ensures { unwrap_or (option_copied result) answers.nothing ≡ answers.range_label value.now }
{
    match value {
        LabelValue::Range(label) => Some(label),
        LabelValue::Unset | LabelValue::Number(_) => None,
    }
}

/// The element in a slot, where it holds one.
pub fn element_in(value: &LabelValue) -> Option<&Elem>
    ensures { option_copied result ≡ (answers.range_label value.now).effective }
{
    label_in(value)?.effective.as_ref()
}

/// The element in a slot of the object, where there is an object.
fn object_element(object: Option<&ObjectView>, slot: u8) -> Option<&Elem>
    requires { slot < SLOTS }
    ensures { option_copied result
        ≡ (answers.range_label (answers.object_slot (option_copied object.entry) slot)).effective }
{
    match object {
        Some(view) => element_in(&view.label[slot as usize]),
        None => None,
    }
}
