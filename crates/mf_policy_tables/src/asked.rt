//! What single policies are asked, and what they have to answer.
ghost use Rattle.std.specs.Prelude.{◌<◌};
ghost use Rattle.mf_policy.specs.IsChange.{IsChange};

use mf_cred::{Cred, FileView};
use mf_elem::{Comps, Elem, LAST_COMPARTMENT, LabelValue, RangeLabel, SLOTS};
use mf_errno::{Errno, Module};
use mf_item::{CheckOp, Item, Kind, ObjectView, SubjectView};
use mf_policy::{Change, Policy, Spec};
use std::alloc::{AllocError, Global};
use std::process::Abort;

/// Wants what is said of this to hold.
pub fn wants(rt: &impl Abort, name: &str, holds: bool) {
    assert!(rt; holds, "{name}");
}

/// Whether it holds, and no memory ran out.
pub fn holds(found: Result<bool, AllocError>) -> bool {
    match found {
        Ok(holds) => holds,
        Err(AllocError) => false,
    }
}

/// An element, as rows have it: a grade with no compartment, or with one.
pub enum Level {
    Low,
    High,
    Equal,
    Grade(u16),
    In(u16, u16),
}

pub fn grade(grade: u16) -> Elem {
    Elem::Grade(grade, Comps::empty())
}

pub fn element(level: &Level) -> Elem {
    match level {
        Level::Low => Elem::Low,
        Level::High => Elem::High,
        Level::Equal => Elem::Equal,
        Level::In(number, n) if 1 <= *n && *n <= LAST_COMPARTMENT => {
            Elem::Grade(*number, Comps::empty().with(*n))
        }
        Level::Grade(number) | Level::In(number, _) => grade(*number),
    }
}

/// A label without a range, in each slot.
pub fn labelled(element: Elem) -> [LabelValue; SLOTS] {
    [LabelValue::Range(RangeLabel::effective(element)); SLOTS]
}

pub fn subject(label: [LabelValue; SLOTS]) -> SubjectView {
    SubjectView {
        id: 1,
        cred: Cred::default(),
        label,
    }
}

pub fn object(kind: Kind, label: [LabelValue; SLOTS]) -> ObjectView {
    ObjectView {
        id: 2,
        kind,
        file: FileView::default(),
        label,
    }
}

/// The answer, by this slot, to a subject with the first label that does so to a file with the second.
pub fn answer_in<P: Policy>(
    policy: &P,
    slot: u8,
    op: CheckOp,
    of_subject: [LabelValue; SLOTS],
    of_object: [LabelValue; SLOTS],
) -> Errno
    requires { slot < SLOTS }
{
    let (subject, object) = (subject(of_subject), object(Kind::Vnode, of_object));
    let item = Item::new(op, &subject, Some(&object), None, None, None);
    policy.check(slot, &item)
}

/// The answer, by slot 0, to a subject with this element and the range from low to 20, of a file with the other element.
pub fn answer<P: Policy>(policy: &P, op: CheckOp, subject: Elem, object: Elem) -> Errno {
    let own = LabelValue::Range(RangeLabel::ranged(subject, Elem::Low, grade(20)));
    answer_in(policy, 0, op, [own; SLOTS], labelled(object))
}

/// An operation, the elements of subject and object, and the answer.
pub type Row = (CheckOp, Level, Level, Errno);

/// Whether the policy answers so.
pub fn answers<P: Policy>(policy: &P, rows: &[Row]) -> bool {
    let mut holds = true;
    for (op, subject, object, errno) in rows {
        holds &= answer(policy, *op, element(subject), element(object)) == *errno;
    }
    holds
}

/// Whether the policy answers a change with that errno.
pub fn is_answered<P: Policy>(alloc: Global, policy: &mut P, change: &Change, errno: Errno) -> bool
    requires { IsChange change.now }
{
    match policy.change(alloc, change) {
        Ok(changed) => changed.errno == errno,
        Err(AllocError) => false,
    }
}

/// Whether it answers a change of mac_bsdextended's setting with the one, and of mac_biba's with the other.
pub fn has_settings<P: Policy>(alloc: Global, policy: &mut P, errnos: (Errno, Errno)) -> bool {
    let is_first = is_answered(alloc, policy, &Change::FirstMatch(true), errnos.0);
    is_first && is_answered(alloc, policy, &Change::Revocation(true), errnos.1)
}

/// Whether the policy has the spec of this module in its initial state.
pub fn is_fresh<P: Policy>(alloc: Global, policy: &P, module: Module) -> Result<bool, AllocError> {
    let fresh = Spec::fresh(alloc, module)?;
    Ok(policy.same(&fresh))
}
