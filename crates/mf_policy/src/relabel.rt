//! The rules for relabels, which Biba and MLS share.
ghost use Rattle.std.specs.Prelude.{◌≡◌};
ghost use Rattle.mf_policy.specs.Relabel as spec;

use mf_elem::{Elem, RangeLabel, has_equal, in_range, privileged, range_in_range};
use mf_errno::Errno;

/// The answer to a subject that asks for this label of its own: EINVAL where the range that it asks for leaves out its
/// effective element, the new one or else the present one; EPERM where it asks for more than its own range, or for `equal`
/// without privilege.
pub fn credential_relabel(subject: &RangeLabel, asked: &RangeLabel) -> Errno
    ensures { result ≡ spec.credential_relabel subject.now asked.now }
{
    let effective = asked.effective.or(subject.effective);
    if asked.range.is_some() && is_outside(&effective, &asked.range) {
        return Errno::Einval;
    }
    if reaches_out(&asked.range, &subject.range) || is_outside(&asked.effective, &subject.range) {
        return Errno::Eperm;
    }
    if has_equal(asked) && !privileged(subject) {
        return Errno::Eperm;
    }
    Errno::Success
}

/// The answer to a subject that asks for this label of an object with the old element: EINVAL where it asks for a range, which
/// objects don't have; EPERM where the old or the new element is outside its own range, or the new one is `equal` and it has
/// no privilege.
pub fn object_relabel(subject: &RangeLabel, old: &Elem, asked: &RangeLabel) -> Errno
    ensures { result ≡ spec.object_relabel subject.now old.now asked.now }
{
    if asked.range.is_some() {
        return Errno::Einval;
    }
    if is_outside(&Some(*old), &subject.range) || is_outside(&asked.effective, &subject.range) {
        return Errno::Eperm;
    }
    if matches!(asked.effective, Some(Elem::Equal)) && !privileged(subject) {
        return Errno::Eperm;
    }
    Errno::Success
}

fn is_outside(element: &Option<Elem>, range: &Option<(Elem, Elem)>) -> bool
    ensures { result ≡ spec.is_outside element.now range.now }
{
    match (element, range) {
        (None, _) => false,
        (Some(_), None) => true,
        (Some(element), Some((low, high))) => !in_range(element, low, high),
    }
}

fn reaches_out(inner: &Option<(Elem, Elem)>, range: &Option<(Elem, Elem)>) -> bool
    ensures { result ≡ spec.reaches_out inner.now range.now }
{
    match (inner, range) {
        (None, _) => false,
        (Some(_), None) => true,
        (Some((inner_low, inner_high)), Some((low, high))) => {
            !range_in_range(inner_low, inner_high, low, high)
        }
    }
}
