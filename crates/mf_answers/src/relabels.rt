//! Why relabels are denied.
ghost use Rattle.std.specs.Prelude.{◌≡◌, false};
ghost use Rattle.std.specs.Option.{option_map_or};
ghost use Rattle.mf_elem.specs.Elem.{is_equal};
ghost use Rattle.mf_policy.specs.Relabel as relabels;
ghost use Rattle.mf_answers.specs.Reasons as spec;

use crate::reasons::Reason;
use mf_elem::{Elem, RangeLabel, dominates, has_equal, in_range, privileged, range_in_range};

/// Why by mac_biba(4) and mac_mls(4) a subject of one label doesn't get the other, which it asks for its own.
pub fn own_reason(subject: &RangeLabel, asked: &RangeLabel) -> Option<Reason>
    ensures { result ≡ spec.own_reason subject.now asked.now }
{
    let element = asked.effective.or(subject.effective);
    if asked.range.is_some() && is_outside(&element, &asked.range) {
        Some(Reason::LeavesOut {
            element,
            asked: asked.range,
        })
    } else if reaches_out(&asked.range, &subject.range) {
        Some(Reason::RangeOutside {
            asked: asked.range,
            own: subject.range,
        })
    } else {
        new_reason(subject, asked, has_equal(asked))
    }
}

/// Why by these a subject of one label doesn't give the other to an object with the old element.
pub fn object_reason(subject: &RangeLabel, old: &Elem, asked: &RangeLabel) -> Option<Reason>
    ensures { result ≡ spec.object_reason subject.now old.now asked.now }
{
    if asked.range.is_some() {
        Some(Reason::RangeOfObject { asked: asked.range })
    } else if is_outside(&Some(*old), &subject.range) {
        Some(Reason::PresentOutside {
            object: *old,
            own: subject.range,
        })
    } else {
        new_reason(subject, asked, is_equal_element(&asked.effective))
    }
}

/// Why a subject of one label doesn't assign the element of the other, by whether that asks for `equal`.
fn new_reason(subject: &RangeLabel, asked: &RangeLabel, equal: bool) -> Option<Reason>
    ensures { result ≡ spec.new_reason subject.now asked.now.effective equal }
{
    if is_outside(&asked.effective, &subject.range) {
        Some(Reason::AskedOutside {
            asked: asked.effective,
            own: subject.range,
        })
    } else if equal && !privileged(subject) {
        Some(Reason::AsksEqual { own: *subject })
    } else {
        None
    }
}

/// Why by mac_lomac(4) a subject doesn't take or give an element: one that it doesn't dominate, or `equal` where it isn't `equal`
/// itself.
pub fn assign_reason(subject: &Elem, asked: &Option<Elem>) -> Option<Reason>
    ensures { result ≡ spec.assign_reason subject.now asked.now }
{
    match asked {
        None => None,
        Some(asked) if !dominates(subject, asked) => Some(Reason::AskedAbove {
            subject: *subject,
            asked: *asked,
        }),
        Some(asked) if is_equal(asked) && !is_equal(subject) => {
            Some(Reason::EqualAbove { subject: *subject })
        }
        Some(_) => None,
    }
}

/// Why by mac_lomac(4) a subject doesn't give an element to an object with the old one.
pub fn give_reason(subject: &Elem, old: &Elem, asked: &Option<Elem>) -> Option<Reason>
    ensures { result ≡ spec.give_reason subject.now old.now asked.now }
{
    if dominates(subject, old) {
        assign_reason(subject, asked)
    } else {
        Some(Reason::PresentAbove {
            subject: *subject,
            object: *old,
        })
    }
}

fn is_equal(element: &Elem) -> bool
    ensures { result ≡ is_equal element.now }
{
    matches!(element, Elem::Equal)
}

fn is_equal_element(element: &Option<Elem>) -> bool
    ensures { result ≡ option_map_or is_equal element.now false }
{
    matches!(element, Some(Elem::Equal))
}

/// Whether an element that is there lies outside the range; all lie outside where there is no range.
fn is_outside(element: &Option<Elem>, range: &Option<(Elem, Elem)>) -> bool
    ensures { result ≡ relabels.is_outside element.now range.now }
{
    let Some(element) = element else {
        return false;
    };
    match range {
        None => true,
        Some((low, high)) => !in_range(element, low, high),
    }
}

/// Whether a range that is there reaches out of the other.
fn reaches_out(inner: &Option<(Elem, Elem)>, range: &Option<(Elem, Elem)>) -> bool
    ensures { result ≡ relabels.reaches_out inner.now range.now }
{
    let Some((inner_low, inner_high)) = inner else {
        return false;
    };
    match range {
        None => true,
        Some((low, high)) => !range_in_range(inner_low, inner_high, low, high),
    }
}
