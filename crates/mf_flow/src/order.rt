//! The order of elements in which the sources of a party are listed.
ghost use Rattle.std.specs.Prelude.{◌≡◌};
ghost use Rattle.mf_flow.specs.Order as spec;

use mf_elem::Elem;
use std::cmp::Ordering;

/// Low first, then the grades by grade and by their rising compartments, then high. Equal comes last.
pub fn compare(a: &Elem, b: &Elem) -> Ordering
    ensures { result ≡ spec.elem_cmp a.now b.now }
{
    match (a, b) {
        (Elem::Low, Elem::Low) | (Elem::High, Elem::High) | (Elem::Equal, Elem::Equal) => {
            Ordering::Equal
        }
        (Elem::Grade(grade, comps), Elem::Grade(other, others)) => match grade.cmp(other) {
            Ordering::Equal => comps.compare(others),
            unequal => unequal,
        },
        (Elem::Low, _)
        | (Elem::Grade(..), Elem::High)
        | (Elem::Grade(..), Elem::Equal)
        | (Elem::High, Elem::Equal) => Ordering::Less,
        _ => Ordering::Greater,
    }
}
