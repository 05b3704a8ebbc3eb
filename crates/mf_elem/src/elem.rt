//! Elements of a label, which of them dominate which, and which lie in a range.
ghost use Rattle.std.specs.Prelude.{◌≡◌};
ghost use Rattle.mf_elem.specs.Elem as spec;

use crate::Comps;

/// The greatest grade.
pub const LAST_GRADE: u16 = 65535;

/// An element of a Biba, MLS or LOMAC label, as maclabel(7) writes it: `low`, `high`, `equal`, or a grade with its
/// compartments, of which LOMAC has none. The order is that of integrity in mac_biba(4) and mac_lomac(4) and of
/// sensitivity in mac_mls(4).
#[derive(Clone, Copy, PartialEq, Eq, Debug)]
pub enum Elem {
    /// Below every grade, the grade 0 without compartments too.
    Low,
    /// Above every grade.
    High,
    /// Exempt: it dominates every element, and every element dominates it.
    Equal,
    /// A grade, at most `LAST_GRADE`.
    Grade(u16, Comps),
}

/// Whether the first dominates the second. Not transitive: low dominates equal and equal dominates high, but low
/// doesn't dominate high.
pub fn dominates(a: &Elem, b: &Elem) -> bool
    ensures { result ≡ spec.dominates a.now b.now }
{
    match (a, b) {
        (Elem::Equal, _) | (_, Elem::Equal) | (_, Elem::Low) | (Elem::High, _) => true,
        (Elem::Grade(grade, comps), Elem::Grade(other, others)) => {
            *other <= *grade && comps.contains(others)
        }
        _ => false,
    }
}

/// Whether the two are of the same level: one is `equal`, or they are the same element.
pub fn same_level(a: &Elem, b: &Elem) -> bool
    ensures { result ≡ spec.same_level a.now b.now }
{
    match (a, b) {
        (Elem::Equal, _) | (_, Elem::Equal) => true,
        (Elem::Low, Elem::Low) | (Elem::High, Elem::High) => true,
        (Elem::Grade(grade, comps), Elem::Grade(other, others)) => {
            *grade == *other && comps.contains(others) && others.contains(comps)
        }
        _ => false,
    }
}

/// Whether the element has no compartments, as those of mac_lomac.
pub fn is_plain(e: &Elem) -> bool
    ensures { result ≡ spec.is_plain e.now }
{
    match e {
        Elem::Grade(_, comps) => comps.is_empty(),
        _ => true,
    }
}

/// Whether the element lies in the range from `low` to `high`, whose ends belong to it. The ends needn't be in order: a
/// range whose low end is above its high end holds no grade.
pub fn in_range(e: &Elem, low: &Elem, high: &Elem) -> bool
    ensures { result ≡ spec.in_range e.now low.now high.now }
{
    dominates(high, e) && dominates(e, low)
}

/// Whether the range from `l` to `h` lies in the range from `low` to `high`.
pub fn range_in_range(l: &Elem, h: &Elem, low: &Elem, high: &Elem) -> bool
    ensures { result ≡ spec.range_in_range l.now h.now low.now high.now }
{
    dominates(high, h) && dominates(l, low)
}
