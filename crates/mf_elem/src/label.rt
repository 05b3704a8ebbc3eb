//! Labels as policies keep them, and as users ask for them.
ghost use Rattle.std.specs.Prelude.{◌≡◌, ◌↔◌, ◌||◌, IsTrue, false};
ghost use Rattle.std.specs.Option.{option_map_or};
ghost use Rattle.mf_elem.specs.Elem.{is_equal};
ghost use Rattle.mf_elem.specs.Label as spec;
ghost use Rattle.mf_elem.specs.declared.label.LabelValue.TheVariants.{Unset};

use crate::{Elem, in_range};

/// The number of label slots that an entity has.
pub const SLOTS: usize = 4;

/// The greatest partition number that a label text can name.
pub const LAST_PARTITION: u32 = 2_147_483_647;

/// A label of Biba, MLS or LOMAC: the effective element, and the range of elements that a subject may take, low end
/// first. In a request either may be missing; LOMAC has no range.
#[derive(Clone, Copy, PartialEq, Eq, Debug)]
pub struct RangeLabel {
    pub effective: Option<Elem>,
    pub range: Option<(Elem, Elem)>,
}

/// The value of one label slot.
#[derive(Clone, Copy, PartialEq, Eq, Debug)]
pub enum LabelValue {
    /// Not initialised.
    Unset,
    /// A label of Biba, MLS or LOMAC.
    Range(RangeLabel),
    /// A partition number of mac_partition; 0 is no partition.
    Number(u32),
}

impl Default for LabelValue {
    ghost is_default = { λ value. value ≡ Unset };

    fn default() -> LabelValue {
        LabelValue::Unset
    }
}

/// What a label text asks for, policy by policy.
#[derive(Clone, Copy, PartialEq, Eq, Debug)]
pub struct Request {
    pub biba: Option<RangeLabel>,
    pub mls: Option<RangeLabel>,
    /// An element without compartments.
    pub lomac: Option<Elem>,
    /// A partition number; 0 asks for no partition.
    pub partition: Option<u32>,
    /// Whether the text names a policy beside these four.
    pub other: bool,
}

impl Request {
    /// The request that names no policy.
    pub fn none() -> Request
        ensures { result ≡ spec.no_request }
    {
        Request {
            biba: None,
            mls: None,
            lomac: None,
            partition: None,
            other: false,
        }
    }

    /// Whether the two are one request.
    pub fn same(&self, other: &Request) -> bool
        ensures { IsTrue result ↔ (self.now ≡ other.now) }
    {
        same_part(&self.biba, &other.biba)
            && same_part(&self.mls, &other.mls)
            && self.lomac == other.lomac
            && self.partition == other.partition
            && self.other == other.other
    }
}

/// Whether the effective element or an end of the range is `equal`.
pub fn has_equal(l: &RangeLabel) -> bool
    ensures { result ≡ spec.has_equal l.now }
{
    is_equal_effective(&l.effective) || has_equal_end(&l.range)
}

/// Whether a subject with this label is privileged: some part is `equal`, or its range is exactly low to high. Such a
/// subject may ask for `equal` in a relabel, and mac_biba lets it load modules. Privilege alone doesn't exempt it from
/// the other checks.
pub fn privileged(l: &RangeLabel) -> bool
    ensures { result ≡ spec.is_privileged l.now }
{
    has_equal(l) || matches!(&l.range, Some((Elem::Low, Elem::High)))
}

/// Whether an entity may have this label: the effective element is there, and lies in the range where there is one.
pub fn is_valid(l: &RangeLabel) -> bool
    ensures { result ≡ spec.is_valid l.now }
{
    match (&l.effective, &l.range) {
        (None, _) => false,
        (Some(_), None) => true,
        (Some(effective), Some((low, high))) => in_range(effective, low, high),
    }
}

fn is_equal_effective(effective: &Option<Elem>) -> bool
    ensures { result ≡ option_map_or is_equal effective.now false }
{
    matches!(effective, Some(Elem::Equal))
}

fn has_equal_end(range: &Option<(Elem, Elem)>) -> bool
    ensures { result ≡ option_map_or (λ ends. is_equal ends.0 || is_equal ends.1) range.now false }
{
    matches!(range, Some((Elem::Equal, _)) | Some((_, Elem::Equal)))
}

impl RangeLabel {
    /// A label with an effective element alone, as objects have it.
    pub fn effective(element: Elem) -> RangeLabel
        ensures { result ≡ spec.element_alone element }
    {
        RangeLabel {
            effective: Some(element),
            range: None,
        }
    }

    /// A label with a range, as subjects have it.
    pub fn ranged(element: Elem, low: Elem, high: Elem) -> RangeLabel
        ensures { result ≡ record { effective = Some element; range = Some (low, high) } }
    {
        RangeLabel {
            effective: Some(element),
            range: Some((low, high)),
        }
    }

    /// The label with the parts that are given in place of its own.
    pub fn replaced_by(&self, given: &Option<RangeLabel>) -> RangeLabel
        ensures { result ≡ spec.replaced self.now given.now }
    {
        match given {
            None => *self,
            Some(given) => RangeLabel {
                effective: given.effective.or(self.effective),
                range: given.range.or(self.range),
            },
        }
    }

    /// Whether the two are one label.
    pub fn same(&self, other: &RangeLabel) -> bool
        ensures { IsTrue result ↔ (self.now ≡ other.now) }
    {
        self.effective == other.effective && self.range == other.range
    }
}

impl LabelValue {
    /// Whether the two are one value.
    pub fn same(&self, other: &LabelValue) -> bool
        ensures { IsTrue result ↔ (self.now ≡ other.now) }
    {
        match (self, other) {
            (LabelValue::Unset, LabelValue::Unset) => true,
            (LabelValue::Range(label), LabelValue::Range(theirs)) => label.same(theirs),
            (LabelValue::Number(number), LabelValue::Number(theirs)) => *number == *theirs,
            _ => false,
        }
    }
}

fn same_part(part: &Option<RangeLabel>, other: &Option<RangeLabel>) -> bool
    ensures { IsTrue result ↔ (part.now ≡ other.now) }
{
    match (part, other) {
        (None, None) => true,
        (Some(label), Some(theirs)) => label.same(theirs),
        _ => false,
    }
}
