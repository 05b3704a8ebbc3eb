//! The low watermark of mac_lomac(4): what is left of a subject's element after it has observed an object.
ghost use Rattle.std.specs.Prelude.{◌≡◌, option_copied, slice_index_or};
ghost use Rattle.mf_elem.specs.declared.label.LabelValue.TheVariants.{Unset};
ghost use Rattle.mf_policy.specs.Answer.{object_slot};
ghost use Rattle.mf_policy.specs.Lowering as spec;

use crate::columns::moves_to_subject;
use crate::elements::element_in;
use mf_elem::{Elem, LabelValue, RangeLabel, SLOTS, dominates};
use mf_item::{Item, ObjectView};

/// What a subject has in the slot of mac_lomac once the check has passed, by what it had there before.
pub fn lowered_by(slot: u8, value: &LabelValue, item: &Item) -> LabelValue
    ensures { result ≡ spec.after_check slot value.now item.now }
{
    if moves_to_subject(item.op()) {
        lowered_value(value, &seen_in(item.object(), slot))
    } else {
        *value
    }
}

/// A value, after its subject has observed an object with the other.
fn lowered_value(own: &LabelValue, other: &LabelValue) -> LabelValue
    ensures { result ≡ spec.lowered_value own.now other.now }
{
    match own {
        LabelValue::Range(label) => LabelValue::Range(RangeLabel {
            effective: least(&label.effective, element_in(other)),
            range: label.range,
        }),
        LabelValue::Unset | LabelValue::Number(_) => *own,
    }
}

/// The object's element where it doesn't dominate the subject's, and else the subject's own, which may be none.
fn least(subject: &Option<Elem>, object: Option<&Elem>) -> Option<Elem>
    ensures { result ≡ spec.lowered_element subject.now (option_copied object.entry) }
{
    match (subject, object) {
        (Some(own), Some(other)) if !dominates(other, own) => Some(*other),
        _ => *subject,
    }
}

/// The value in a slot of the object; unset where there is no object, or no such slot.
fn seen_in(object: Option<&ObjectView>, slot: u8) -> LabelValue
    ensures { result ≡ object_slot (option_copied object.entry) slot }
{
    match object {
        Some(view) => value_of(&view.label, slot),
        None => LabelValue::Unset,
    }
}

fn value_of(label: &[LabelValue; SLOTS], slot: u8) -> LabelValue
    ensures { result ≡ slice_index_or label.now slot Unset }
{
    match label.get(slot as usize) {
        Some(value) => *value,
        None => LabelValue::Unset,
    }
}
