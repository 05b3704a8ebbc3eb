//! The low watermark of mac_lomac(4): what a subject becomes by what it observes.
ghost use Rattle.std.specs.Prelude.{◌≡◌, ◌≢◌, false, true, slice_index_or, option_copied};
ghost use Rattle.mf_elem.specs.declared.label.LabelValue.TheVariants.{Unset};
ghost use Rattle.mf_policy.specs.Answer.{range_label};
ghost use Rattle.mf_policy.specs.Lowering as spec;
ghost use Rattle.mf_policy.specs.Operations as operations;

use crate::operations::{Movement, row_of};
use mf_elem::{Elem, LabelValue, SLOTS, dominates};
use mf_item::CheckOp;

/// Whether a check of that operation lowers its subject once it has passed: whether information moves to it.
pub fn lowers(op: CheckOp) -> bool
    ensures { result ≡ spec.observes (operations.row_of op).movement }
{
    matches!(
        row_of(op).movement,
        Movement::ToSubject | Movement::BothWays
    )
}

/// Lowers the value of a subject's slot by that of an object which it has observed, and says whether that changed it.
pub fn lower_by(own: &mut LabelValue, other: &LabelValue) -> bool
    ensures value { own.new ≡ spec.lowered_value own.old other.now }
    ensures same { result ≡ false → own.new ≡ own.old }
    ensures other { result ≡ true → own.new ≢ own.old }
{
    match own {
        LabelValue::Range(label) => lower_element(&mut label.effective, element_in(other)),
        LabelValue::Unset | LabelValue::Number(_) => false,
    }
}

/// The same of elements. What is labelled `equal` isn't lowered, and lowers nothing.
fn lower_element(own: &mut Option<Elem>, other: Option<&Elem>) -> bool
    ensures value { own.new ≡ spec.lowered_element own.old (option_copied other.entry) }
    ensures same { result ≡ false → own.new ≡ own.old }
    ensures other { result ≡ true → own.new ≢ own.old }
{
    let (Some(subject), Some(object)) = (own.as_ref(), other) else {
        return false;
    };
    if dominates(object, subject) {
        return false;
    }
    *own = Some(*object);
    true
}

/// The effective element of a value, where it has one.
pub fn element_in(value: &LabelValue) -> Option<&Elem>
    ensures { option_copied result ≡ (range_label value.now).effective }
{
    match value {
        LabelValue::Range(label) => label.effective.as_ref(),
        LabelValue::Unset | LabelValue::Number(_) => None,
    }
}

/// The value of a slot of a label; Unset where there is no such slot.
pub fn value_in(label: &[LabelValue; SLOTS], slot: u8) -> LabelValue
    ensures { result ≡ slice_index_or label.now slot Unset }
{
    match label.get(slot as usize) {
        Some(value) => *value,
        None => LabelValue::Unset,
    }
}
