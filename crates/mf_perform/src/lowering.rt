//! What the checks of a call make of its caller: where mac_lomac is listed, each that passed lowers
//! it to the element of what it observed, where that doesn't dominate its own.
ghost use Rattle.std.specs.Prelude.{◌≡◌, Option, Some, IfNone, IfSome, IsSome, map, option_copied, option_map};
ghost use Rattle.mf_elem.specs.declared.label.LabelValue.{LabelValue};
ghost use Rattle.mf_elem.specs.declared.label.Request.{Request};
ghost use Rattle.mf_objects.specs.Changes.{with_change};
ghost use Rattle.mf_objects.specs.Labels.{with_value};
ghost use Rattle.mf_objects.specs.Live.{is_set, live_at};
ghost use Rattle.mf_objects.specs.Lives.{value_at, view_at};
ghost use Rattle.mf_policy.specs.Answer.{object_slot, range_label};
ghost use Rattle.mf_policy.specs.Lowering as lowering;
ghost use Rattle.mf_plan.specs.Outline.{AreLive, IsLiveCheck, item_asking};
ghost use Rattle.mf_perform.specs.Held as held;
ghost use Rattle.mf_perform.specs.Passed as spec;

use mf_elem::{Elem, LabelValue, RangeLabel, dominates};
use mf_objects::{Id, Objects};
use mf_plan::{Check, Outline, Reply, State};
use mf_policy::{element_in, lowers};

/// The checks that passed, by the reply.
pub fn passed<'a>(reply: &Reply, checks: &'a [Check]) -> &'a [Check]
    ensures { result.now ≡ spec.passed reply.now checks.now }
{
    match reply {
        Reply::Denied { item, .. } => {
            let passed = (*item as usize).saturating_sub(1);
            if passed < checks.len() {
                &checks[..passed]
            } else {
                checks
            }
        }
        Reply::Ok(_) | Reply::Refused(_) => checks,
    }
}

/// Lowers the caller by its checks that passed, also where the call is denied later, or refused, and
/// answers what it had in the slot of mac_lomac, where that is another now.
pub(crate) fn lower(state: &mut State, outline: &Outline, reply: &Reply) -> Option<LabelValue>
    requires live { AreLive state.old.objects outline.now.checks }
    requires caller { IfSome outline.now.found.caller
        (λ me. IsSome (live_at state.old.objects me)) }
    ensures lowered { state.new ≡ held.observed_in state.old outline.now reply.now }
    ensures none { IfNone result (state.new ≡ state.old) }
    ensures some { IfSome result
        (λ before. before ≡ held.lomac_value state.old outline.now.found.caller) }
{
    let slot = state.specs.lomac_slot()?;
    let caller = outline.found.caller?;
    let checks = passed(reply, outline.checks.as_slice());
    observe(&mut state.objects, caller, slot, checks)
}

/// Gives the caller back what it had in the slot of mac_lomac, where checks have changed that.
pub(crate) fn put_back(state: &mut State, caller: Option<Id>, before: Option<LabelValue>)
    requires live { IfSome caller (λ me. IsSome (live_at state.old.objects me)) }
    requires set { IfSome before
        (λ value. is_set value ≡ is_set (held.lomac_value state.old caller)) }
    ensures none { IfNone before (state.new ≡ state.old) }
    ensures some { IfSome before
        (λ value. state.new ≡ held.with_lomac_value value state.old caller) }
{
    if let (Some(slot), Some(me), Some(value)) = (state.specs.lomac_slot(), caller, before) {
        put(&mut state.objects, me, slot, value);
    }
}

/// Gives the caller's slot the value that is left of it by checks that passed, and answers what was
/// there, where that is another.
fn observe(objects: &mut Objects, caller: Id, slot: u8, checks: &[Check]) -> Option<LabelValue>
    requires caller { IsSome (live_at objects.old caller) }
    requires checks { AreLive objects.old checks.now }
    ensures observed { (asked : Option Request) → objects.new ≡ with_change (with_value slot
        (lowering.after_checks slot (value_at objects.old caller slot)
        (map (item_asking objects.old asked) checks.now))) objects.old caller }
    ensures none { IfNone result (objects.new ≡ objects.old) }
    ensures some { IfSome result (λ before. before ≡ value_at objects.old caller slot) }
{
    // Counting the entities shows the proof that their ids differ.
    let _live = objects.live();
    let own = objects.value_ref(caller, slot)?;
    let element = *lowered_by(objects, own, slot, checks)?;
    let before = *own;
    put(objects, caller, slot, with_element(&before, element));
    Some(before)
}

/// Gives a slot of the entity's label this value, which is set where the slot is. So no memory is
/// taken.
fn put(objects: &mut Objects, id: Id, slot: u8, value: LabelValue)
    requires live { IsSome (live_at objects.old id) }
    requires set { is_set value ≡ is_set (value_at objects.old id slot) }
    ensures { objects.new ≡ with_change (with_value slot value) objects.old id }
{
    // Counting the entities shows the proof that their ids differ.
    let _live = objects.live();
    if objects.value_ref(id, slot).is_some() {
        let _made = objects.set_label(id, slot, value);
    }
}

/// The value with another element, where it has any.
fn with_element(value: &LabelValue, element: Elem) -> LabelValue
    ensures { result ≡ held.with_element value.now (Some element) }
{
    match value {
        LabelValue::Range(label) => LabelValue::Range(RangeLabel {
            effective: Some(element),
            range: label.range,
        }),
        LabelValue::Unset | LabelValue::Number(_) => *value,
    }
}

/// The element to which checks lower the value, where they do. No label is copied.
fn lowered_by<'a>(
    objects: &'a Objects,
    own: &'a LabelValue,
    slot: u8,
    checks: &[Check],
) -> Option<&'a Elem>
    requires { AreLive objects.now checks.now }
    ensures { (asked : Option Request) → lowering.after_checks slot own.now
        (map (item_asking objects.now asked) checks.now)
        ≡ held.with_element own.now (option_copied result) }
{
    let first = element_in(own)?;
    let mut lowered = None;
    for check in checks {
        lowered = lowered_once(objects, first, lowered, slot, check);
    }
    lowered
}

/// The same after one check more, of an element that those before have lowered to another, or not.
fn lowered_once<'a>(
    objects: &'a Objects,
    first: &'a Elem,
    lowered: Option<&'a Elem>,
    slot: u8,
    check: &Check,
) -> Option<&'a Elem>
    requires { IsLiveCheck objects.now check.now }
    ensures { (asked : Option Request) → (own : LabelValue)
        → (range_label own).effective ≡ Some first.now
        → lowering.after_check slot (held.with_element own (option_copied lowered.entry))
        (item_asking objects.now asked check.now)
        ≡ held.with_element own (option_copied result) }
{
    if !lowers(check.op) {
        return lowered;
    }
    match seen(objects, check.object, slot) {
        Some(other) if !dominates(other, lowered.unwrap_or(first)) => Some(other),
        _ => lowered,
    }
}

/// The element of a check's object, where it has any.
fn seen(objects: &Objects, object: Option<Id>, slot: u8) -> Option<&Elem>
    requires { IfSome object (λ id. IsSome (live_at objects.now id)) }
    ensures { option_copied result
        ≡ (range_label (object_slot (option_map (view_at objects.now) object) slot)).effective }
{
    element_in(objects.value_ref(object?, slot)?)
}
