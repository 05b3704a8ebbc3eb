//! Plans of a caller that mac_lomac lowers: each check finds it as those before have lowered it.
ghost use Rattle.std.specs.Option.{option_map_or};
ghost use Rattle.std.specs.Prelude.{◌≡◌, ℕ, ◌<◌, ◌≤◌, ◌+◌, false, All, List, length, slice_index_or, take, IfSome, IsSome};
ghost use Rattle.mf_item.specs.declared.view.SubjectView.{SubjectView};
ghost use Rattle.mf_objects.specs.Live.{live_at};
ghost use Rattle.mf_objects.specs.Lives.{value_at};
ghost use Rattle.mf_policy.specs.Lowering as policies;
ghost use Rattle.mf_plan.specs.Items.{HaveSubjects, item_with, items_with, nobody};
ghost use Rattle.mf_plan.specs.Lowering as spec;
ghost use Rattle.mf_plan.specs.Outline.{AreLive, outlined};
ghost use Rattle.mf_plan.specs.Plan.{lowering_by};
ghost use Rattle.mf_plan.specs.Viewing.{FindsItWith, GrowsTo, while_caller};

use crate::outline::Outline;
use crate::plan::MOST_SUBJECTS;
use crate::state::State;
use crate::views::{CheckView, Subjects, fill_views};
use mf_cred::{ArrayVec, Duplicate};
use mf_elem::LabelValue;
use mf_item::SubjectView;
use mf_objects::Id;
use mf_policy::{lower_by, lowers, value_in};

/// The subject with this value in the slot of its label.
fn with_slot(subject: &SubjectView, slot: u8, value: &LabelValue) -> SubjectView
    ensures { result ≡ spec.with_slot slot value.now subject.now }
{
    let mut view = subject.copy();
    if (slot as usize) < view.label.len() {
        view.label[slot as usize] = *value;
    }
    view
}

/// The place of the check's subject, once the caller has this value. The caller is kept once more where it was seen with another,
/// which it can't have been before it was lowered.
fn subject_for(
    slot: u8,
    caller: u32,
    value: &LabelValue,
    is_lowered: bool,
    subjects: &mut Subjects,
    at: usize,
) -> usize
    requires at { at < length subjects.old }
    requires room { length subjects.old < MOST_SUBJECTS }
    requires first { is_lowered ≡ false → FindsItWith slot caller value.now
        (slice_index_or subjects.old at nobody) }
    ensures place { slice_index_or subjects.new result nobody
        ≡ while_caller slot caller value.now (slice_index_or subjects.old at nobody) }
    ensures within { result < length subjects.new }
    ensures grows { GrowsTo subjects.old subjects.new }
    ensures few { length subjects.new ≤ length subjects.old + 1 }
{
    let subject = &subjects.as_slice()[at];
    if !is_lowered || subject.id != caller || value_in(&subject.label, slot).same(value) {
        return at;
    }
    let view = with_slot(subject, slot, value);
    subjects.push(view);
    subjects.len() - 1
}

/// Lowers the caller's value by the check, once that has passed, and says whether that changed it.
fn lower_once(slot: u8, value: &mut LabelValue, check: &CheckView) -> bool
    ensures value { (subjects : List SubjectView) → value.new
        ≡ policies.after_check slot value.old (item_with subjects check.now) }
    ensures same { result ≡ false → value.new ≡ value.old }
{
    match &check.object {
        Some(object) if lowers(check.op) => match object.label.get(slot as usize) {
            Some(other) => lower_by(value, other),
            None => false,
        },
        _ => false,
    }
}

/// Has each check find the caller as those before it lower it; at first the caller has this value, as each check finds it so far.
fn lower(slot: u8, caller: u32, own: LabelValue, subjects: &mut Subjects, checks: &mut [CheckView])
    requires room { length subjects.old + length checks.old ≤ MOST_SUBJECTS }
    requires places { HaveSubjects subjects.old checks.old }
    requires first { All (λ item. FindsItWith slot caller own item.subject)
        (items_with subjects.old checks.old) }
    ensures items { items_with subjects.new checks.new
        ≡ spec.each_lowered slot caller own (items_with subjects.old checks.old) }
    ensures places { HaveSubjects subjects.new checks.new }
{
    let mut value = own;
    let mut is_lowered = false;
    for place in 0..checks.len() {
        let check = &mut checks[place];
        check.subject = subject_for(slot, caller, &value, is_lowered, subjects, check.subject);
        is_lowered |= lower_once(slot, &mut value, check);
    }
}

/// Has each check find the caller as it comes to it: where mac_lomac is listed, as those before it lower it.
fn lower_listed(
    state: &State,
    caller: Option<Id>,
    subjects: &mut Subjects,
    checks: &mut [CheckView],
)
    requires lives { IfSome caller (λ id. IsSome (live_at state.now.objects id)) }
    requires room { length subjects.old + length checks.old ≤ MOST_SUBJECTS }
    requires places { HaveSubjects subjects.old checks.old }
    requires first { IfSome caller (λ me. (slot : ℕ)
        → All (λ item. FindsItWith slot me.0 (value_at state.now.objects me slot) item.subject)
        (items_with subjects.old checks.old)) }
    ensures items { items_with subjects.new checks.new
        ≡ option_map_or (λ me. spec.lowering state.now me (items_with subjects.old checks.old))
        caller (items_with subjects.old checks.old) }
    ensures places { HaveSubjects subjects.new checks.new }
{
    if let (Some(slot), Some(caller)) = (state.specs.lomac_slot(), caller) {
        let own = own_value(state, caller, slot);
        lower(slot, caller.number(), own, subjects, checks);
    }
}

/// What the caller has in the slot; Unset where there is no such slot. It stands apart, so that a plan needs no room for a value
/// where mac_lomac isn't listed.
fn own_value(state: &State, caller: Id, slot: u8) -> LabelValue
    requires { IsSome (live_at state.now.objects caller) }
    ensures { result ≡ value_at state.now.objects caller slot }
{
    match state.objects.value_ref(caller, slot) {
        Some(value) => *value,
        None => LabelValue::Unset,
    }
}

/// Makes the first views those of the outline's checks, as its caller comes to them.
pub(crate) fn fill_lowered(
    state: &State,
    outline: &Outline,
    subjects: &mut Subjects,
    seen: &mut [CheckView],
)
    requires room { length outline.now.checks ≤ length seen.old }
    requires live { AreLive state.now.objects outline.now.checks }
    requires caller { IfSome outline.now.found.caller
        (λ id. IsSome (live_at state.now.objects id)) }
    ensures items { items_with subjects.new (take (length outline.now.checks) seen.new)
        ≡ (lowering_by state.now outline.now.found.caller
        (outlined state.now.objects outline.now)).items }
    ensures places { HaveSubjects subjects.new (take (length outline.now.checks) seen.new) }
{
    let checks = outline.checks.as_slice();
    fill_views(
        &state.objects,
        &outline.found.request,
        checks,
        subjects,
        seen,
    );
    let caller = outline.found.caller;
    lower_listed(state, caller, subjects, &mut seen[..checks.len()]);
}
