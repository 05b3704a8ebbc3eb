//! Labels as calls show them and change them.
ghost use Rattle.std.specs.Prelude.{◌≡◌, ◌<◌, ◌≤◌, ◌+◌, ◌∷◌, ◌++◌, [], length, false, IsOk, IsSome, OnOk, OnErr};
ghost use Rattle.mf_elem.specs.declared.label.LabelValue.TheVariants.{Unset};
ghost use Rattle.mf_slots.specs.Zones.{given};
ghost use Rattle.mf_objects.specs.Live.{label_at, live_at};
ghost use Rattle.mf_objects.specs.Lives.{value_at};
ghost use Rattle.mf_policy.specs.Relabelled.{relabelled_value};
ghost use Rattle.mf_plan.specs.Payloads as spec;
ghost use Rattle.mf_objects.specs.declared.id.Id.{Id};
ghost use Rattle.mf_perform.specs.Effect.{after, takes_memory};
ghost use Rattle.mf_perform.specs.Found.{label_parts_of, relabelling};
ghost use Rattle.mf_perform.specs.Suits.{Suits};

use mf_cred::ArrayVec;
use mf_elem::{LabelValue, Request, SLOTS};
use mf_errno::Module;
use mf_item::Kind;
use mf_objects::Id;
use mf_plan::{LabelPart, State};
use mf_policy::{SpecList, labels_kind, sets_value, value_after, value_in};
use std::alloc::AllocError;

/// The parts of the label of an entity of that kind: one for each listed policy that labels the
/// kind.
pub(crate) fn label_parts(
    specs: &SpecList,
    kind: Kind,
    label: &[LabelValue; SLOTS],
) -> ArrayVec<LabelPart, SLOTS>
    ensures { result ≡ spec.label_parts specs.now kind label.now }
{
    // No other module labels anything.
    let mut parts = ArrayVec::new();
    push_part(specs, kind, label, Module::Biba, &mut parts);
    push_part(specs, kind, label, Module::Mls, &mut parts);
    push_part(specs, kind, label, Module::Lomac, &mut parts);
    push_part(specs, kind, label, Module::Partition, &mut parts);
    parts
}

/// Adds the module's part, where it is listed and labels the kind.
fn push_part(
    specs: &SpecList,
    kind: Kind,
    label: &[LabelValue; SLOTS],
    module: Module,
    parts: &mut ArrayVec<LabelPart, SLOTS>,
)
    requires { length parts.old < SLOTS }
    ensures parts { parts.new
        ≡ parts.old ++ label_parts_of specs.now kind label.now («module» ∷ []) }
    ensures few { length parts.new ≤ length parts.old + 1 }
{
    if !labels_kind(module, kind) {
        return;
    }
    if let Some(part) = label_part(specs, label, module) {
        parts.push(part);
    }
}

fn label_part(specs: &SpecList, label: &[LabelValue; SLOTS], module: Module) -> Option<LabelPart>
    ensures { result ≡ spec.label_part specs.now label.now «module» }
{
    let place = specs.find(module)?;
    let slot = specs.registration(place).slot.unwrap_or(0);
    let value = shown(value_in(label, slot));
    Some(LabelPart { module, value })
}

/// The value as it is shown: an unset slot, of a policy that was loaded after the entity came,
/// counts as no partition.
fn shown(value: LabelValue) -> LabelValue
    ensures { result ≡ spec.shown value }
{
    match value {
        LabelValue::Unset => LabelValue::Number(0),
        LabelValue::Range(_) | LabelValue::Number(_) => value,
    }
}

/// Gives the entity the label that is asked for. Slots that are made first take memory; if it runs
/// out, the state is unchanged.
pub(crate) fn relabel(
    state: &mut State,
    target: Option<Id>,
    asked: &Option<Request>,
) -> Result<(), AllocError>
    requires { Suits state.old (relabelling target asked.now) }
    ensures ok { OnOk result ((me : Id)
        → state.new ≡ after state.old me (relabelling target asked.now)) }
    ensures err { OnErr result (state.new ≡ state.old) }
    ensures memory { takes_memory (relabelling target asked.now) ≡ false → IsOk result }
{
    if let (Some(id), Some(request)) = (target, asked) {
        let mut values = [LabelValue::Unset; SLOTS];
        give(state, id, request, 0, &mut values[0]);
        give(state, id, request, 1, &mut values[1]);
        give(state, id, request, 2, &mut values[2]);
        give(state, id, request, 3, &mut values[3]);
        state.objects.relabel(id, &values)?;
    }
    Ok(())
}

/// Puts down the value that the relabel sets in the entity's slot. Where it sets none, Unset stays
/// there, so that the slot isn't written.
fn give(state: &State, id: Id, request: &Request, slot: u8, value: &mut LabelValue)
    requires live { IsSome (live_at state.now.objects id) }
    requires slot { slot < SLOTS }
    requires unset { value.old ≡ Unset }
    ensures { given value.new (value_at state.now.objects id slot)
        ≡ relabelled_value state.now.specs request.now (label_at state.now.objects id) slot }
{
    if let Some(module) = state.specs.holder(slot) {
        if sets_value(module, request) {
            *value = value_after(module, request, &state.objects.value(id, slot));
        }
    }
}
