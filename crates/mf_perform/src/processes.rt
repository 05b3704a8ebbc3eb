//! What the calls on processes change.
ghost use Rattle.std.specs.Prelude.{◌≡◌, ◌<◌, OnOk, OnErr, IsSome};
ghost use Rattle.mf_objects.specs.declared.limits.TheConstants.{ID_LIMIT};
ghost use Rattle.mf_objects.specs.Live.{cred_at, is_process, label_at, live_at};
ghost use Rattle.mf_objects.specs.Lives.{IsLive};
ghost use Rattle.mf_objects.specs.Changes.{new_process};
ghost use Rattle.mf_plan.specs.Names as names;
ghost use Rattle.mf_calls.specs.WellFormed.{IsName};
ghost use Rattle.mf_policy.specs.NewLabels.{new_label};
ghost use Rattle.mf_policy.specs.declared.labels.Origin.TheVariants.{Maker};
ghost use Rattle.mf_plan.specs.Effect.Effect.{End, Make};
ghost use Rattle.mf_perform.specs.Suits.{Suits};
ghost use Rattle.mf_perform.specs.Effect.{after};

use mf_elem::{LabelValue, SLOTS};
use mf_item::Kind;
use mf_objects::Id;
use mf_plan::{State, child_name};
use mf_policy::{Origin, new_label};
use std::alloc::{AllocError, Global};

/// The label of an entity that the process makes.
pub(crate) fn label_from(state: &State, maker: Id, kind: Kind) -> [LabelValue; SLOTS]
    requires { IsSome (live_at state.now.objects maker) }
    ensures { result ≡ new_label state.now.specs kind (Maker (label_at state.now.objects maker)) }
{
    let origin = Origin::Maker(state.objects.label(maker));
    new_label(&state.specs, kind, &origin)
}

/// Makes the task's child of that name, with the caller's credential. If memory runs out, the state
/// is unchanged.
pub(crate) fn fork(
    alloc: Global,
    state: &mut State,
    task: &str,
    caller: Id,
    child: &str,
) -> Result<(), AllocError>
    requires task { IsName task.now }
    requires child { IsName child.now }
    requires caller { IsLive is_process state.old.objects caller }
    requires room { Suits state.old (Make
        (names.child_name task.now child.now) (new_process (cred_at state.old.objects caller))) }
    requires next { state.old.objects.next < ID_LIMIT }
    ensures ok { OnOk result (state.new
        ≡ after state.old caller (Make (names.child_name task.now child.now)
        (new_process (cred_at state.old.objects caller)))) }
    ensures err { OnErr result (state.new ≡ state.old) }
{
    let name = child_name(task, child);
    let cred = state.objects.cred(caller);
    let label = label_from(state, caller, Kind::Process);
    state
        .objects
        .add_process(alloc, name.as_str(), &cred, &label)?;
    Ok(())
}

/// Ends the process.
pub(crate) fn exit(state: &mut State, caller: Id)
    requires { IsLive is_process state.old.objects caller }
    ensures { state.new ≡ after state.old caller (End caller) }
{
    state.objects.remove_process(caller);
}
