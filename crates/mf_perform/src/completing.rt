//! A call that is done, denied or refused: what it makes of the state.
ghost use Rattle.std.specs.Prelude.{◌≡◌, ◌+◌, ◌<◌, ◌≤◌, IsOk, OnOk, OnErr, false};
ghost use Rattle.mf_objects.specs.declared.limits.TheConstants.{ID_LIMIT};
ghost use Rattle.mf_calls.specs.Tasks.{is_change};
ghost use Rattle.mf_calls.specs.WellFormed.{IsFormedLine, IsName};
ghost use Rattle.mf_plan.specs.OutlineOf.{IsOutlineOf};
ghost use Rattle.mf_plan.specs.Plan.{call_row};
ghost use Rattle.mf_perform.specs.Effect.{takes_memory};
ghost use Rattle.mf_perform.specs.OneCall.{call_reply, call_state};
ghost use Rattle.mf_perform.specs.Refused.{is_ok};

use crate::descriptors::opening_of;
use crate::lowering::{lower, put_back};
use crate::performing::perform;
use mf_calls::Line;
use mf_plan::{Outline, Reply, State};
use std::alloc::{AllocError, Global};

/// What the call of a line of the task makes of the state by its reply, which must be that to the
/// call in this state: its checks that passed lower the caller, where mac_lomac is listed, whatever
/// the reply; and where that is Ok, the call is done. If memory runs out, the state is unchanged.
pub fn complete(
    alloc: Global,
    state: &mut State,
    task: &str,
    line: &Line,
    outline: &Outline,
    reply: &Reply,
) -> Result<(), AllocError>
    requires task { IsName task.now }
    requires line { IsFormedLine line.now }
    requires entry { is_change line.now.call ≡ false }
    requires reply { reply.now ≡ call_reply state.old task.now line.now.child line.now.call }
    requires outline { IsOutlineOf state.old task.now line.now.child line.now.call outline.now }
    requires next { state.old.objects.next < ID_LIMIT }
    ensures ok { OnOk result (state.new
        ≡ call_state state.old task.now line.now.child line.now.call) }
    ensures err { OnErr result (state.new ≡ state.old) }
    ensures ids { state.new.objects.next ≤ state.old.objects.next + 1 }
    ensures rises { state.old.objects.next ≤ state.new.objects.next }
    ensures booted { state.new.booted ≡ state.old.booted }
    ensures memory { is_ok reply.now ≡ false → IsOk result }
    ensures effect { takes_memory (call_row state.old task.now line.now.child line.now.call).effect
        ≡ false → IsOk result }
{
    match reply {
        Reply::Ok(_) => {
            // Counting the entities shows the proof that what was found among them lives.
            let _live = state.objects.live();
            let found = &outline.found;
            let opening = opening_of(state, found, &line.call);
            let before = lower(state, outline, reply);
            if let Err(error) = perform(alloc, state, task, line, found, &opening) {
                put_back(state, found.caller, before);
                return Err(error);
            }
        }
        Reply::Denied { .. } | Reply::Refused(_) => {
            let _before = lower(state, outline, reply);
        }
    }
    Ok(())
}
