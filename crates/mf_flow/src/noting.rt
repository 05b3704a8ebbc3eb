//! What is noted of a call's sources as it is committed.
ghost use Rattle.std.specs.Prelude.{◌≡◌, map, IsTrue};
ghost use Rattle.std.specs.List.{AllByRecursion};
ghost use Rattle.std.specs.Option.{option_zip};
ghost use Rattle.mf_calls.specs.WellFormed.{IsFormedLine, IsName};
ghost use Rattle.mf_plan.specs.Outline.{item_of};
ghost use Rattle.mf_perform.specs.Passed.{passed};
ghost use Rattle.mf_flow.specs.Rows as spec;
ghost use Rattle.mf_flow.specs.Transfers.{descriptor_of};

use crate::following::{Flow, move_passed, settle_each};
use mf_calls::Line;
use mf_core::KeptReply;
use mf_objects::Objects;
use mf_plan::{Found, Outline, State};
use std::alloc::Global;

/// Notes what the checks of a call that passed move. False where nothing is tracked, or memory runs out.
pub(crate) fn note_moves(
    alloc: Global,
    state: &State,
    task: &str,
    line: &Line,
    outline: &Outline,
    reply: &KeptReply,
    is_tracked: bool,
    flows: &mut Vec<Flow>,
) -> bool
    requires task { IsName task.now }
    requires line { IsFormedLine line.now }
    requires slots { IsTrue is_tracked → AllByRecursion spec.HasLabelSlot flows.old.items }
    ensures { IsTrue result → IsTrue is_tracked × spec.EachBecomes (λ f new. new
        ≡ spec.flow_moved state.now (descriptor_of state.now task.now line.now)
        (map (item_of state.now.objects) (passed reply.now outline.now.checks)) f)
        flows.old.items flows.new.items }
{
    is_tracked && move_passed(alloc, state, task, line, outline, reply, flows).is_ok()
}

/// Notes what is left of a call, where what it moves was noted. False where nothing is tracked, or memory runs out: the sets are
/// freed then, since they are those of no history any more.
pub(crate) fn note_rest(
    alloc: Global,
    next: u32,
    objects: &Objects,
    found: &Found,
    is_done: bool,
    is_noted: bool,
    flows: &mut Vec<Flow>,
) -> bool
    requires { IsTrue is_noted → AllByRecursion spec.HasLabelSlot flows.old.items }
    ensures { IsTrue result → IsTrue is_noted × spec.EachBecomes (λ f new. spec.IsKept objects.now
        (spec.flow_settled next objects.now found.now.caller
        (spec.where_done is_done (option_zip found.now.target found.now.request)) f) new)
        flows.old.items flows.new.items }
{
    if is_noted && settle_each(alloc, next, objects, found, is_done, flows).is_ok() {
        return true;
    }
    *flows = Vec::new(alloc);
    false
}
