//! The plans that steps keep.
ghost use Rattle.std.specs.Prelude.{◌≡◌, ◌<◌, length, map, slice_set, MatchOption, Some, None, is_some, IfOk};
ghost use Rattle.mf_core.specs.declared.progress.Turn.TheVariants as turn;
ghost use Rattle.mf_core.specs.CoreView.{run_state, turn_at};
ghost use Rattle.mf_core.specs.Next.{next_plan};
ghost use Rattle.mf_perform.specs.Verdict.{verdict_of};
ghost use Rattle.mf_plan.specs.Planned.{Plan};
ghost use Rattle.mf_steps.specs.StepRun.{kept_at};

use mf_calls::Task;
use mf_core::Core;
use mf_list::Listed;
use mf_names::Listing;
use mf_perform::Verdict;
use mf_plan::{Outline, Plan};
use mf_policy::Policy;
use std::alloc::{AllocError, Global};
use std::marker::Model;

/// Where the plans of a task's calls lie, one after another, since a plan is too large to be moved. With a verdict of the policies
/// the plan is kept; without one there is its room alone.
#[derive(Drop)]
pub(crate) struct PlanRoom {
    plan: Plan,
    verdict: Option<Verdict>,
}

/// The plan that is kept for each task, where there is one. Contracts see the list.
#[derive(Drop)]
pub(crate) struct KeptPlans {
    rooms: Vec<PlanRoom>,
}

impl Model for KeptPlans {
    ghost use Rattle.std.specs.Prelude.{map, List, Option};
    ghost use Rattle.mf_steps.specs.StepRun.{KeptPlan};
    ghost use Rattle.mf_steps.specs.PlanRoom.{kept_in};

    ghost Value = { List (Option KeptPlan) };

    ghost view = { λ a. map kept_in a.rooms.items };
}

impl KeptPlans {
    /// None for each of these tasks.
    pub fn for_tasks(alloc: Global, tasks: &Listing<Task>) -> Result<Self, AllocError>
        ensures { IfOk result (λ kept. kept ≡ map (λ task. None) tasks.now) }
    {
        let mut rooms = Vec::new(alloc);
        for _task in tasks.as_slice() {
            rooms.push(PlanRoom {
                plan: Plan::new(),
                verdict: None,
            })?;
        }
        Ok(KeptPlans { rooms })
    }

    /// Whether a plan is kept for the task.
    pub fn has(&self, task: usize) -> bool
        requires { task < length self.now }
        ensures { result ≡ is_some (kept_at self.now task) }
    {
        self.rooms[task].verdict.is_some()
    }

    /// Keeps the plan of the call that the task has entered for, from the core's present state, with the verdict of these policies
    /// on it, in place of the plan that the task may have.
    pub fn keep<P: Policy>(&mut self, task: u32, core: &Core<'_>, list: &Listed<'_, P>)
        requires place { task < length self.old }
        requires task { task < length core.now.script.tasks }
        requires turn { turn_at core.now task ≡ turn.Entered }
        ensures { (plan : Plan) × (next_plan core.now.script (run_state core.now) task ≡ Some plan)
            × (self.new ≡ slice_set self.old task
            (Some (record { plan = plan; verdict = verdict_of list.now plan }))) }
    {
        let room = &mut self.rooms[task as usize];
        core.plan(task, &mut room.plan, &mut Outline::new());
        room.verdict = Some(Core::walk(list, &room.plan));
    }

    /// The plan that is kept for the task, and the policies' verdict on it.
    pub fn get(&self, task: usize) -> Option<(&Plan, &Verdict)>
        requires { task < length self.now }
        ensures { MatchOption result (kept_at self.now task ≡ None) (λ kept. kept_at self.now task
            ≡ Some (record { plan = kept.0.now; verdict = kept.1.now })) }
    {
        let room = &self.rooms[task];
        let verdict = room.verdict.as_ref()?;
        Some((&room.plan, verdict))
    }

    /// Keeps no plan for the task any longer.
    pub fn forget(&mut self, task: usize)
        requires { task < length self.old }
        ensures { self.new ≡ slice_set self.old task None }
    {
        self.rooms[task].verdict = None;
    }
}
