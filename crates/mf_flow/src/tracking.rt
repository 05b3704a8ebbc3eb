//! A core with the sources along its history, where what each call moves is noted as the call is committed, and with the outline of the
//! call that was planned last.
ghost use Rattle.std.specs.Prelude.{◌≡◌, ◌+◌, ◌<◌, ◌⊎◌, ◌↔◌, [], false, true, length, IfOk, IsOk, IsTrue, OnErr, OnOk, Some};
ghost use Rattle.mf_plan.specs.declared.plan.Tail.TheVariants.{Do};
ghost use Rattle.mf_plan.specs.declared.reply.Payload.TheVariants as payload;
ghost use Rattle.mf_plan.specs.declared.reply.Reply.{Reply};
ghost use Rattle.mf_perform.specs.Refused.{is_ok};
ghost use Rattle.mf_perform.specs.Reply.{reply_to};
ghost use Rattle.mf_perform.specs.Verdict.{verdict_of};
ghost use Rattle.mf_core.specs.declared.history.Event.TheVariants as event;
ghost use Rattle.mf_core.specs.declared.progress.Commit.TheVariants as commit;
ghost use Rattle.mf_core.specs.declared.progress.Phase.TheVariants as phase;
ghost use Rattle.mf_core.specs.declared.progress.Turn.TheVariants as turn;
ghost use Rattle.mf_core.specs.Advances.{Advances, left};
ghost use Rattle.mf_core.specs.CoreView.{AdvancesBy, AdvancesOn, Changes, Commits, IsCurrent, done_of, lines_changed, lines_left, progress_of, run_state, specs_of, turn_at, with_next};
ghost use Rattle.mf_core.specs.LegalHistory.{next_number, next_reply};
ghost use Rattle.mf_core.specs.Next.{next_plan};
ghost use Rattle.mf_core.specs.NextFound.{IsNextFound, IsNextOutline};
ghost use Rattle.mf_core.specs.Policies.{AreOf, StaysWhileWaiting};
ghost use Rattle.mf_core.specs.Progress.{progress_at};
ghost use Rattle.mf_flow.specs.Laws.{AreInOrder};
ghost use Rattle.mf_flow.specs.Rows as spec;
ghost use Rattle.mf_flow.specs.Table.{table_of};

use crate::following::Flow;
use crate::noting::{note_moves, note_rest};
use crate::table::{Table, list_flows, opening_flows, sourced, sources};
use mf_core::{ChangeOutcome, Commit, Core, KeptReply};
use mf_list::{Catalogue, Fixed, Listed, PolicyList};
use mf_perform::Verdict;
use mf_plan::{Outline, Plan};
use mf_policy::Policy;
use std::alloc::{AllocError, Global};
use std::marker::Model;

/// A core, with the sources along its history while there is memory for them, and the outline of the call that was planned last.
/// Contracts see the core.
#[derive(Drop)]
pub struct TrackedCore<'s> {
    core: Core<'s>,
    flows: Vec<Flow>,
    /// Whether the flows are those of the history. They no longer are once memory ran out for them.
    is_tracked: bool,
    /// That of the last call that was planned or compared, whose room is used again.
    outline: Outline,
    /// The task whose call was planned last, until the next plan, commit or event: the outline is that of its call.
    planned: Option<u32>,
    /// The plan of the last change, whose room is used again.
    change: Plan,
}

impl<'s> Model for TrackedCore<'s> {
    ghost use Rattle.std.specs.Prelude.{IfSome, IsTrue};
    ghost use Rattle.mf_core.specs.CoreView.{CoreView, run_state};
    ghost use Rattle.mf_core.specs.NextFound.{IsNextOutline};
    ghost use Rattle.mf_flow.specs.Rows.{AreSourcesOf};

    ghost Value = { CoreView };

    ghost view = { λ t. t.core };

    ghost invariant = { λ t.
        (IsTrue t.is_tracked → AreSourcesOf t.core.script t.core.history t.flows.items)
        × IfSome t.planned
        (λ task. IsNextOutline t.core.script (run_state t.core) task t.outline) };
}

impl<'s> TrackedCore<'s> {
    /// A core before the first event of its script, where each party has its own element as its only source. Where no policy has
    /// sources there is nothing to track. The error is want of memory.
    pub fn of(alloc: Global, core: Core<'s>) -> Result<TrackedCore<'s>, AllocError>
        requires { core.history.events.list ≡ [] }
        ensures { IfOk result (λ tracked. tracked ≡ core.entry) }
    {
        let booted = sourced(alloc, &core.history().boots)?;
        let flows = opening_flows(alloc, &booted, &core.state().objects)?;
        let is_tracked = !flows.is_empty();
        Ok(TrackedCore {
            core,
            flows,
            is_tracked,
            outline: Outline::new(),
            planned: None,
            change: Plan::new(),
        })
    }

    /// The core.
    pub fn core(&self) -> &Core<'s>
        ensures { result.now ≡ self.now }
    {
        &self.core
    }

    /// The sources of each live entity at the end of the history, as `sources` gives them. The error is want of memory.
    pub fn sources(&self, alloc: Global) -> Result<Table, AllocError>
        ensures table { IfOk result (λ table. table ≡ table_of self.now.script self.now.history) }
        ensures order { OnOk result (AreInOrder self.now.script self.now.history) }
    {
        let history = self.core.history();
        let is_tracked = self.is_tracked;
        if !is_tracked {
            return sources(alloc, self.core.script(), history);
        }
        list_flows(alloc, &self.core.state().objects, &self.flows)
    }

    /// Begins an entry of the task, as `Core::enter` does.
    pub fn enter(&mut self, task: u32)
        requires task { task < length self.old.script.tasks }
        requires turn { turn_at self.old task ≡ turn.Entry }
        ensures event { self.new ≡ with_next self.old (event.Enter task) }
        ensures progress { Advances (progress_of self.old) (progress_of self.new) task
            (record (progress_at (progress_of self.old) task) { phase = phase.Entered }) }
        ensures lines { done_of self.new ≡ done_of self.old }
    {
        self.planned = None;
        self.core.enter(task);
        let _history = self.core.history();
    }

    /// Ends the task's entry, as `Core::leave` does.
    pub fn leave(&mut self, task: u32)
        requires task { task < length self.old.script.tasks }
        requires turn { (turn_at self.old task ≡ turn.Done)
            ⊎ (turn_at self.old task ≡ turn.Entered) }
        ensures event { self.new ≡ with_next self.old (event.Leave task) }
        ensures progress { Advances (progress_of self.old) (progress_of self.new) task
            (left (progress_at (progress_of self.old) task)) }
        ensures lines { done_of self.new ≡ done_of self.old + lines_left (turn_at self.old task) }
    {
        self.planned = None;
        self.core.leave(task);
        let _history = self.core.history();
    }

    /// Makes `plan` that of the call that the task has entered for, as `Core::plan` does. The outline stays for the commit, until the
    /// next plan, commit or event.
    pub fn plan(&mut self, task: u32, plan: &mut Plan)
        requires task { task < length self.old.script.tasks }
        requires turn { turn_at self.old task ≡ turn.Entered }
        ensures plan { next_plan self.old.script (run_state self.old) task ≡ Some plan.new }
        ensures same { self.new ≡ self.old }
    {
        self.core.plan(task, plan, &mut self.outline);
        self.planned = Some(task);
    }

    /// Commits the call that the task has entered for, as `Core::done` does, and notes what it moves. The error is want of memory
    /// for the call: where it lacks for the sources, nothing more is noted.
    pub fn done<P: Policy>(
        &mut self,
        alloc: Global,
        task: u32,
        list: &Listed<'_, P>,
        plan: &Plan,
        verdict: &Verdict,
    ) -> Result<Commit, AllocError>
        requires task { task < length self.old.script.tasks }
        requires turn { turn_at self.old task ≡ turn.Entered }
        requires verdict { verdict.now ≡ verdict_of list.now plan.now }
        ensures commit { IfOk result
            (λ commit. Commits self.old task list.now plan.now commit self.new) }
        ensures progress { IfOk result
            (λ commit. AdvancesOn commit (progress_of self.old) task (progress_of self.new)) }
        ensures lines { done_of self.new ≡ done_of self.old }
        ensures err { OnErr result (self.new ≡ self.old) }
        ensures memory { is_ok (reply_to plan.now verdict.now.denied payload.None) ≡ false
            → IsOk result }
    {
        self.done_by(alloc, task, list, plan, verdict, false)
    }

    /// Commits as `done` does, where the plan is known to be that of the call: it isn't compared where the outline is at hand.
    pub fn done_known<P: Policy>(
        &mut self,
        alloc: Global,
        task: u32,
        list: &Listed<'_, P>,
        plan: &Plan,
        verdict: &Verdict,
    ) -> Result<Commit, AllocError>
        requires task { task < length self.old.script.tasks }
        requires turn { turn_at self.old task ≡ turn.Entered }
        requires verdict { verdict.now ≡ verdict_of list.now plan.now }
        requires known { next_plan self.old.script (run_state self.old) task ≡ Some plan.now }
        ensures commit { IfOk result
            (λ commit. Commits self.old task list.now plan.now commit self.new) }
        ensures progress { IfOk result
            (λ commit. AdvancesOn commit (progress_of self.old) task (progress_of self.new)) }
        ensures lines { done_of self.new ≡ done_of self.old }
        ensures err { OnErr result (self.new ≡ self.old) }
        ensures memory { is_ok (reply_to plan.now verdict.now.denied payload.None) ≡ false
            → IsOk result }
    {
        self.done_by(alloc, task, list, plan, verdict, true)
    }

    /// Commits the call, whose plan may be known to be that of the call.
    fn done_by<P: Policy>(
        &mut self,
        alloc: Global,
        task: u32,
        list: &Listed<'_, P>,
        plan: &Plan,
        verdict: &Verdict,
        is_known: bool,
    ) -> Result<Commit, AllocError>
        requires task { task < length self.old.script.tasks }
        requires turn { turn_at self.old task ≡ turn.Entered }
        requires verdict { verdict.now ≡ verdict_of list.now plan.now }
        requires known { IsTrue is_known
            → next_plan self.old.script (run_state self.old) task ≡ Some plan.now }
        ensures commit { IfOk result
            (λ commit. Commits self.old task list.now plan.now commit self.new) }
        ensures progress { IfOk result
            (λ commit. AdvancesOn commit (progress_of self.old) task (progress_of self.new)) }
        ensures lines { done_of self.new ≡ done_of self.old }
        ensures err { OnErr result (self.new ≡ self.old) }
        ensures memory { is_ok (reply_to plan.now verdict.now.denied payload.None) ≡ false
            → IsOk result }
    {
        let is_planned = was_planned_last(self.planned, task);
        self.planned = None;
        let outline = &mut self.outline;
        if !is_plan_current(&self.core, task, list, plan, is_planned, is_known, outline) {
            return Ok(Commit::Stale);
        }
        let reply = self.core.reply(alloc, task, plan, &outline.found, verdict)?;
        commit(
            alloc,
            &mut self.core,
            task,
            outline,
            reply,
            &mut self.flows,
            &mut self.is_tracked,
        )?;
        Ok(Commit::Done)
    }

    /// Makes the change of the task's next line, as `Core::change` does.
    pub fn change<P: Policy>(
        &mut self,
        alloc: Global,
        task: u32,
        fixed: &Fixed<P>,
        list: &mut PolicyList<P>,
        catalogue: &mut Catalogue<P>,
    ) -> Result<ChangeOutcome, AllocError>
        requires task { task < length self.old.script.tasks }
        requires turn { turn_at self.old task ≡ turn.Change }
        requires policies { AreOf (specs_of self.old) fixed.now list.old catalogue.old }
        ensures outcome { IfOk result (λ outcome. Changes self.old task outcome self.new) }
        ensures progress { IfOk result
            (λ outcome. AdvancesBy outcome (progress_of self.old) task (progress_of self.new)) }
        ensures policies { AreOf (specs_of self.new) fixed.now list.new catalogue.new }
        ensures lines { IfOk result (λ outcome. done_of self.new
            ≡ done_of self.old + lines_changed outcome) }
        ensures waits { IfOk result
            (λ outcome. StaysWhileWaiting outcome list.old list.new catalogue.old catalogue.new) }
        ensures err { OnErr result ((self.new ≡ self.old) × (list.new ≡ list.old)
            × (catalogue.new ≡ catalogue.old)) }
        ensures memory { (reply : Reply)
            → next_reply self.old.script (run_state self.old) task ≡ Some reply
            → is_ok reply ≡ false → IsOk result }
    {
        self.planned = None;
        let plan = &mut self.change;
        let outcome = self.core.change(alloc, task, fixed, list, catalogue, plan);
        let _history = self.core.history();
        outcome
    }
}

/// Whether this task's call was the one that was planned last.
fn was_planned_last(planned: Option<u32>, task: u32) -> bool
    ensures { IsTrue result ↔ (planned ≡ Some task) }
{
    planned == Some(task)
}

/// Whether the plan and the listed policies are those of now, as `Core::is_current` says: by the outline at hand where that is of the
/// task's call, and else by one that is made anew. A plan that is known to be that of the call needn't be compared.
fn is_plan_current<P: Policy>(
    core: &Core,
    task: u32,
    list: &Listed<'_, P>,
    plan: &Plan,
    is_planned: bool,
    is_known: bool,
    outline: &mut Outline,
) -> bool
    requires task { task < length core.now.script.tasks }
    requires turn { turn_at core.now task ≡ turn.Entered }
    requires planned { IsTrue is_planned
        → IsNextOutline core.now.script (run_state core.now) task outline.old }
    requires known { IsTrue is_known
        → next_plan core.now.script (run_state core.now) task ≡ Some plan.now }
    ensures is { IsTrue result ↔ IsCurrent core.now task list.now plan.now }
    ensures found { plan.now.tail ≡ Do → IsTrue result
        → IsNextFound core.now.script (run_state core.now) task outline.new.found }
    ensures outline { IsTrue result
        → IsNextOutline core.now.script (run_state core.now) task outline.new }
{
    if !is_planned {
        core.is_current(task, list, plan, outline)
    } else if is_known {
        list.same_specs(&core.state().specs)
    } else {
        core.is_current_by_outline(task, list, plan, outline)
    }
}

/// Commits the call of the task's entry with this reply, and notes what it moves, while that is tracked. If memory runs out for
/// the call, the core doesn't change.
fn commit(
    alloc: Global,
    core: &mut Core,
    task: u32,
    outline: &Outline,
    reply: KeptReply,
    flows: &mut Vec<Flow>,
    is_tracked: &mut bool,
) -> Result<(), AllocError>
    requires task { task < length core.old.script.tasks }
    requires turn { turn_at core.old task ≡ turn.Entered }
    requires reply { next_reply core.old.script (run_state core.old) task ≡ Some reply }
    requires outline { IsNextOutline core.old.script (run_state core.old) task outline.now }
    requires found { is_ok reply ≡ true
        → IsNextFound core.old.script (run_state core.old) task outline.now.found }
    requires tracked { IsTrue is_tracked.old
        → spec.AreSourcesOf core.old.script core.old.history flows.old.items }
    ensures event { OnOk result (core.new ≡ with_next core.old
        (event.Done task (next_number (run_state core.old) task) reply)) }
    ensures progress { OnOk result
        (AdvancesOn commit.Done (progress_of core.old) task (progress_of core.new)) }
    ensures lines { done_of core.new ≡ done_of core.old }
    ensures err { OnErr result (core.new ≡ core.old) }
    ensures memory { is_ok reply ≡ false → IsOk result }
    ensures tracked { IsTrue is_tracked.new
        → spec.AreSourcesOf core.new.script core.new.history flows.new.items }
{
    let _before = core.history();
    let state = core.state();
    let next = state.objects.next_id();
    let is_done = reply.is_ok();
    let line = core.line(task);
    let name = core.script().name_of(task);
    let is_noted = note_moves(
        alloc,
        state,
        name,
        line,
        outline,
        &reply,
        *is_tracked,
        flows,
    );
    *is_tracked = false;
    core.commit(alloc, task, outline, reply)?;
    let _after = core.history();
    let objects = &core.state().objects;
    *is_tracked = note_rest(
        alloc,
        next,
        objects,
        &outline.found,
        is_done,
        is_noted,
        flows,
    );
    Ok(())
}
