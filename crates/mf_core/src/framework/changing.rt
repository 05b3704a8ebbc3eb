//! The calls of a core that do the call of a line: commits of entries, and changes of the policies.
ghost use Rattle.std.specs.Prelude.{◌≡◌, ◌+◌, ◌<◌, ◌↔◌, length, false, true, IfOk, IsOk, IsTrue, OnErr, OnOk, Some};
ghost use Rattle.mf_plan.specs.declared.plan.Tail.TheVariants.{Do};
ghost use Rattle.mf_plan.specs.declared.reply.Payload.TheVariants as payload;
ghost use Rattle.mf_plan.specs.declared.reply.Reply.{Reply};
ghost use Rattle.mf_perform.specs.Refused.{is_ok};
ghost use Rattle.mf_perform.specs.Verdict.{verdict_of};
ghost use Rattle.mf_perform.specs.Reply.{reply_to};
ghost use Rattle.mf_core.specs.declared.history.Event.TheVariants as event;
ghost use Rattle.mf_core.specs.declared.progress.Commit.TheVariants as commit;
ghost use Rattle.mf_core.specs.LegalHistory.{next_number, next_reply};
ghost use Rattle.mf_core.specs.Next.{next_plan};
ghost use Rattle.mf_core.specs.NextFound.{IsNextFound, IsNextOutline};
ghost use Rattle.mf_core.specs.declared.progress.Turn.TheVariants as turn;
ghost use Rattle.mf_core.specs.Policies.{AreOf, StaysWhileWaiting};
ghost use Rattle.mf_core.specs.CoreView.{with_next, run_state, specs_of, progress_of, turn_at, open_of, done_of, lines_changed, Changes, Commits, IsCurrent, AdvancesBy, AdvancesOn};

use super::Core;
use crate::history::Event;
use crate::kept_reply::KeptReply;
use crate::progress::{ChangeOutcome, Commit};
use mf_list::{Catalogue, Fixed, Listed, PolicyList};
use mf_perform::Verdict;
use mf_plan::{Found, Outline, Plan};
use mf_policy::Policy;
use std::alloc::{AllocError, Global};

impl<'s> Core<'s> {
    /// Commits the call that the task has entered for. The plan must still be that of `plan()`, and the lists have the
    /// policies and specs of the core's state; else the result is `Stale` and nothing changes. If memory runs out,
    /// nothing changes. A call that is denied or refused takes no memory.
    pub fn done<P: Policy>(
        &mut self,
        alloc: Global,
        task: u32,
        list: &Listed<'_, P>,
        plan: &Plan,
        verdict: &Verdict,
    ) -> Result<Commit, AllocError>
        requires task { task < length self.old.script.tasks }
        requires turn { turn_at self.old task ≡ turn.Entered }
        requires verdict { verdict.now ≡ verdict_of list.now plan.now }
        ensures commit { IfOk result
            (λ commit. Commits self.old task list.now plan.now commit self.new) }
        ensures progress { IfOk result
            (λ commit. AdvancesOn commit (progress_of self.old) task (progress_of self.new)) }
        ensures specs { specs_of self.new ≡ specs_of self.old }
        ensures entries { open_of self.new ≡ open_of self.old }
        ensures lines { done_of self.new ≡ done_of self.old }
        ensures err { OnErr result (self.new ≡ self.old) }
        ensures memory { is_ok (reply_to plan.now verdict.now.denied payload.None) ≡ false
            → IsOk result }
    {
        let mut outline = Outline::new();
        if !self.is_current(task, list, plan, &mut outline) {
            return Ok(Commit::Stale);
        }
        let reply = self.reply(alloc, task, plan, &outline.found, verdict)?;
        self.commit(alloc, task, &outline, reply)?;
        Ok(Commit::Done)
    }

    /// Whether the plan is that of the task's call, and the lists have the policies and specs of the core's state. Then the outline
    /// becomes that of the call.
    pub fn is_current<P: Policy>(
        &self,
        task: u32,
        list: &Listed<'_, P>,
        plan: &Plan,
        outline: &mut Outline,
    ) -> bool
        requires task { task < length self.now.script.tasks }
        requires turn { turn_at self.now task ≡ turn.Entered }
        ensures is { IsTrue result ↔ IsCurrent self.now task list.now plan.now }
        ensures found { plan.now.tail ≡ Do → IsTrue result
            → IsNextFound self.now.script (run_state self.now) task outline.new.found }
        ensures outline { IsTrue result
            → IsNextOutline self.now.script (run_state self.now) task outline.new }
    {
        if !list.same_specs(&self.run.state().specs) {
            return false;
        }
        self.run.has_plan(task, plan, outline)
    }

    /// As `is_current`, where the outline is that of the task's call already, and isn't made again.
    pub fn is_current_by_outline<P: Policy>(
        &self,
        task: u32,
        list: &Listed<'_, P>,
        plan: &Plan,
        outline: &Outline,
    ) -> bool
        requires { IsNextOutline self.now.script (run_state self.now) task outline.now }
        ensures is { IsTrue result ↔ IsCurrent self.now task list.now plan.now }
        ensures found { plan.now.tail ≡ Do → IsTrue result
            → IsNextFound self.now.script (run_state self.now) task outline.now.found }
    {
        let state = self.run.state();
        if !list.same_specs(&state.specs) {
            return false;
        }
        plan.is_outlined(state, outline)
    }

    /// The reply to the call that the task has entered for. The plan, what was found as it was compared, and the verdict of
    /// the listed policies on it are those of now. The error is want of memory.
    pub fn reply(
        &self,
        alloc: Global,
        task: u32,
        plan: &Plan,
        found: &Found,
        verdict: &Verdict,
    ) -> Result<KeptReply, AllocError>
        requires task { task < length self.now.script.tasks }
        requires turn { turn_at self.now task ≡ turn.Entered }
        requires plan { next_plan self.now.script (run_state self.now) task ≡ Some plan.now }
        requires found { plan.now.tail ≡ Do
            → IsNextFound self.now.script (run_state self.now) task found.now }
        requires verdict { verdict.now ≡ verdict_of (specs_of self.now) plan.now }
        ensures value { IfOk result (λ reply. next_reply self.now.script (run_state self.now) task
            ≡ Some reply) }
        ensures done { IfOk result (λ reply. is_ok reply ≡ true → plan.now.tail ≡ Do) }
        ensures refused { IfOk result (λ reply.
            is_ok (reply_to plan.now verdict.now.denied payload.None) ≡ false
            → is_ok reply ≡ false) }
        ensures memory { is_ok (reply_to plan.now verdict.now.denied payload.None) ≡ false
            → IsOk result }
    {
        self.run.reply(alloc, task, plan, found, verdict)
    }

    /// Commits the call that the task has entered for, with this reply to it; the outline is that of the call. The error is want of
    /// memory; then nothing changes.
    pub fn commit(
        &mut self,
        alloc: Global,
        task: u32,
        outline: &Outline,
        reply: KeptReply,
    ) -> Result<(), AllocError>
        requires task { task < length self.old.script.tasks }
        requires turn { turn_at self.old task ≡ turn.Entered }
        requires reply { next_reply self.old.script (run_state self.old) task ≡ Some reply }
        requires outline { IsNextOutline self.old.script (run_state self.old) task outline.now }
        ensures event { OnOk result (self.new ≡ with_next self.old
            (event.Done task (next_number (run_state self.old) task) reply)) }
        ensures progress { OnOk result
            (AdvancesOn commit.Done (progress_of self.old) task (progress_of self.new)) }
        ensures specs { specs_of self.new ≡ specs_of self.old }
        ensures entries { open_of self.new ≡ open_of self.old }
        ensures lines { done_of self.new ≡ done_of self.old }
        ensures err { OnErr result (self.new ≡ self.old) }
        ensures memory { is_ok reply ≡ false → IsOk result }
    {
        let number = self.run.lines(task) + 1;
        self.run.commit(alloc, task, number, outline, &reply)?;
        self.history.events.push(Event::Done(task, number, reply));
        Ok(())
    }

    /// Makes the change of the task's next line, with `plan` as the room of its plan. While entries are open nothing changes, and the result is `Waits` with
    /// their number. The lists and the catalogue must be those that came with this core. If memory runs out, nothing
    /// changes. A change that is denied or refused takes no memory.
    pub fn change<P: Policy>(
        &mut self,
        alloc: Global,
        task: u32,
        fixed: &Fixed<P>,
        list: &mut PolicyList<P>,
        catalogue: &mut Catalogue<P>,
        plan: &mut Plan,
    ) -> Result<ChangeOutcome, AllocError>
        requires task { task < length self.old.script.tasks }
        requires turn { turn_at self.old task ≡ turn.Change }
        requires policies { AreOf (specs_of self.old) fixed.now list.old catalogue.old }
        ensures outcome { IfOk result (λ outcome. Changes self.old task outcome self.new) }
        ensures progress { IfOk result
            (λ outcome. AdvancesBy outcome (progress_of self.old) task (progress_of self.new)) }
        ensures policies { AreOf (specs_of self.new) fixed.now list.new catalogue.new }
        ensures entries { open_of self.new ≡ open_of self.old }
        ensures lines { IfOk result (λ outcome. done_of self.new
            ≡ done_of self.old + lines_changed outcome) }
        ensures waits { IfOk result
            (λ outcome. StaysWhileWaiting outcome list.old list.new catalogue.old catalogue.new) }
        ensures err { OnErr result ((self.new ≡ self.old) × (list.new ≡ list.old)
            × (catalogue.new ≡ catalogue.old)) }
        ensures memory { (reply : Reply)
            → next_reply self.old.script (run_state self.old) task ≡ Some reply
            → is_ok reply ≡ false → IsOk result }
    {
        let waiting = self.open_entries();
        if waiting > 0 {
            return Ok(ChangeOutcome::Waits(waiting));
        }
        let walked = Listed::new(fixed, list);
        let reply = self.run.change_reply(alloc, task, &walked, plan)?;
        let listed = self
            .run
            .relisted(alloc, task, &reply, fixed, list, catalogue)?;
        let number = self.run.lines(task) + 1;
        self.run.put(task, number, &reply, listed);
        self.history
            .events
            .push(Event::Changed(task, number, reply));
        Ok(ChangeOutcome::Done)
    }
}
