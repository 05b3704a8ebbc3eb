//! The value behind the kernel's lock: the core with its sources, the books of lines done and of open entries, and the register of plans.
ghost use Rattle.std.specs.Prelude.{◌≡◌, ◌<◌, ◌≤◌, ◌++◌, ◌↔◌, true, false, length, IfOk, IsOk, IfErr, IfNone, IfSome, IsTrue, OnErr, Some};
ghost use Rattle.mf_calls.specs.declared.limits.TheConstants.{LINE_LIMIT};
ghost use Rattle.mf_plan.specs.declared.reply.Payload.TheVariants as payload;
ghost use Rattle.mf_plan.specs.declared.reply.Reply.{Reply};
ghost use Rattle.mf_perform.specs.Refused.{is_ok};
ghost use Rattle.mf_perform.specs.Verdict.{verdict_of};
ghost use Rattle.mf_perform.specs.Reply.{reply_to};
ghost use Rattle.mf_core.specs.declared.history.Event.TheVariants as event;
ghost use Rattle.mf_core.specs.declared.progress.Turn.TheVariants as turn;
ghost use Rattle.mf_core.specs.LegalHistory.{next_reply};
ghost use Rattle.mf_core.specs.Next.{next_plan};
ghost use Rattle.mf_core.specs.Policies.{StaysWhileWaiting, static_of};
ghost use Rattle.mf_core.specs.CoreView.{CoreView, with_next, specs_of, run_state, open_of, done_of, progress_of, turn_at, AdvancesOn, Changes, Commits};
ghost use Rattle.mf_share.specs.Register.{IsNoted};
ghost use Rattle.mf_share.specs.Passes.{AgreesWithPass, AgreesWithTicket, IsCoreOf, pass_changed, pass_left, pass_turn, ticket_after, ticket_for};

use crate::pass::{Job, Pass, Ticket};
use crate::policies::Policies;
use crate::register::{NumberedPlan, Register};
use mf_core::{ChangeOutcome, Commit, Turn};
use mf_flow::TrackedCore;
use mf_list::{Fixed, Listed};
use mf_perform::Verdict;
use mf_plan::Plan;
use mf_policy::Policy;
use std::alloc::{AllocError, Global};
use std::marker::Model;
use std::sync::ledger::{Book, Ledger};

/// A core of the script that `J` names, with its sources, the totals of lines done and of what open entries weigh, and the register of the
/// plans made. Contracts see the core. It agrees with a pass or a ticket where the core's turn of the task, and its lines done, are those
/// that the pass or the ticket says.
#[derive(Drop)]
pub struct Desk<'s, J: Job, B: Ledger> {
    pub(crate) tracked: TrackedCore<'s>,
    pub(crate) done: Book<J>,
    pub(crate) busy: Book<B>,
    pub(crate) register: Register<J>,
    /// The plan that was made last, until the next commit or event.
    pub(crate) noted: Option<Noted>,
}

/// That the plan of the task's call has that number in the register.
#[derive(Clone, Copy)]
pub(crate) struct Noted {
    task: u32,
    number: u64,
}

impl<'s, J: Job, B: Ledger> Model for Desk<'s, J, B> {
    ghost use Rattle.std.specs.Prelude.{◌≡◌, IfSome};
    ghost use Rattle.mf_core.specs.CoreView.{CoreView, done_of};
    ghost use Rattle.mf_share.specs.Register.{IsNoted};
    ghost use Rattle.mf_share.specs.Weights.{open_weight};

    ghost Value = { CoreView };

    ghost view = { λ d. d.tracked };

    ghost invariant = { λ d. (d.tracked.script ≡ J.script) × (d.done.total ≡ done_of d.tracked)
        × (d.busy.total ≡ open_weight J.script d.tracked)
        × IfSome d.noted
        (λ at. IsNoted d.tracked d.register at.task at.number) };
}

impl<'s, J: Job, B: Ledger> Desk<'s, J, B> {
    /// How many entries are open.
    pub fn open_entries(&self) -> u32
        ensures value { result ≡ open_of self.now }
        ensures script { self.now.script ≡ J.script }
    {
        self.tracked.core().open_entries()
    }

    /// Begins an entry of the pass's task. None where the core doesn't agree with the pass; then nothing changes.
    pub fn enter(&mut self, pass: &mut Pass<J, B>) -> Option<Ticket<J, B>>
        requires out { pass.old.out ≡ false }
        requires turn { pass_turn J.script pass.old ≡ turn.Entry }
        ensures some { IfSome result (λ ticket. AgreesWithPass self.old pass.old
            × (self.new ≡ with_next self.old (event.Enter pass.old.task))
            × (ticket ≡ ticket_for pass.old) × (pass.new ≡ record pass.old { out = true })) }
        ensures none { IfNone result (¬ AgreesWithPass self.old pass.old × (self.new ≡ self.old)
            × (pass.new ≡ pass.old)) }
        ensures core { IsCoreOf J.script self.old }
    {
        if !self.agrees_with(pass, Turn::Entry) {
            return None;
        }
        self.noted = None;
        self.tracked.enter(pass.task());
        Some(pass.ticket(&mut self.busy))
    }

    /// Makes `plan` that of the ticket's call, from the present state. The desk is lent to be changed, since the outline of the call stays
    /// with its core, and the number of the plan with the desk. False where the core doesn't agree with the ticket; then nothing changes.
    pub fn plan(&mut self, ticket: &Ticket<J, B>, plan: &mut NumberedPlan<J>) -> bool
        requires { ticket.now.committed ≡ false }
        ensures made { IsTrue result → AgreesWithTicket self.old ticket.now
            × (next_plan self.old.script (run_state self.old) ticket.now.task ≡ Some plan.new) }
        ensures none { result ≡ false → ¬ AgreesWithTicket self.old ticket.now
            × (plan.new ≡ plan.old) }
        ensures same { self.new ≡ self.old }
        ensures core { IsCoreOf J.script self.old }
    {
        if !self.agrees_with_ticket(ticket) {
            return false;
        }
        let task = ticket.task();
        let number = plan.make(&mut self.tracked, task, &mut self.register);
        self.noted = note_of(task, number);
        true
    }

    /// Commits the ticket's call, as `TrackedCore::done` does. None where the core doesn't agree with the ticket; then, and
    /// if memory runs out, nothing changes. A call that is denied or refused never fails for want of memory. While the
    /// ticket is at hand, an entry is open.
    pub fn commit<P: Policy>(
        &mut self,
        alloc: Global,
        ticket: &mut Ticket<J, B>,
        list: &Listed<'_, P>,
        plan: &NumberedPlan<J>,
        verdict: &Verdict,
    ) -> Result<Option<Commit>, AllocError>
        requires undone { ticket.old.committed ≡ false }
        requires verdict { verdict.now ≡ verdict_of list.now plan.now }
        ensures entries { 0 < open_of self.old }
        ensures some { IfOk result (λ found. IfSome found
            (λ commit. AgreesWithTicket self.old ticket.old
            × Commits self.old ticket.old.task list.now plan.now commit self.new
            × (ticket.new ≡ ticket_after commit ticket.old))) }
        ensures none { IfOk result (λ found. IfNone found (¬ AgreesWithTicket self.old ticket.old
            × (self.new ≡ self.old) × (ticket.new ≡ ticket.old))) }
        ensures err { OnErr result (AgreesWithTicket self.old ticket.old × (self.new ≡ self.old)
            × (ticket.new ≡ ticket.old)) }
        ensures memory { is_ok (reply_to plan.now verdict.now.denied payload.None) ≡ false
            → IsOk result }
        ensures core { IsCoreOf J.script self.old }
    {
        ticket.audit(&mut self.busy);
        if !self.agrees_with_ticket(ticket) {
            return Ok(None);
        }
        let task = ticket.task();
        let is_known = is_noted(&self.register, self.noted, task, plan);
        self.noted = None;
        let commit = finish(
            alloc,
            &mut self.tracked,
            task,
            list,
            plan.plan(),
            verdict,
            is_known,
        )?;
        ticket.commit(&mut self.busy, &commit);
        Ok(Some(commit))
    }

    /// Ends the entry of the pass's ticket. The ticket comes back where the core doesn't agree with it; then nothing
    /// changes.
    pub fn leave(&mut self, ticket: Ticket<J, B>, pass: &mut Pass<J, B>) -> Result<(), Ticket<J, B>>
        requires task { ticket.task ≡ pass.old.task }
        requires lines { ticket.lines ≡ pass.old.lines }
        requires out { pass.old.out ≡ true }
        ensures ok { IfOk result (λ _. AgreesWithTicket self.old ticket
            × (self.new ≡ with_next self.old (event.Leave ticket.task))
            × (pass.new ≡ pass_left ticket.committed pass.old)) }
        ensures err { IfErr result (λ back. ¬ AgreesWithTicket self.old ticket × (back ≡ ticket)
            × (self.new ≡ self.old) × (pass.new ≡ pass.old)) }
        ensures core { IsCoreOf J.script self.old }
    {
        if !self.agrees_with_ticket(&ticket) {
            return Err(ticket);
        }
        self.noted = None;
        self.tracked.leave(ticket.task());
        pass.spend(ticket, &mut self.done, &mut self.busy);
        Ok(())
    }

    /// Makes the change of the pass's next line, as `Core::change` does. None where the core doesn't agree with the
    /// pass, or the listed specs aren't the core's; then nothing changes. If memory runs out the pass is stopped, and
    /// nothing else changes. A change that is denied or refused takes no memory.
    pub fn change<P: Policy>(
        &mut self,
        alloc: Global,
        pass: &mut Pass<J, B>,
        fixed: &Fixed<P>,
        policies: &mut Policies<P, J>,
    ) -> Result<Option<ChangeOutcome>, AllocError>
        requires fixed { fixed.now ≡ static_of J.script }
        requires out { pass.old.out ≡ false }
        requires turn { pass_turn J.script pass.old ≡ turn.Change }
        ensures some { IfOk result (λ found. IfSome found
            (λ outcome. AgreesWithPass self.old pass.old
            × (fixed.now ++ policies.old.list ≡ specs_of self.old)
            × Changes self.old pass.old.task outcome self.new
            × (fixed.now ++ policies.new.list ≡ specs_of self.new)
            × StaysWhileWaiting outcome
            policies.old.list policies.new.list policies.old.catalogue policies.new.catalogue
            × (pass.new ≡ pass_changed outcome pass.old))) }
        ensures none { IfOk result (λ found. IfNone found
            (¬ (AgreesWithPass self.old pass.old
            × (fixed.now ++ policies.old.list ≡ specs_of self.old))
            × (self.new ≡ self.old) × (policies.new ≡ policies.old) × (pass.new ≡ pass.old))) }
        ensures err { OnErr result (AgreesWithPass self.old pass.old
            × (fixed.now ++ policies.old.list ≡ specs_of self.old)
            × (self.new ≡ self.old) × (policies.new ≡ policies.old)
            × (pass.new ≡ record pass.old { stopped = true })) }
        ensures memory { (reply : Reply)
            → next_reply self.old.script (run_state self.old) pass.old.task ≡ Some reply
            → is_ok reply ≡ false → IsOk result }
        ensures core { IsCoreOf J.script self.old }
    {
        if !self.agrees_with(pass, Turn::Change)
            || !Listed::new(fixed, policies.list()).same_specs(&self.tracked.core().state().specs)
        {
            return Ok(None);
        }
        Ok(Some(self.make_change(alloc, pass, fixed, policies)?))
    }

    /// Whether the core agrees with a pass that says this turn.
    fn agrees_with(&self, pass: &Pass<J, B>, next: Turn) -> bool
        requires { pass_turn J.script pass.now ≡ next }
        ensures agrees { IsTrue result ↔ AgreesWithPass self.now pass.now }
        ensures task { pass.now.task < length J.script.tasks }
        ensures few { IsTrue result → pass.now.lines ≤ LINE_LIMIT }
        ensures core { IsCoreOf J.script self.now }
    {
        let core = self.tracked.core();
        let _history = core.history();
        let lines = core.lines(pass.task);
        is_at(core.turn(pass.task), lines, next, pass.lines)
    }

    /// Whether the core agrees with a ticket.
    fn agrees_with_ticket(&self, ticket: &Ticket<J, B>) -> bool
        ensures agrees { IsTrue result ↔ AgreesWithTicket self.now ticket.now }
        ensures task { ticket.now.task < length J.script.tasks }
        ensures few { IsTrue result → ticket.now.lines ≤ LINE_LIMIT }
        ensures core { IsCoreOf J.script self.now }
    {
        let core = self.tracked.core();
        let _history = core.history();
        let lines = core.lines(ticket.task);
        is_at(
            core.turn(ticket.task),
            lines,
            ticket.its_turn(),
            ticket.lines,
        )
    }

    /// Makes the change, and notes it in the pass and among the lines done.
    fn make_change<P: Policy>(
        &mut self,
        alloc: Global,
        pass: &mut Pass<J, B>,
        fixed: &Fixed<P>,
        policies: &mut Policies<P, J>,
    ) -> Result<ChangeOutcome, AllocError>
        requires fixed { fixed.now ≡ static_of J.script }
        requires out { pass.old.out ≡ false }
        requires turn { pass_turn J.script pass.old ≡ turn.Change }
        requires agrees { AgreesWithPass self.old pass.old }
        requires task { pass.old.task < length J.script.tasks }
        requires few { pass.old.lines ≤ LINE_LIMIT }
        requires listed { fixed.now ++ policies.old.list ≡ specs_of self.old }
        ensures ok { IfOk result (λ outcome. Changes self.old pass.old.task outcome self.new
            × (fixed.now ++ policies.new.list ≡ specs_of self.new)
            × StaysWhileWaiting outcome
            policies.old.list policies.new.list policies.old.catalogue policies.new.catalogue
            × (pass.new ≡ pass_changed outcome pass.old)) }
        ensures err { OnErr result ((self.new ≡ self.old) × (policies.new ≡ policies.old)
            × (pass.new ≡ record pass.old { stopped = true })) }
        ensures memory { (reply : Reply)
            → next_reply self.old.script (run_state self.old) pass.old.task ≡ Some reply
            → is_ok reply ≡ false → IsOk result }
    {
        self.noted = None;
        let (list, catalogue) = (&mut policies.list, &mut policies.catalogue);
        let outcome = self
            .tracked
            .change(alloc, pass.task(), fixed, list, catalogue);
        pass.note(&mut self.done, &outcome);
        outcome
    }
}

/// Whether a task is at that turn, with that many lines done.
fn is_at(at: Turn, lines: u32, its_turn: Turn, its_lines: u32) -> bool
    ensures { IsTrue result ↔ ((at ≡ its_turn) × (lines ≡ its_lines)) }
{
    at == its_turn && lines == its_lines
}

/// That the task's plan has that number, where it has one.
fn note_of(task: u32, number: Option<u64>) -> Option<Noted>
    ensures { IfSome result (λ at. (at.task ≡ task) × (number ≡ Some at.number)) }
{
    match number {
        Some(number) => Some(Noted { task, number }),
        None => None,
    }
}

/// Whether the plan is known to be the one that was noted last, of that task.
fn is_noted<J: Job>(
    register: &Register<J>,
    noted: Option<Noted>,
    task: u32,
    plan: &NumberedPlan<J>,
) -> bool
    ensures { IsTrue result → (core : CoreView)
        → IfSome noted (λ at. IsNoted core register.now at.task at.number)
        → next_plan core.script (run_state core) task ≡ Some plan.now }
{
    match noted {
        Some(at) => at.task == task && plan.is_numbered(register, at.number),
        None => false,
    }
}

/// Commits the task's call, whose plan may be known to be that of the call.
fn finish<P: Policy>(
    alloc: Global,
    tracked: &mut TrackedCore,
    task: u32,
    list: &Listed<'_, P>,
    plan: &Plan,
    verdict: &Verdict,
    is_known: bool,
) -> Result<Commit, AllocError>
    requires task { task < length tracked.old.script.tasks }
    requires turn { turn_at tracked.old task ≡ turn.Entered }
    requires verdict { verdict.now ≡ verdict_of list.now plan.now }
    requires known { IsTrue is_known
        → next_plan tracked.old.script (run_state tracked.old) task ≡ Some plan.now }
    ensures commit { IfOk result
        (λ commit. Commits tracked.old task list.now plan.now commit tracked.new) }
    ensures progress { IfOk result
        (λ commit. AdvancesOn commit (progress_of tracked.old) task (progress_of tracked.new)) }
    ensures lines { done_of tracked.new ≡ done_of tracked.old }
    ensures err { OnErr result (tracked.new ≡ tracked.old) }
    ensures memory { is_ok (reply_to plan.now verdict.now.denied payload.None) ≡ false
        → IsOk result }
{
    if is_known {
        tracked.done_known(alloc, task, list, plan, verdict)
    } else {
        tracked.done(alloc, task, list, plan, verdict)
    }
}
