//! The kernel: the desk and the policies that may change, each behind a lock of its own, and the static policies.
ghost use Rattle.std.specs.Prelude.{◌≡◌, ◌+◌, true, false, All, length, map, IfOk, OnErr, OnOk, Some};
ghost use Rattle.mf_policy.specs.Modules.{module_of};
ghost use Rattle.mf_list.specs.Fresh.{IsFresh};
ghost use Rattle.mf_calls.specs.WellFormed.{IsWellFormed};
ghost use Rattle.mf_perform.specs.Verdict as step;
ghost use Rattle.mf_core.specs.declared.progress.ChangeOutcome.TheVariants as outcome;
ghost use Rattle.mf_core.specs.declared.progress.Turn.TheVariants as turn;
ghost use Rattle.mf_core.specs.AllModules.{AreAllModules};
ghost use Rattle.mf_core.specs.Policies.{static_of};
ghost use Rattle.mf_core.specs.Next.{next_plan};
ghost use Rattle.mf_core.specs.CoreView.{CoreView, done_of, open_of, run_state, Changes, Commits};
ghost use Rattle.mf_share.specs.Passes.{AgreesWithPass, AgreesWithTicket, AreBack, AreFirst, AreOneEach, IsCoreOf, lines_sum, pass_left, pass_turn, ticket_after, ticket_for};

use crate::desk::Desk;
use crate::pass::{Job, Pass, Ticket};
use crate::policies::Policies;
use crate::register::{NewRegister, NumberedPlan};
use mf_calls::Script;
use mf_core::{ChangeOutcome, Commit, Core, Turn};
use mf_flow::TrackedCore;
use mf_list::{Fixed, Listed};
use mf_perform::Verdict;
use mf_policy::Policy;
use std::alloc::{AllocError, Global};
use std::marker::{Model, PhantomData};
use std::sync::ledger::{Blank, Ledger, Share};
use std::sync::{Condvar, Mutex, RwLock, RwLockReadGuard, Wait};

/// The kernel's own part of each ledger. Each is cut into one part more than there are tasks.
#[derive(Drop)]
struct Own<J: Job, B: Ledger> {
    done: Share<J>,
    busy: Share<B>,
}

impl<J: Job, B: Ledger> Model for Own<J, B> {
    ghost use Rattle.std.specs.Prelude.{ℕ};
    ghost use Rattle.mf_share.specs.Passes.{IsOwn};

    ghost Value = { ℕ };

    ghost view = { λ o. o.done.amount };

    ghost invariant = { λ o.
        IsOwn J.script J.parts B.parts o.done.parts o.done.amount o.busy.parts o.busy.amount };
}

/// One core for the tasks of a script, each with a pass in a thread of its own. `J` names the script and is the ledger
/// of lines done; `B` is the ledger of open entries.
///
/// | Call | Turns of the core's lock | Event |
/// |---|---|---|
/// | `enter` | one | Enter |
/// | `plan` | one | none |
/// | `turn`, `fixed`, `policies`, `walk` | none | none |
/// | `commit` | one | Done; none for `Stale`, and where memory runs out |
/// | `leave` | one | Leave |
/// | `change` | one for each look while it waits | Changed at the last; none where memory runs out |
/// | `close` | none: it owns the lock | none |
///
/// In a turn of the lock a call does what the call of that name of `Desk` does. Where the desk doesn't agree with the
/// pass or the ticket, which doesn't happen but no contract excludes, it gives the lock back and looks again.
///
/// A thread enters before it takes the guard of `policies`, and gives the guard back before it leaves: `change` keeps
/// the core's lock while it waits for the guard that writes, which it does only where no entry is open.
#[derive(Drop)]
pub struct Kernel<'s, P: Policy, J: Job, B: Ledger> {
    script: &'s Script,
    desk: Mutex<Desk<'s, J, B>>,
    fixed: Fixed<P>,
    policies: RwLock<Policies<P, J>>,
    quiet: Condvar,
    own: Mutex<Own<J, B>>,
    ghost script_is: { script.now ≡ J.script },
    ghost fixed_is: { fixed ≡ static_of J.script },
}

impl<'s, P: Policy, J: Job, B: Ledger> Kernel<'s, P, J, B> {
    /// A kernel before the first event of the script, and a pass for each task in order. `modules` has a policy of each
    /// module, once, in its initial state. `J` names the script and the register; each of the ledgers is cut into one part more
    /// than the script has tasks.
    pub fn open(
        alloc: Global,
        script: &'s Script,
        modules: Vec<P>,
        lines: Blank,
        busy: Blank,
        register: NewRegister,
    ) -> Result<(Kernel<'s, P, J, B>, Vec<Pass<J, B>>), AllocError>
        requires formed { IsWellFormed script.now }
        requires modules { AreAllModules (map (λ p. module_of (P.spec p)) modules.items) }
        requires fresh { All (λ p. IsFresh (P.spec p)) modules.items }
        requires job { script.now ≡ J.script }
        requires lines_name { lines.name ≡ J.name }
        requires lines_parts { (lines.parts ≡ J.parts)
            × (lines.parts ≡ length script.now.tasks + 1) }
        requires busy_name { busy.name ≡ B.name }
        requires busy_parts { (busy.parts ≡ B.parts) × (busy.parts ≡ length script.now.tasks + 1) }
        requires register_name { register ≡ J.register }
        ensures passes { IfOk result (λ r. AreOneEach J.script r.1.items) }
        ensures first { IfOk result (λ r. AreFirst r.1.items (length J.script.tasks)) }
    {
        let (done_book, mut done) = lines.open::<J>();
        let (busy_book, mut busy) = busy.open::<B>();
        let passes = first_passes(alloc, script, &mut done, &mut busy)?;
        let (core, fixed, list, catalogue) = Core::new(alloc, script, modules)?;
        let tracked = TrackedCore::of(alloc, core)?;
        let kernel = Kernel {
            script,
            desk: Mutex::new(Desk {
                tracked,
                done: done_book,
                busy: busy_book,
                register: register.named(),
                noted: None,
            }),
            fixed,
            policies: RwLock::new(Policies {
                list,
                catalogue,
                of: PhantomData,
            }),
            quiet: Condvar::new(),
            own: Mutex::new(Own { done, busy }),
        };
        Ok((kernel, passes))
    }

    /// What the task of a pass may do next. It takes no lock.
    pub fn turn(&self, pass: &Pass<J, B>) -> Turn
        requires { pass.now.out ≡ false }
        ensures { result ≡ pass_turn J.script pass.now }
    {
        if pass.stopped {
            return Turn::Stopped;
        }
        Turn::at_line(self.script.next_line(pass.task, pass.lines))
    }

    /// Begins an entry.
    pub fn enter<R: Wait>(&self, rt: &R, pass: &mut Pass<J, B>) -> Ticket<J, B>
        requires out { pass.old.out ≡ false }
        requires turn { pass_turn J.script pass.old ≡ turn.Entry }
        ensures ticket { result ≡ ticket_for pass.old }
        ensures pass { pass.new ≡ record pass.old { out = true } }
        ensures found { (core : CoreView) × IsCoreOf J.script core × AgreesWithPass core pass.old }
    {
        for _ in rt.forever() {
            let found = self.desk.lock(rt).enter(pass);
            if let Some(ticket) = found {
                return ticket;
            }
        }
        unreachable!()
    }

    /// The static policies. They lie behind no lock, since nothing changes them after boot.
    pub fn fixed(&self) -> &Fixed<P>
        ensures { result.now ≡ static_of J.script }
    {
        &self.fixed
    }

    /// The policies that may change, for a shared look at the dynamic list.
    pub fn policies<R: Wait>(&self, rt: &R) -> RwLockReadGuard<'_, Policies<P, J>> {
        self.policies.read(rt)
    }

    /// Makes `plan` that of the ticket's call, from the state that the core is in during the call.
    pub fn plan<R: Wait>(&self, rt: &R, ticket: &Ticket<J, B>, plan: &mut NumberedPlan<J>)
        requires { ticket.now.committed ≡ false }
        ensures found { (core : CoreView) × IsCoreOf J.script core
            × AgreesWithTicket core ticket.now
            × (next_plan core.script (run_state core) ticket.now.task ≡ Some plan.new) }
    {
        for _ in rt.forever() {
            let found = self.desk.lock(rt).plan(ticket, plan);
            if found {
                return;
            }
        }
        unreachable!()
    }

    /// The listed policies' verdict on a plan, as of `Core::walk`. It takes no lock.
    pub fn walk(list: &Listed<'_, P>, _ticket: &Ticket<J, B>, plan: &NumberedPlan<J>) -> Verdict
        ensures { result ≡ step.verdict_of list.now plan.now }
    {
        Core::walk(list, plan.plan())
    }

    /// Commits the ticket's call, as `Core::done` does. After `Done` the ticket is committed.
    pub fn commit<R: Wait>(
        &self,
        rt: &R,
        alloc: Global,
        ticket: &mut Ticket<J, B>,
        list: &Listed<'_, P>,
        plan: &NumberedPlan<J>,
        verdict: &Verdict,
    ) -> Result<Commit, AllocError>
        requires undone { ticket.old.committed ≡ false }
        requires verdict { verdict.now ≡ step.verdict_of list.now plan.now }
        ensures ok { IfOk result (λ commit. ticket.new ≡ ticket_after commit ticket.old) }
        ensures err { OnErr result (ticket.new ≡ ticket.old) }
        ensures found { IfOk result (λ commit. (old : CoreView) × (new : CoreView)
            × IsCoreOf J.script old × AgreesWithTicket old ticket.old
            × Commits old ticket.old.task list.now plan.now commit new) }
    {
        for _ in rt.forever() {
            let found = self
                .desk
                .lock(rt)
                .commit(alloc, ticket, list, plan, verdict)?;
            if let Some(commit) = found {
                return Ok(commit);
            }
        }
        unreachable!()
    }

    /// Ends the entry of the pass's ticket. Where its call is done the pass has one line more, else it is stopped.
    pub fn leave<R: Wait>(&self, rt: &R, ticket: Ticket<J, B>, pass: &mut Pass<J, B>)
        requires task { ticket.task ≡ pass.old.task }
        requires lines { ticket.lines ≡ pass.old.lines }
        requires out { pass.old.out ≡ true }
        ensures pass { pass.new ≡ pass_left ticket.committed pass.old }
        ensures found { (core : CoreView) × IsCoreOf J.script core × AgreesWithTicket core ticket }
    {
        let mut held = ticket;
        for _ in rt.forever() {
            let mut desk = self.desk.lock(rt);
            match desk.leave(held, pass) {
                Ok(()) => {
                    if desk.open_entries() == 0 {
                        self.quiet.notify_all();
                    }
                    return;
                }
                Err(back) => held = back,
            }
        }
        unreachable!()
    }

    /// Waits until no entry is open, and makes the change of the pass's next line. If memory runs out, nothing is
    /// changed and the pass is stopped.
    pub fn change<R: Wait>(
        &self,
        rt: &R,
        alloc: Global,
        pass: &mut Pass<J, B>,
    ) -> Result<(), AllocError>
        requires out { pass.old.out ≡ false }
        requires turn { pass_turn J.script pass.old ≡ turn.Change }
        ensures ok { OnOk result (pass.new ≡ record pass.old { lines = pass.old.lines + 1 }) }
        ensures err { OnErr result (pass.new ≡ record pass.old { stopped = true }) }
        ensures found { OnOk result ((old : CoreView) × (new : CoreView) × IsCoreOf J.script old
            × AgreesWithPass old pass.old
            × Changes old pass.old.task outcome.Done new) }
    {
        let mut desk = self.desk.lock(rt);
        for _ in rt.forever() {
            if desk.open_entries() == 0 {
                let mut policies = self.policies.write(rt);
                let found = desk.change(alloc, pass, &self.fixed, &mut policies)?;
                if let Some(ChangeOutcome::Done) = found {
                    self.quiet.notify_all();
                    return Ok(());
                }
            }
            desk = self.quiet.wait(rt, desk);
        }
        unreachable!()
    }

    /// The core with its sources, once all passes are back: no entry is open, and as many lines are done as the passes say.
    pub fn close(self, passes: Vec<Pass<J, B>>) -> TrackedCore<'s>
        requires count { length passes.items ≡ length J.script.tasks }
        requires each { AreBack passes.items (length J.script.tasks) }
        ensures script { result.script ≡ J.script }
        ensures entries { open_of result ≡ 0 }
        ensures lines { done_of result ≡ lines_sum passes.items }
    {
        let Kernel {
            script: _,
            desk,
            fixed: _,
            policies: _,
            quiet: _,
            own,
        } = self;
        let Desk {
            tracked,
            done: mut done_book,
            busy: mut busy_book,
            register: _,
            noted: _,
        } = desk.into_inner();
        let Own { mut done, mut busy } = own.into_inner();
        take_back(passes, &mut done, &mut busy);
        done_book.audit(&mut done);
        busy_book.audit(&mut busy);
        tracked
    }
}

/// A pass for each task in order, with a part of each ledger.
fn first_passes<J: Job, B: Ledger>(
    alloc: Global,
    script: &Script,
    done: &mut Share<J>,
    busy: &mut Share<B>,
) -> Result<Vec<Pass<J, B>>, AllocError>
    requires formed { IsWellFormed script.now }
    requires job { script.now ≡ J.script }
    requires done { (done.old.parts ≡ length script.now.tasks + 1) × (done.old.amount ≡ 0) }
    requires busy { (busy.old.parts ≡ length script.now.tasks + 1) × (busy.old.amount ≡ 0) }
    ensures passes { IfOk result (λ passes. AreOneEach J.script passes.items) }
    ensures first { IfOk result (λ passes. AreFirst passes.items (length J.script.tasks)) }
    ensures done { OnOk result ((done.new.parts ≡ 1) × (done.new.amount ≡ 0)) }
    ensures busy { OnOk result ((busy.new.parts ≡ 1) × (busy.new.amount ≡ 0)) }
{
    let tasks = script.tasks.len();
    let mut passes = Vec::with_capacity(alloc, tasks)?;
    for task in 0..tasks as u32 {
        passes.push(Pass {
            task,
            lines: 0,
            out: false,
            stopped: false,
            done: done.split_off(1, 0),
            busy: busy.split_off(1, 0),
        })?;
    }
    Ok(passes)
}

/// Takes the shares of these passes back. None of them has a ticket out.
fn take_back<J: Job, B: Ledger>(passes: Vec<Pass<J, B>>, done: &mut Share<J>, busy: &mut Share<B>)
    requires { AreBack passes.items (length passes.items) }
    ensures done { (done.new.parts ≡ done.old.parts + length passes.items)
        × (done.new.amount ≡ done.old.amount + lines_sum passes.items) }
    ensures busy { (busy.new.parts ≡ busy.old.parts + length passes.items)
        × (busy.new.amount ≡ busy.old.amount) }
{
    for pass in passes {
        let Pass {
            task: _,
            lines: _,
            out: _,
            stopped: _,
            done: done_part,
            busy: busy_part,
        } = pass;
        done.merge(done_part);
        busy.merge(busy_part);
    }
}
