//! The tasks of a script or of a generated load, each in a thread of its own, on one kernel.
ghost use Rattle.std.specs.Prelude.{◌≡◌, ◌≤◌, ◌+◌, false, length, map, vec_len, ◌↔◌, All, IfOk, IsTrue, string_bytes};
ghost use Rattle.mf_policy.specs.Modules.{module_of};
ghost use Rattle.mf_list.specs.Fresh.{IsFresh};
ghost use Rattle.mf_calls.specs.declared.limits.TheConstants.{LINE_LIMIT, TASK_LIMIT};
ghost use Rattle.mf_calls.specs.WellFormed.{IsWellFormed};
ghost use Rattle.mf_core.specs.declared.progress.Turn.TheVariants as turn;
ghost use Rattle.mf_core.specs.AllModules.{AreAllModules};
ghost use Rattle.mf_core.specs.CoreView.{all_lines, done_of, open_of};
ghost use Rattle.mf_load.specs.Summary.{load_summary};
ghost use Rattle.mf_share.specs.Passes.{AreOneEach, pass_turn};
ghost use Rattle.mf_top.specs.declared.command.Order.TheVariants as order;
ghost use Rattle.mf_top.specs.Answers.{IsLoaded};
ghost use Rattle.mf_top.specs.Outcomes.{bytes_of_outcome};
ghost use Rattle.mf_top.specs.Passes.{HaveAll, IsBack, IsLine, IsSameTicket, WentOn};
ghost use Rattle.mf_top.specs.Scripts.{IsLoadOf, IsToldBy};

use crate::command::Telling;
use crate::refusal::Refusal;
use crate::text::{summarize, tell_run};
use mf_calls::{Script, generate};
use mf_core::{Commit, Turn};
use mf_flow::TrackedCore;
use mf_io::Gate;
use mf_list::Listed;
use mf_policy::Policy;
use mf_share::{Job, Kernel, NewRegister, NumberedPlan, Pass, Ticket};
use std::alloc::{AllocError, Global};
use std::marker::Brand;
use std::mem::forget;
use std::sync::Wait;
use std::sync::ledger::{Blank, Ledger};
use std::thread;
use std::thread::Threads;

/// What is told of a run of the script, over these modules.
pub fn run_script<P: Policy, G: Gate, R: Threads + Wait + Sync>(
    rt: &R,
    alloc: Global,
    script: &Script,
    gate: &G,
    modules: Vec<P>,
    telling: Telling,
) -> Result<String, Refusal>
    requires formed { IsWellFormed script.now }
    requires modules { AreAllModules (map (λ p. module_of (P.spec p)) modules.items) }
    requires fresh { All (λ p. IsFresh (P.spec p)) modules.items }
    ensures { IsToldBy order.Threads telling script.now (bytes_of_outcome result) }
{
    let tracked = run_core(rt, alloc, script, gate, modules)?;
    let told = tell_run(rt, alloc, &tracked, telling);
    // What calls this writes the text and ends: to let go of the history, reply by reply, would only take time.
    forget(tracked);
    told
}

/// The summary of a run of the generated load of so many lines for each of so many tasks, over these modules.
pub fn run_load<P: Policy, G: Gate, R: Threads + Wait + Sync>(
    rt: &R,
    alloc: Global,
    lines: u32,
    tasks: u32,
    gate: &G,
    modules: Vec<P>,
) -> Result<String, Refusal>
    requires lines { lines ≤ LINE_LIMIT }
    requires tasks { tasks ≤ TASK_LIMIT }
    requires modules { AreAllModules (map (λ p. module_of (P.spec p)) modules.items) }
    requires fresh { All (λ p. IsFresh (P.spec p)) modules.items }
    ensures { IsLoaded lines tasks (bytes_of_outcome result) }
{
    let script = generate(alloc, lines, tasks)?;
    let summary = run_generated(rt, alloc, lines, tasks, &script, gate, modules);
    // Left as it is, as in `run_script`.
    forget(script);
    Ok(summary?)
}

/// The summary of a run of the load's script.
fn run_generated<P: Policy, G: Gate, R: Threads + Wait + Sync>(
    rt: &R,
    alloc: Global,
    lines: u32,
    tasks: u32,
    script: &Script,
    gate: &G,
    modules: Vec<P>,
) -> Result<String, AllocError>
    requires formed { IsWellFormed script.now }
    requires load { IsLoadOf lines tasks script.now }
    requires modules { AreAllModules (map (λ p. module_of (P.spec p)) modules.items) }
    requires fresh { All (λ p. IsFresh (P.spec p)) modules.items }
    ensures { IfOk result (λ text. string_bytes text ≡ load_summary lines tasks) }
{
    let tracked = run_core(rt, alloc, script, gate, modules)?;
    let summary = summarize(alloc, lines, tasks, &tracked);
    // Left as it is, as in `run_script`.
    forget(tracked);
    summary
}

/// The core after each task of the script has run to its end: no entry is open, and all lines are done.
fn run_core<'s, P: Policy, G: Gate, R: Threads + Wait + Sync>(
    rt: &R,
    alloc: Global,
    script: &'s Script,
    gate: &G,
    modules: Vec<P>,
) -> Result<TrackedCore<'s>, AllocError>
    requires formed { IsWellFormed script.now }
    requires modules { AreAllModules (map (λ p. module_of (P.spec p)) modules.items) }
    requires fresh { All (λ p. IsFresh (P.spec p)) modules.items }
    ensures script { IfOk result (λ core. core.script ≡ script.now) }
    ensures entries { IfOk result (λ core. open_of core ≡ 0) }
    ensures lines { IfOk result (λ core. done_of core ≡ all_lines core.script) }
{
    let parts = script.tasks.len() as u64 + 1;
    run_tasks::<P, Brand, Brand, G, R>(
        rt,
        alloc,
        script,
        gate,
        modules,
        Blank::new(parts),
        Blank::new(parts),
        NewRegister::new(),
    )
}

/// Runs each task to its end: in the core no entry is open, and all lines are done. `J` names the script and the register; each of the
/// ledgers is cut into one part more than there are tasks.
fn run_tasks<
    's,
    P: Policy,
    J: Job + Send + Sync,
    B: Ledger + Send + Sync,
    G: Gate,
    R: Threads + Wait + Sync,
>(
    rt: &R,
    alloc: Global,
    script: &'s Script,
    gate: &G,
    modules: Vec<P>,
    lines: Blank,
    busy: Blank,
    register: NewRegister,
) -> Result<TrackedCore<'s>, AllocError>
    requires formed { IsWellFormed script.now }
    requires modules { AreAllModules (map (λ p. module_of (P.spec p)) modules.items) }
    requires fresh { All (λ p. IsFresh (P.spec p)) modules.items }
    requires job { script.now ≡ J.script }
    requires lines_name { lines.name ≡ J.name }
    requires lines_parts { (lines.parts ≡ J.parts) × (lines.parts ≡ length script.now.tasks + 1) }
    requires busy_name { busy.name ≡ B.name }
    requires busy_parts { (busy.parts ≡ B.parts) × (busy.parts ≡ length script.now.tasks + 1) }
    requires register_name { register ≡ J.register }
    ensures script { IfOk result (λ core. core.script ≡ script.now) }
    ensures entries { IfOk result (λ core. open_of core ≡ 0) }
    ensures lines { IfOk result (λ core. done_of core ≡ all_lines core.script) }
{
    let (kernel, mut passes) = Kernel::<P, J, B>::open(
        alloc, script, modules, lines, busy, register,
    )?;
    let run = Run {
        rt,
        alloc,
        gate,
        kernel: &kernel,
    };
    run.run_side_by_side(&mut passes);
    let all_done = have_all(script, &passes);
    whole_run(kernel.close(passes), all_done)
}

/// The core of a run, unless a task stopped early, which happens only where memory ran out.
fn whole_run<'s>(tracked: TrackedCore<'s>, all_done: bool) -> Result<TrackedCore<'s>, AllocError>
    ensures { IfOk result (λ whole. IsTrue all_done × (whole ≡ tracked.entry)) }
{
    if all_done {
        Ok(tracked)
    } else {
        Err(AllocError)
    }
}

/// What the thread of a task works with.
#[derive(Drop)]
struct Run<'k, 's, P: Policy, J: Job, B: Ledger, G: Gate, R: Threads + Wait + Sync> {
    rt: &'k R,
    alloc: Global,
    gate: &'k G,
    kernel: &'k Kernel<'s, P, J, B>,
}

impl<
    'k,
    's,
    P: Policy,
    J: Job + Send + Sync,
    B: Ledger + Send + Sync,
    G: Gate,
    R: Threads + Wait + Sync,
> Run<'k, 's, P, J, B, G, R> {
    /// Runs the task of each pass to its end, each in a thread of its own, and waits for all.
    fn run_side_by_side(&self, passes: &mut Vec<Pass<J, B>>)
        requires { AreOneEach J.script passes.old.items }
        ensures { AreOneEach J.script passes.new.items }
    {
        let threads = passes.len().max(1);
        thread::for_each_mut(
            self.rt,
            passes.as_mut_slice(),
            threads,
            &|_, pass: &mut Pass<J, B>|
                requires { pass.now.out ≡ false }
                ensures { IsBack pass.entry.now pass.exit.now }
            { self.run_task(pass) },
        );
    }

    /// Runs the task of the pass until it has no more lines, or stops because memory ran out.
    fn run_task(&self, pass: &mut Pass<J, B>)
        requires { pass.old.out ≡ false }
        ensures { IsBack pass.old pass.new }
    {
        let mut plan = NumberedPlan::new();
        while is_line(self.kernel.turn(pass)) {
            self.run_line(pass, &mut plan);
        }
    }

    /// Does the next line of the pass's task.
    fn run_line(&self, pass: &mut Pass<J, B>, plan: &mut NumberedPlan<J>)
        requires out { pass.old.out ≡ false }
        requires turn { IsLine (pass_turn J.script pass.old) }
        ensures { WentOn pass.old pass.new }
    {
        match self.kernel.turn(pass) {
            Turn::Entry => self.run_entry(pass, plan),
            Turn::Change => self.run_change(pass),
            Turn::Entered | Turn::Done | Turn::Finished | Turn::Stopped => unreachable!(),
        }
    }

    /// Does a line that is an entry.
    fn run_entry(&self, pass: &mut Pass<J, B>, plan: &mut NumberedPlan<J>)
        requires out { pass.old.out ≡ false }
        requires turn { pass_turn J.script pass.old ≡ turn.Entry }
        ensures { WentOn pass.old pass.new }
    {
        let at = place_of(pass);
        let mut ticket = self.kernel.enter(self.rt, pass);
        let done = self.run_call(&mut ticket, plan, at);
        self.kernel.leave(self.rt, ticket, pass);
        if done.is_ok() {
            self.gate.after(self.rt, at.task, at.line);
        }
    }

    /// Does the ticket's call: plans it, asks the policies and commits, again and again while the commit is stale.
    fn run_call(
        &self,
        ticket: &mut Ticket<J, B>,
        plan: &mut NumberedPlan<J>,
        at: Place,
    ) -> Result<(), AllocError>
        requires { ticket.old.committed ≡ false }
        ensures { IsSameTicket ticket.old ticket.new }
    {
        for _ in self.rt.forever() {
            let policies = self.kernel.policies(self.rt);
            let listed = Listed::new(self.kernel.fixed(), policies.list());
            self.kernel.plan(self.rt, ticket, plan);
            let verdict = Kernel::walk(&listed, ticket, plan);
            self.gate.between(self.rt, at.task, at.line);
            match self
                .kernel
                .commit(self.rt, self.alloc, ticket, &listed, plan, &verdict)
            {
                Ok(Commit::Done) => return Ok(()),
                Ok(Commit::Stale) => {}
                Err(error) => return Err(error),
            }
        }
        unreachable!()
    }

    /// Does a line that is a change.
    fn run_change(&self, pass: &mut Pass<J, B>)
        requires out { pass.old.out ≡ false }
        requires turn { pass_turn J.script pass.old ≡ turn.Change }
        ensures { WentOn pass.old pass.new }
    {
        let at = place_of(pass);
        if self.kernel.change(self.rt, self.alloc, pass).is_ok() {
            self.gate.after(self.rt, at.task, at.line);
        }
    }
}

/// Whether a line comes next.
fn is_line(next: Turn) -> bool
    ensures { IsTrue result ↔ IsLine next }
{
    matches!(next, Turn::Entry | Turn::Change)
}

/// A line, from 1, of a task, from 0.
#[derive(Clone, Copy)]
struct Place {
    task: u32,
    line: u32,
}

/// The next line of the pass's task.
fn place_of<J: Job, B: Ledger>(pass: &Pass<J, B>) -> Place {
    Place {
        task: pass.task(),
        line: pass.lines().saturating_add(1),
    }
}

/// Whether each pass has all lines of its task.
fn have_all<J: Job, B: Ledger>(script: &Script, passes: &Vec<Pass<J, B>>) -> bool
    requires { vec_len passes.now ≡ length script.now.tasks }
    ensures { IsTrue result → HaveAll script.now passes.now.items (length script.now.tasks) }
{
    let tasks = script.tasks.as_slice();
    for task in 0..tasks.len() {
        if passes[task].lines() as usize != tasks[task].lines.len() {
            return false;
        }
    }
    true
}
