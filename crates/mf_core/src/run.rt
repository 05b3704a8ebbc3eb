//! A run of a script: the state of the framework, and how far each task is.
ghost use Rattle.std.specs.Prelude.{◌≡◌, ◌<◌, ◌≤◌, ◌+◌, ◌⊎◌, ◌↔◌, [], length, fold, true, false, IfOk, IsOk, IsSome, IsTrue, OnOk, OnErr, Some};
ghost use Rattle.mf_calls.specs.declared.limits.TheConstants.{LINE_LIMIT};
ghost use Rattle.mf_calls.specs.Tasks.{lines_of};
ghost use Rattle.mf_calls.specs.WellFormed.{IsFormedLine, IsWellFormed};
ghost use Rattle.mf_plan.specs.declared.plan.Tail.TheVariants.{Do};
ghost use Rattle.mf_plan.specs.declared.reply.Payload.TheVariants as payload;
ghost use Rattle.mf_perform.specs.Refused.{is_ok};
ghost use Rattle.mf_perform.specs.Verdict.{verdict_of};
ghost use Rattle.mf_perform.specs.Reply.{reply_to};
ghost use Rattle.mf_core.specs.declared.history.Event.TheVariants as event;
ghost use Rattle.mf_core.specs.declared.progress.Turn.TheVariants as turn;
ghost use Rattle.mf_core.specs.LegalHistory.{next_line, next_reply, opening_run, turn_of, MayCome};
ghost use Rattle.mf_core.specs.RunView.{run_on};
ghost use Rattle.mf_core.specs.NextFound.{IsNextFound, IsNextOutline};
ghost use Rattle.mf_core.specs.Next.{next_plan};
ghost use Rattle.mf_policy.specs.Registration.{given_after};
ghost use Rattle.mf_core.specs.Opening.{booted_specs};
ghost use Rattle.mf_core.specs.Progress.{open_entries, progress_at};

mod changing;

use crate::booting::tunable_of;
use crate::kept_reply::KeptReply;
use crate::opening::opening_objects;
use crate::progress::{Phase, ProgressList, Turn};
use mf_calls::{Line, Script};
use mf_errno::Module;
use mf_perform::{Verdict, complete, load, payload_of, refusal_of};
use mf_plan::{Found, Outline, Plan, Reply, State};
use mf_policy::SpecList;
use mf_slots::SlotNumbers;
use std::alloc::{AllocError, Global};
use std::marker::Model;

/// A run of a script, event by event. Contracts see the script and the state of the run.
#[derive(Drop)]
pub struct Run<'s> {
    script: &'s Script,
    state: State,
    progress: ProgressList,
}

impl<'s> Model for Run<'s> {
    ghost use Rattle.mf_core.specs.RunView.{RunView, IsReached};

    ghost Value = { RunView };

    ghost view = { λ r. record {
      script = r.script.now;
      run = record { state = r.state; progress = r.progress };
    } };

    ghost invariant = { λ r. IsReached r.script.now
        (record { state = r.state; progress = r.progress }) };
}

impl<'s> Run<'s> {
    /// The run before the first event of the script.
    pub fn new(alloc: Global, script: &'s Script) -> Result<Run<'s>, AllocError>
        requires { IsWellFormed script.now }
        ensures { IfOk result (λ run. run
            ≡ record { script = script.now; run = opening_run script.now }) }
    {
        let progress = ProgressList::for_tasks(alloc, &script.tasks)?;
        let (specs, numbers) = booted(alloc, script)?;
        let objects = opening_objects(alloc, script, &specs)?;
        let state = State {
            objects,
            specs,
            numbers,
            booted: true,
        };
        Ok(Run {
            script,
            state,
            progress,
        })
    }

    /// What the task may do next. Tasks count from 0.
    pub fn turn(&self, task: u32) -> Turn
        requires { task < length self.now.script.tasks }
        ensures { result ≡ turn_of self.now.script self.now.run.progress task }
    {
        let progress = self.progress.at(task as usize);
        match progress.phase {
            Phase::Idle => Turn::at_line(self.script.next_line(task, progress.lines)),
            Phase::Entered => Turn::Entered,
            Phase::Done => Turn::Done,
            Phase::Stopped => Turn::Stopped,
        }
    }

    /// The script.
    pub(crate) fn script(&self) -> &'s Script
        ensures { result.now ≡ self.now.script }
    {
        self.script
    }

    /// The task's next line.
    pub(crate) fn line(&self, task: u32) -> &'s Line
        requires task { task < length self.now.script.tasks }
        requires line { IsSome (next_line self.now.script self.now.run.progress task) }
        ensures value { next_line self.now.script self.now.run.progress task ≡ Some result.now }
        ensures formed { IsFormedLine result.now }
    {
        let progress = self.progress.at(task as usize);
        self.script.line_at(task, progress.lines)
    }

    /// Makes `plan` that of the call of the task's next line, from the present state, and `outline` its outline.
    pub fn plan(&self, task: u32, plan: &mut Plan, outline: &mut Outline)
        requires task { task < length self.now.script.tasks }
        requires line { IsSome (next_line self.now.script self.now.run.progress task) }
        ensures plan { next_plan self.now.script self.now.run task ≡ Some plan.new }
        ensures found { plan.new.tail ≡ Do
            → IsNextFound self.now.script self.now.run task outline.new.found }
        ensures outline { IsNextOutline self.now.script self.now.run task outline.new }
    {
        let line = self.line(task);
        let name = self.script.name_of(task);
        plan.make(&self.state, name, line.child_name(), &line.call, outline);
    }

    /// Whether this is the plan of the call of the task's next line in the present state. The outline becomes that of the call.
    pub(crate) fn has_plan(&self, task: u32, plan: &Plan, outline: &mut Outline) -> bool
        requires task { task < length self.now.script.tasks }
        requires line { IsSome (next_line self.now.script self.now.run.progress task) }
        ensures is { IsTrue result ↔ (next_plan self.now.script self.now.run task ≡ Some plan.now) }
        ensures outline { IsNextOutline self.now.script self.now.run task outline.new }
    {
        let line = self.line(task);
        let name = self.script.name_of(task);
        plan.is_of(&self.state, name, line.child_name(), &line.call, outline)
    }

    /// The reply to the call of the task's next line. The plan, what was found as it was made, and the verdict of the state's
    /// policies on it must be those of the call. Inlined, since each call goes through here.
    #[inline(always)]
    pub fn reply(
        &self,
        alloc: Global,
        task: u32,
        plan: &Plan,
        found: &Found,
        verdict: &Verdict,
    ) -> Result<KeptReply, AllocError>
        requires task { task < length self.now.script.tasks }
        requires plan { next_plan self.now.script self.now.run task ≡ Some plan.now }
        requires found { plan.now.tail ≡ Do
            → IsNextFound self.now.script self.now.run task found.now }
        requires verdict { verdict.now ≡ verdict_of self.now.run.state.specs plan.now }
        ensures value { IfOk result (λ reply. next_reply self.now.script self.now.run task
            ≡ Some reply) }
        ensures memory { is_ok (reply_to plan.now verdict.now.denied payload.None) ≡ false
            → IsOk result }
    {
        if let Some(refusal) = refusal_of(plan, verdict) {
            return KeptReply::new(alloc, refusal);
        }
        let line = self.line(task);
        let payload = payload_of(alloc, &self.state, found, &line.call)?;
        KeptReply::done(alloc, payload)
    }

    /// The task begins an entry.
    pub fn enter(&mut self, task: u32)
        requires { turn_of self.old.script self.old.run.progress task ≡ turn.Entry }
        ensures { self.new ≡ run_on self.old (event.Enter task) }
    {
        self.progress.set_phase(task as usize, Phase::Entered);
    }

    /// The task ends its entry.
    pub fn leave(&mut self, task: u32)
        requires { (turn_of self.old.script self.old.run.progress task ≡ turn.Done)
            ⊎ (turn_of self.old.script self.old.run.progress task ≡ turn.Entered) }
        ensures { self.new ≡ run_on self.old (event.Leave task) }
    {
        self.progress.leave(task as usize);
    }

    /// The call of the task's entry, at the line of that number, is done with this reply; the outline is that of the call. If memory
    /// runs out, nothing changes.
    pub fn commit(
        &mut self,
        alloc: Global,
        task: u32,
        number: u32,
        outline: &Outline,
        reply: &KeptReply,
    ) -> Result<(), AllocError>
        requires may { MayCome self.old.script self.old.run (event.Done task number reply.now) }
        requires outline { IsNextOutline self.old.script self.old.run task outline.now }
        ensures ok { OnOk result (self.new ≡ run_on self.old (event.Done task number reply.now)) }
        ensures err { OnErr result (self.new ≡ self.old) }
        ensures memory { is_ok reply.now ≡ false → IsOk result }
    {
        let line = self.line(task);
        let name = self.script.name_of(task);
        let lent = reply.lend();
        complete(alloc, &mut self.state, name, line, outline, lent.get())?;
        self.progress.set_phase(task as usize, Phase::Done);
        Ok(())
    }

    /// How many entries are open.
    pub fn open_entries(&self) -> u32
        ensures { result ≡ open_entries self.now.run.progress }
    {
        self.progress.open_entries()
    }

    /// How many lines of the task are done: never more than the script gives it.
    pub fn lines(&self, task: u32) -> u32
        requires { task < length self.now.script.tasks }
        ensures value { result ≡ (progress_at self.now.run.progress task).lines }
        ensures within { result ≤ length (lines_of self.now.script task) }
        ensures most { result ≤ LINE_LIMIT }
    {
        self.progress.at(task as usize).lines
    }

    /// The state of the framework.
    pub fn state(&self) -> &State
        ensures { result.now ≡ self.now.run.state }
    {
        &self.state
    }
}

/// The policies that are listed at the end of boot, in walk order, and how many slot numbers they took.
fn booted(alloc: Global, script: &Script) -> Result<(SpecList, SlotNumbers), AllocError>
    requires { IsWellFormed script.now }
    ensures specs { IfOk result (λ r. r.0 ≡ booted_specs script.now) }
    ensures numbers { IfOk result (λ r. r.1 ≡ fold given_after 0 script.now.boots) }
{
    let mut specs = SpecList::new(alloc);
    let mut numbers = SlotNumbers::new();
    list_booted(alloc, script, &mut specs, &mut numbers)?;
    Ok((specs, numbers))
}

/// Lists the modules that the script boots, in its order, and sets mac_biba's policy as the script's tunable says.
fn list_booted(
    alloc: Global,
    script: &Script,
    specs: &mut SpecList,
    numbers: &mut SlotNumbers,
) -> Result<(), AllocError>
    requires formed { IsWellFormed script.now }
    requires unlisted { specs.old ≡ [] }
    requires ungiven { numbers.old ≡ 0 }
    ensures specs { OnOk result (specs.new ≡ booted_specs script.now) }
    ensures numbers { OnOk result (numbers.new ≡ fold given_after 0 script.now.boots) }
{
    for wanted in script.boots.as_slice() {
        load(alloc, specs, numbers, false, *wanted)?;
    }
    let _answer = specs.change(alloc, Module::Biba, &tunable_of(script))?;
    Ok(())
}
