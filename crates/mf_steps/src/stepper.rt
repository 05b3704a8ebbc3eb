//! A core with the plans that its steps keep.
ghost use Rattle.std.specs.Prelude.{◌≡◌, ◌<◌, ◌++◌, [], All, length, map, IfOk, OnOk, IsTrue, ◌↔◌, string_bytes};
ghost use Rattle.mf_policy.specs.Modules.{module_of};
ghost use Rattle.mf_list.specs.Fresh.{IsFresh};
ghost use Rattle.mf_calls.specs.declared.script.StepKind.TheVariants as step;
ghost use Rattle.mf_calls.specs.WellFormed.{IsWellFormed};
ghost use Rattle.mf_core.specs.AllModules.{AreAllModules};
ghost use Rattle.mf_steps.specs.Answers.{DoesStep, PrintsLast, StepsOrNot};
ghost use Rattle.mf_steps.specs.StepRun.{step_opening};
ghost use Rattle.mf_steps.specs.Steps.{Does, IsInTurn, stale_text, waits_text};

use crate::kept::KeptPlans;
use mf_calls::{Script, Step, StepKind};
use mf_core::{ChangeOutcome, Commit, Core, Event, Turn};
use mf_hist::print_event;
use mf_list::{Catalogue, Fixed, Listed, PolicyList};
use mf_plan::Plan;
use mf_policy::Policy;
use std::alloc::{AllocError, Global};
use std::marker::Model;

/// A core with its lists of policies, the catalogue of the others, and the kept plans. Contracts see the core and the plans.
#[derive(Drop)]
pub struct Stepper<'s, P: Policy> {
    script: &'s Script,
    core: Core<'s>,
    fixed: Fixed<P>,
    list: PolicyList<P>,
    catalogue: Catalogue<P>,
    kept: KeptPlans,
    /// The plan of the last change, whose room is used again.
    change: Plan,
}

impl<'s, P: Policy> Model for Stepper<'s, P> {
    ghost use Rattle.mf_steps.specs.Stepper.{StepperView, IsSoundStepper};

    ghost Value = { StepperView };

    ghost view = { λ f. record { core = f.core; kept = f.kept } };

    ghost invariant = { λ f. IsSoundStepper f.script.now f.core f.fixed f.list f.catalogue f.kept };
}

impl<'s, P: Policy> Stepper<'s, P> {
    ghost use Rattle.mf_core.specs.Opening.{boots_of};
    ghost use Rattle.mf_steps.specs.Stepper.{step_run};

    /// Before the first step of the script.
    pub fn new(
        alloc: Global,
        script: &'s Script,
        modules: Vec<P>,
    ) -> Result<Stepper<'s, P>, AllocError>
        requires formed { IsWellFormed script.now }
        requires modules { AreAllModules (map (λ p. module_of (P.spec p)) modules.items) }
        requires fresh { All (λ p. IsFresh (P.spec p)) modules.items }
        ensures script { IfOk result (λ f. f.core.script ≡ script.now) }
        ensures opening { IfOk result (λ f. step_run f ≡ step_opening script.now) }
    {
        let kept = KeptPlans::for_tasks(alloc, &script.tasks)?;
        let (core, fixed, list, catalogue) = Core::new(alloc, script, modules)?;
        Ok(Stepper {
            script,
            core,
            fixed,
            list,
            catalogue,
            kept,
            change: Plan::new(),
        })
    }

    /// The core.
    pub fn core(&self) -> &Core<'s>
        ensures { result.now ≡ self.now.core }
    {
        &self.core
    }

    /// The core, after the last step.
    pub fn into_core(self) -> Core<'s>
        ensures core { result ≡ self.entry.core }
        ensures boots { result.history.boots ≡ boots_of result.script }
    {
        let core = self.core;
        let _history = core.history();
        core
    }

    /// Takes the step, where its task is one of the script and it is in turn, and appends what it prints. The result is whether
    /// it was taken.
    pub fn step(&mut self, alloc: Global, step: &Step, out: &mut String) -> Result<bool, AllocError>
        ensures script { self.new.core.script ≡ self.old.core.script }
        ensures step { IfOk result (λ taken. StepsOrNot taken self.old step.now self.new
            (string_bytes out.old) (string_bytes out.new)) }
    {
        let Some(task) = self.script.task_named(step.task.as_str()) else {
            return Ok(false);
        };
        let task = task as u32;
        if !self.is_in_turn(step.kind, task) {
            return Ok(false);
        }
        self.take(alloc, step.kind, task, out)?;
        Ok(true)
    }

    /// Whether a step of the task is in turn.
    fn is_in_turn(&self, kind: StepKind, task: u32) -> bool
        requires { task < length self.now.core.script.tasks }
        ensures { IsTrue result ↔ IsInTurn self.now.core.script (step_run self.now) kind task }
    {
        let next = self.core.turn(task);
        match kind {
            StepKind::Enter => next == Turn::Entry,
            StepKind::Plan => next == Turn::Entered,
            StepKind::Done => next == Turn::Entered && self.kept.has(task as usize),
            StepKind::Leave => next == Turn::Done,
            StepKind::Change => next == Turn::Change,
        }
    }

    /// Takes a step that is in turn.
    fn take(
        &mut self,
        alloc: Global,
        kind: StepKind,
        task: u32,
        out: &mut String,
    ) -> Result<(), AllocError>
        requires task { task < length self.old.core.script.tasks }
        requires turn { IsInTurn self.old.core.script (step_run self.old) kind task }
        ensures script { self.new.core.script ≡ self.old.core.script }
        ensures does { OnOk result (DoesStep self.old kind task self.new (string_bytes out.old)
            (string_bytes out.new)) }
    {
        match kind {
            StepKind::Enter => self.enter(task, out),
            StepKind::Plan => {
                self.plan(task);
                Ok(())
            }
            StepKind::Done => self.done(alloc, task, out),
            StepKind::Leave => self.leave(task, out),
            StepKind::Change => self.change(alloc, task, out),
        }
    }

    fn enter(&mut self, task: u32, out: &mut String) -> Result<(), AllocError>
        requires task { task < length self.old.core.script.tasks }
        requires turn { IsInTurn self.old.core.script (step_run self.old) step.Enter task }
        ensures script { self.new.core.script ≡ self.old.core.script }
        ensures does { OnOk result (DoesStep self.old step.Enter task self.new
            (string_bytes out.old) (string_bytes out.new)) }
    {
        self.core.enter(task);
        print_event(self.script, &Event::Enter(task), out)
    }

    fn plan(&mut self, task: u32)
        requires task { task < length self.old.core.script.tasks }
        requires turn { IsInTurn self.old.core.script (step_run self.old) step.Plan task }
        ensures script { self.new.core.script ≡ self.old.core.script }
        ensures does { Does self.old.core.script (step_run self.old) step.Plan task []
            (step_run self.new) }
    {
        let listed = Listed::new(&self.fixed, &self.list);
        self.kept.keep(task, &self.core, &listed);
    }

    fn done(&mut self, alloc: Global, task: u32, out: &mut String) -> Result<(), AllocError>
        requires task { task < length self.old.core.script.tasks }
        requires turn { IsInTurn self.old.core.script (step_run self.old) step.Done task }
        ensures script { self.new.core.script ≡ self.old.core.script }
        ensures does { OnOk result (DoesStep self.old step.Done task self.new (string_bytes out.old)
            (string_bytes out.new)) }
    {
        let Some((plan, verdict)) = self.kept.get(task as usize) else {
            unreachable!()
        };
        let listed = Listed::new(&self.fixed, &self.list);
        let outcome = self.core.done(alloc, task, &listed, plan, verdict);
        self.kept.forget(task as usize);
        match outcome? {
            Commit::Done => {
                let events = self.core.history().events.as_slice();
                print_last(self.script, events, out)
            }
            Commit::Stale => print_stale(self.script, task, out),
        }
    }

    fn leave(&mut self, task: u32, out: &mut String) -> Result<(), AllocError>
        requires task { task < length self.old.core.script.tasks }
        requires turn { IsInTurn self.old.core.script (step_run self.old) step.Leave task }
        ensures script { self.new.core.script ≡ self.old.core.script }
        ensures does { OnOk result (DoesStep self.old step.Leave task self.new
            (string_bytes out.old) (string_bytes out.new)) }
    {
        self.core.leave(task);
        print_event(self.script, &Event::Leave(task), out)
    }

    fn change(&mut self, alloc: Global, task: u32, out: &mut String) -> Result<(), AllocError>
        requires task { task < length self.old.core.script.tasks }
        requires turn { IsInTurn self.old.core.script (step_run self.old) step.Change task }
        ensures script { self.new.core.script ≡ self.old.core.script }
        ensures does { OnOk result (DoesStep self.old step.Change task self.new
            (string_bytes out.old) (string_bytes out.new)) }
    {
        match self.core.change(
            alloc,
            task,
            &self.fixed,
            &mut self.list,
            &mut self.catalogue,
            &mut self.change,
        )? {
            ChangeOutcome::Done => {
                let events = self.core.history().events.as_slice();
                print_last(self.script, events, out)
            }
            ChangeOutcome::Waits(entries) => print_waits(self.script, task, entries, out),
        }
    }
}

/// Appends the line of the last event.
fn print_last(script: &Script, events: &[Event], out: &mut String) -> Result<(), AllocError>
    ensures { OnOk result (PrintsLast script.now events.now (string_bytes out.old)
        (string_bytes out.new)) }
{
    match events.last() {
        None => Ok(()),
        Some(event) => print_event(script, event, out),
    }
}

/// Appends the line of a call that can't be done by the plan that was kept.
fn print_stale(script: &Script, task: u32, out: &mut String) -> Result<(), AllocError>
    ensures { OnOk result (string_bytes out.new
        ≡ string_bytes out.old ++ stale_text script.now task) }
{
    let name = script.name_of(task);
    write!(out, "stale {name}\n")
}

/// Appends the line of a change that waits for that many entries.
fn print_waits(script: &Script, task: u32, entries: u32, out: &mut String) -> Result<(), AllocError>
    ensures { OnOk result (string_bytes out.new
        ≡ string_bytes out.old ++ waits_text script.now task entries) }
{
    let name = script.name_of(task);
    write!(out, "waits {name} {entries}\n")
}
