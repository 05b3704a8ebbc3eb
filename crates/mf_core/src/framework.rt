//! The core: a history that is legal for its script, with the state that it determines.
ghost use Rattle.std.specs.Prelude.{◌≡◌, ◌+◌, ◌<◌, ◌≤◌, ◌⊎◌, ℕ, [], All, IfOk, length, map, Some};
ghost use Rattle.mf_elem.specs.declared.label.TheConstants.{SLOTS};
ghost use Rattle.mf_objects.specs.Lives.{made_count};
ghost use Rattle.mf_policy.specs.Modules.{module_of};
ghost use Rattle.mf_list.specs.Fresh.{IsFresh};
ghost use Rattle.mf_calls.specs.declared.limits.TheConstants.{LINE_LIMIT};
ghost use Rattle.mf_calls.specs.Tasks.{lines_of};
ghost use Rattle.mf_calls.specs.WellFormed.{IsFormedLine, IsWellFormed};
ghost use Rattle.mf_perform.specs.Verdict as step;
ghost use Rattle.mf_core.specs.declared.history.Event.TheVariants as event;
ghost use Rattle.mf_core.specs.declared.progress.Turn.TheVariants as turn;
ghost use Rattle.mf_core.specs.declared.progress.Phase.TheVariants as phase;
ghost use Rattle.mf_core.specs.LegalHistory.{IsComplete, IsLegal, next_line};
ghost use Rattle.mf_core.specs.Next.{next_plan};
ghost use Rattle.mf_core.specs.NextFound.{IsNextOutline};
ghost use Rattle.mf_core.specs.Opening.{booted_specs, boots_of};
ghost use Rattle.mf_core.specs.Policies.{AreOf, static_of};
ghost use Rattle.mf_core.specs.AllModules.{AreAllModules};
ghost use Rattle.mf_core.specs.Progress.{progress_at, first_progress, open_entries};
ghost use Rattle.mf_core.specs.Advances.{Advances, left};
ghost use Rattle.mf_core.specs.CoreView.{with_next, run_state, specs_of, progress_of, turn_at, open_of, lines_at, done_of, all_lines, lines_left};

mod changing;

use crate::booting::boot;
use crate::history::{BootList, Event, EventList, History};
use crate::progress::Turn;
use crate::run::Run;
use mf_calls::{Line, Script};
use mf_list::{Catalogue, Fixed, Listed, PolicyList};
use mf_perform::{Verdict, verdict_of};
use mf_plan::{Outline, Plan, State};
use mf_policy::Policy;
use std::alloc::{AllocError, Global};
use std::marker::Model;

/// A run of a script with its history so far. Contracts see the script and the history, which is legal and determines all else.
#[derive(Drop)]
pub struct Core<'s> {
    run: Run<'s>,
    history: History,
}

impl<'s> Model for Core<'s> {
    ghost use Rattle.mf_core.specs.CoreView.{CoreView};
    ghost use Rattle.mf_core.specs.Consistency.{IsConsistent};

    ghost Value = { CoreView };

    ghost view = { λ c. record { script = c.run.script; history = c.history } };

    ghost invariant = { λ c. IsConsistent c.run.script c.history c.run.run };
}

impl<'s> Core<'s> {
    /// The core before the first event of the script, and the static list, which nothing changes from then on. `modules` has
    /// a policy of each module, once, in its initial state. Those that the script boots are registered in its order, and then
    /// mac_biba's is set as the script's tunable says; the others stay in the catalogue.
    pub fn new<P: Policy>(
        alloc: Global,
        script: &'s Script,
        modules: Vec<P>,
    ) -> Result<(Core<'s>, Fixed<P>, PolicyList<P>, Catalogue<P>), AllocError>
        requires formed { IsWellFormed script.now }
        requires modules { AreAllModules (map (λ p. module_of (P.spec p)) modules.items) }
        requires fresh { All (λ p. IsFresh (P.spec p)) modules.items }
        ensures script { IfOk result (λ r. r.0.script ≡ script.now) }
        ensures boots { IfOk result (λ r. r.0.history.boots ≡ boots_of script.now) }
        ensures history { IfOk result (λ r. r.0.history.events.list ≡ []) }
        ensures progress { IfOk result (λ r. (t : ℕ)
            → progress_at (progress_of r.0) t ≡ first_progress) }
        ensures policies { IfOk result (λ r. AreOf (specs_of r.0) r.1 r.2 r.3) }
        ensures fixed { IfOk result (λ r. r.1 ≡ static_of script.now) }
        ensures entries { IfOk result (λ r. open_of r.0 ≡ 0) }
        ensures lines { IfOk result (λ r. done_of r.0 ≡ 0) }
    {
        let (boots, fixed, list, catalogue) = boot(alloc, script, modules)?;
        let core = Core::with_boots(alloc, script, boots)?;
        Ok((core, fixed, list, catalogue))
    }

    /// The core before the first event of the script, with the registrations of the modules that it boots.
    fn with_boots(
        alloc: Global,
        script: &'s Script,
        boots: BootList,
    ) -> Result<Core<'s>, AllocError>
        requires formed { IsWellFormed script.now }
        requires boots { boots ≡ boots_of script.now }
        ensures script { IfOk result (λ core. core.script ≡ script.now) }
        ensures boots { IfOk result (λ core. core.history.boots ≡ boots_of script.now) }
        ensures history { IfOk result (λ core. core.history.events.list ≡ []) }
        ensures progress { IfOk result (λ core. (t : ℕ)
            → progress_at (progress_of core) t ≡ first_progress) }
        ensures specs { IfOk result (λ core. specs_of core ≡ booted_specs script.now) }
        ensures entries { IfOk result (λ core. open_of core ≡ 0) }
        ensures lines { IfOk result (λ core. done_of core ≡ 0) }
    {
        let events = EventList::with_room(alloc, 3 * script.line_count())?;
        let run = Run::new(alloc, script)?;
        Ok(Core {
            run,
            history: History { boots, events },
        })
    }

    /// The script.
    pub fn script(&self) -> &'s Script
        ensures { result.now ≡ self.now.script }
    {
        self.run.script()
    }

    /// The line of the call that the task has entered for.
    pub fn line(&self, task: u32) -> &'s Line
        requires task { task < length self.now.script.tasks }
        requires turn { turn_at self.now task ≡ turn.Entered }
        ensures value { next_line self.now.script (progress_of self.now) task ≡ Some result.now }
        ensures formed { IsFormedLine result.now }
    {
        self.run.line(task)
    }

    /// What the task may do next. Tasks count from 0.
    pub fn turn(&self, task: u32) -> Turn
        requires { task < length self.now.script.tasks }
        ensures { result ≡ turn_at self.now task }
    {
        self.run.turn(task)
    }

    /// Begins an entry of the task.
    pub fn enter(&mut self, task: u32)
        requires task { task < length self.old.script.tasks }
        requires turn { turn_at self.old task ≡ turn.Entry }
        ensures event { self.new ≡ with_next self.old (event.Enter task) }
        ensures progress { Advances (progress_of self.old) (progress_of self.new) task
            (record (progress_at (progress_of self.old) task) { phase = phase.Entered }) }
        ensures specs { specs_of self.new ≡ specs_of self.old }
        ensures entries { open_of self.new ≡ open_of self.old + 1 }
        ensures lines { done_of self.new ≡ done_of self.old }
    {
        self.run.enter(task);
        self.history.events.push(Event::Enter(task));
    }

    /// Ends the task's entry. Where its call isn't done, the task stops.
    pub fn leave(&mut self, task: u32)
        requires task { task < length self.old.script.tasks }
        requires turn { (turn_at self.old task ≡ turn.Done)
            ⊎ (turn_at self.old task ≡ turn.Entered) }
        ensures event { self.new ≡ with_next self.old (event.Leave task) }
        ensures progress { Advances (progress_of self.old) (progress_of self.new) task
            (left (progress_at (progress_of self.old) task)) }
        ensures specs { specs_of self.new ≡ specs_of self.old }
        ensures entries { open_of self.new + 1 ≡ open_of self.old }
        ensures lines { done_of self.new ≡ done_of self.old + lines_left (turn_at self.old task) }
    {
        self.run.leave(task);
        self.history.events.push(Event::Leave(task));
    }

    /// Makes `plan` that of the call that the task has entered for, from the present state, and `outline` that of the call.
    pub fn plan(&self, task: u32, plan: &mut Plan, outline: &mut Outline)
        requires task { task < length self.now.script.tasks }
        requires turn { turn_at self.now task ≡ turn.Entered }
        ensures plan { next_plan self.now.script (run_state self.now) task ≡ Some plan.new }
        ensures outline { IsNextOutline self.now.script (run_state self.now) task outline.new }
    {
        self.run.plan(task, plan, outline);
    }

    /// The listed policies' verdict on a plan: the first denial, if a check is denied.
    pub fn walk<P: Policy>(list: &Listed<'_, P>, plan: &Plan) -> Verdict
        ensures { result ≡ step.verdict_of list.now plan.now }
    {
        verdict_of(list, plan)
    }

    /// How many entries are open.
    pub fn open_entries(&self) -> u32
        ensures { result ≡ open_entries (progress_of self.now) }
    {
        self.run.open_entries()
    }

    /// How many lines of the task are done: never more than the script gives it.
    pub fn lines(&self, task: u32) -> u32
        requires { task < length self.now.script.tasks }
        ensures value { result ≡ lines_at self.now task }
        ensures within { result ≤ length (lines_of self.now.script task) }
        ensures most { result ≤ LINE_LIMIT }
    {
        self.run.lines(task)
    }

    /// The present state.
    pub fn state(&self) -> &State
        ensures { result.now ≡ (run_state self.now).state }
    {
        self.run.state()
    }

    /// How many live entities of the present state have the label slot made.
    pub fn held(&self, slot: u8) -> u32
        requires { slot < SLOTS }
        ensures { result ≡ made_count (run_state self.now).state.objects slot }
    {
        self.state().objects.held(slot)
    }

    /// The history so far.
    pub fn history(&self) -> &History
        ensures value { result.now ≡ self.now.history }
        ensures formed { IsWellFormed self.now.script }
        ensures legal { IsLegal self.now.script self.now.history }
        ensures complete { open_of self.now ≡ 0 → done_of self.now ≡ all_lines self.now.script
            → IsComplete self.now.script self.now.history }
    {
        &self.history
    }
}
