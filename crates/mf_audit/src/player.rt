//! A player, who goes through a history event by event.
ghost use Rattle.std.specs.Prelude.{◌≡◌, ◌==◌, ◌<◌, ◌↔◌, ℕ, length, IfOk, IsSome, IsTrue, Some};
ghost use Rattle.mf_calls.specs.WellFormed.{IsFormedLine, IsWellFormed};
ghost use Rattle.mf_core.specs.declared.history.Event.TheVariants as event;
ghost use Rattle.mf_core.specs.declared.progress.Turn.TheVariants as turn;
ghost use Rattle.mf_core.specs.LegalHistory.{next_line, next_number, opening_run, turn_of};
ghost use Rattle.mf_core.specs.Progress.{open_entries};
ghost use Rattle.mf_core.specs.RunView.{IsReached};
ghost use Rattle.mf_audit.specs.Taking.{Takes};

use crate::kernel::Kernel;
use crate::opening::opening;
use crate::progress::{Standings, turn_at};
use mf_calls::{Line, Script};
use mf_core::{Event, Phase, Turn};
use mf_plan::Reply;
use std::alloc::{AllocError, Global};
use std::marker::Model;

/// A player in a run of a script: the state of the kernel, and how far each task is. Contracts see the script and the state of
/// the run. It is lent: where memory runs out, the run is lost with it.
#[derive(Drop)]
pub(crate) struct Player<'s> {
    script: &'s Script,
    kernel: Kernel,
    standings: Standings,
}

impl<'s> Model for Player<'s> {
    ghost use Rattle.mf_core.specs.RunView.{RunView};

    ghost Value = { RunView };

    ghost view = { λ p. record {
      script = p.script.now;
      run = record { state = p.kernel; progress = p.standings };
    } };
}

impl<'s> Player<'s> {
    /// The player before the first event of the script.
    pub(crate) fn new(alloc: Global, script: &'s Script) -> Result<Player<'s>, AllocError>
        requires { IsWellFormed script.now }
        ensures opening { IfOk result (λ player. player
            ≡ record { script = script.now; run = opening_run script.now }) }
        ensures reached { IfOk result (λ player. IsReached player.script player.run) }
    {
        let kernel = opening(alloc, script)?;
        let standings = Standings::new(alloc, &script.tasks)?;
        Ok(Player {
            script,
            kernel,
            standings,
        })
    }

    /// Takes the event where it may come, and answers whether it may. After false nothing is known of the player.
    pub(crate) fn take(&mut self, alloc: Global, event: &Event) -> Result<bool, AllocError>
        requires { IsReached self.old.script self.old.run }
        ensures { IfOk result (Takes self.old event.now self.new) }
    {
        match event {
            Event::Enter(task) => Ok(self.enter(*task)),
            Event::Leave(task) => Ok(self.leave(*task)),
            Event::Done(task, line, reply) => {
                let lent = reply.lend();
                self.done(alloc, *task, *line, lent.get())
            }
            Event::Changed(task, line, reply) => {
                let lent = reply.lend();
                self.changed(alloc, *task, *line, lent.get())
            }
        }
    }

    /// Whether each task has done all its lines.
    pub(crate) fn is_complete(&self) -> bool
        requires { IsReached self.now.script self.now.run }
        ensures { IsTrue result ↔ ((t : ℕ) → t < length self.now.script.tasks
            → turn_of self.now.script self.now.run.progress t ≡ turn.Finished) }
    {
        for task in 0..self.script.tasks.len() {
            match self.turn(task as u32) {
                Turn::Finished => {}
                Turn::Entry | Turn::Change | Turn::Entered | Turn::Done | Turn::Stopped => {
                    return false;
                }
            }
        }
        true
    }

    /// What the task may do next. There is nothing for one that the script doesn't have.
    fn turn(&self, task: u32) -> Turn
        requires { IsReached self.now.script self.now.run }
        ensures { result ≡ turn_of self.now.script self.now.run.progress task }
    {
        if task as usize >= self.standings.len() {
            return Turn::Finished;
        }
        let progress = self.standings.at(task as usize);
        match progress.phase {
            Phase::Idle => turn_at(self.script.next_line(task, progress.lines)),
            Phase::Entered => Turn::Entered,
            Phase::Done => Turn::Done,
            Phase::Stopped => Turn::Stopped,
        }
    }

    /// The task begins an entry.
    fn enter(&mut self, task: u32) -> bool
        requires { IsReached self.old.script self.old.run }
        ensures { Takes self.old (event.Enter task) self.new result }
    {
        match self.turn(task) {
            Turn::Entry => {
                self.standings.set_phase(task as usize, Phase::Entered);
                true
            }
            Turn::Change | Turn::Entered | Turn::Done | Turn::Finished | Turn::Stopped => false,
        }
    }

    /// The task ends its entry.
    fn leave(&mut self, task: u32) -> bool
        requires { IsReached self.old.script self.old.run }
        ensures { Takes self.old (event.Leave task) self.new result }
    {
        match self.turn(task) {
            Turn::Entered | Turn::Done => {
                self.standings.leave(task as usize);
                true
            }
            Turn::Entry | Turn::Change | Turn::Finished | Turn::Stopped => false,
        }
    }

    /// The call of the task's entry is done, with this reply.
    fn done(
        &mut self,
        alloc: Global,
        task: u32,
        number: u32,
        given: &Reply,
    ) -> Result<bool, AllocError>
        requires { IsReached self.old.script self.old.run }
        ensures { IfOk result (Takes self.old (event.Done task number given.now) self.new) }
    {
        if !self.is_at_call(task, number) {
            return Ok(false);
        }
        let line = self.line(task);
        let script = self.script;
        let name = script.name_of(task);
        if !self.kernel.go_on(alloc, name, line, given)? {
            return Ok(false);
        }
        self.standings.set_phase(task as usize, Phase::Done);
        Ok(true)
    }

    /// The change of the task's line is made, with this reply.
    fn changed(
        &mut self,
        alloc: Global,
        task: u32,
        number: u32,
        given: &Reply,
    ) -> Result<bool, AllocError>
        requires { IsReached self.old.script self.old.run }
        ensures { IfOk result (Takes self.old (event.Changed task number given.now) self.new) }
    {
        if !self.is_at_change(task, number) {
            return Ok(false);
        }
        let line = self.line(task);
        let script = self.script;
        let name = script.name_of(task);
        if !self.kernel.go_on(alloc, name, line, given)? {
            return Ok(false);
        }
        self.standings.advance(task as usize);
        Ok(true)
    }

    /// Whether the call of the task's entry, at the line of that number, may be done.
    fn is_at_call(&self, task: u32, number: u32) -> bool
        requires { IsReached self.now.script self.now.run }
        ensures { IsTrue result ↔ (turn_of self.now.script self.now.run.progress task
            ≡ turn.Entered)
            × (number ≡ next_number self.now.run task) }
    {
        match self.turn(task) {
            Turn::Entered => self.is_next(task, number),
            Turn::Entry | Turn::Change | Turn::Done | Turn::Finished | Turn::Stopped => false,
        }
    }

    /// Whether the change at the line of that number may be made: no entry is open.
    fn is_at_change(&self, task: u32, number: u32) -> bool
        requires { IsReached self.now.script self.now.run }
        ensures { IsTrue result ↔ (open_entries self.now.run.progress ≡ 0)
            × (turn_of self.now.script self.now.run.progress task ≡ turn.Change)
            × (number ≡ next_number self.now.run task) }
    {
        match self.turn(task) {
            Turn::Change => self.standings.open_entries() == 0 && self.is_next(task, number),
            Turn::Entry | Turn::Entered | Turn::Done | Turn::Finished | Turn::Stopped => false,
        }
    }

    /// Whether the line after those that the task has done has this number.
    fn is_next(&self, task: u32, number: u32) -> bool
        requires reached { IsReached self.now.script self.now.run }
        requires task { task < length self.now.script.tasks }
        ensures { result ≡ (number == next_number self.now.run task) }
    {
        number == self.standings.at(task as usize).lines + 1
    }

    /// The line after those that the task has done.
    fn line(&self, task: u32) -> &'s Line
        requires reached { IsReached self.now.script self.now.run }
        requires task { task < length self.now.script.tasks }
        requires line { IsSome (next_line self.now.script self.now.run.progress task) }
        ensures value { next_line self.now.script self.now.run.progress task ≡ Some result.now }
        ensures formed { IsFormedLine result.now }
    {
        let progress = self.standings.at(task as usize);
        self.script.line_at(task, progress.lines)
    }
}
