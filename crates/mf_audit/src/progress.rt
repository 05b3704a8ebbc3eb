//! How far each task is, as the player has it.
ghost use Rattle.std.specs.Prelude.{◌≡◌, ◌<◌, ◌≤◌, ◌+◌, ◌^◌, length, map, slice_set, if◌then◌else◌, IfOk};
ghost use Rattle.mf_calls.specs.declared.limits.TheConstants.{TASK_LIMIT};
ghost use Rattle.mf_core.specs.declared.progress.Phase.TheVariants as phases;
ghost use Rattle.mf_core.specs.Advances.{left};
ghost use Rattle.mf_core.specs.LegalHistory.{turn_at_line};
ghost use Rattle.mf_core.specs.Progress as spec;
ghost use Rattle.std.specs.Option.{option_copied};

use mf_calls::{Line, Task};
use mf_core::{Phase, Progress, Turn};
use mf_names::Listing;
use std::alloc::{AllocError, Global};
use std::marker::Model;

/// Where each task is at first.
const BEFORE_THE_FIRST_LINE: Progress = Progress {
    lines: 0,
    phase: Phase::Idle,
};

/// How far each task is, in their order. Contracts see the list.
#[derive(Drop)]
pub struct Standings {
    items: Vec<Progress>,
}

impl Model for Standings {
    ghost use Rattle.std.specs.Prelude.{List};
    ghost use Rattle.mf_core.specs.declared.progress.Progress.{Progress};

    ghost Value = { List Progress };

    ghost view = { λ a. a.items.items };
}

impl Standings {
    /// Each task before its first line.
    pub fn new(alloc: Global, tasks: &Listing<Task>) -> Result<Standings, AllocError>
        ensures { IfOk result (λ list. list ≡ map (λ t. spec.first_progress) tasks.now) }
    {
        let mut items = Vec::new(alloc);
        for _task in tasks.as_slice() {
            items.push(BEFORE_THE_FIRST_LINE)?;
        }
        Ok(Standings { items })
    }

    /// The number of tasks.
    pub fn len(&self) -> usize
        ensures { result ≡ length self.now }
    {
        self.items.len()
    }

    /// How far the task is.
    pub fn at(&self, task: usize) -> Progress
        requires { task < length self.now }
        ensures { result ≡ spec.progress_at self.now task }
    {
        self.items[task]
    }

    fn put(&mut self, task: usize, standing: Progress)
        requires { task < length self.old }
        ensures { self.new ≡ slice_set self.old task standing }
    {
        self.items[task] = standing;
    }

    /// Sets the phase of the task.
    pub fn set_phase(&mut self, task: usize, phase: Phase)
        requires { task < length self.old }
        ensures { self.new ≡ spec.with_phase self.old task phase }
    {
        let standing = self.at(task);
        self.put(task, Progress { phase, ..standing });
    }

    /// One more line of the task is done, and it is between its lines.
    pub fn advance(&mut self, task: usize)
        requires task { task < length self.old }
        requires room { (spec.progress_at self.old task).lines + 1 < 2 ^ 32 }
        ensures { self.new ≡ spec.with_line self.old task }
    {
        let standing = self.at(task);
        self.put(task, behind_its_line(standing));
    }

    /// The task leaves its entry. Where its call is done it has one more line, else it stops.
    pub fn leave(&mut self, task: usize)
        requires task { task < length self.old }
        requires room { (spec.progress_at self.old task).lines + 1 < 2 ^ 32 }
        ensures { self.new ≡ spec.with_left self.old task }
    {
        let standing = self.at(task);
        self.put(task, behind_its_entry(standing));
    }

    /// How many tasks are in an entry.
    pub fn open_entries(&self) -> u32
        requires { length self.now ≤ TASK_LIMIT }
        ensures { result ≡ spec.open_entries self.now }
    {
        let mut inside = 0;
        for standing in &self.items {
            if is_inside(standing.phase) {
                inside += 1;
            }
        }
        inside
    }
}

/// With one more line, and in no entry.
fn behind_its_line(standing: Progress) -> Progress
    requires { standing.lines + 1 < 2 ^ 32 }
    ensures { result ≡ record { lines = standing.lines + 1; phase = phases.Idle } }
{
    Progress {
        lines: standing.lines + 1,
        phase: Phase::Idle,
    }
}

/// Where a task is that leaves its entry from there.
fn behind_its_entry(standing: Progress) -> Progress
    requires { standing.lines + 1 < 2 ^ 32 }
    ensures { result ≡ left standing }
{
    match standing.phase {
        Phase::Idle | Phase::Entered | Phase::Stopped => Progress {
            phase: Phase::Stopped,
            ..standing
        },
        Phase::Done => behind_its_line(standing),
    }
}

/// Whether a task in this phase is in an entry.
fn is_inside(phase: Phase) -> bool
    ensures { spec.open_in phase ≡ (if result then 1 else 0) }
{
    matches!(phase, Phase::Entered | Phase::Done)
}

/// The turn of a task between its lines, where this line comes next.
pub fn turn_at(line: Option<&Line>) -> Turn
    ensures { result ≡ turn_at_line (option_copied line.entry) }
{
    let Some(line) = line else {
        return Turn::Finished;
    };
    if line.call.is_change() {
        Turn::Change
    } else {
        Turn::Entry
    }
}
