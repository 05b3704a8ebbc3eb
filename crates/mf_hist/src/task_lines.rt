//! What the lines of a task's events have in common, made once for all of them.
ghost use Rattle.std.specs.Prelude.{◌≡◌, ◌++◌, map, IfOk, string_bytes};
ghost use Rattle.mf_hist.specs.TaskLines.{task_lines};

use mf_calls::Script;
use std::alloc::{AllocError, Global};
use std::marker::Model;

/// What the lines of a task's events have in common. Contracts see the texts.
#[derive(Drop)]
pub struct TaskLines {
    /// The line that begins an entry.
    enter: String,
    /// What stands in front of the number of a line that is done.
    done: String,
    /// The line that ends an entry.
    leave: String,
}

impl Model for TaskLines {
    ghost use Rattle.std.specs.Prelude.{string_bytes};
    ghost use Rattle.mf_hist.specs.TaskLines.{TaskLines};

    ghost Value = { TaskLines };

    ghost view = { λ t. record { enter = string_bytes t.enter; done = string_bytes t.done; leave = string_bytes t.leave } };
}

impl TaskLines {
    /// Those of a task of that name.
    pub fn new(alloc: Global, name: &str) -> Result<TaskLines, AllocError>
        ensures { IfOk result (λ lines. lines ≡ task_lines name.now) }
    {
        let enter = joined(alloc, "enter ", name, "\n")?;
        let done = joined(alloc, "done ", name, " ")?;
        let leave = joined(alloc, "leave ", name, "\n")?;
        Ok(TaskLines { enter, done, leave })
    }

    /// The line that begins an entry.
    pub fn enter(&self) -> &str
        ensures { result.now ≡ self.now.enter }
    {
        self.enter.as_str()
    }

    /// What stands in front of the number of a line that is done.
    pub fn done(&self) -> &str
        ensures { result.now ≡ self.now.done }
    {
        self.done.as_str()
    }

    /// The line that ends an entry.
    pub fn leave(&self) -> &str
        ensures { result.now ≡ self.now.leave }
    {
        self.leave.as_str()
    }
}

fn joined(alloc: Global, front: &str, name: &str, back: &str) -> Result<String, AllocError>
    ensures { IfOk result (λ text. string_bytes text ≡ front.now ++ name.now ++ back.now) }
{
    let mut text = String::from_str(alloc, front)?;
    text.push_str(name)?;
    text.push_str(back)?;
    Ok(text)
}

/// Those of each task.
pub fn lines_of_tasks(alloc: Global, script: &Script) -> Result<Vec<TaskLines>, AllocError>
    ensures { IfOk result (λ lines. lines.items ≡ map (λ task. task_lines task.name)
        script.now.tasks) }
{
    let mut lines = Vec::new(alloc);
    for task in script.tasks.as_slice() {
        lines.push(TaskLines::new(alloc, task.name.as_str())?)?;
    }
    Ok(lines)
}
