//! The canonical text of a whole script.
ghost use Rattle.std.specs.Prelude.{◌≡◌, ◌++◌, OnOk, OnErr, string_bytes};
ghost use Rattle.std.specs.List.{flat_map};
ghost use Rattle.mf_text.specs.Appending.{Extends};
ghost use Rattle.mf_spelling.specs.Spelling.{boot_pieces, file_pieces, line_pieces, step_pieces};
ghost use Rattle.mf_spelling.specs.Canonical.{lines_text, script_text, steps_text, task_text, tunable_text};
ghost use Rattle.mf_spelling.specs.Printed.{Adds};

use crate::lines::{push_boot, push_file, push_line, push_step, push_task, push_tunable};
use mf_calls::{FileLine, Line, Script, Step, Task};
use mf_errno::Module;
use std::alloc::{AllocError, Global};

/// Appends the canonical text of a script: its boots, its tunable where that is on, its files, tasks and steps, a line each,
/// words with one space between them, numbers without leading zeros, labels and rules in their canonical texts. If memory
/// runs out, `out` is unchanged.
pub fn print_script(alloc: Global, script: &Script, out: &mut String) -> Result<(), AllocError>
    ensures ok { OnOk result (string_bytes out.new
        ≡ string_bytes out.old ++ script_text script.now) }
    ensures err { OnErr result (string_bytes out.new ≡ string_bytes out.old) }
{
    let length = out.len();
    let appended = push_script(alloc, script, out);
    if appended.is_err() {
        out.truncate(length);
    }
    appended
}

fn push_script(alloc: Global, script: &Script, out: &mut String) -> Result<(), AllocError>
    ensures ok { OnOk result (Adds out.old out.new (script_text script.now)) }
    ensures err { OnErr result (Extends (string_bytes out.old) (string_bytes out.new)) }
{
    push_boots(script.boots.as_slice(), out)?;
    push_set_tunable(script.revocation, out)?;
    push_files(alloc, script.files.as_slice(), out)?;
    push_tasks(alloc, script.tasks.as_slice(), out)?;
    push_steps(script.steps.as_slice(), out)
}

fn push_boots(boots: &[Module], out: &mut String) -> Result<(), AllocError>
    ensures ok { OnOk result (Adds out.old out.new (lines_text boot_pieces boots.now)) }
    ensures err { OnErr result (Extends (string_bytes out.old) (string_bytes out.new)) }
{
    for module in boots {
        push_boot(*module, out)?;
    }
    Ok(())
}

/// The line of the tunable, where it is on.
fn push_set_tunable(revocation: bool, out: &mut String) -> Result<(), AllocError>
    ensures ok { OnOk result (Adds out.old out.new (tunable_text revocation)) }
    ensures err { OnErr result (Extends (string_bytes out.old) (string_bytes out.new)) }
{
    if revocation {
        push_tunable(out)
    } else {
        Ok(())
    }
}

fn push_files(alloc: Global, files: &[FileLine], out: &mut String) -> Result<(), AllocError>
    ensures ok { OnOk result (Adds out.old out.new (lines_text file_pieces files.now)) }
    ensures err { OnErr result (Extends (string_bytes out.old) (string_bytes out.new)) }
{
    for file in files {
        push_file(alloc, file, out)?;
    }
    Ok(())
}

fn push_tasks(alloc: Global, tasks: &[Task], out: &mut String) -> Result<(), AllocError>
    ensures ok { OnOk result (Adds out.old out.new (flat_map task_text tasks.now)) }
    ensures err { OnErr result (Extends (string_bytes out.old) (string_bytes out.new)) }
{
    for task in tasks {
        push_whole_task(alloc, task, out)?;
    }
    Ok(())
}

/// A task with its lines and their end.
fn push_whole_task(alloc: Global, task: &Task, out: &mut String) -> Result<(), AllocError>
    ensures ok { OnOk result (Adds out.old out.new (task_text task.now)) }
    ensures err { OnErr result (Extends (string_bytes out.old) (string_bytes out.new)) }
{
    push_task(alloc, task, out)?;
    push_lines(task.lines.as_slice(), out)?;
    out.push_str("end\n")
}

fn push_lines(lines: &[Line], out: &mut String) -> Result<(), AllocError>
    ensures ok { OnOk result (Adds out.old out.new (lines_text line_pieces lines.now)) }
    ensures err { OnErr result (Extends (string_bytes out.old) (string_bytes out.new)) }
{
    for line in lines {
        push_line(line, out)?;
    }
    Ok(())
}

/// The steps, where there are some.
fn push_steps(steps: &[Step], out: &mut String) -> Result<(), AllocError>
    ensures ok { OnOk result (Adds out.old out.new (steps_text steps.now)) }
    ensures err { OnErr result (Extends (string_bytes out.old) (string_bytes out.new)) }
{
    if steps.is_empty() {
        return Ok(());
    }
    out.push_str("steps\n")?;
    push_each_step(steps, out)?;
    out.push_str("end\n")
}

fn push_each_step(steps: &[Step], out: &mut String) -> Result<(), AllocError>
    ensures ok { OnOk result (Adds out.old out.new (lines_text step_pieces steps.now)) }
    ensures err { OnErr result (Extends (string_bytes out.old) (string_bytes out.new)) }
{
    for step in steps {
        push_step(step, out)?;
    }
    Ok(())
}
