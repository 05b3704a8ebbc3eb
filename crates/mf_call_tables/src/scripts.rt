//! Calls that tests write as lines of a script.
ghost use Rattle.std.specs.Prelude.{IfOk};
ghost use Rattle.mf_calls.specs.WellFormed.{IsFormedLine, IsName, IsWellFormed};

use mf_calls::{Line, SCRIPT_LIMIT, Script};
use mf_script::{ScriptError, read_script};
use std::alloc::{AllocError, Global};
use std::process::Abort;

/// Wants what is said of this to hold.
pub fn wants(rt: &impl Abort, name: &str, holds: bool) {
    assert!(rt; holds, "{name}");
}

fn read(rt: &impl Abort, alloc: Global, text: &str) -> Result<Script, AllocError>
    ensures { IfOk result (λ script. IsWellFormed script) }
{
    assert!(rt; text.len() <= SCRIPT_LIMIT);
    match read_script(alloc, text.as_bytes()) {
        Ok(script) => Ok(script),
        Err(ScriptError::Memory) => Err(AllocError),
        Err(ScriptError::Fault { .. }) => panic!(rt; "no script: {text}"),
    }
}

/// Reads the script in which this line is all that the task t does.
pub fn script_of(rt: &impl Abort, alloc: Global, line: &str) -> Result<Script, AllocError>
    ensures { IfOk result (λ script. IsWellFormed script) }
{
    let text = format!(in alloc; "task t uid 0 gid 0 label -\n{line}\nend\n")?;
    read(rt, alloc, text.as_str())
}

/// The name of the script's one task, and its one line.
pub fn only_line<'a>(rt: &impl Abort, script: &'a Script) -> (&'a str, &'a Line)
    requires { IsWellFormed script.now }
    ensures name { IsName result.0.now }
    ensures line { IsFormedLine result.1.now }
{
    let tasks = script.tasks.as_slice();
    assert!(rt; tasks.len() == 1);
    let lines = tasks[0].lines.as_slice();
    assert!(rt; lines.len() == 1);
    (tasks[0].name.as_str(), &lines[0])
}
