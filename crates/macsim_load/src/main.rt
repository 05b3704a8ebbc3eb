//! Prints the script of a generated load, so that it can be run, or run by steps, like any script. Its words are the two numbers
//! behind `gen` of macsim: how many lines a task has, and how many tasks there are.
#![tactic(auto)]

ghost use Rattle.std.specs.Prelude.{◌≡◌, ◌≤◌, IfOk, IfSome, string_bytes};
ghost use Rattle.mf_calls.specs.Generated.{generated};
ghost use Rattle.mf_spelling.specs.Canonical.{script_text};

use mf_calls::{LINE_LIMIT, TASK_LIMIT, generate};
use mf_spelling::print_script;
use mf_text::read_number;
use std::alloc::{AllocError, Global};
use std::process::ExitCode;
use std::{env, io};

/// The exit status of other words.
const USAGE: u8 = 2;

/// The canonical text of the script of so many tasks with so many lines each.
fn load_text(alloc: Global, lines: u32, tasks: u32) -> Result<String, AllocError>
    requires lines { lines ≤ LINE_LIMIT }
    requires tasks { tasks ≤ TASK_LIMIT }
    ensures { IfOk result (λ text. string_bytes text ≡ script_text (generated lines tasks)) }
{
    let script = generate(alloc, lines, tasks)?;
    let mut text = String::new(alloc);
    print_script(alloc, &script, &mut text)?;
    Ok(text)
}

/// How many lines and tasks the words ask for.
fn numbers_of(words: &[String]) -> Option<(u32, u32)>
    ensures { IfSome result (λ numbers. (numbers.0 ≤ LINE_LIMIT) × (numbers.1 ≤ TASK_LIMIT)) }
{
    let [lines, tasks] = words else {
        return None;
    };
    let lines = read_number(lines.as_str(), 1, LINE_LIMIT as u32).ok()?;
    let tasks = read_number(tasks.as_str(), 1, TASK_LIMIT as u32).ok()?;
    Some((lines, tasks))
}

fn main(rt: HostRuntime) -> io::Result<ExitCode> {
    let mut words = Vec::new(rt.alloc());
    for word in env::args(&rt)?.skip(1) {
        words.push(word)?;
    }
    let Some((lines, tasks)) = numbers_of(words.as_slice()) else {
        return Ok(ExitCode::from(USAGE));
    };
    let text = load_text(rt.alloc(), lines, tasks)?;
    print!(rt; "{text}")?;
    Ok(ExitCode::SUCCESS)
}
