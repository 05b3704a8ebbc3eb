//! The reader of a script, line by line.
ghost use Rattle.std.specs.Prelude.{◌≡◌, ◌≤◌, ◌==◌, ◌||◌, length, IfOk, IsTrue};
ghost use Rattle.std.specs.List.{list_all};
ghost use Rattle.std.specs.Str.{IsAscii, byte};
ghost use Rattle.mf_names.specs.declared.limits.TheConstants.{SCRIPT_LIMIT};
ghost use Rattle.mf_calls.specs.WellFormed.{IsWellFormed};
ghost use Rattle.mf_script.specs.Gives.{Gives};
ghost use Rattle.mf_spelling.specs.Spelling.{is_line_byte};
ghost use Rattle.mf_script.specs.Grammar.{line_read, ended, script_of};
ghost use Rattle.mf_script.specs.Outcome.{IsRefusedAt, IsScriptOf};

use crate::error::{ScriptError, ScriptFault};
use crate::refusal::{LineFault, Refusal, faulty};
use crate::rows::{Place, words_line};
use crate::{Lines, Words};
use mf_calls::{Listing, Script};
use std::alloc::Global;

/// Reads a script, or finds the first fault of its first faulty line. The time is linear in the bytes, and quadratic in the
/// numbers of files and of tasks.
pub fn read_script(alloc: Global, bytes: &[u8]) -> Result<Script, ScriptError>
    requires { length bytes.now ≤ SCRIPT_LIMIT }
    ensures exact { IsScriptOf result (script_of bytes.now) }
    ensures formed { IfOk result (λ s. IsWellFormed s) }
{
    let mut script = Script {
        boots: Listing::new(alloc),
        revocation: false,
        files: Listing::new(alloc),
        tasks: Listing::new(alloc),
        steps: Listing::new(alloc),
    };
    let mut place = Place::Boots;
    let mut number = 1;
    let plain = is_plain_text(bytes);
    let mut lines = Lines::of(bytes);
    while let Some(line) = lines.next() {
        match take_line(alloc, &mut script, &mut place, plain, line) {
            Ok(()) => number += 1,
            Err(refusal) => return Err(at_line(number, refusal)),
        }
    }
    ended(script, place, number)
}

/// The error of the line of that number that is refused so.
fn at_line(number: u32, refusal: Refusal) -> ScriptError
    ensures { IsRefusedAt number refusal result }
{
    match refusal {
        Refusal::Memory => ScriptError::Memory,
        Refusal::Faulty(LineFault { fault, errno }) => ScriptError::Fault {
            line: number,
            fault,
            errno,
        },
    }
}

/// The script, where it doesn't end inside a task or the steps.
fn ended(script: Script, place: Place, number: u32) -> Result<Script, ScriptError>
    ensures { IsScriptOf result (ended script place number) }
{
    match place {
        Place::Task(..) | Place::Steps => Err(ScriptError::Fault {
            line: number,
            fault: ScriptFault::NoEnd,
            errno: None,
        }),
        Place::Boots | Place::Tunable | Place::Files | Place::Tasks(_) | Place::End => Ok(script),
    }
}

/// Takes a line at this place, and goes on to the place of the next line; `plain` where it is known that each byte may stand in a line.
#[tactic(auto, unfolding(crate::specs::Grammar::line_read, crate::specs::Readers::and_then))]
fn take_line(
    alloc: Global,
    script: &mut Script,
    place: &mut Place,
    plain: bool,
    line: &[u8],
) -> Result<(), Refusal>
    requires known { IsTrue plain → IsTrue (list_all is_line_byte line.now) }
    requires most { length line.now ≤ SCRIPT_LIMIT }
    ensures { Gives (λ u. (script.new, place.new)) result
        (line_read script.old place.old line.now) }
{
    if !is_plain_line(plain, line) {
        return Err(faulty(ScriptFault::NotText));
    }
    words_line(alloc, script, place, &mut Words::of(line))
}

/// Whether each byte may stand in a line, which may be known.
fn is_plain_line(known: bool, line: &[u8]) -> bool
    requires { IsTrue known → IsTrue (list_all is_line_byte line.now) }
    ensures plain { result ≡ list_all is_line_byte line.now }
    ensures ascii { IsTrue result → IsAscii line.now }
{
    known || are_plain(line)
}

fn is_line_byte(byte: u8) -> bool
    ensures { result ≡ is_line_byte byte }
{
    byte == b' ' || byte == b'\t' || byte.is_ascii_graphic()
}

fn are_plain(line: &[u8]) -> bool
    ensures plain { result ≡ list_all is_line_byte line.now }
    ensures ascii { IsTrue result → IsAscii line.now }
{
    line.iter().all(|byte| is_line_byte(*byte))
}

/// Whether each byte may stand in a line or ends one. No byte ends the loop early, so that many are looked at at once.
fn is_plain_text(text: &[u8]) -> bool
    ensures { result ≡ list_all (λ b. b == byte "\n" || is_line_byte b) text.now }
{
    let mut plain = true;
    for byte in text {
        plain &= *byte == b'\n' || is_line_byte(*byte);
    }
    plain
}
