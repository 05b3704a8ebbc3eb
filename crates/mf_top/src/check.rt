//! Whether a text is that of a run of a script.
ghost use Rattle.std.specs.Prelude.{◌≡◌, ◌≤◌, ◌⊎◌, List, ℕ, Result, length};
ghost use Rattle.mf_calls.specs.WellFormed.{IsWellFormed};
ghost use Rattle.mf_verdict.specs.declared.limits.TheConstants.{CHECK_LIMIT};
ghost use Rattle.mf_io.specs.Outside.{seen};
ghost use Rattle.mf_top.specs.declared.refusal.Refusal.{Refusal};
ghost use Rattle.mf_top.specs.Answers.{IsCheckFaultless, IsCheckOutcome, IsWritten};
ghost use Rattle.mf_top.specs.Check.{IsVerdict, WroteYes};
ghost use Rattle.mf_top.specs.Outcomes.{bytes_of_outcome};
ghost use Rattle.mf_top.specs.Scripts.{IsJudgment};

use crate::refusal::Refusal;
use crate::{read, write};
use mf_calls::Script;
use mf_io::{Sink, Source};
use mf_script::read_script;
use mf_verdict::{CHECK_LIMIT, split_input, verdict_on};
use std::alloc::Global;

/// What is told of a text that is that of a run.
const YES: &str = "yes\n";

/// Does what the program does with the word `check`: reads from the source a line `script N`, N bytes of a script, and to its
/// end a text, and tells the sink whether that is the text of a run of the script: `yes`, or `no` with the line at which it
/// fails. Returns the program's exit status. It runs no module, starts no thread and never waits.
pub fn run_check<S: Source, K: Sink>(alloc: Global, source: &mut S, sink: &mut K) -> u8
    // With 0 the source held, to its end, a script and the text of a run of it, and the sink took `yes`, and nothing else.
    ensures check { result ≡ 0
        → WroteYes (seen S.left S.faults source.old source.new)
        (seen K.taken K.faults sink.old sink.new) }

    // Each status has its cause, and what was taken is its text, or with 5 a beginning of another's.
    ensures cause { (outcome : Result (List ℕ) Refusal)
        × IsCheckOutcome (seen S.left S.faults source.old source.new) outcome
        × IsWritten (seen K.taken K.faults sink.old sink.new) outcome result }

    // A script and the text of a run of it, over a source and a sink that don't fail, give 0, or 9 if memory runs out.
    ensures complete { IsCheckFaultless (seen S.left S.faults source.old source.new)
        (seen K.taken K.faults sink.old sink.new)
        → (result ≡ 0) ⊎ (result ≡ 9) }
{
    write::write_outcome(alloc, sink, check_source(alloc, source))
}

/// What is told of all that the source holds.
pub fn check_source<S: Source>(alloc: Global, source: &mut S) -> Result<String, Refusal>
    ensures { IsCheckOutcome (seen S.left S.faults source.old source.new)
        (bytes_of_outcome result) }
{
    let bytes = read::read_all(alloc, source, CHECK_LIMIT)?;
    check_input(alloc, &bytes)
}

/// What is told of an input.
fn check_input(alloc: Global, bytes: &[u8]) -> Result<String, Refusal>
    requires { length bytes.now ≤ CHECK_LIMIT }
    ensures { IsVerdict bytes.now (bytes_of_outcome result) }
{
    let Some((script, text)) = split_input(bytes) else {
        return Err(Refusal::Header);
    };
    let script = read_script(alloc, script)?;
    judge(alloc, &script, text)
}

/// What is told of a text for a script.
fn judge(alloc: Global, script: &Script, text: &[u8]) -> Result<String, Refusal>
    requires formed { IsWellFormed script.now }
    requires within { length text.now ≤ CHECK_LIMIT }
    ensures { IsJudgment script.now text.now (bytes_of_outcome result) }
{
    match verdict_on(alloc, script, text)? {
        Some(line) => Err(Refusal::Fails(line)),
        None => Ok(String::from_str(alloc, YES)?),
    }
}
