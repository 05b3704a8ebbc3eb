//! The verdict on a text.
ghost use Rattle.std.specs.Prelude.{◌≡◌, ◌≤◌, ◌+◌, ◌-◌, ◌<◌, ◌^◌, length, IfOk, MatchOption, string_bytes};
ghost use Rattle.mf_calls.specs.WellFormed.{IsWellFormed};
ghost use Rattle.mf_core.specs.LegalHistory.{IsLegal};
ghost use Rattle.mf_hist.specs.HistoryText.{history_text};
ghost use Rattle.mf_hist.specs.Lines.{IsFirstOtherLine, IsReadable};
ghost use Rattle.mf_flow.specs.SourcesText.{sources_text};
ghost use Rattle.mf_verdict.specs.Pieces.{pieces};
ghost use Rattle.mf_verdict.specs.Verdict.{IsAccepted, FailsAt, IsFirstWrong};
ghost use Rattle.mf_verdict.specs.Judging.{line_count, AreSources, IsHistoryText, IsJudged};

use crate::front::wrong_in_front;
use crate::limits::CHECK_LIMIT;
use crate::lines::{first_difference, first_lines, split_sources};
use mf_audit::{Audit, audit_history};
use mf_calls::Script;
use mf_core::History;
use mf_flow::{print_sources, sources};
use mf_hist::{HistError, read_history};
use std::alloc::{AllocError, Global};

/// Whether the text is that of a legal and complete history of the script with its sources. None where it is, and else the number
/// of the line at which it fails, from 1.
pub fn verdict_on(alloc: Global, script: &Script, text: &[u8]) -> Result<Option<u32>, AllocError>
    requires formed { IsWellFormed script.now }
    requires within { length text.now ≤ CHECK_LIMIT }
    ensures { IfOk result (λ verdict. MatchOption verdict (IsAccepted script.now text.now)
        (FailsAt script.now text.now)) }
{
    let (part, rest) = split_sources(text);
    if let Some(line) = wrong_in_front(alloc, script, part)? {
        return Ok(Some(line));
    }
    match read_history(alloc, script, part) {
        Ok(history) => judge(alloc, script, &history, rest),
        Err(HistError::Line(number)) => {
            let line = first_wrong(alloc, script, part, number)?;
            Ok(Some(line))
        }
        Err(HistError::Memory) => Err(AllocError),
    }
}

/// What the history is judged as, with the text behind it.
fn judge(
    alloc: Global,
    script: &Script,
    history: &History,
    rest: &[u8],
) -> Result<Option<u32>, AllocError>
    requires formed { IsWellFormed script.now }
    requires readable { IsReadable script.now history.now }
    requires within { line_count history.now + length rest.now ≤ CHECK_LIMIT }
    ensures { IfOk result (λ verdict. IsJudged script.now history.now rest.now verdict) }
{
    match audit_history(alloc, script, history)? {
        Audit::Wrong(number) => Ok(Some(number)),
        Audit::Legal { complete } => {
            if complete {
                compare_sources(alloc, script, history, rest)
            } else {
                Ok(Some(count_lines(history) + 1))
            }
        }
    }
}

/// The first line at which the text behind a history isn't that of its sources, counted from the first of the history.
fn compare_sources(
    alloc: Global,
    script: &Script,
    history: &History,
    rest: &[u8],
) -> Result<Option<u32>, AllocError>
    requires formed { IsWellFormed script.now }
    requires legal { IsLegal script.now history.now }
    requires within { line_count history.now + length rest.now ≤ CHECK_LIMIT }
    ensures { IfOk result (λ other. AreSources script.now history.now rest.now other) }
{
    let told = sources_told(alloc, script, history)?;
    match first_difference(rest, told.as_bytes()) {
        None => Ok(None),
        Some(number) => Ok(Some(count_lines(history) + number)),
    }
}

/// The text of a history's sources.
fn sources_told(alloc: Global, script: &Script, history: &History) -> Result<String, AllocError>
    requires formed { IsWellFormed script.now }
    requires legal { IsLegal script.now history.now }
    ensures { IfOk result (λ text. string_bytes text ≡ sources_text script.now history.now) }
{
    let table = sources(alloc, script, history)?;
    let mut text = String::new(alloc);
    print_sources(&table, &mut text)?;
    Ok(text)
}

fn count_lines(history: &History) -> u32
    requires { line_count history.now ≤ CHECK_LIMIT }
    ensures { result ≡ line_count history.now }
{
    (history.boots.len() + history.events.as_slice().len()) as u32
}

/// The first wrong line of a text, where the line of that number is the first that is none of a history.
pub(crate) fn first_wrong(
    alloc: Global,
    script: &Script,
    part: &[u8],
    number: u32,
) -> Result<u32, AllocError>
    requires formed { IsWellFormed script.now }
    requires within { length part.now ≤ CHECK_LIMIT }
    requires other { IsFirstOtherLine script.now part.now number }
    ensures { IfOk result (λ line. IsFirstWrong script.now (pieces part.now) line) }
{
    let history = read_front(alloc, script, first_lines(part, number - 1))?;
    match audit_history(alloc, script, &history)? {
        Audit::Wrong(line) => Ok(line),
        Audit::Legal { .. } => Ok(number),
    }
}

/// The history whose text this is.
fn read_front(alloc: Global, script: &Script, text: &[u8]) -> Result<History, AllocError>
    requires within { length text.now ≤ CHECK_LIMIT }
    requires history { IsHistoryText script.now text.now }
    ensures { IfOk result (λ h. IsReadable script.now h
        × (text.now ≡ history_text script.now h)) }
{
    match read_history(alloc, script, text) {
        Ok(history) => Ok(history),
        Err(HistError::Line(_)) => unreachable!(),
        Err(HistError::Memory) => Err(AllocError),
    }
}
