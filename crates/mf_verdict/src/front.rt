//! The front of a text that has more than any history has. Memory is taken for what is read, so no more is read than a history may
//! have: a reply with rules, for one, takes a thousand times the bytes of its line.
ghost use Rattle.std.specs.Prelude.{◌≤◌, length, IfOk, IfSome};
ghost use Rattle.mf_calls.specs.WellFormed.{IsWellFormed};
ghost use Rattle.mf_verdict.specs.Pieces.{pieces};
ghost use Rattle.mf_verdict.specs.Verdict.{IsFirstWrong};

use crate::limits::{CHECK_LIMIT, MOST_LINES};
use crate::lines::{first_lines, split_line};
use crate::verdict::first_wrong;
use mf_audit::{Audit, audit_history};
use mf_calls::{RULE_LIST_LIMIT, Script};
use mf_hist::{HistError, read_history};
use std::alloc::{AllocError, Global};

/// The first wrong line, where that is among the lines in front of a text that has more than a history. None says nothing.
pub(crate) fn wrong_in_front(
    alloc: Global,
    script: &Script,
    text: &[u8],
) -> Result<Option<u32>, AllocError>
    requires formed { IsWellFormed script.now }
    requires within { length text.now ≤ CHECK_LIMIT }
    ensures { IfOk result (λ wrong. IfSome wrong (IsFirstWrong script.now (pieces text.now))) }
{
    let Some(count) = front_count(text) else {
        return Ok(None);
    };
    let wrong = wrong_line(alloc, script, first_lines(text, count))?;
    match wrong {
        Some(line) if line <= count => Ok(wrong),
        _ => Ok(None),
    }
}

/// How many lines are read first, where a text has more lines, or more replies with rules, than any history.
fn front_count(text: &[u8]) -> Option<u32>
    requires { length text.now ≤ CHECK_LIMIT }
    ensures { IfSome result (λ count. count ≤ length (pieces text.now)) }
{
    let mut count = 0;
    let mut lists = 0;
    let mut rest = text;
    while !rest.is_empty() {
        if count as usize > MOST_LINES || lists > RULE_LIST_LIMIT {
            return Some(count);
        }
        let (line, after) = split_line(rest);
        count += 1;
        lists += rule_lists(line);
        rest = after;
    }
    None
}

/// 1 where the reply in the line is one with rules, and else 0.
fn rule_lists(line: &[u8]) -> usize
    ensures { result ≤ 1 }
{
    let mut blanks: u32 = 0;
    for (place, byte) in line.iter().enumerate() {
        if *byte == b' ' {
            blanks += 1;
            if blanks == 4 {
                return line[place + 1..].starts_with(b"rules") as usize;
            }
        }
    }
    0
}

/// The first wrong line of a text that may be that of a history. None says nothing.
fn wrong_line(alloc: Global, script: &Script, text: &[u8]) -> Result<Option<u32>, AllocError>
    requires formed { IsWellFormed script.now }
    requires within { length text.now ≤ CHECK_LIMIT }
    ensures { IfOk result (λ wrong. IfSome wrong (IsFirstWrong script.now (pieces text.now))) }
{
    match read_history(alloc, script, text) {
        Ok(history) => match audit_history(alloc, script, &history)? {
            Audit::Wrong(line) => Ok(Some(line)),
            Audit::Legal { .. } => Ok(None),
        },
        Err(HistError::Line(number)) => {
            let line = first_wrong(alloc, script, text, number)?;
            Ok(Some(line))
        }
        Err(HistError::Memory) => Err(AllocError),
    }
}
