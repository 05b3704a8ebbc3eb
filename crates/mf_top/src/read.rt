//! The readers of a whole source, and of the script that it holds.
ghost use Rattle.std.specs.Prelude.{◌≡◌, ◌<◌, ◌≤◌, ◌+◌, length, IfOk, IsErrOf};
ghost use Rattle.mf_top.specs.declared.read.ReadError.TheVariants.{Memory, Failed as ReadFailed};
ghost use Rattle.mf_calls.specs.WellFormed.{IsWellFormed};
ghost use Rattle.mf_io.specs.Outside.{seen, HasRisen};
ghost use Rattle.mf_io.specs.Causes.{Gave};
ghost use Rattle.mf_top.specs.Reading.{IsWhole, GaveOn};
ghost use Rattle.mf_top.specs.Answers.{IsTooLong};
ghost use Rattle.mf_top.specs.Scripts.{IsSourceRead};
ghost use Rattle.mf_verdict.specs.declared.limits.TheConstants.{CHECK_LIMIT};

use crate::refusal::Refusal;
use mf_calls::Script;
use mf_io::{Failed, Source};
use mf_names::SCRIPT_LIMIT;
use mf_script::read_script;
use std::alloc::{AllocError, Global};

/// The most bytes that are asked for at once.
const PIECE_BYTES: usize = 4096;

/// Why a source was not read to its end.
#[derive(Clone, Copy)]
pub enum ReadError {
    /// A read failed.
    Failed,
    /// The source holds more than is wanted.
    TooLong,
    /// Memory ran out.
    Memory,
}

impl From<AllocError> for ReadError {
    ghost from_gives = { λ _ e. e ≡ Memory };

    fn from(_: AllocError) -> Self {
        ReadError::Memory
    }
}

impl From<Failed> for ReadError {
    ghost from_gives = { λ _ e. e ≡ ReadFailed };

    fn from(_: Failed) -> Self {
        ReadError::Failed
    }
}

/// All that the source holds, to its end, where that is no more bytes than the limit. It asks for at most one byte more.
pub fn read_all<S: Source>(
    alloc: Global,
    source: &mut S,
    limit: usize,
) -> Result<Vec<u8>, ReadError>
    requires { limit ≤ CHECK_LIMIT }
    ensures whole { IfOk result (λ bytes.
        IsWhole (S.left source.old) (S.left source.new) bytes.items) }
    ensures most { IfOk result (λ bytes. length bytes.items ≤ limit) }
    ensures quiet { ¬ IsErrOf result ReadError.Failed → S.faults source.new ≡ S.faults source.old }
    ensures failed { IsErrOf result ReadError.Failed
        → HasRisen (S.faults source.old) (S.faults source.new) }
    ensures too_long { IsErrOf result ReadError.TooLong
        → IsTooLong limit (S.left source.old) (S.left source.new) }
{
    let mut bytes = Vec::new(alloc);
    while bytes.len() <= limit {
        let room = limit + 1 - bytes.len();
        if read_some(source, &mut bytes, room)? == 0 {
            return Ok(bytes);
        }
    }
    Err(ReadError::TooLong)
}

/// The script that the source holds to its end.
#[tactic(auto, using(crate::proofs::FromSource::read_of, crate::proofs::FromSource::refused))]
pub fn read_source<S: Source>(alloc: Global, source: &mut S) -> Result<Script, Refusal>
    ensures read { IsSourceRead (seen S.left S.faults source.old source.new) result }
    ensures formed { IfOk result IsWellFormed }
{
    let bytes = read_all(alloc, source, SCRIPT_LIMIT)?;
    let script = read_script(alloc, &bytes)?;
    Ok(script)
}

/// Appends at most `room` bytes more, and returns how many.
fn read_some<S: Source>(
    source: &mut S,
    bytes: &mut Vec<u8>,
    room: usize,
) -> Result<usize, ReadError>
    requires { 0 < room }
    ensures bytes { IfOk result (λ n.
        GaveOn (S.left source.old) (S.left source.new) bytes.old.items bytes.new.items n) }
    ensures fits { IfOk result (λ n. n ≤ room) }
    ensures count { IfOk result (λ n. length bytes.new.items ≡ length bytes.old.items + n) }
    ensures quiet { ¬ IsErrOf result ReadError.Failed → S.faults source.new ≡ S.faults source.old }
    ensures failed { IsErrOf result ReadError.Failed
        → HasRisen (S.faults source.old) (S.faults source.new) }
    ensures long { IsErrOf result ReadError.TooLong → ⊥ }
{
    let mut buffer = [0u8; PIECE_BYTES];
    let end = room.min(PIECE_BYTES);
    let piece = &mut buffer[..end];
    let n = source.read(piece)?;
    bytes.extend_from_slice(&piece[..n])?;
    Ok(n)
}
