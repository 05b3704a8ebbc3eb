//! A few calls of each source, sink and gate.

use mf_io::{
    Failed, Gate, MemSink, MemSource, OpenGate, Sink, Source, StdSink, StdSource, SureSink,
    SureSource,
};
use std::alloc::{AllocError, Global};
use std::process::Abort;

/// Wants what is said of this to hold, and no memory to have run out.
fn wants(rt: &impl Abort, name: &str, holds: Result<bool, AllocError>) {
    assert!(rt; holds == Ok(true), "{name}");
}

/// Whether a read into three bytes puts these at their front, or fails where there are none.
fn reads<S: Source>(source: &mut S, wanted: &Result<&[u8], Failed>) -> bool {
    let mut buffer = [0u8; 3];
    match (source.read(&mut buffer), wanted) {
        (Ok(count), Ok(bytes)) => &buffer[..count] == *bytes,
        (Err(Failed), Err(Failed)) => true,
        _ => false,
    }
}

/// Whether as many reads as there are rows do what each says.
fn reads_all<S: Source>(source: &mut S, rows: &[Result<&[u8], Failed>]) -> bool {
    let mut holds = true;
    for wanted in rows {
        holds &= reads(source, wanted);
    }
    holds
}

/// A piece that is written, and what is said of it.
type Written = (&'static [u8], Result<usize, Failed>);

/// Whether what is said of each piece is so.
fn writes_all<S: Sink>(sink: &mut S, rows: &[Written]) -> bool {
    let mut holds = true;
    for (piece, wanted) in rows {
        holds &= sink.write(piece) == *wanted;
    }
    holds
}

const OF_MEMORY: &[Result<&[u8], Failed>] = &[Ok(b"ab"), Err(Failed), Ok(b"c"), Ok(b"")];

fn memory_source(alloc: Global) -> Result<bool, AllocError> {
    let turns = vec![in alloc; 2]?;
    let mut source = MemSource::new(b"abc".as_slice().to_vec(alloc)?, 2, turns);
    Ok(reads_all(&mut source, OF_MEMORY))
}

const OF_SURE: &[Result<&[u8], Failed>] = &[Ok(b"abc"), Ok(b"d")];

fn sure_source(alloc: Global) -> Result<bool, AllocError> {
    let mut source = SureSource::new(b"abcd".as_slice().to_vec(alloc)?);
    Ok(reads_all(&mut source, OF_SURE))
}

const OF_STD: &[Result<&[u8], Failed>] = &[Ok(b"abc")];

fn standard_source() -> bool {
    let mut source = StdSource::new(b"abcd".as_slice());
    reads_all(&mut source, OF_STD)
}

#[test]
fn sources(rt: HostRuntime) {
    wants(&rt, "memory", memory_source(rt.alloc()));
    wants(&rt, "sure", sure_source(rt.alloc()));
    wants(&rt, "standard", Ok(standard_source()));
}

const TO_MEMORY: &[Written] = &[
    (b"abcd", Ok(2)),
    (b"cd", Err(Failed)),
    (b"cd", Ok(1)),
    (b"d", Err(Failed)),
];

fn memory_sink(alloc: Global) -> Result<bool, AllocError> {
    let mut sink = MemSink::new(alloc, 3, 2, vec![in alloc; 2]?)?;
    Ok(writes_all(&mut sink, TO_MEMORY) && sink.taken() == b"abc".as_slice())
}

const TO_SURE: &[Written] = &[(b"ab", Ok(2)), (b"cd", Ok(2))];

fn sure_sink(alloc: Global) -> Result<bool, AllocError> {
    let mut sink = SureSink::new(alloc, 3)?;
    Ok(writes_all(&mut sink, TO_SURE))
}

const TO_STD: &[Written] = &[(b"abcd", Ok(3)), (b"d", Err(Failed)), (b"", Ok(0))];

fn standard_sink() -> bool {
    let mut room = [0u8; 3];
    let mut sink = StdSink::new(room.as_mut_slice());
    writes_all(&mut sink, TO_STD)
}

#[test]
fn sinks(rt: HostRuntime) {
    wants(&rt, "memory", memory_sink(rt.alloc()));
    wants(&rt, "sure", sure_sink(rt.alloc()));
    wants(&rt, "standard", Ok(standard_sink()));
}

#[test]
fn open_gate(rt: HostRuntime) {
    OpenGate.between(&rt, 0, 1);
    OpenGate.after(&rt, 0, 1);
}
