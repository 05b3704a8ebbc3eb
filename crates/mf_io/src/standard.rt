//! A source over a reader and sinks over a writer. They know of their bytes what the reader and the writer know: of the
//! process's own streams, which are trusted, nothing.
ghost use Rattle.std.specs.Prelude.{◌≡◌, ◌<◌, ◌≤◌, [], ℕ, None, true, is_some, length, take, IfOk, OnErr};
ghost use Rattle.std.specs.Io.KnownBytes.{Appends, Keeps};
ghost use Rattle.mf_io.specs.Outside.{Took};
ghost use Rattle.mf_io.specs.Causes.{Gave, HasCause};
ghost use Rattle.mf_io.specs.Calls.{counted};

use crate::sink::Sink;
use crate::source::{Failed, Source};
use std::io::{Read, Write};

/// A source over a reader, as standard input. It tells the bytes that are left where the reader knows them, and counts the
/// reader's errors.
#[derive(Drop)]
pub struct StdSource<R: Read + Drop> {
    reader: R,
    faults: u64,
}

impl<R: Read + Drop> StdSource<R> {
    /// A source that has had no fault.
    pub fn new(reader: R) -> Self
        ensures { result ≡ record { reader = reader; faults = 0 } }
    {
        StdSource { reader, faults: 0 }
    }
}

impl<R: Read + Drop> Source for StdSource<R> {
    ghost left = { λ s. R.remaining s.reader };

    ghost faults = { λ s. s.faults };

    fn read(&mut self, buffer: &mut [u8]) -> Result<usize, Failed>
        ensures fits { IfOk result (λ n. n ≤ length buffer.old) }
        ensures bytes { IfOk result (λ n.
            Gave (R.remaining self.old.reader) (R.remaining self.new.reader)
            (length buffer.old) n buffer.new) }
        ensures cause { HasCause self.old.faults self.new.faults result }
        ensures counted { OnErr result (self.new.faults ≡ counted self.old.faults) }
        // A read that failed leaves the bytes that are known.
        ensures kept { OnErr result
            (Keeps (R.remaining self.old.reader) (R.remaining self.new.reader)) }
    {
        match self.reader.read(buffer) {
            Ok(count) => Ok(count),
            Err(_) => {
                self.faults = self.faults.saturating_add(1);
                Err(Failed)
            }
        }
    }
}

/// A sink over a writer that may not know its bytes, as standard output: it tells none. It counts the writer's errors, and
/// as one a write that takes nothing of a piece that isn't empty.
#[derive(Drop)]
pub struct StdSink<W: Write + Drop> {
    writer: W,
    faults: u64,
}

impl<W: Write + Drop> StdSink<W> {
    /// A sink that has had no fault.
    pub fn new(writer: W) -> Self
        ensures { result ≡ record { writer = writer; faults = 0 } }
    {
        StdSink { writer, faults: 0 }
    }
}

impl<W: Write + Drop> Sink for StdSink<W> {
    ghost taken = { λ s. None };

    ghost faults = { λ s. s.faults };

    fn write(&mut self, piece: &[u8]) -> Result<usize, Failed>
        ensures fits { IfOk result (λ n. n ≤ length piece.now) }
        ensures some { IfOk result (λ n. 0 < length piece.now → 0 < n) }
        ensures bytes { IfOk result (λ n. Took None None (take n piece.now)) }
        ensures same { OnErr result (Took None None []) }
        ensures cause { HasCause self.old.faults self.new.faults result }
        ensures counted { OnErr result (self.new.faults ≡ counted self.old.faults) }
        // Where the writer knows its bytes, those that it took came behind them.
        ensures took { IfOk result (λ n.
            Appends (W.contents self.old.writer) (W.contents self.new.writer) (take n piece.now)) }
        ensures kept { OnErr result
            (Keeps (W.contents self.old.writer) (W.contents self.new.writer)) }
    {
        if let Ok(count) = self.writer.write(piece)
            && (count > 0 || piece.is_empty())
        {
            return Ok(count);
        }
        self.faults = self.faults.saturating_add(1);
        Err(Failed)
    }
}

/// A sink over a writer that knows its bytes: it tells them. It counts as `StdSink`.
#[derive(Drop)]
pub struct KnownSink<W: Write + Drop> {
    sink: StdSink<W>,
    ghost known: { is_some (W.contents sink.writer) ≡ true },
}

impl<W: Write + Drop> KnownSink<W> {
    /// A sink that has had no fault.
    pub fn new(writer: W) -> Self
        requires { is_some (W.contents writer) ≡ true }
        ensures { result.sink ≡ record { writer = writer; faults = 0 } }
    {
        KnownSink {
            sink: StdSink::new(writer),
        }
    }
}

impl<W: Write + Drop> Sink for KnownSink<W> {
    ghost taken = { λ s. W.contents s.sink.writer };

    ghost faults = { λ s. s.sink.faults };

    fn write(&mut self, piece: &[u8]) -> Result<usize, Failed> {
        self.sink.write(piece)
    }
}
