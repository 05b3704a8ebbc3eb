//! Runs over a source or a sink that fails, at each of its calls in turn: no call of it follows.
ghost use Rattle.std.specs.Prelude.{◌≡◌};

use crate::tests::tasks::SCRIPT;
use crate::tests::{DENIAL, run_with, source_of, wants_that};
use mf_io::{Failed, MemSink, MemSource, OpenGate, Sink, Source};
use std::alloc::{AllocError, Global};
use std::process::Abort;
use std::sync::Wait;
use std::thread::Threads;

/// A source or a sink, which counts its calls and those after the first that failed.
#[derive(Drop)]
struct Watched<T: Drop> {
    inner: T,
    calls: u64,
    has_failed: bool,
    calls_after: u64,
}

impl<T: Drop> Watched<T> {
    fn new(inner: T) -> Watched<T>
        ensures { result.inner ≡ inner }
    {
        Watched {
            inner,
            calls: 0,
            has_failed: false,
            calls_after: 0,
        }
    }

    /// Counts the next call.
    fn count(&mut self)
        ensures { self.new.inner ≡ self.old.inner }
    {
        self.calls = self.calls.saturating_add(1);
        if self.has_failed {
            self.calls_after = self.calls_after.saturating_add(1);
        }
    }
}

impl<S: Source + Drop> Source for Watched<S> {
    ghost left = { λ w. S.left w.inner };

    ghost faults = { λ w. S.faults w.inner };

    fn read(&mut self, buffer: &mut [u8]) -> Result<usize, Failed> {
        self.count();
        let result = self.inner.read(buffer);
        if result.is_err() {
            self.has_failed = true;
        }
        result
    }
}

impl<K: Sink + Drop> Sink for Watched<K> {
    ghost taken = { λ w. K.taken w.inner };

    ghost faults = { λ w. K.faults w.inner };

    fn write(&mut self, piece: &[u8]) -> Result<usize, Failed> {
        self.count();
        let result = self.inner.write(piece);
        if result.is_err() {
            self.has_failed = true;
        }
        result
    }
}

/// A run of the program over a source that gives at most so many bytes a call, and a sink that takes at most so many.
#[derive(Clone, Copy)]
struct Run<'a> {
    words: &'a [&'a str],
    script: &'a str,
    given: usize,
    taken: usize,
}

/// What was seen of a run: the exit status, how often it read and wrote, and what the sink took.
#[derive(Drop)]
struct Seen {
    status: u8,
    reads: u64,
    writes: u64,
    taken: Vec<u8>,
}

impl Seen {
    /// Whether the run ended with this status, and after so many reads where nothing could be read.
    fn has_read_fault(&self, reads: u64) -> bool {
        let has_text = self.taken.as_slice() == b"macsim: read fault\n".as_slice();
        self.status == 4 && self.reads == reads && has_text
    }

    /// Whether the run ended after so many writes, of which the last one failed.
    fn has_write_fault(&self, writes: u64) -> bool {
        self.status == 5 && self.writes == writes
    }

    /// Whether the sink took a beginning of what it took in the other run.
    fn is_front_of(&self, other: &Seen) -> bool {
        other.taken.as_slice().starts_with(self.taken.as_slice())
    }
}

/// Runs the program over this source and this sink, and wants no call of either after one that failed.
fn seen_of<R: Abort + Threads + Wait + Sync>(
    rt: &R,
    alloc: Global,
    words: &[&str],
    source: &mut Watched<MemSource>,
    sink: &mut Watched<MemSink>,
) -> Result<Seen, AllocError> {
    let status = run_with(rt, alloc, words, source, sink, &OpenGate)?;
    let is_left_alone = source.calls_after == 0 && sink.calls_after == 0;
    wants_that(rt, "no call follows", is_left_alone);
    Ok(Seen {
        status,
        reads: source.calls,
        writes: sink.calls,
        taken: sink.inner.taken().to_vec(alloc)?,
    })
}

/// Runs the program over this source and a sink that fails at these calls.
fn seen_from<R: Abort + Threads + Wait + Sync>(
    rt: &R,
    alloc: Global,
    run: &Run<'_>,
    source: &mut Watched<MemSource>,
    writes: &[u64],
) -> Result<Seen, AllocError> {
    assert!(rt; run.taken > 0);
    let fails = writes.to_vec(alloc)?;
    let sink = &mut Watched::new(MemSink::new(alloc, 100_000, run.taken, fails)?);
    seen_of(rt, alloc, run.words, source, sink)
}

/// Runs the program over a source and a sink that fail at these calls.
fn watched_run<R: Abort + Threads + Wait + Sync>(
    rt: &R,
    alloc: Global,
    run: &Run<'_>,
    reads: &[u64],
    writes: &[u64],
) -> Result<Seen, AllocError> {
    assert!(rt; run.given > 0);
    let source = &mut Watched::new(source_of(alloc, run.script, run.given, reads)?);
    seen_from(rt, alloc, run, source, writes)
}

/// The source fails at this read, which is then the last.
fn fails_at_read<R: Abort + Threads + Wait + Sync>(
    rt: &R,
    alloc: Global,
    run: &Run<'_>,
    read: u64,
) -> Result<(), AllocError> {
    let seen = watched_run(rt, alloc, run, &[read], &[])?;
    wants_that(rt, "a read fails", seen.has_read_fault(read));
    Ok(())
}

/// The sink fails at this write, which is then the last, and took a beginning of the whole.
fn fails_at_write<R: Abort + Threads + Wait + Sync>(
    rt: &R,
    alloc: Global,
    run: &Run<'_>,
    write: u64,
    whole: &Seen,
) -> Result<(), AllocError> {
    let seen = watched_run(rt, alloc, run, &[], &[write])?;
    let is_front = seen.is_front_of(whole);
    wants_that(rt, "a write fails", seen.has_write_fault(write) && is_front);
    Ok(())
}

/// The sink fails at this write, after the whole script was read in two calls.
fn fails_after_reads<R: Abort + Threads + Wait + Sync>(
    rt: &R,
    alloc: Global,
    run: &Run<'_>,
    write: u64,
) -> Result<(), AllocError> {
    let seen = watched_run(rt, alloc, run, &[], &[write])?;
    wants_that(rt, "reads", seen.has_write_fault(write) && seen.reads == 2);
    Ok(())
}

/// The source fails at its second read, in the middle of the script.
#[test]
fn a_source_that_fails_is_left_alone(rt: HostRuntime) -> Result<(), AllocError> {
    let run = Run {
        words: &["run"],
        script: DENIAL,
        given: 40,
        taken: 1000,
    };
    fails_at_read(&rt, rt.alloc(), &run, 2)
}

/// The sink fails at its first write, or at its third.
#[test]
fn a_sink_that_fails_is_left_alone(rt: HostRuntime) -> Result<(), AllocError> {
    let run = Run {
        words: &["run"],
        script: DENIAL,
        given: 1000,
        taken: 10,
    };
    fails_after_reads(&rt, rt.alloc(), &run, 1)?;
    fails_after_reads(&rt, rt.alloc(), &run, 3)
}

/// Runs of the program whose text is always the same: words, and a script.
const SETTLED: &[(&[&str], &str)] = &[
    (&["run"], ALONE),
    (&["step"], STEPPED),
    (&["gen", "2", "2"], ""),
];

/// A task on a machine with three policies.
const ALONE: &str = "boot mac_biba
boot mac_mls
boot mac_bsdextended
file /home dir uid 0 gid 0 mode 755 label -
task www uid 80 gid 80 label biba/low(low-low),mls/low(low-low)
create /home/w
readdir /
see www
kldload mac_partition
end
";

/// Two tasks, and the steps of one whole call of each.
const STEPPED: &str = "boot mac_biba
file /f reg uid 0 gid 0 mode 644 label - text hi
task a uid 0 gid 0 label -
read /f
end
task b uid 0 gid 0 label biba/low
write /f x
end
steps
enter a
enter b
plan b
done b
leave b
plan a
done a
leave a
end
";

/// Some bytes a call, one, and the whole at once.
const MOST: &[usize] = &[64, 1, 100_000];

/// How often the run reads where nothing fails.
fn reads_of<R: Abort + Threads + Wait + Sync>(
    rt: &R,
    alloc: Global,
    run: &Run<'_>,
) -> Result<u64, AllocError> {
    let whole = watched_run(rt, alloc, run, &[], &[])?;
    wants_that(rt, "no call fails", whole.status == 0 && whole.reads > 1);
    Ok(whole.reads)
}

/// The source fails at each of the calls that the program makes, in turn.
fn fails_at_each_read<R: Abort + Threads + Wait + Sync>(
    rt: &R,
    alloc: Global,
    run: &Run<'_>,
) -> Result<(), AllocError> {
    let reads = reads_of(rt, alloc, run)?;
    for read in 1..=reads {
        fails_at_read(rt, alloc, run, read)?;
    }
    Ok(())
}

/// The sink fails at each of the calls that the program made in the whole run, in turn.
fn fails_at_each_write_of<R: Abort + Threads + Wait + Sync>(
    rt: &R,
    alloc: Global,
    run: &Run<'_>,
    whole: &Seen,
) -> Result<(), AllocError> {
    for write in 1..=whole.writes {
        fails_at_write(rt, alloc, run, write, whole)?;
    }
    Ok(())
}

/// The sink fails at each of the calls that the program makes, in turn.
fn fails_at_each_write<R: Abort + Threads + Wait + Sync>(
    rt: &R,
    alloc: Global,
    run: &Run<'_>,
) -> Result<(), AllocError> {
    let whole = watched_run(rt, alloc, run, &[], &[])?;
    wants_that(rt, "no call fails", whole.status == 0 && whole.writes > 0);
    fails_at_each_write_of(rt, alloc, run, &whole)
}

/// The same with each number of bytes a call.
fn fails_at_each_write_by_most<'a, R: Abort + Threads + Wait + Sync>(
    rt: &R,
    alloc: Global,
    words: &'a [&'a str],
    script: &'a str,
) -> Result<(), AllocError> {
    for most in MOST {
        let (given, taken) = (*most, *most);
        let run = Run {
            words,
            script,
            given,
            taken,
        };
        fails_at_each_write(rt, alloc, &run)?;
    }
    Ok(())
}

#[test]
fn each_read_fails_in_turn(rt: HostRuntime) -> Result<(), AllocError> {
    for most in MOST {
        let run = Run {
            words: &["run"],
            script: SCRIPT,
            given: *most,
            taken: *most,
        };
        fails_at_each_read(&rt, rt.alloc(), &run)?;
    }
    Ok(())
}

#[test]
fn each_write_fails_in_turn(rt: HostRuntime) -> Result<(), AllocError> {
    for (words, script) in SETTLED {
        fails_at_each_write_by_most(&rt, rt.alloc(), words, script)?;
    }
    Ok(())
}
