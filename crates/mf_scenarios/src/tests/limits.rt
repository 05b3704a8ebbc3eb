//! As much of each kind as there may be, and then more.

use crate::tests::transcript::Transcript;
use crate::tests::{run_with, source_of, wants_that};
use mf_io::{MemSink, OpenGate};
use std::alloc::{AllocError, Global};
use std::process::Abort;
use std::sync::Wait;
use std::thread::Threads;

/// Lines of one kind, and those behind them. Where `#` stands in the line or its reply, the line's number comes.
pub struct Fill {
    pub line: &'static str,
    /// How many letters each line ends with besides.
    pub letters: u32,
    pub reply: &'static str,
    pub from: u32,
    pub to: u32,
    pub behind: &'static str,
}

/// Of a file, a pipe and a socket.
const OBJECTS: &[Fill] = &[
    Fill {
        line: "write /f ",
        letters: 65_536,
        reply: "ok",
        from: 0,
        to: 1,
        behind: "write /f a -> no EFBIG - -
pipe p -> ok
",
    },
    Fill {
        line: "pwrite p ",
        letters: 16_384,
        reply: "ok",
        from: 0,
        to: 1,
        behind: "pwrite p a -> no EAGAIN - -
socket s -> ok
",
    },
    Fill {
        line: "send s s x",
        letters: 0,
        reply: "ok",
        from: 0,
        to: 16,
        behind: "send s s x -> no ENOBUFS - -
",
    },
];

/// Beside the root and the task.
const ENTITIES: &[Fill] = &[Fill {
    line: "pipe p#",
    letters: 0,
    reply: "ok",
    from: 1,
    to: 1023,
    behind: "pipe p1023 -> no ENFILE - -
pipe p1 -> no EEXIST - -
",
}];

/// There is no room, and then for one.
const RULES: &[Fill] = &[Fill {
    line: "ugidfw add subject uid 5 object mode n",
    letters: 0,
    reply: "ok rule #",
    from: 0,
    to: 250,
    behind: "ugidfw add subject uid 5 object mode n -> no ENOBUFS - -
ugidfw remove 0 -> ok
ugidfw remove 0 -> no ENOENT - -
ugidfw add subject uid 5 object mode n -> ok rule 0
",
}];

/// The text with the number in the place of `#`.
fn numbered(alloc: Global, text: &str, number: u32) -> Result<String, AllocError> {
    match text.split_once('#') {
        Some((front, back)) => format!(in alloc; "{front}{number}{back}"),
        None => String::from_str(alloc, text),
    }
}

/// The line of that number.
fn line_of(alloc: Global, fill: &Fill, number: u32) -> Result<String, AllocError> {
    let mut line = numbered(alloc, fill.line, number)?;
    for _letter in 0..fill.letters {
        line.push_str("a")?;
    }
    Ok(line)
}

/// Adds the line of that number, and its reply.
fn add_line(
    alloc: Global,
    transcript: &mut Transcript,
    fill: &Fill,
    number: u32,
) -> Result<(), AllocError> {
    let line = line_of(alloc, fill, number)?;
    let reply = numbered(alloc, fill.reply, number)?;
    transcript.add(line.as_str(), reply.as_str())
}

/// Adds the lines, and those behind them.
fn add_fill(alloc: Global, transcript: &mut Transcript, fill: &Fill) -> Result<(), AllocError> {
    for number in fill.from..fill.to {
        add_line(alloc, transcript, fill, number)?;
    }
    transcript.add_all(fill.behind)
}

/// Adds the lines of a scenario up to those of the task, all of these, and the task's end.
fn add_fills(
    alloc: Global,
    transcript: &mut Transcript,
    front: &str,
    fills: &[Fill],
) -> Result<(), AllocError> {
    transcript.add_all(front)?;
    for fill in fills {
        add_fill(alloc, transcript, fill)?;
    }
    transcript.add_all("end\n")
}

/// Whether the lines are answered so.
pub fn are_answered<R: Abort + Threads + Wait + Sync>(
    rt: &R,
    alloc: Global,
    front: &str,
    fills: &[Fill],
) -> Result<bool, AllocError> {
    let mut transcript = Transcript::new(alloc);
    add_fills(alloc, &mut transcript, front, fills)?;
    transcript.is_written(rt, alloc, "run")
}

const WITH_FILE: &str = "file /f reg uid 0 gid 0 mode 644 label -
task t uid 0 gid 0 label -
";

#[test]
fn limits_of_objects(rt: HostRuntime) -> Result<(), AllocError> {
    let holds = are_answered(&rt, rt.alloc(), WITH_FILE, OBJECTS)?;
    wants_that(&rt, "limits of objects", holds);
    Ok(())
}

const ALONE: &str = "task t uid 0 gid 0 label -
";

#[test]
fn table_of_entities_full(rt: HostRuntime) -> Result<(), AllocError> {
    let holds = are_answered(&rt, rt.alloc(), ALONE, ENTITIES)?;
    wants_that(&rt, "entities", holds);
    Ok(())
}

const WITH_RULES: &str = "boot mac_bsdextended
file /f reg uid 0 gid 0 mode 644 label - text hi
task t uid 0 gid 0 label -
= boot mac_bsdextended -
";

#[test]
fn a_full_rule_list(rt: HostRuntime) -> Result<(), AllocError> {
    let holds = are_answered(&rt, rt.alloc(), WITH_RULES, RULES)?;
    wants_that(&rt, "a full rule list", holds);
    Ok(())
}

/// A task that learns what the root has, under three policies, and its child.
const MAKERS: &str = "boot mac_biba
boot mac_mls
boot mac_lomac
task t uid 0 gid 0 label biba/low,mls/high,lomac/low
stat /
fork c1
";

/// The script of 900 processes in a row, each made by the one before: a chain that leads to the last has 900 steps.
fn row_of_processes(alloc: Global) -> Result<String, AllocError> {
    let mut script = String::from_str(alloc, MAKERS)?;
    let mut maker: u32 = 1;
    for child in 2..=900 {
        write!(script, "@c{maker} fork c{child}\n")?;
        maker = child;
    }
    script.push_str("end\n")?;
    Ok(script)
}

/// Adds the steps of so many calls of the task.
fn add_steps(script: &mut String, calls: u32) -> Result<(), AllocError> {
    script.push_str("steps\n")?;
    for _ in 0..calls {
        script.push_str("enter t\nplan t\ndone t\nleave t\n")?;
    }
    script.push_str("end\n")
}

/// Wants the script to have too many chains by these words.
fn wants_too_many_chains<R: Abort + Threads + Wait + Sync>(
    rt: &R,
    alloc: Global,
    words: &[&str],
    script: &str,
) -> Result<(), AllocError> {
    let source = &mut source_of(alloc, script, 1_000, &[])?;
    let sink = &mut MemSink::new(alloc, 200_000, 1_000, Vec::new(alloc))?;
    let status = run_with(rt, alloc, words, source, sink, &OpenGate)?;
    let is_told = sink.taken().ends_with(b"high\nmacsim: too many chains\n");
    wants_that(rt, "too many chains", status == 11 && is_told);
    Ok(())
}

#[test]
fn too_many_chains(rt: HostRuntime) -> Result<(), AllocError> {
    let mut script = row_of_processes(rt.alloc())?;
    add_steps(&mut script, 901)?;
    wants_too_many_chains(&rt, rt.alloc(), &["run", "chains"], script.as_str())?;
    wants_too_many_chains(&rt, rt.alloc(), &["step", "chains"], script.as_str())
}
