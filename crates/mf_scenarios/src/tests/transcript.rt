//! Scenarios: what the lines of a script are answered, and what the program then writes.
//!
//! A scenario is a paragraph of a text: its name, and then its lines. `CALL -> REPLY` is a line of the task `t`, with its reply.
//! Behind `= ` stands a line that the program writes besides. Each other line is one of the script.

use crate::tests::{text_of, wants_that};
use mf_io::OpenGate;
use std::alloc::{AllocError, Global};
use std::process::Abort;
use std::sync::Wait;
use std::thread::Threads;

/// A script, and the text that the program writes of it.
#[derive(Drop)]
pub struct Transcript {
    script: String,
    text: String,
    calls: u32,
}

impl Transcript {
    pub fn new(alloc: Global) -> Transcript {
        Transcript {
            script: String::new(alloc),
            text: String::new(alloc),
            calls: 0,
        }
    }

    /// One more call of the task `t`, and the events of its reply.
    pub fn add(&mut self, call: &str, reply: &str) -> Result<(), AllocError> {
        self.calls = self.calls.saturating_add(1);
        let number = self.calls;
        write!(self.script, "{call}\n")?;
        if is_change(call) {
            write!(self.text, "changed t {number} {reply}\n")
        } else {
            write!(self.text, "enter t\ndone t {number} {reply}\nleave t\n")
        }
    }

    /// One more line of a scenario.
    fn add_line(&mut self, line: &str) -> Result<(), AllocError> {
        if let Some(written) = line.strip_prefix("= ") {
            return write!(self.text, "{written}\n");
        }
        match line.split_once(" -> ") {
            Some((call, reply)) => self.add(call, reply),
            None => write!(self.script, "{line}\n"),
        }
    }

    /// More lines of a scenario.
    pub fn add_all(&mut self, lines: &str) -> Result<(), AllocError> {
        for line in lines.lines() {
            self.add_line(line)?;
        }
        Ok(())
    }

    /// Whether the program writes that text where it is called with this word.
    pub fn is_written<R: Abort + Threads + Wait + Sync>(
        &self,
        rt: &R,
        alloc: Global,
        word: &str,
    ) -> Result<bool, AllocError> {
        let text = text_of(rt, alloc, word, self.script.as_str(), &OpenGate)?;
        Ok(text.as_str() == self.text.as_str())
    }
}

/// Whether the line changes the list of policies or a setting.
fn is_change(line: &str) -> bool {
    line.starts_with("kldload")
        || line.starts_with("kldunload")
        || line.starts_with("sysctl")
        || (line.starts_with("ugidfw") && line != "ugidfw list")
}

/// Whether the scenario of these lines comes out as they say where the program is called with this word.
fn comes_out<R: Abort + Threads + Wait + Sync>(
    rt: &R,
    alloc: Global,
    word: &str,
    lines: &str,
) -> Result<bool, AllocError> {
    let mut transcript = Transcript::new(alloc);
    transcript.add_all(lines)?;
    transcript.is_written(rt, alloc, word)
}

/// Runs a scenario, which must have a name.
fn run_scenario<R: Abort + Threads + Wait + Sync>(
    rt: &R,
    alloc: Global,
    word: &str,
    scenario: &str,
) -> Result<(), AllocError> {
    let (name, holds) = match scenario.split_once('\n') {
        Some((name, lines)) => (name, comes_out(rt, alloc, word, lines)?),
        None => (scenario, false),
    };
    wants_that(rt, name, holds);
    Ok(())
}

/// Runs each scenario of the text where the program is called with this word.
pub fn run_scenarios<R: Abort + Threads + Wait + Sync>(
    rt: &R,
    alloc: Global,
    word: &str,
    scenarios: &str,
) -> Result<(), AllocError> {
    for scenario in scenarios.split("\n\n") {
        run_scenario(rt, alloc, word, scenario)?;
    }
    Ok(())
}
