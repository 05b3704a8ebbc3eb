//! Generated loads.

use crate::tests::{summary_of, wants_that};
use mf_io::OpenGate;
use std::alloc::AllocError;

/// Words of loads, and their summaries.
const SMALL: &[(&[&str], &str)] = &[
    (&["gen", "01", "2"], "gen 1 2\nok 1\nEACCES 1\n"),
    (&["gen", "2", "2"], "gen 2 2\nok 2\nENOENT 1\nEACCES 1\n"),
];

#[test]
fn small_loads(rt: HostRuntime) -> Result<(), AllocError> {
    for (words, wanted) in SMALL {
        let summary = summary_of(&rt, rt.alloc(), words, &OpenGate)?;
        wants_that(&rt, "a summary", summary.as_str() == *wanted);
    }
    Ok(())
}

/// The sum of the counts that the lines of a summary give.
fn sum_of_counts(text: &str) -> u64 {
    let mut sum: u64 = 0;
    for line in text.lines().skip(1) {
        if let Some((_, count)) = line.split_once(' ') {
            if let Ok(count) = count.parse::<u64>() {
                sum = sum.saturating_add(count);
            }
        }
    }
    sum
}

const LARGEST: &[&str] = &["gen", "4096", "16"];

#[test]
fn largest_load(rt: HostRuntime) -> Result<(), AllocError> {
    let first = summary_of(&rt, rt.alloc(), LARGEST, &OpenGate)?;
    let second = summary_of(&rt, rt.alloc(), LARGEST, &OpenGate)?;
    let is_same = first.as_str() == second.as_str();
    wants_that(
        &rt,
        "twice",
        is_same && sum_of_counts(first.as_str()) == 65_536,
    );
    Ok(())
}
