//! The verdict on a text: whether it is that of a run of a script with its sources, and else the line at which it fails.
#![tactic(auto)]

mod front;
mod header;
mod laws;
mod limits;
mod lines;
mod verdict;

pub use header::split_input;
pub use laws::{accepted_texts_fail_nowhere, inputs_are_split_once, texts_fail_at_one_line};
pub use limits::CHECK_LIMIT;
pub use verdict::verdict_on;
