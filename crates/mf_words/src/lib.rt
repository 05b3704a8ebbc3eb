//! The words of a line, and the lines of a text.
#![tactic(auto)]

mod words;

pub use words::{Lines, Words, is_comment};
