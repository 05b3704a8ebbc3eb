//! Texts of numbers, and texts of bytes with escapes.
#![tactic(auto)]

mod escapes;
mod number;
mod octal;

pub use escapes::{TextFault, escape, unescape, unescape_bytes};
pub use number::{NumberFault, print_number, read_number, read_octal};
pub use octal::print_octal;
