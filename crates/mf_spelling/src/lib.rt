//! Scripts as they are spelled: each line as pieces, which words spell a piece, and the canonical text of a script.
#![tactic(auto)]

mod calls;
mod lines;
mod printing;
mod words;

pub use printing::print_script;
pub use words::parts_asked;
