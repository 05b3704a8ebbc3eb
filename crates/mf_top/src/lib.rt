//! The program's call. With the word `run` it reads a script from a source, runs its tasks side by side on one kernel,
//! and writes their history, and the sources of each party at its end, to a sink. With `step` it takes the script's steps
//! one after another, and writes what they print, and the sources at their end. Behind either word it writes with `matrix`
//! also what each process may do to each party at the end, with `chains` how each source came to where it is, and with `why`
//! why calls were denied. With `check` it reads a script and a text, and tells whether this is the text of a run of it. With
//! `gen N T` it reads nothing, runs a load that it makes, and writes its summary. While the tasks of a run go on, it calls a
//! gate.
#![tactic(auto)]

mod check;
mod command;
pub mod law;
mod read;
mod refusal;
mod run;
mod steps;
mod text;
mod top;
mod write;

pub use check::run_check;
pub use command::{Command, Order, Telling};
pub use refusal::Refusal;
pub use steps::run_steps;
pub use top::macsim;
