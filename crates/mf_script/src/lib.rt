//! The reader of a script's text, line by line. What a script says is mf_calls'; all of it is reached from here too.
#![tactic(auto)]

mod calls;
mod error;
mod judging;
mod law;
mod lines;
mod names;
mod numbers;
mod parts;
mod reading;
mod refusal;
mod rows;

pub use error::{ScriptError, ScriptFault};
pub use law::scripts_are_well_formed;
use mf_calls::SCRIPT_LIMIT;
pub use mf_calls::{
    Bytes, Call, FileLine, Line, Listing, Name, Path, Script, Step, StepKind, Task, Word, generate,
    is_component, is_name,
};
pub use reading::read_script;

/// The words of a script's line.
type Words<'a> = mf_words::Words<'a, SCRIPT_LIMIT>;

/// The lines of a script.
type Lines<'a> = mf_words::Lines<'a, SCRIPT_LIMIT>;
