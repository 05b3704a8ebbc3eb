//! The steps of a script, taken one after another: the order of what the tasks do is the script's.
#![tactic(auto)]

mod kept;
mod laws;
mod stepper;
mod stepping;

pub use laws::{step_runs_are_legal, step_runs_end_one_way, step_texts_tell_histories};
pub use stepping::{Stepped, run_steps};
