//! How the answers of several policies are composed: an operation needs the consent of every policy, and one grant of a
//! privilege is enough.
#![tactic(auto)]

mod composition;
mod grants;

pub use composition::{decider, fold};
pub use grants::granted;
