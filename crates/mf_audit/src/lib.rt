//! The auditor: whether a history is one that the framework allows for a script. It plays the history through by itself: with
//! its own list of parties, its own walk of paths and checks, and its own answers of the policies.
#![tactic(auto)]

mod answering;
mod audit;
mod boots;
mod calling;
mod channels;
mod descriptors;
mod done;
mod effects;
mod files;
mod kernel;
mod modules;
mod opening;
mod paths;
mod payloads;
mod player;
mod processes;
mod progress;
mod replies;
mod rows;
mod settings;
mod walk;
mod ways;

pub use audit::{Audit, audit_history};
