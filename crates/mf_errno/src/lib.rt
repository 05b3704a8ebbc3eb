//! Error numbers, policy modules and privileges by number and by name, and which of two answers counts.
#![tactic(auto)]

mod errno;
mod laws;
mod module;
mod privilege;
mod selection;

pub use errno::Errno;
pub use laws::{names_differ, numbers_differ};
pub use module::Module;
pub use privilege::Priv;
pub use selection::select;
