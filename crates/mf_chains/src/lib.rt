//! By what chains of movements an element of the sources came to a party.
#![tactic(auto)]

mod accepting;
mod chain;
mod happened;
mod happening;
mod keeping;
mod laws;
mod limits;
mod links;
mod marks;
mod pasts;
mod printing;
mod table;
mod tracing;

pub use accepting::accepts;
pub use chain::{Chain, ChainFault, ChainRow, ChainTable, Step, StepList};
pub use laws::{chains_tell_sources, kept_chains_are_chains};
pub use limits::CHAIN_LIMIT;
pub use printing::print_chains;
pub use table::chains;
