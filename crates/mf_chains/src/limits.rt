//! The greatest sizes of what is told by chains.

/// The most elements that come into sets, and the most steps of all chains of a table.
pub const CHAIN_LIMIT: u32 = 1_048_576;
