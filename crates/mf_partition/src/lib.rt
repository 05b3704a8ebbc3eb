//! The partition policy of mac_partition(4).
#![tactic(auto)]

mod partition;

pub use partition::Partition;
