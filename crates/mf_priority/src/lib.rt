//! The policy of realtime and idle priority, that of mac_priority(4).
#![tactic(auto)]

mod priority;

pub use priority::Priority;
