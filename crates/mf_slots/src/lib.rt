//! Label slots: which slot numbers were given, and the zones in which the values of labels lie.
#![tactic(auto)]

mod numbers;
mod zones;

pub use numbers::SlotNumbers;
pub use zones::{Label, MOST_HELD, Zones};
