//! What a policy answers to a check, and why it denies one, implemented a second time: by its spec alone, for those who judge what
//! the policies answered. Of the crates of the policies nothing is called, and of their interface the types alone are used.
#![tactic(auto)]

mod answering;
mod binding;
mod columns;
mod elements;
mod granting;
mod laws;
mod lowering;
mod order;
mod partitions;
mod permits;
mod reasons;
mod relabels;
mod rules;
mod seeing;
mod views;

pub use answering::{answer, reason};
pub use granting::grants;
pub use laws::{errno_is_of_reason, reasons_deny, rule_decides};
pub use lowering::lowered_by;
pub use permits::{Permit, permit_of};
pub use reasons::Reason;
pub use rules::rule_reason;
