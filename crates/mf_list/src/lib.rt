//! The static and the dynamic list of policies, which the framework asks, and the catalogue of the policies that aren't
//! listed.
#![tactic(auto)]

mod ask;
mod catalogue;
mod entries;
mod faults;
mod fixed;
mod judging;
mod listed;
mod listed_policy;
mod policy_list;
mod registering;

pub use ask::Answer;
pub use catalogue::Catalogue;
pub use faults::{RegisterFault, UnregisterFault};
pub use fixed::Fixed;
pub use listed::Listed;
pub use policy_list::PolicyList;
