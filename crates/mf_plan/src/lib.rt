//! Plans of calls: the checks that a call asks the policies for, in order, and how it ends where none is denied.
#![tactic(auto)]

mod asking;
mod descriptors;
mod files;
mod found;
mod last_label;
mod loading;
mod lookup;
mod lowering;
mod named;
mod names;
mod outline;
mod plan;
mod planning;
mod refusing;
mod relabels;
mod reply;
mod same;
mod settings;
mod state;
mod target;
mod views;

pub use descriptors::{Access, biba_value, descriptor_of_call};
pub use found::Found;
pub use last_label::LastLabel;
pub use lookup::{Lookup, lookup_along, target_of};
pub use names::{ChildName, caller_of, child_name};
pub use outline::{Check, Outline};
pub use plan::{MOST_CHECKS, Plan, Tail};
pub use planning::{outline_of, plan_of};
pub use reply::{LabelPart, Loaded, Payload, Reply};
pub use settings::asked_change;
pub use state::State;
pub use target::Target;
