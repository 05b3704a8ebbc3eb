//! The marks of label slots over a history: when a slot of an entity is made, and how it ends.
#![tactic(auto)]

mod laws;

pub use laws::{
    booted_policies_last, gone_slots_have_ended, opening_is_whole, set_slots_are_marked,
    slots_are_made_once,
};
