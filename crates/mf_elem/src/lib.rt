//! Elements of the labels of Biba, MLS and LOMAC, their order, and the labels that are made of them.
#![tactic(auto)]

mod comps;
mod elem;
mod label;

pub use comps::{Comps, LAST_COMPARTMENT};
pub use elem::{Elem, LAST_GRADE, dominates, in_range, is_plain, range_in_range, same_level};
pub use label::{
    LAST_PARTITION, LabelValue, RangeLabel, Request, SLOTS, has_equal, is_valid, privileged,
};
