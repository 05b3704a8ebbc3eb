//! Label texts of maclabel(7): reading what a text asks for, and printing labels in their canonical text.
#![tactic(auto)]

mod fault;
mod printing;
mod reading;
mod splitting;
mod values;

pub use fault::LabelFault;
pub use printing::{canonical_text_spells_its_parts, policy_name, print_elem, print_label};
pub use reading::read_request;
