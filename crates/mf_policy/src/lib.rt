//! The interface of a policy module, the specs of policies, the tables of modules and of operations, and what Biba, MLS
//! and LOMAC share.
#![tactic(auto)]

mod claims;
mod labels;
mod lattice;
mod laws;
mod load_flags;
mod loading;
mod lowering;
mod modules;
mod operations;
mod policy;
mod registration;
mod relabel;
mod settings;
mod spec;
mod spec_list;
mod sysctl;

pub use labels::{Origin, new_label, relabelled, sets_value, value_after};
pub use lattice::{Lattice, errno_unless, lattice_answer, slot_label};
pub use laws::{objects_get_no_range, subjects_stay_valid};
pub use load_flags::{LoadFlags, flags_of};
pub use loading::{LoadFault, UnloadFault, load_fault, registration_of, unload_fault};
pub use lowering::{element_in, lower_by, lowers, value_in};
pub use modules::{
    Facts, Labelling, boot_value, facts_of, inherited, is_named, labels_kind, may_ask,
    number_asked, range_asked, takes, wants_slot,
};
pub use operations::{Movement, PartitionTest, Row, Test, is_transfer, row_of};
pub use policy::Policy;
pub use registration::{MOST_LISTED, Registration};
pub use relabel::{credential_relabel, object_relabel};
pub use settings::{Change, Changed, change_portacl, change_revocation, change_rules, change_see};
pub use spec::Spec;
pub use spec_list::SpecList;
pub use sysctl::{Sysctl, switch};
