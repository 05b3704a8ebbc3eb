//! The state of the kernel.
use mf_objects::Objects;
use mf_policy::SpecList;
use mf_slots::SlotNumbers;

/// The state of the kernel: the live entities, the listed policies in walk order with their specs, how many label slots
/// were given, and whether boot has ended.
#[derive(Drop)]
pub struct State {
    pub objects: Objects,
    pub specs: SpecList,
    pub numbers: SlotNumbers,
    pub booted: bool,
}
