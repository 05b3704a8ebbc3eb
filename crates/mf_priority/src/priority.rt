//! Privileges by groups: who is in a group may have realtime, and who is in another idle priority.
ghost use Rattle.std.specs.Prelude.{◌≡◌};
ghost use Rattle.mf_policy.specs.Answer as spec;
ghost use Rattle.mf_policy.specs.declared.spec.Spec.TheVariants as means;

use mf_cred::Cred;
use mf_errno::{Errno, Module, Priv};
use mf_item::Item;
use mf_policy::{Change, Changed, LoadFlags, Policy, Spec, flags_of, wants_slot};
use std::alloc::{AllocError, Global};

/// The gid of the group `realtime` of group(5).
const REALTIME_GROUP: u32 = 47;

/// The gid of the group `idletime` of group(5).
const IDLE_GROUP: u32 = 48;

/// The scheduling policy of mac_priority(4): it denies nothing, and grants the privilege of realtime priority to the members of one
/// group, and that of idle priority to those of another. It labels nothing. In FreeBSD the groups are settings; here it has none.
#[derive(Debug, Drop)]
pub struct Priority;

impl Priority {
    /// The policy in its initial state.
    pub fn new() -> Priority
        ensures { ⟦<Priority as Policy>⟧.spec result ≡ means.Priority }
    {
        Priority
    }
}

impl Policy for Priority {
    ghost spec = { λ _. means.Priority };

    fn module(&self) -> Module {
        Module::Priority
    }

    fn flags(&self) -> LoadFlags {
        flags_of(Module::Priority)
    }

    fn wants_slot(&self) -> bool {
        wants_slot(Module::Priority)
    }

    fn same(&self, other: &Spec) -> bool {
        matches!(other, Spec::Priority)
    }

    fn check(&self, _slot: u8, _item: &Item) -> Errno {
        Errno::Success
    }

    fn grant(&self, cred: &Cred, privilege: Priv) -> bool {
        match granted_group(privilege) {
            Some(group) => cred.in_group(group),
            None => false,
        }
    }

    fn change(&mut self, _alloc: Global, _change: &Change) -> Result<Changed, AllocError> {
        Ok(Changed::no_setting())
    }

    fn reset(&mut self) {}
}

/// The group whose members are granted the privilege.
fn granted_group(privilege: Priv) -> Option<u32>
    ensures { result ≡ spec.granted_group privilege }
{
    match privilege {
        Priv::SchedRtprio => Some(REALTIME_GROUP),
        Priv::SchedIdprio => Some(IDLE_GROUP),
        Priv::KldLoad | Priv::KldUnload | Priv::MacPartition => None,
    }
}
