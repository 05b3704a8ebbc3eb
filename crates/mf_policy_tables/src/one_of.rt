//! Biba, MLS, mac_partition, mac_seeotheruids and mac_portacl as one type, for a list of policies without boxes. Of mac_partition
//! it is counted how often it is reset: it has no setting, so no contract tells a policy of it that is reset from one that isn't.
use mf_biba::Biba;
use mf_cred::Cred;
use mf_errno::{Errno, Module, Priv};
use mf_item::Item;
use mf_mls::Mls;
use mf_partition::Partition;
use mf_policy::{Change, Changed, LoadFlags, Policy, Spec};
use mf_ports::{Portacl, Seeotheruids};
use std::alloc::{AllocError, Global};
use std::sync::atomic::{AtomicU64, Ordering};

/// One of the policies, without a box.
#[derive(Drop)]
pub enum OneOf<'a> {
    Biba(Biba),
    Mls(Mls),
    Partition(Partition, &'a AtomicU64),
    Seeotheruids(Seeotheruids),
    Portacl(Portacl),
}

impl<'a> Policy for OneOf<'a> {
    ghost use Rattle.mf_policy.specs.declared.spec.Spec.TheVariants as means;
    ghost use Rattle.mf_policy_tables.specs.declared.one_of.OneOf.TheVariants as one;

    ghost spec = { λ policy. elim policy [ one.Biba b ↦ means.Biba b.revocation | one.Mls m ↦ means.Mls | one.Partition p resets ↦ means.Partition | one.Seeotheruids s ↦ means.Seeotheruids s.primarygroup s.specific s.gid s.suser | one.Portacl p ↦ means.Portacl p.rules p.port_high p.suser p.autoport ] };

    fn module(&self) -> Module {
        match self {
            OneOf::Biba(policy) => policy.module(),
            OneOf::Mls(policy) => policy.module(),
            OneOf::Partition(policy, _) => policy.module(),
            OneOf::Seeotheruids(policy) => policy.module(),
            OneOf::Portacl(policy) => policy.module(),
        }
    }

    fn flags(&self) -> LoadFlags {
        match self {
            OneOf::Biba(policy) => policy.flags(),
            OneOf::Mls(policy) => policy.flags(),
            OneOf::Partition(policy, _) => policy.flags(),
            OneOf::Seeotheruids(policy) => policy.flags(),
            OneOf::Portacl(policy) => policy.flags(),
        }
    }

    fn wants_slot(&self) -> bool {
        match self {
            OneOf::Biba(policy) => policy.wants_slot(),
            OneOf::Mls(policy) => policy.wants_slot(),
            OneOf::Partition(policy, _) => policy.wants_slot(),
            OneOf::Seeotheruids(policy) => policy.wants_slot(),
            OneOf::Portacl(policy) => policy.wants_slot(),
        }
    }

    fn same(&self, other: &Spec) -> bool {
        match self {
            OneOf::Biba(policy) => policy.same(other),
            OneOf::Mls(policy) => policy.same(other),
            OneOf::Partition(policy, _) => policy.same(other),
            OneOf::Seeotheruids(policy) => policy.same(other),
            OneOf::Portacl(policy) => policy.same(other),
        }
    }

    fn check(&self, slot: u8, item: &Item) -> Errno {
        match self {
            OneOf::Biba(policy) => policy.check(slot, item),
            OneOf::Mls(policy) => policy.check(slot, item),
            OneOf::Partition(policy, _) => policy.check(slot, item),
            OneOf::Seeotheruids(policy) => policy.check(slot, item),
            OneOf::Portacl(policy) => policy.check(slot, item),
        }
    }

    fn grant(&self, cred: &Cred, privilege: Priv) -> bool {
        match self {
            OneOf::Biba(policy) => policy.grant(cred, privilege),
            OneOf::Mls(policy) => policy.grant(cred, privilege),
            OneOf::Partition(policy, _) => policy.grant(cred, privilege),
            OneOf::Seeotheruids(policy) => policy.grant(cred, privilege),
            OneOf::Portacl(policy) => policy.grant(cred, privilege),
        }
    }

    fn change(&mut self, alloc: Global, change: &Change) -> Result<Changed, AllocError> {
        match self {
            OneOf::Biba(policy) => policy.change(alloc, change),
            OneOf::Mls(policy) => policy.change(alloc, change),
            OneOf::Partition(policy, _) => policy.change(alloc, change),
            OneOf::Seeotheruids(policy) => policy.change(alloc, change),
            OneOf::Portacl(policy) => policy.change(alloc, change),
        }
    }

    fn reset(&mut self) {
        match self {
            OneOf::Biba(policy) => policy.reset(),
            OneOf::Mls(policy) => policy.reset(),
            OneOf::Partition(policy, resets) => {
                resets.fetch_add(1, Ordering::SeqCst);
                policy.reset();
            }
            OneOf::Seeotheruids(policy) => policy.reset(),
            OneOf::Portacl(policy) => policy.reset(),
        }
    }
}
