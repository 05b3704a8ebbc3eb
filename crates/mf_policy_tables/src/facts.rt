//! What each module is when it is loaded.

use crate::asked::{has_settings, holds, is_fresh, wants};
use mf_biba::Biba;
use mf_bsdextended::Bsdextended;
use mf_cred::Cred;
use mf_errno::{Errno, Module, Priv};
use mf_lomac::Lomac;
use mf_mls::Mls;
use mf_partition::Partition;
use mf_policy::Policy;
use mf_ports::{Portacl, Seeotheruids};
use mf_priority::Priority;
use std::alloc::{AllocError, Global};

/// The facts of a module.
struct Facts {
    module: Module,
    /// Another module, whose spec it doesn't have.
    other: Module,
    /// Whether it has a slot.
    slot: bool,
    /// Whether it may come late and go, or else stays from boot on.
    comes_and_goes: bool,
    /// A privilege that it doesn't grant to root.
    privilege: Priv,
    /// The answers to a change of mac_bsdextended's setting, and of mac_biba's.
    settings: (Errno, Errno),
}

const BIBA: Facts = Facts {
    module: Module::Biba,
    other: Module::Mls,
    slot: true,
    comes_and_goes: false,
    privilege: Priv::KldLoad,
    settings: (Errno::Enoent, Errno::Success),
};

const MLS: Facts = Facts {
    module: Module::Mls,
    other: Module::Lomac,
    slot: true,
    comes_and_goes: false,
    privilege: Priv::KldLoad,
    settings: (Errno::Enoent, Errno::Enoent),
};

const LOMAC: Facts = Facts {
    module: Module::Lomac,
    other: Module::Biba,
    slot: true,
    comes_and_goes: false,
    privilege: Priv::KldLoad,
    settings: (Errno::Enoent, Errno::Enoent),
};

const PARTITION: Facts = Facts {
    module: Module::Partition,
    other: Module::Priority,
    slot: true,
    comes_and_goes: true,
    privilege: Priv::MacPartition,
    settings: (Errno::Enoent, Errno::Enoent),
};

const BSDEXTENDED: Facts = Facts {
    module: Module::Bsdextended,
    other: Module::Biba,
    slot: false,
    comes_and_goes: true,
    privilege: Priv::SchedRtprio,
    settings: (Errno::Success, Errno::Enoent),
};

/// It grants to groups, and root's group is none of them.
const PRIORITY: Facts = Facts {
    module: Module::Priority,
    other: Module::Partition,
    slot: false,
    comes_and_goes: true,
    privilege: Priv::SchedRtprio,
    settings: (Errno::Enoent, Errno::Enoent),
};

const SEEOTHERUIDS: Facts = Facts {
    module: Module::Seeotheruids,
    other: Module::Portacl,
    slot: false,
    comes_and_goes: true,
    privilege: Priv::KldLoad,
    settings: (Errno::Enoent, Errno::Enoent),
};

const PORTACL: Facts = Facts {
    module: Module::Portacl,
    other: Module::Seeotheruids,
    slot: false,
    comes_and_goes: true,
    privilege: Priv::KldLoad,
    settings: (Errno::Enoent, Errno::Enoent),
};

/// Whether the policy is the module, with that slot and those flags, and doesn't grant the privilege.
fn is_module<P: Policy>(policy: &P, facts: &Facts) -> bool {
    let flags = policy.flags();
    let comes_and_goes = flags.is_unloadok() && !flags.is_notlate();
    let stays = !flags.is_unloadok() && flags.is_notlate();
    let by_flags = if facts.comes_and_goes {
        comes_and_goes
    } else {
        stays
    };
    let granted = policy.grant(&Cred::default(), facts.privilege);
    let is_module = policy.module() == facts.module && policy.wants_slot() == facts.slot;
    is_module && by_flags && !granted
}

/// Whether the policy has the spec of its module in its initial state, and not that of the other one.
fn is_initial<P: Policy>(alloc: Global, policy: &P, facts: &Facts) -> bool {
    let is_another = matches!(is_fresh(alloc, policy, facts.other), Ok(false));
    holds(is_fresh(alloc, policy, facts.module)) && is_another
}

/// Whether the facts are those of the policy, which has its initial state once it is put back.
fn has_facts<P: Policy>(alloc: Global, policy: &mut P, facts: &Facts) -> bool {
    policy.reset();
    let is_initial = is_initial(alloc, policy, facts);
    is_initial && has_settings(alloc, policy, facts.settings) && is_module(policy, facts)
}

/// Whether they are those of mac_bsdextended.
fn bsdextended_has_facts(alloc: Global) -> bool {
    match Bsdextended::new(alloc) {
        Ok(mut policy) => has_facts(alloc, &mut policy, &BSDEXTENDED),
        Err(AllocError) => false,
    }
}

/// Whether those of the policies that have labels are so.
fn labelled_have_facts(alloc: Global) -> bool {
    has_facts(alloc, &mut Biba::new(), &BIBA)
        && has_facts(alloc, &mut Mls::new(), &MLS)
        && has_facts(alloc, &mut Lomac::new(), &LOMAC)
        && has_facts(alloc, &mut Partition::new(), &PARTITION)
}

/// Whether those of the others are.
fn others_have_facts(alloc: Global) -> bool {
    has_facts(alloc, &mut Priority::new(), &PRIORITY)
        && has_facts(alloc, &mut Seeotheruids::new(), &SEEOTHERUIDS)
        && has_facts(alloc, &mut Portacl::new(), &PORTACL)
}

#[test]
fn facts_of_modules(rt: HostRuntime) {
    wants(&rt, "labelled ones", labelled_have_facts(rt.alloc()));
    wants(&rt, "mac_bsdextended", bsdextended_has_facts(rt.alloc()));
    wants(&rt, "others", others_have_facts(rt.alloc()));
}
