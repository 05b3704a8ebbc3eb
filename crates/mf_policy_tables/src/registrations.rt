//! The lists of policies: which are registered, and which go.

use crate::asked::{holds, wants};
use crate::cases::{Case, comes_out};
use crate::lists::Act::{Register, Resets, Unregister};
use mf_errno::{Errno, Module};
use mf_list::{RegisterFault, UnregisterFault};
use mf_policy::Registration;
use std::alloc::{AllocError, Global};

/// Biba, booted as the first.
pub const BIBA: Registration = Registration {
    module: Module::Biba,
    slot: Some(0),
    fixed: true,
};

/// MLS, booted as the second.
pub const MLS: Registration = Registration {
    module: Module::Mls,
    slot: Some(1),
    fixed: true,
};

/// mac_partition with the first slot, with the second, and with the third.
pub const PARTITION: Registration = Registration {
    module: Module::Partition,
    slot: Some(0),
    fixed: false,
};

pub const PARTITION_1: Registration = Registration {
    module: Module::Partition,
    slot: Some(1),
    fixed: false,
};

pub const PARTITION_2: Registration = Registration {
    module: Module::Partition,
    slot: Some(2),
    fixed: false,
};

/// mac_seeotheruids and mac_portacl, which have no slot.
pub const SEEOTHERUIDS: Registration = Registration {
    module: Module::Seeotheruids,
    slot: None,
    fixed: false,
};

pub const PORTACL: Registration = Registration {
    module: Module::Portacl,
    slot: None,
    fixed: false,
};

/// Biba and MLS behind mac_partition.
pub const BIBA_1: Registration = Registration {
    module: Module::Biba,
    slot: Some(1),
    fixed: true,
};

pub const MLS_2: Registration = Registration {
    module: Module::Mls,
    slot: Some(2),
    fixed: true,
};

/// MLS with the last slot.
pub const MLS_3: Registration = Registration {
    module: Module::Mls,
    slot: Some(3),
    fixed: true,
};

/// All three at boot: the static ones come first, the newest before the others.
const WALK_ORDER: Case = Case {
    acts: &[
        Register("mac_partition", false, Ok(PARTITION)),
        Register("mac_biba", false, Ok(BIBA_1)),
        Register("mac_mls", false, Ok(MLS_2)),
        Register("mac_lomac", false, Err(RegisterFault::Unknown)),
    ],
    listed: &[MLS_2, BIBA_1, PARTITION],
    given: 3,
    asked: &[],
    set: &[],
};

/// Biba is booted, and mac_partition comes late and goes.
const COME_AND_GO: &Case = &Case {
    acts: &[
        Register("mac_biba", false, Ok(BIBA)),
        Register("mac_partition", true, Ok(PARTITION_1)),
        Unregister("mac_partition", Ok(PARTITION_1)),
    ],
    listed: &[BIBA],
    given: 2,
    asked: &[],
    set: &[],
};

/// A policy that goes gets a new slot when it comes back. It is reset as it goes, and not before.
const GO_AND_COME_BACK: Case = Case {
    acts: &[
        Register("mac_partition", false, Ok(PARTITION)),
        Resets(0),
        Unregister("mac_partition", Ok(PARTITION)),
        Resets(1),
        Register("mac_partition", true, Ok(PARTITION_1)),
        Resets(1),
        Unregister("mac_partition", Ok(PARTITION_1)),
        Resets(2),
    ],
    listed: &[],
    given: 2,
    asked: &[],
    set: &[],
};

/// Where Biba alone is booted, these are refused, and neither Biba goes nor MLS.
const REFUSALS: Case = Case {
    acts: &[
        Register("mac_biba", false, Ok(BIBA)),
        Register("mac_ifoff", true, Err(RegisterFault::Unknown)),
        Register("mac_mls", true, Err(RegisterFault::NotLate)),
        Register("mac_biba", true, Err(RegisterFault::NotLate)),
        Register("mac_biba", false, Err(RegisterFault::Exists)),
        Unregister("mac_biba", Err(UnregisterFault::Pinned)),
        Unregister("mac_mls", Err(UnregisterFault::NotLoaded)),
    ],
    listed: &[BIBA],
    given: 1,
    asked: &[],
    set: &[],
};

/// The last slot is taken, and then there is none.
const SLOTS_RUN_OUT: Case = Case {
    acts: &[
        Register("mac_partition", false, Ok(PARTITION)),
        Unregister("mac_partition", Ok(PARTITION)),
        Register("mac_partition", true, Ok(PARTITION_1)),
        Unregister("mac_partition", Ok(PARTITION_1)),
        Register("mac_partition", true, Ok(PARTITION_2)),
        Register("mac_mls", false, Ok(MLS_3)),
        Register("mac_biba", false, Err(RegisterFault::NoSlot)),
    ],
    listed: &[MLS_3, PARTITION_2],
    given: 4,
    asked: &[],
    set: &[],
};

/// What comes of lists.
const CASES: &[(&str, Case)] = &[
    ("registrations in walk order", WALK_ORDER),
    ("a partition goes and comes back", GO_AND_COME_BACK),
    ("registration is refused", REFUSALS),
    ("slots run out", SLOTS_RUN_OUT),
];

#[test]
fn which_are_registered_and_which_go(rt: HostRuntime) {
    for (name, case) in CASES {
        wants(&rt, name, holds(comes_out(rt.alloc(), case)));
    }
    let errno = RegisterFault::Exists.errno();
    wants(&rt, "its errno", errno == Errno::Eexist);
}

/// Whether that comes out, or does once it is done once more where memory was refused.
fn comes_out_in_the_end(alloc: Global, case: &Case) -> Result<bool, AllocError> {
    match comes_out(alloc, case) {
        Ok(is_so) => Ok(is_so),
        Err(AllocError) => comes_out(alloc, case),
    }
}

/// The lists and the catalogue are made; where that is refused, it is done once more. No call after that takes memory.
#[test]
fn policies_after_refused_growths(rt: HostRuntime) -> Result<(), AllocError> {
    let is_so = comes_out_in_the_end(rt.alloc(), COME_AND_GO)?;
    wants(&rt, "mac_partition", is_so);
    Ok(())
}
