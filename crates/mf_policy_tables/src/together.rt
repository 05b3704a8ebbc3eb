//! What policies answer together, and what they answer where their settings are changed in a list.

use crate::asked::{holds, wants};
use crate::cases::{Case, Setting, comes_out};
use crate::lists::Act::Register;
use crate::questions::Question::{self, About, Bind, Privilege, Sight};
use crate::questions::Values;
use crate::registrations::{BIBA, MLS, PARTITION, PARTITION_1, PORTACL, SEEOTHERUIDS};
use crate::settings::Asked::{FirstMatch, Ports, Revocation};
use mf_elem::LabelValue::{Number, Range, Unset};
use mf_elem::{Elem, LabelValue, RangeLabel, SLOTS};
use mf_errno::Errno::{Eacces, Enoent, Eperm, Esrch, Success};
use mf_errno::Module;
use mf_item::{CheckOp, Kind};

/// A value of Biba and MLS.
const LOW_VALUE: LabelValue = Range(RangeLabel {
    effective: Some(Elem::Low),
    range: None,
});

const HIGH_VALUE: LabelValue = Range(RangeLabel {
    effective: Some(Elem::High),
    range: None,
});

/// Labels with it in each slot.
const LOW: &Values = &[LOW_VALUE; SLOTS];

const HIGH: &Values = &[HIGH_VALUE; SLOTS];

/// A read from above through an open file.
const READ: Question = About(CheckOp::VnodeRead, Kind::Vnode, HIGH, LOW);

/// Biba and MLS: the precedence counts against walk order, and root has every privilege. In the static list Biba alone has
/// revocation.
const BIBA_AND_MLS: Case = Case {
    acts: &[
        Register("mac_biba", false, Ok(BIBA)),
        Register("mac_mls", false, Ok(MLS)),
    ],
    listed: &[MLS, BIBA],
    given: 2,
    asked: &[
        (
            About(CheckOp::ProcSignal, Kind::Process, HIGH, LOW),
            Esrch,
            Some(Module::Biba),
        ),
        (
            About(CheckOp::ProcVisible, Kind::Process, LOW, LOW),
            Success,
            None,
        ),
        (Privilege(0), Success, None),
        (Privilege(1001), Eperm, None),
    ],
    set: &[
        Setting {
            fixed: true,
            module: Module::Mls,
            asked: Revocation(true),
            errno: Enoent,
            then: (READ, Success, None),
        },
        Setting {
            fixed: true,
            module: Module::Partition,
            asked: Revocation(true),
            errno: Enoent,
            then: (READ, Success, None),
        },
        Setting {
            fixed: true,
            module: Module::Biba,
            asked: Revocation(true),
            errno: Success,
            then: (READ, Eacces, Some(Module::Biba)),
        },
        Setting {
            fixed: true,
            module: Module::Biba,
            asked: Revocation(false),
            errno: Success,
            then: (READ, Success, None),
        },
    ],
};

/// Labels with an element in slot 0 and a partition in slot 1.
const LOW_1: &Values = &[LOW_VALUE, Number(1), Unset, Unset];

const LOW_2: &Values = &[LOW_VALUE, Number(2), Unset, Unset];

const HIGH_1: &Values = &[HIGH_VALUE, Number(1), Unset, Unset];

const HIGH_2: &Values = &[HIGH_VALUE, Number(2), Unset, Unset];

/// Where both hide the process, Biba decides, though mac_partition is the newer one: a static policy is asked first.
const BIBA_AND_PARTITION: Case = Case {
    acts: &[
        Register("mac_biba", false, Ok(BIBA)),
        Register("mac_partition", false, Ok(PARTITION_1)),
    ],
    listed: &[BIBA, PARTITION_1],
    given: 2,
    asked: &[
        (
            About(CheckOp::ProcSignal, Kind::Process, LOW_1, HIGH_2),
            Esrch,
            Some(Module::Partition),
        ),
        (
            About(CheckOp::ProcVisible, Kind::Process, HIGH_1, LOW_2),
            Esrch,
            Some(Module::Biba),
        ),
    ],
    set: &[],
};

/// mac_seeotheruids behind mac_partition. Where both hide the process, the newer one decides.
const PARTITION_AND_SEEOTHERUIDS: Case = Case {
    acts: &[
        Register("mac_partition", true, Ok(PARTITION)),
        Register("mac_seeotheruids", true, Ok(SEEOTHERUIDS)),
    ],
    listed: &[SEEOTHERUIDS, PARTITION],
    given: 1,
    asked: &[
        (Sight(1, 1), Success, None),
        (Sight(1, 2), Esrch, Some(Module::Partition)),
        (Sight(2, 1), Esrch, Some(Module::Seeotheruids)),
        (Sight(2, 2), Esrch, Some(Module::Seeotheruids)),
    ],
    set: &[],
};

/// A rule that is set in the dynamic list lets uid 80 bind the port, which it may not before.
const PORTACL_ALONE: Case = Case {
    acts: &[Register("mac_portacl", true, Ok(PORTACL))],
    listed: &[PORTACL],
    given: 0,
    asked: &[(Bind(80), Eperm, Some(Module::Portacl))],
    set: &[Setting {
        fixed: false,
        module: Module::Portacl,
        asked: Ports(("uid:80:tcp:80", 1023, true, true)),
        errno: Success,
        then: (Bind(80), Success, None),
    }],
};

/// What isn't listed has no setting.
const NOTHING: Case = Case {
    acts: &[],
    listed: &[],
    given: 0,
    asked: &[],
    set: &[Setting {
        fixed: false,
        module: Module::Mls,
        asked: FirstMatch(true),
        errno: Enoent,
        then: (READ, Success, None),
    }],
};

/// What comes of lists.
const CASES: &[(&str, Case)] = &[
    ("biba and mls", BIBA_AND_MLS),
    ("partition against biba", BIBA_AND_PARTITION),
    ("seeotheruids before partition", PARTITION_AND_SEEOTHERUIDS),
    ("a policy of the dynamic list is set", PORTACL_ALONE),
    ("what is not listed has no setting", NOTHING),
];

#[test]
fn answers_of_lists(rt: HostRuntime) {
    for (name, case) in CASES {
        wants(&rt, name, holds(comes_out(rt.alloc(), case)));
    }
}
