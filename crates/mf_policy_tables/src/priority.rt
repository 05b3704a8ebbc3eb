//! mac_priority by itself.

use crate::asked::wants;
use mf_cred::{ArrayVec, Cred};
use mf_errno::{Errno, Priv};
use mf_item::{CheckOp, Item, SubjectView};
use mf_policy::Policy;
use mf_priority::Priority;

/// A user's credential with these two groups.
fn user(first: u32, second: u32) -> Cred {
    let mut groups = ArrayVec::one(first);
    groups.push(second);
    Cred {
        uid: 1001,
        ruid: 1001,
        svuid: 1001,
        groups,
    }
}

/// Whether a user with these two groups is granted realtime priority, idle priority and a partition.
fn granted(first: u32, second: u32) -> [bool; 3] {
    let (policy, cred) = (Priority::new(), user(first, second));
    let realtime = policy.grant(&cred, Priv::SchedRtprio);
    let idle = policy.grant(&cred, Priv::SchedIdprio);
    [realtime, idle, policy.grant(&cred, Priv::MacPartition)]
}

/// Two groups, and what a user in them is granted.
const GROUPS: &[(u32, u32, [bool; 3])] = &[
    (1001, 47, [true, false, false]),
    (47, 1001, [true, false, false]),
    (1001, 48, [false, true, false]),
    (47, 48, [true, true, false]),
    (1001, 0, [false, false, false]),
];

/// mac_priority(4): members of `realtime` may have realtime, and members of `idletime` idle priority.
fn realtime_and_idle_users() -> bool {
    let mut holds = true;
    for (first, second, wanted) in GROUPS {
        holds &= granted(*first, *second) == *wanted;
    }
    holds
}

/// The answer to a user who asks for realtime priority.
fn answer(op: CheckOp) -> Errno {
    let mut subject = SubjectView::default();
    subject.cred = user(1001, 1001);
    let item = Item::new(op, &subject, None, None, Some(Priv::SchedRtprio), None);
    Priority::new().check(0, &item)
}

#[test]
fn privileges_are_granted_and_nothing_is_denied(rt: HostRuntime) {
    wants(&rt, "groups", realtime_and_idle_users());
    let is_let = answer(CheckOp::KldLoad) == Errno::Success;
    let is_granted = answer(CheckOp::Priv) == Errno::Success;
    wants(&rt, "nothing is denied", is_let && is_granted);
}
