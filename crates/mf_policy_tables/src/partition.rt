//! mac_partition by itself.

use crate::asked::{answer_in, wants};
use mf_elem::LabelValue::{self, Number, Unset};
use mf_elem::{Request, SLOTS};
use mf_errno::Errno;
use mf_item::{CheckOp, Item, SubjectView};
use mf_partition::Partition;
use mf_policy::Policy;

/// A label with this value in slot 1.
fn labelled(partition: LabelValue) -> [LabelValue; SLOTS] {
    [Unset, partition, Unset, Unset]
}

/// Operations by a subject with the first value on an object with the second, with their answers.
const ANSWERS: &[(CheckOp, LabelValue, LabelValue, Errno)] = &[
    (CheckOp::ProcVisible, Number(7), Number(7), Errno::Success),
    (CheckOp::ProcVisible, Number(7), Number(8), Errno::Esrch),
    (CheckOp::ProcVisible, Number(7), Number(0), Errno::Esrch),
    (CheckOp::ProcVisible, Number(7), Unset, Errno::Esrch),
    (CheckOp::ProcVisible, Number(0), Number(7), Errno::Success),
    (CheckOp::ProcVisible, Unset, Number(7), Errno::Success),
    (CheckOp::SocketVisible, Number(7), Number(8), Errno::Enoent),
    (CheckOp::VnodeOpenRead, Number(7), Number(8), Errno::Success),
];

/// mac_partition(4): processes see those of their own partition; one in no partition sees all.
fn partitions_agree(policy: &Partition) -> bool {
    let mut holds = true;
    for (op, subject, object, errno) in ANSWERS {
        holds &= answer_in(policy, 1, *op, labelled(*subject), labelled(*object)) == *errno;
    }
    holds
}

/// The answer to a subject with this uid that asks to join the partition.
fn joins(uid: u32, partition: Option<u32>) -> Errno {
    let mut request = Request::none();
    request.partition = partition;
    let mut subject = SubjectView::default();
    subject.cred.uid = uid;
    let op = CheckOp::CredRelabel;
    let relabel = Item::new(op, &subject, None, Some(&request), None, None);
    Partition::new().check(1, &relabel)
}

/// Uids, the partitions that they ask for, and the answers.
const JOINS: &[(u32, Option<u32>, Errno)] = &[
    (0, Some(7), Errno::Success),
    (1001, Some(7), Errno::Eperm),
    (1001, Some(0), Errno::Success),
    (1001, None, Errno::Success),
];

fn root_alone_joins() -> bool {
    let mut holds = true;
    for (uid, partition, errno) in JOINS {
        holds &= joins(*uid, *partition) == *errno;
    }
    holds
}

#[test]
fn partitions_agree_and_root_alone_joins_one(rt: HostRuntime) {
    wants(&rt, "partitions", partitions_agree(&Partition::new()));
    wants(&rt, "a relabel", root_alone_joins());
}
