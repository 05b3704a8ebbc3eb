//! What modules answer and grant, as the auditor has it.

use mf_answers::{answer, grants};
use mf_cred::{Cred, FileView};
use mf_elem::{LabelValue, SLOTS};
use mf_errno::{Errno, Priv};
use mf_item::{CheckOp, Item, Kind, ObjectView, SubjectView};
use mf_policy::Spec;

#[test]
fn a_process_of_another_partition_is_hidden(rt: HostRuntime) {
    let subject = SubjectView {
        id: 1,
        cred: Cred::default(),
        label: [LabelValue::Number(1); SLOTS],
    };
    let object = ObjectView {
        id: 2,
        kind: Kind::Process,
        file: FileView::default(),
        label: [LabelValue::Number(2); SLOTS],
    };
    let op = CheckOp::ProcVisible;
    let item = Item::new(op, &subject, Some(&object), None, None, None);
    assert!(rt; answer(&Spec::Partition, 3, &item) == Errno::Esrch);
}

#[test]
fn mac_partition_grants_nothing(rt: HostRuntime) {
    assert!(rt; !grants(&Spec::Partition, &Cred::default(), Priv::SchedRtprio));
}
