//! MLS by itself.

use crate::asked::Level::{Equal, Grade, High, In};
use crate::asked::{Row, answers, wants};
use mf_errno::Errno::{Eacces, Success};
use mf_item::CheckOp::{KldLoad, VnodeOpenRead, VnodeOpenWrite};
use mf_mls::Mls;

/// mac_mls(4): a subject with `equal` is exempt. One sentence forbids the write up; the kernel's code and this model allow
/// it. In this model MLS doesn't guard the loading of modules.
const LEVELS: &[Row] = &[
    (VnodeOpenRead, Grade(10), Grade(10), Success),
    (VnodeOpenWrite, Grade(10), Grade(10), Success),
    (VnodeOpenRead, Grade(10), Grade(5), Success),
    (VnodeOpenWrite, Grade(10), Grade(5), Eacces),
    (VnodeOpenRead, Grade(5), Grade(10), Eacces),
    (VnodeOpenWrite, Grade(5), Grade(10), Success),
    (VnodeOpenRead, In(5, 1), In(9, 2), Eacces),
    (VnodeOpenWrite, In(5, 1), In(9, 2), Eacces),
    (VnodeOpenWrite, Equal, High, Success),
    (KldLoad, Equal, High, Success),
    (KldLoad, Grade(10), High, Success),
];

#[test]
fn reads_and_writes_by_level(rt: HostRuntime) {
    wants(&rt, "levels", answers(&Mls::new(), LEVELS));
}
