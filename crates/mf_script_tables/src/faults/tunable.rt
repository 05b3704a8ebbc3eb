//! The faults of the tunable's line: its words first, then its name, its value, and an earlier line of it.

use crate::faults::{NONE, Row, are_faulty};
use std::alloc::AllocError;

/// Lines of the tunable, where mac_biba is booted.
const BEHIND_BIBA: &[Row] = &[
    ("tunable", "2 3 Missing"),
    ("tunable x x", "2 3 Missing"),
    ("tunable = x", "2 4 Extra"),
    (
        "tunable security.mac.biba.revocation_enabled",
        "2 3 Missing",
    ),
    (
        "tunable security.mac.biba.revocation_enabled=1 x",
        "2 4 Extra",
    ),
    (
        "tunable security.mac.biba.revocation=2",
        "2 12 BootRefused ENOENT",
    ),
    (
        "tunable security.mac.biba.revocation_enabled=2",
        "2 12 BootRefused EINVAL",
    ),
    (
        "tunable security.mac.biba.revocation_enabled=",
        "2 12 BootRefused EINVAL",
    ),
    (
        "tunable security.mac.biba.revocation_enabled=01",
        "2 12 BootRefused EINVAL",
    ),
    (
        "tunable security.mac.biba.revocation_enabled=0=1",
        "2 12 BootRefused EINVAL",
    ),
    ("tunable security.mac.biba.revocation_enabled=0", NONE),
    (
        "tunable security.mac.biba.revocation_enabled=1\nsteps\nend",
        NONE,
    ),
    (
        "tunable security.mac.biba.revocation_enabled=1\nboot mac_mls",
        "3 2 UnknownWord",
    ),
    // A second line is faulty, and first for what a first one would be.
    (
        "tunable security.mac.biba.revocation_enabled=1\ntunable x",
        "3 3 Missing",
    ),
    (
        "tunable security.mac.biba.revocation_enabled=1\ntunable x= x",
        "3 4 Extra",
    ),
    (
        "tunable security.mac.biba.revocation_enabled=1\ntunable x=1",
        "3 12 BootRefused ENOENT",
    ),
    (
        "tunable security.mac.biba.revocation_enabled=1\ntunable security.mac.biba.revocation_enabled=2",
        "3 12 BootRefused EINVAL",
    ),
    (
        "tunable security.mac.biba.revocation_enabled=0\ntunable security.mac.biba.revocation_enabled=0",
        "3 9 Duplicate",
    ),
];

/// Where the line of the tunable may not stand, and where mac_biba isn't booted.
const ELSEWHERE: &[Row] = &[
    ("tunable", "1 3 Missing"),
    ("tunable =", "1 12 BootRefused ENOENT"),
    (
        "boot mac_mls\ntunable security.mac.biba.revocation_enabled=2",
        "2 12 BootRefused ENOENT",
    ),
    (
        "boot mac_biba\nboot mac_bsdextended\ntunable security.mac.bsdextended.firstmatch_enabled=1",
        "3 12 BootRefused ENOENT",
    ),
    (
        "boot mac_biba\nfile /a dir uid 0 gid 0 mode 0 label -\ntunable security.mac.biba.revocation_enabled=1",
        "3 2 UnknownWord",
    ),
    ("task t uid 0 gid 0 label -\ntunable x=1", "2 2 UnknownWord"),
    ("steps\ntunable x=1", "2 2 UnknownWord"),
];

#[test]
fn lines_of_the_tunable(rt: HostRuntime) -> Result<(), AllocError> {
    are_faulty(&rt, rt.alloc(), "boot mac_biba\n", BEHIND_BIBA)?;
    are_faulty(&rt, rt.alloc(), "", ELSEWHERE)
}
