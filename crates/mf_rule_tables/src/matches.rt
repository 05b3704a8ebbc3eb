//! What rules match.

use crate::asked::wants;
use crate::texts::rule_of;
use mf_cred::{ArrayVec, Cred, FileView};
use std::alloc::Global;

/// Rules, each with whether it matches the subject of `subject` and the file of `FILE`.
const MATCHES: &[(&str, bool)] = &[
    ("subject object mode n", true),
    ("subject uid 1 object mode n", true),
    ("subject uid 2 object mode n", true),
    ("subject uid 3 object mode n", true),
    ("subject uid 4 object mode n", false),
    ("subject uid 2:9 object mode n", true),
    ("subject ! uid 2 object mode n", false),
    ("subject gid 10 object mode n", true),
    ("subject gid 47 object mode n", true),
    ("subject gid 11:46 object mode n", false),
    ("subject ! gid 48 object mode n", true),
    ("subject not object mode n", false),
    ("subject not uid 4 object mode n", true),
    ("subject not uid 1 gid 48 object mode n", true),
    ("subject ! uid 1 ! gid 48 object mode n", false),
    ("subject object uid 3 mode n", true),
    ("subject object uid 1 mode n", false),
    ("subject object ! uid 1 mode n", true),
    ("subject object gid 47 mode n", true),
    ("subject object ! gid 47 mode n", false),
    ("subject object suid mode n", true),
    ("subject object ! suid mode n", false),
    ("subject object sgid mode n", false),
    ("subject object ! sgid mode n", true),
    ("subject object uid_of_subject mode n", true),
    ("subject object ! uid_of_subject mode n", false),
    ("subject object gid_of_subject mode n", true),
    ("subject object ! gid_of_subject mode n", false),
    ("subject object type r mode n", true),
    ("subject object type a mode n", true),
    ("subject object type dbclsp mode n", false),
    ("subject object ! type d mode n", true),
    ("subject object not ! suid sgid mode n", true),
    ("subject object not suid ! sgid mode n", false),
];

/// A subject with three uids and two groups.
pub fn subject() -> Cred {
    let mut groups = ArrayVec::one(10);
    groups.push(47);
    Cred {
        uid: 1,
        ruid: 2,
        svuid: 3,
        groups,
    }
}

/// A file that is set to run with its owner's uid.
pub const FILE: FileView = FileView {
    uid: 3,
    gid: 47,
    mode: 0o4755,
    dir: false,
};

/// Whether the text was a rule, and one that matches `FILE` for this subject or doesn't, as is wanted.
fn is_matched(alloc: Global, text: &str, wanted: bool) -> bool {
    match rule_of(alloc, text) {
        Ok(Some(rule)) => rule.matches(&subject(), &FILE) == wanted,
        _ => false,
    }
}

#[test]
fn what_rules_match(rt: HostRuntime) {
    for (text, wanted) in MATCHES {
        wants(&rt, text, is_matched(rt.alloc(), text, *wanted));
    }
}
