//! Texts of rules, and texts that are none.

use crate::asked::wants;
use mf_rule::{Rule, RuleFault, print_rule, read_rule};
use std::alloc::{AllocError, Global};

/// The synopsis of ugidfw(8), with `not` and each `!`, and its letters of types and of modes.
const SYNOPSIS: &[(&str, &str)] = &[
    (
        "subject not ! uid 1001:1002 ! gid 1001:1002 object not ! uid 1001:1002 ! gid 1001:1002 ! suid ! sgid ! uid_of_subject ! gid_of_subject ! type ardbclsp mode arswxn",
        "subject not ! uid 1001:1002 ! gid 1001:1002 object not ! uid 1001:1002 ! gid 1001:1002 ! suid ! sgid ! uid_of_subject ! gid_of_subject ! type a mode arswx",
    ),
    (
        "subject uid 1001 gid 1001 object uid 1002 gid 1002 type p mode n",
        "subject uid 1001 gid 1001 object uid 1002 gid 1002 type p mode n",
    ),
];

/// Words of rules, and the canonical text of each. The second has every test.
const CANONICAL: &[(&str, &str)] = &[
    (
        "subject not ! uid 5:5 object gid 0:9 ! suid type dr mode wr",
        "subject not ! uid 5 object gid 0:9 ! suid type rd mode rw",
    ),
    (
        "subject gid 7 ! uid 00:4294967295 object not type pslcbdr ! gid_of_subject uid_of_subject sgid suid gid 1 ! uid 2 mode nxwsra",
        "subject ! uid 0:4294967295 gid 7 object not ! uid 2 gid 1 suid sgid uid_of_subject ! gid_of_subject type a mode arswx",
    ),
    ("subject object mode n", "subject object mode n"),
    (
        "subject uid 65534 object mode n",
        "subject uid 65534 object mode n",
    ),
    (
        "subject uid 80 object not uid 80 mode rxs",
        "subject uid 80 object not uid 80 mode rsx",
    ),
    (
        "subject not uid 0 object uid 0 mode srx",
        "subject not uid 0 object uid 0 mode rsx",
    ),
    (
        "subject not uid 0 gid 0:10 object ! uid_of_subject mode rr",
        "subject not uid 0 gid 0:10 object ! uid_of_subject mode r",
    ),
    (
        "subject uid 1 object type ar mode rn",
        "subject uid 1 object type a mode r",
    ),
];

/// Words that are no rule, each with its first fault.
const FAULTS: &[(&str, RuleFault)] = &[
    ("", RuleFault::Missing(0)),
    ("subject", RuleFault::Missing(1)),
    ("subject object", RuleFault::Missing(2)),
    ("subject object mode", RuleFault::Missing(3)),
    ("subject uid", RuleFault::Missing(2)),
    ("subject ! gid", RuleFault::Missing(3)),
    ("object mode n", RuleFault::UnknownWord(0)),
    ("subject filesys / object mode r", RuleFault::UnknownWord(1)),
    ("subject suid object mode r", RuleFault::UnknownWord(1)),
    ("subject not not object mode r", RuleFault::UnknownWord(2)),
    ("subject uid 5 not object mode r", RuleFault::UnknownWord(3)),
    (
        "subject uid 5 uid 6 object mode r",
        RuleFault::UnknownWord(3),
    ),
    (
        "subject uid 5 ! uid x object mode r",
        RuleFault::UnknownWord(4),
    ),
    ("subject ! object mode r", RuleFault::UnknownWord(2)),
    (
        "subject ! not uid 5 object mode r",
        RuleFault::UnknownWord(2),
    ),
    ("subject ! ! uid 5 object mode r", RuleFault::UnknownWord(2)),
    (
        "subject object suid ! suid mode r",
        RuleFault::UnknownWord(4),
    ),
    ("subject object mode r r", RuleFault::UnknownWord(4)),
    ("subject object mode r x", RuleFault::UnknownWord(4)),
    ("subject uid 9:5 object mode r", RuleFault::BadRange(2)),
    ("subject uid 5: object mode r", RuleFault::BadRange(2)),
    ("subject uid :5 object mode r", RuleFault::BadRange(2)),
    ("subject uid 1:2:3 object mode r", RuleFault::BadRange(2)),
    (
        "subject gid 4294967296 object mode r",
        RuleFault::BadRange(2),
    ),
    (
        "subject uid 4294967296 object mode r",
        RuleFault::BadRange(2),
    ),
    ("subject uid root object mode r", RuleFault::BadRange(2)),
    ("subject uid object object mode r", RuleFault::BadRange(2)),
    ("subject object mode q", RuleFault::BadMode(3)),
    ("subject object type z mode r", RuleFault::BadType(3)),
    ("subject object type mode mode r", RuleFault::BadType(3)),
];

fn read(alloc: Global, text: &str) -> Result<Result<Rule, RuleFault>, AllocError> {
    let words: Vec<&str> = text.split_whitespace().collect(alloc)?;
    Ok(read_rule(words.as_slice()))
}

/// The rule of these words; None where they are none.
pub fn rule_of(alloc: Global, text: &str) -> Result<Option<Rule>, AllocError> {
    Ok(read(alloc, text)?.ok())
}

/// Whether the rule is printed so.
fn is_printed_as(alloc: Global, rule: &Rule, canonical: &str) -> Result<bool, AllocError> {
    let mut text = String::new(alloc);
    print_rule(rule, &mut text)?;
    Ok(text.as_str() == canonical)
}

/// Whether the words are a rule, which is printed so, and what is printed is that rule again.
fn is_canonical(alloc: Global, text: &str, canonical: &str) -> Result<bool, AllocError> {
    match (rule_of(alloc, text)?, rule_of(alloc, canonical)?) {
        (Some(rule), Some(again)) => {
            Ok(again.same(&rule) && is_printed_as(alloc, &rule, canonical)?)
        }
        _ => Ok(false),
    }
}

/// The texts of the first row that isn't so, or none.
fn wrong_canonical(alloc: Global, rows: &[(&'static str, &'static str)]) -> &'static str {
    for (text, canonical) in rows {
        if is_canonical(alloc, text, canonical) != Ok(true) {
            return text;
        }
    }
    ""
}

#[test]
fn canonical_texts(rt: HostRuntime) {
    let wrong = wrong_canonical(rt.alloc(), SYNOPSIS);
    wants(&rt, wrong, wrong.is_empty());
    let wrong = wrong_canonical(rt.alloc(), CANONICAL);
    wants(&rt, wrong, wrong.is_empty());
}

/// The first fault of these words; None where they are a rule.
fn fault_of(alloc: Global, text: &str) -> Result<Option<RuleFault>, AllocError> {
    Ok(read(alloc, text)?.err())
}

/// The text of the first row that hasn't its fault, or no text where each has: the first row's is empty.
fn wrong_fault(alloc: Global) -> Option<&'static str> {
    for (text, fault) in FAULTS {
        if fault_of(alloc, text) != Ok(Some(*fault)) {
            return Some(text);
        }
    }
    None
}

/// Words of which the last is empty, with their faults.
const EMPTY_WORDS: &[(&[&str], RuleFault)] = &[
    (&["subject", "uid", ""], RuleFault::BadRange(2)),
    (&["subject", "object", "mode", ""], RuleFault::BadMode(3)),
];

fn faults_of_empty_words() -> bool {
    let mut holds = true;
    for (words, fault) in EMPTY_WORDS {
        holds &= read_rule(words).err() == Some(*fault);
    }
    holds
}

#[test]
fn faults_and_their_words(rt: HostRuntime) {
    wants(&rt, "faults", wrong_fault(rt.alloc()).is_none());
    wants(&rt, "empty words", faults_of_empty_words());
}
