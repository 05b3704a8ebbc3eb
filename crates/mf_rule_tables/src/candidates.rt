//! Which rules of a list may match.

use crate::asked::wants;
use crate::lists::has;
use crate::texts::rule_of;
use mf_cred::{ArrayVec, Cred, FileView};
use mf_rule::{READ, Rule, RuleList};
use std::alloc::{AllocError, Global};

/// A subject with this uid in all three places.
fn subject_of(uid: u32) -> Cred {
    Cred {
        uid,
        ruid: uid,
        svuid: uid,
        groups: ArrayVec::one(0),
    }
}

/// Adds the rule of this text to a list.
fn adds(alloc: Global, rules: &mut RuleList, text: &str) -> bool {
    match rule_of(alloc, text) {
        Ok(Some(rule)) => rules.add(rule).is_ok(),
        _ => false,
    }
}

/// Adds these rules.
fn adds_all(alloc: Global, rules: &mut RuleList, texts: &[&str]) -> bool {
    let mut holds = true;
    for text in texts {
        holds &= adds(alloc, rules, text);
    }
    holds
}

/// Whether the rules 0 to 4 may match a subject of the uid, and a directory or a file that is none.
fn may_match(rules: &RuleList, uid: u32, dir: bool) -> [bool; 5] {
    let found = rules.candidates(&subject_of(uid), dir);
    [
        found.has(0),
        found.has(1),
        found.has(2),
        found.has(3),
        found.has(4),
    ]
}

/// A uid, whether the object is a directory, and which of the rules 0 to 4 may match.
type Row = (u32, bool, [bool; 5]);

/// Whether the rules may match so.
fn match_so(rules: &RuleList, rows: &[Row]) -> bool {
    let mut holds = true;
    for (uid, dir, wanted) in rows {
        holds &= may_match(rules, *uid, *dir) == *wanted;
    }
    holds
}

/// Whether it is so of a list of these rules.
fn is_so_of(alloc: Global, texts: &[&str], rows: &[Row]) -> bool {
    match RuleList::new(alloc) {
        Ok(mut rules) => adds_all(alloc, &mut rules, texts) && match_so(&rules, rows),
        Err(AllocError) => false,
    }
}

/// With the uid, with another, and whether the object is a directory or isn't.
const TESTS: &[&str] = &[
    "subject uid 5 object mode r",
    "subject not uid 5 object mode r",
    "subject object type d mode r",
    "subject ! uid 5 object ! type d mode r",
];

const OF_TESTS: &[Row] = &[
    (5, false, [true, true, false, true, false]),
    (6, true, [false, true, true, false, false]),
    (6, false, [false, true, false, true, false]),
];

#[test]
fn rules_that_may_match(rt: HostRuntime) {
    wants(&rt, "tests", is_so_of(rt.alloc(), TESTS, OF_TESTS));
}

/// Ranges that meet and that overlap, and the last uid.
const RANGES: &[&str] = &[
    "subject uid 5:7 object mode r",
    "subject uid 8:9 object mode r",
    "subject uid 9:4294967295 object mode r",
    "subject uid 0:4294967295 object mode r",
];

const OF_RANGES: &[Row] = &[
    (0, true, [false, false, false, true, false]),
    (4, true, [false, false, false, true, false]),
    (5, true, [true, false, false, true, false]),
    (7, true, [true, false, false, true, false]),
    (8, true, [false, true, false, true, false]),
    (9, true, [false, true, true, true, false]),
    (10, true, [false, false, true, true, false]),
    (4_294_967_295, true, [false, false, true, true, false]),
];

#[test]
fn ranges_of_uids(rt: HostRuntime) {
    wants(&rt, "ranges", is_so_of(rt.alloc(), RANGES, OF_RANGES));
}

const GONE: &[&str] = &["subject uid 5 object mode r", "subject uid 6 object mode r"];

const OF_GONE: &[Row] = &[
    (5, false, [false, false, false, false, false]),
    (6, false, [false, false, false, false, false]),
    (7, false, [true, false, false, false, false]),
];

/// Sets rule 0 anew and takes rule 1 away: where they were, no rule may match any more.
fn sets_and_removes(alloc: Global, rules: &mut RuleList) -> bool {
    let are_added = adds_all(alloc, rules, GONE);
    let is_set = match rule_of(alloc, "subject uid 7 object mode r") {
        Ok(Some(seven)) => rules.set(0, seven).is_ok(),
        _ => false,
    };
    are_added && is_set && rules.remove(1) == Ok(()) && match_so(rules, OF_GONE)
}

fn gone_rules_may_not_match(alloc: Global) -> bool {
    match RuleList::new(alloc) {
        Ok(mut rules) => sets_and_removes(alloc, &mut rules),
        Err(AllocError) => false,
    }
}

#[test]
fn rules_that_are_gone(rt: HostRuntime) {
    wants(&rt, "rules", gone_rules_may_not_match(rt.alloc()));
}

/// Whether the list is as the other one, gives uid 5 all that it may read, and has no rule of this number.
fn has_stayed(rules: &RuleList, before: &RuleList, number: u32) -> bool {
    let gives = rules.verdict(true, &subject_of(5), &FileView::default(), READ);
    rules.same(before) && rules.get(number).is_none() && gives
}

/// Sets a rule; where memory is refused, the list is as it was, and it is done once more.
fn sets_or_stays(rules: &mut RuleList, before: &RuleList, rule: &Rule) -> Result<bool, AllocError> {
    let mut stays = true;
    if rules.set(7, *rule).is_err() {
        stays = has_stayed(rules, before, 7);
        rules.set(7, *rule)?;
    }
    Ok(stays && has(rules, 7, rule))
}

/// Sets a rule in an empty list, beside another empty one.
fn sets_beside(alloc: Global, rules: &mut RuleList, rule: &Rule) -> Result<bool, AllocError> {
    let empty = RuleList::new(alloc)?;
    sets_or_stays(rules, &empty, rule)
}

/// Adds a rule once more, which was refused: the list is as it was.
fn adds_again(rules: &mut RuleList, before: &RuleList, rule: &Rule) -> Result<bool, AllocError> {
    let stays = rules.same(before) && rules.get(0).is_none();
    Ok(rules.add(*rule)? == Some(0) && stays)
}

/// Adds a rule; where memory is refused, the list is as it was, and it is done once more.
fn adds_or_stays(rules: &mut RuleList, before: &RuleList, rule: &Rule) -> Result<bool, AllocError> {
    let is_first = match rules.add(*rule) {
        Ok(number) => number == Some(0),
        Err(AllocError) => adds_again(rules, before, rule)?,
    };
    Ok(is_first && has(rules, 0, rule))
}

/// Adds a rule beside a copy of the list.
fn adds_beside(alloc: Global, rules: &mut RuleList, rule: &Rule) -> Result<bool, AllocError> {
    let before = rules.copy(alloc)?;
    adds_or_stays(rules, &before, rule)
}

/// Sets the one rule and adds the other.
fn sets_and_adds(alloc: Global, rules: &mut RuleList) -> Result<bool, AllocError> {
    let five = rule_of(alloc, "subject uid 5:6 object mode n")?;
    let nine = rule_of(alloc, "subject uid 8:9 object mode n")?;
    match (&five, &nine) {
        (Some(five), Some(nine)) => {
            Ok(sets_beside(alloc, rules, five)? && adds_beside(alloc, rules, nine)?)
        }
        _ => Ok(false),
    }
}

fn grow_or_stay(alloc: Global) -> Result<bool, AllocError> {
    let mut rules = RuleList::new(alloc)?;
    sets_and_adds(alloc, &mut rules)
}

#[test]
fn rules_after_refused_growths(rt: HostRuntime) -> Result<(), AllocError> {
    let is_so = grow_or_stay(rt.alloc())?;
    wants(&rt, "rules", is_so);
    Ok(())
}
