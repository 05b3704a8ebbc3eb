//! Lists of rules.

use crate::asked::wants;
use crate::matches::{FILE, subject};
use crate::texts::rule_of;
use mf_cred::{Cred, FileView};
use mf_rule::{ADMINISTER, EXECUTE, MAX_RULES, NoRule, READ, Rule, RuleList, STAT, WRITE};
use std::alloc::{AllocError, Global};

/// Whether the first match decides, letters, and whether the list gives them.
type Row = (bool, u8, bool);

/// Whether the list gives root these letters of a plain file of its own, or not.
fn gives_root(rules: &RuleList, rows: &[Row]) -> bool {
    let (root, file) = (Cred::default(), FileView::default());
    let mut holds = true;
    for (first_match, letters, allowed) in rows {
        holds &= rules.verdict(*first_match, &root, &file, *letters) == *allowed;
    }
    holds
}

const OF_NO_RULE: &[Row] = &[(true, READ | WRITE | ADMINISTER, true)];

const OF_BOTH: &[Row] = &[
    (true, READ, true),
    (true, WRITE, false),
    (true, READ | EXECUTE, false),
    (false, READ, false),
    (false, 0, true),
];

/// Two rules, of these texts.
type Pair = (&'static str, &'static str);

/// A rule by which root reads plain files of its own, and one by which it may do nothing with them.
const READS_AND_NONE: Pair = (
    "subject uid 0 object type r mode r",
    "subject uid 0 object type r mode n",
);

/// Adds both rules.
fn adds_both(rules: &mut RuleList, reads: Rule, none: Rule) -> bool {
    let is_open = gives_root(rules, OF_NO_RULE);
    let are_added = rules.add(reads) == Ok(Some(0)) && rules.add(none) == Ok(Some(1));
    let of_other = rules.verdict(false, &subject(), &FileView::default(), STAT);
    is_open && are_added && gives_root(rules, OF_BOTH) && of_other
}

/// mac_bsdextended(4): if rule A allows access and rule B blocks access, rule B will never be applied.
const A_AND_B: Pair = (
    "subject uid 2 object uid 3 mode r",
    "subject uid 2 object uid 3 mode n",
);

/// Sets the rules A and B. The file may be read by the first that matches, and not by all.
fn sets_both(rules: &mut RuleList, allows: Rule, blocks: Rule) -> bool {
    let are_set = rules.set(3, allows).is_ok() && rules.set(4, blocks).is_ok();
    let first = rules.verdict(true, &subject(), &FILE, READ);
    let all = rules.verdict(false, &subject(), &FILE, READ);
    are_set && first && !all
}

/// The rules of both texts.
fn rules_of(alloc: Global, texts: Pair) -> Result<Option<(Rule, Rule)>, AllocError> {
    match (rule_of(alloc, texts.0)?, rule_of(alloc, texts.1)?) {
        (Some(first), Some(second)) => Ok(Some((first, second))),
        _ => Ok(None),
    }
}

/// Whether the list takes both, by their numbers, or as the rules A and B.
fn takes_both(alloc: Global, rules: &mut RuleList, texts: Pair, as_a_and_b: bool) -> bool {
    match rules_of(alloc, texts) {
        Ok(Some((first, second))) if as_a_and_b => sets_both(rules, first, second),
        Ok(Some((first, second))) => adds_both(rules, first, second),
        _ => false,
    }
}

fn is_taken(alloc: Global, texts: Pair, as_a_and_b: bool) -> bool {
    match RuleList::new(alloc) {
        Ok(mut rules) => takes_both(alloc, &mut rules, texts, as_a_and_b),
        Err(AllocError) => false,
    }
}

#[test]
fn first_match_and_all_match(rt: HostRuntime) {
    let is_taken_so = is_taken(rt.alloc(), READS_AND_NONE, false);
    wants(&rt, "first match and all match", is_taken_so);
    wants(&rt, "rule A", is_taken(rt.alloc(), A_AND_B, true));
}

/// Whether the list has this rule under the number.
pub fn has(rules: &RuleList, number: u32, rule: &Rule) -> bool {
    match rules.get(number) {
        Some(found) => found.same(rule),
        None => false,
    }
}

/// The calls of libugidfw(3), `bsde_set_rule`, `bsde_get_rule`, `bsde_delete_rule` and `bsde_add_rule`: sets rule 1 twice, adds two,
/// and removes rule 1 twice.
fn sets_adds_and_removes(rules: &mut RuleList, rule: &Rule) -> bool {
    let are_set = rules.set(1, *rule).is_ok() && rules.set(1, *rule).is_ok();
    let is_there = has(rules, 1, rule) && rules.free() == Some(0);
    let are_added = rules.add(*rule) == Ok(Some(0)) && rules.add(*rule) == Ok(Some(2));
    let is_removed = rules.remove(1) == Ok(()) && rules.remove(1) == Err(NoRule);
    are_set && is_there && are_added && is_removed && rules.get(1).is_none()
}

/// Whether a copy is the same as the list until that is cleared.
fn copy_and_clear(alloc: Global, rules: &mut RuleList) -> Result<bool, AllocError> {
    let copy = rules.copy(alloc)?;
    let was_same = copy.same(rules);
    rules.clear();
    Ok(was_same && !copy.same(rules) && rules.get(7).is_none())
}

/// Sets a rule, and clears the list beside its copy.
fn sets_and_clears(alloc: Global, rules: &mut RuleList, rule: &Rule) -> bool {
    rules.set(7, *rule).is_ok() && copy_and_clear(alloc, rules) == Ok(true)
}

/// Whether each is the same as the other.
fn are_same(rules: &RuleList, others: &RuleList) -> bool {
    rules.same(others) && others.same(rules)
}

/// Whether each is another than the other.
fn differ(rules: &RuleList, others: &RuleList) -> bool {
    !rules.same(others) && !others.same(rules)
}

/// Sets the last rule and rule 3, which deny all, and removes them. While the second is there nothing may be read; then the
/// list, which is empty at first, is as before.
fn sets_and_removes_both(rules: &mut RuleList, empty: &RuleList, rule: &Rule) -> bool {
    let are_set = rules.set(MAX_RULES - 1, *rule).is_ok() && rules.set(3, *rule).is_ok();
    let differ = differ(rules, empty);
    let is_last = rules.remove(MAX_RULES - 1) == Ok(());
    let is_read = rules.verdict(true, &subject(), &FILE, READ);
    let is_third = rules.remove(3) == Ok(());
    let is_open = rules.verdict(true, &subject(), &FILE, READ) && are_same(rules, empty);
    are_set && differ && is_last && !is_read && is_third && is_open
}

/// Whether all is so of an empty list, beside another one: each leaves it empty for the next.
fn goes_through_all(
    alloc: Global,
    rules: &mut RuleList,
    empty: &RuleList,
    five: &Rule,
    all: &Rule,
) -> bool {
    let is_removed = sets_and_removes_both(rules, empty, all);
    let is_cleared = sets_and_clears(alloc, rules, five);
    is_removed && is_cleared && sets_adds_and_removes(rules, five)
}

/// The same of a list that is made, and of a copy of it.
fn lists_go_through_all(alloc: Global, five: &Rule, all: &Rule) -> Result<bool, AllocError> {
    let mut rules = RuleList::new(alloc)?;
    let empty = rules.copy(alloc)?;
    Ok(goes_through_all(alloc, &mut rules, &empty, five, all))
}

/// A rule for uid 5 that gives nothing, and one for all.
const FIVE_AND_ALL: Pair = ("subject uid 5 object mode n", "subject object mode n");

/// With those rules.
fn rules_go_through_all(alloc: Global) -> Result<bool, AllocError> {
    match rules_of(alloc, FIVE_AND_ALL)? {
        Some((five, all)) => lists_go_through_all(alloc, &five, &all),
        None => Ok(false),
    }
}

#[test]
fn calls_of_libugidfw_3(rt: HostRuntime) {
    let go_through = rules_go_through_all(rt.alloc()) == Ok(true);
    wants(&rt, "lists", go_through);
}

/// Whether the list has rule 7 and no other of the first.
fn has_seven(rules: &RuleList, rule: &Rule) -> bool {
    has(rules, 7, rule) && rules.get(0).is_none()
}

/// Whether a copy of the list has what that has.
fn is_copied(alloc: Global, rules: &RuleList, rule: &Rule) -> Result<bool, AllocError> {
    let copy = rules.copy(alloc)?;
    Ok(copy.same(rules) && has_seven(&copy, rule))
}

/// Sets a rule and copies the list; where the copy is refused, the list has what it had, and it is done once more.
fn copies_or_stays(alloc: Global, rules: &mut RuleList, rule: &Rule) -> Result<bool, AllocError> {
    rules.set(7, *rule)?;
    match is_copied(alloc, rules, rule) {
        Ok(is_copied) => Ok(is_copied),
        Err(AllocError) => Ok(has_seven(rules, rule) && is_copied(alloc, rules, rule)?),
    }
}

/// The same with a rule for uid 5, from an empty list on.
fn copy_or_stay(alloc: Global) -> Result<bool, AllocError> {
    match rule_of(alloc, "subject uid 5 object mode n")? {
        Some(rule) => copies_or_stays(alloc, &mut RuleList::new(alloc)?, &rule),
        None => Ok(false),
    }
}

#[test]
fn rules_after_refused_copies(rt: HostRuntime) -> Result<(), AllocError> {
    let is_so = copy_or_stay(rt.alloc())?;
    wants(&rt, "a copy", is_so);
    Ok(())
}

/// Removes rules of a full list, two of them where there are none, and adds rules until it is full again.
fn removes_and_adds(rules: &mut RuleList, rule: Rule) -> bool {
    let is_first = rules.remove(0) == Ok(()) && rules.remove(0) == Err(NoRule);
    let is_other = rules.remove(MAX_RULES) == Err(NoRule) && rules.remove(7) == Ok(());
    let are_added = rules.add(rule) == Ok(Some(0)) && rules.add(rule) == Ok(Some(7));
    is_first && is_other && are_added && rules.add(rule) == Ok(None)
}

/// Adds rules until the list is full.
fn is_filled(rules: &mut RuleList, rule: Rule) -> bool {
    let mut holds = true;
    for number in 0..MAX_RULES {
        holds &= rules.add(rule) == Ok(Some(number));
    }
    holds && rules.add(rule) == Ok(None) && removes_and_adds(rules, rule)
}

fn fills_a_list(alloc: Global) -> Result<bool, AllocError> {
    match rule_of(alloc, "subject uid 5 object mode n")? {
        Some(rule) => Ok(is_filled(&mut RuleList::new(alloc)?, rule)),
        None => Ok(false),
    }
}

#[test]
fn a_full_list(rt: HostRuntime) {
    wants(&rt, "a full list", fills_a_list(rt.alloc()) == Ok(true));
}
