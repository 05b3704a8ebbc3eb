//! The file system firewall by itself.
ghost use Rattle.mf_policy.specs.IsChange.{IsChange};

use crate::asked::{answer, holds, is_answered, is_fresh, wants};
use mf_bsdextended::Bsdextended;
use mf_elem::Elem;
use mf_errno::Errno::{self, Eacces, Enobufs, Enoent, Success};
use mf_errno::Module;
use mf_item::CheckOp;
use mf_policy::{Change, Changed, Policy};
use mf_rule::{MAX_RULES, Rule, read_rule};
use std::alloc::{AllocError, Global};

/// Operations, the letters that the one rule gives, and the answers: for each that asks for letters, some that let it pass
/// and some that don't; for those that ask for none, no letter.
const LETTERS: &[(CheckOp, &str, Errno)] = &[
    (CheckOp::VnodeLookup, "x", Success),
    (CheckOp::VnodeLookup, "arsw", Eacces),
    (CheckOp::VnodeOpenRead, "r", Success),
    (CheckOp::VnodeOpenRead, "aswx", Eacces),
    (CheckOp::VnodeOpenWrite, "w", Success),
    (CheckOp::VnodeOpenWrite, "arsx", Eacces),
    (CheckOp::VnodeExec, "rx", Success),
    (CheckOp::VnodeExec, "aswx", Eacces),
    (CheckOp::VnodeExec, "arswx", Success),
    (CheckOp::VnodeExec, "arsw", Eacces),
    (CheckOp::VnodeStat, "s", Success),
    (CheckOp::VnodeStat, "arwx", Eacces),
    (CheckOp::VnodeReaddir, "r", Success),
    (CheckOp::VnodeReaddir, "aswx", Eacces),
    (CheckOp::VnodeCreate, "w", Success),
    (CheckOp::VnodeCreate, "arsx", Eacces),
    (CheckOp::VnodeUnlinkDir, "w", Success),
    (CheckOp::VnodeUnlinkDir, "arsx", Eacces),
    (CheckOp::VnodeUnlink, "w", Success),
    (CheckOp::VnodeUnlink, "arsx", Eacces),
    (CheckOp::VnodeSetmode, "a", Success),
    (CheckOp::VnodeSetmode, "rswx", Eacces),
    (CheckOp::VnodeRead, "n", Success),
    (CheckOp::VnodeWrite, "n", Success),
    (CheckOp::VnodeRelabel, "n", Success),
    (CheckOp::PipeRead, "n", Success),
    (CheckOp::ProcVisible, "n", Success),
];

/// The rule that matches all, and gives these letters.
fn rule(letters: &str) -> Option<Rule> {
    read_rule(&["subject", "object", "mode", letters]).ok()
}

/// The answer about a plain file, which has no label of the firewall's.
fn answer_of<P: Policy>(policy: &P, op: CheckOp) -> Errno {
    answer(policy, op, Elem::Low, Elem::Low)
}

/// Whether the policy takes the rule of these letters.
fn adds<P: Policy>(alloc: Global, policy: &mut P, letters: &str) -> bool {
    match rule(letters) {
        Some(rule) => is_answered(alloc, policy, &Change::RuleAdd(rule), Success),
        None => false,
    }
}

/// Whether the policy answers so to the operation after a rule more.
fn answers_with<P: Policy>(
    alloc: Global,
    policy: &mut P,
    letters: &str,
    op: CheckOp,
    errno: Errno,
) -> bool {
    adds(alloc, policy, letters) && answer_of(policy, op) == errno
}

/// Whether it answers so to each operation by the one rule: it is put back each time.
fn gives_letters<P: Policy>(alloc: Global, policy: &mut P) -> bool {
    let mut holds = true;
    for (op, letters, errno) in LETTERS {
        holds &= answers_with(alloc, policy, letters, *op, *errno);
        policy.reset();
    }
    holds
}

/// A change, with a rule where it needs one.
enum Edit {
    FirstMatch(bool),
    Remove(u32),
    Add,
    SetFirst,
}

/// Changes, one behind the other, with their answers.
const EDITS: &[(Edit, Errno, Option<u32>)] = &[
    (Edit::FirstMatch(false), Success, None),
    (Edit::Remove(MAX_RULES), Enoent, None),
    (Edit::Add, Success, Some(0)),
    (Edit::SetFirst, Success, None),
    (Edit::Remove(0), Success, None),
    (Edit::Remove(0), Enoent, None),
];

/// The change with that rule.
fn change_of(edit: &Edit, rule: Rule) -> Change
    ensures { IsChange result }
{
    match edit {
        Edit::FirstMatch(first_match) => Change::FirstMatch(*first_match),
        Edit::Remove(number) => Change::RuleRemove(*number),
        Edit::Add => Change::RuleAdd(rule),
        Edit::SetFirst => Change::RuleSet(0, rule),
    }
}

/// Whether the change is answered so.
fn is_edited<P: Policy>(
    alloc: Global,
    policy: &mut P,
    change: &Change,
    errno: Errno,
    number: Option<u32>,
) -> bool
    requires { IsChange change.now }
{
    policy.change(alloc, change) == Ok(Changed { errno, number })
}

/// Whether the changes are answered so.
fn is_edited_one_by_one<P: Policy>(alloc: Global, policy: &mut P, rule: Rule) -> bool {
    let mut holds = true;
    for (edit, errno, number) in EDITS {
        holds &= is_edited(alloc, policy, &change_of(edit, rule), *errno, *number);
    }
    holds
}

/// Adds the rule under every number, and once more.
fn is_filled<P: Policy>(alloc: Global, policy: &mut P, rule: Rule) -> bool {
    let add = Change::RuleAdd(rule);
    let mut holds = true;
    for number in 0..MAX_RULES {
        holds &= is_edited(alloc, policy, &add, Success, Some(number));
    }
    holds && is_edited(alloc, policy, &add, Enobufs, None)
}

/// Edits the rules of an empty policy, puts it back, and fills it.
fn takes_rules<P: Policy>(alloc: Global, policy: &mut P) -> bool {
    match rule("n") {
        Some(rule) => {
            let is_edited = is_edited_one_by_one(alloc, policy, rule);
            policy.reset();
            is_edited && is_filled(alloc, policy, rule)
        }
        None => false,
    }
}

/// Adds a rule that gives r and one that gives nothing, turns first match off, and puts the policy back. mac_bsdextended(4): with
/// first match, a rule behind one that allows is never applied.
fn turns_off<P: Policy>(alloc: Global, policy: &mut P) -> bool {
    let read = CheckOp::VnodeOpenRead;
    answers_with(alloc, policy, "r", read, Success)
        && answers_with(alloc, policy, "n", read, Success)
        && is_answered(alloc, policy, &Change::FirstMatch(false), Success)
        && answer_of(policy, read) == Eacces
}

/// Whether the policy is open and as it was, once it is put back.
fn is_put_back<P: Policy>(alloc: Global, policy: &mut P) -> bool {
    policy.reset();
    let is_open = answer_of(policy, CheckOp::VnodeOpenWrite) == Success;
    is_open && holds(is_fresh(alloc, policy, Module::Bsdextended))
}

/// Whether all is so, one behind the other.
fn is_firewall(alloc: Global, policy: &mut Bsdextended) -> bool {
    gives_letters(alloc, policy)
        && takes_rules(alloc, policy)
        && is_put_back(alloc, policy)
        && turns_off(alloc, policy)
        && is_put_back(alloc, policy)
}

fn rules_are_kept(alloc: Global) -> bool {
    match Bsdextended::new(alloc) {
        Ok(mut policy) => is_firewall(alloc, &mut policy),
        Err(AllocError) => false,
    }
}

#[test]
fn letters_rules_and_first_match(rt: HostRuntime) {
    wants(&rt, "mac_bsdextended", rules_are_kept(rt.alloc()));
}
