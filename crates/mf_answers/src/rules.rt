//! Why the rules about files of mac_bsdextended(4) deny or allow: which of them decides. Each rule is looked at in turn.
ghost use Rattle.std.specs.Prelude.{◌≡◌, ◌≤◌, ◌<◌, ◌&&◌, not, length, position};
ghost use Rattle.mf_rule.specs.RuleList.{is_match, slot_gives};
ghost use Rattle.mf_answers.specs.Permits as permits;
ghost use Rattle.mf_answers.specs.Reasons as spec;

use crate::columns::letters_of;
use crate::permits::Permit;
use crate::reasons::Reason;
use crate::views::attributes_of;
use mf_cred::{Cred, FileView};
use mf_item::Item;
use mf_rule::{MAX_RULES, Rule};

/// Why the rules deny an item: they are asked where its operation has letters.
pub fn rules_reason(rules: &[Option<Rule>], first_match: bool, item: &Item) -> Option<Reason>
    requires { length rules.now ≤ MAX_RULES }
    ensures { result ≡ spec.rules_reason rules.now first_match item.now }
{
    match letters_of(item.op()) {
        None => None,
        Some(letters) => {
            let file = attributes_of(item.object());
            verdict_reason(rules, first_match, &item.subject().cred, &file, letters)
        }
    }
}

/// Why the rule of a number denies an item by itself: it matches, and lacks a letter.
pub fn rule_reason(rules: &[Option<Rule>], number: u32, item: &Item) -> Option<Reason>
    requires { number < length rules.now }
    ensures { result ≡ spec.rule_reason rules.now number item.now }
{
    let wanted = letters_of(item.op())?;
    let slot = &rules[number as usize];
    let file = attributes_of(item.object());
    if is_match(slot, &item.subject().cred, &file) {
        slot_reason(slot, number, wanted)
    } else {
        None
    }
}

/// The rule that allows an item with first match: that which decides, where it gives all of the letters.
pub fn rules_permit(rules: &[Option<Rule>], item: &Item) -> Option<Permit>
    requires { length rules.now ≤ MAX_RULES }
    ensures { result ≡ permits.rules_permit rules.now item.now }
{
    match letters_of(item.op()) {
        None => None,
        Some(letters) => {
            let file = attributes_of(item.object());
            first_permit(rules, &item.subject().cred, &file, letters)
        }
    }
}

/// The first rule that matches, where it gives the subject all of the letters for the file.
fn first_permit(rules: &[Option<Rule>], cred: &Cred, file: &FileView, wanted: u8) -> Option<Permit>
    requires { length rules.now ≤ MAX_RULES }
    ensures { result ≡ permits.first_permit rules.now cred.now file.now wanted }
{
    match deciding(rules, true, cred, file, wanted) {
        None => None,
        Some(number) => slot_permit(&rules[number], number as u32, wanted),
    }
}

/// The rule with that number, where it gives the letters.
fn slot_permit(slot: &Option<Rule>, number: u32, wanted: u8) -> Option<Permit>
    ensures { result ≡ permits.slot_permit slot.now number wanted }
{
    match slot {
        Some(rule) if rule.gives(wanted) => Some(Permit::Rule {
            number,
            wanted,
            given: rule.mode,
        }),
        Some(_) | None => None,
    }
}

/// Why the rules don't give the subject all of the letters for the file. What no rule matches is allowed.
fn verdict_reason(
    rules: &[Option<Rule>],
    first_match: bool,
    cred: &Cred,
    file: &FileView,
    wanted: u8,
) -> Option<Reason>
    requires { length rules.now ≤ MAX_RULES }
    ensures { result ≡ spec.verdict_reason first_match rules.now cred.now file.now wanted }
{
    match deciding(rules, first_match, cred, file, wanted) {
        None => None,
        Some(number) => slot_reason(&rules[number], number as u32, wanted),
    }
}

/// The number of the rule that decides: with first match the least that matches, and without the least that matches and lacks a
/// letter.
fn deciding(
    rules: &[Option<Rule>],
    first_match: bool,
    cred: &Cred,
    file: &FileView,
    wanted: u8,
) -> Option<usize>
    ensures { result ≡ spec.deciding first_match rules.now cred.now file.now wanted }
{
    if first_match {
        first_matching(rules, cred, file)
    } else {
        first_denying(rules, cred, file, wanted)
    }
}

/// The number of the first rule that matches.
fn first_matching(rules: &[Option<Rule>], cred: &Cred, file: &FileView) -> Option<usize>
    ensures { result ≡ position (is_match cred.now file.now) rules.now }
{
    rules.iter().position(|slot| is_match(slot, cred, file))
}

/// The number of the first rule that matches and lacks a letter.
fn first_denying(rules: &[Option<Rule>], cred: &Cred, file: &FileView, wanted: u8) -> Option<usize>
    ensures { result ≡ position
        (λ slot. is_match cred.now file.now slot && not (slot_gives wanted slot)) rules.now }
{
    rules
        .iter()
        .position(|slot| denies(slot, cred, file, wanted))
}

/// The rule with that number as the reason, unless it gives the letters.
fn slot_reason(slot: &Option<Rule>, number: u32, wanted: u8) -> Option<Reason>
    ensures { result ≡ spec.slot_reason slot.now number wanted }
{
    match slot {
        Some(rule) if !rule.gives(wanted) => Some(Reason::Rule {
            number,
            wanted,
            given: rule.mode,
        }),
        Some(_) | None => None,
    }
}

/// Whether the rule matches, and lacks a letter.
fn denies(slot: &Option<Rule>, cred: &Cred, file: &FileView, wanted: u8) -> bool
    ensures { result ≡ (is_match cred.now file.now slot.now && not (slot_gives wanted slot.now)) }
{
    is_match(slot, cred, file) && !gives(slot, wanted)
}

/// Whether there is a rule, and it matches.
fn is_match(slot: &Option<Rule>, cred: &Cred, file: &FileView) -> bool
    ensures { result ≡ is_match cred.now file.now slot.now }
{
    match slot {
        None => false,
        Some(rule) => rule.matches(cred, file),
    }
}

/// Whether the rule gives the letters, where there is one.
fn gives(slot: &Option<Rule>, wanted: u8) -> bool
    ensures { result ≡ slot_gives wanted slot.now }
{
    match slot {
        None => true,
        Some(rule) => rule.gives(wanted),
    }
}
