//! Readers of lists of rules.
#![tactic(auto)]

ghost use Rattle.std.specs.Prelude.{◌≡◌, ◌<◌, IfOk, MatchResult, true, length, map};
ghost use Rattle.mf_hist.specs.Reading.{IsRead, IsUnread, IsFront, Becomes, parts_added, by_semicolons, with_numbered_rule, rules_behind};

use crate::unread::Unread;
use crate::{Words, fields};
use mf_rule::{MAX_RULES, RuleList, read_rule};
use std::alloc::{AllocError, Global};

/// The rules behind semicolons, each under its number.
pub fn rules(alloc: Global, words: &mut Words) -> Result<RuleList, Unread>
    ensures { IsRead (λ rules. rules) result (rules_behind words.old) }
{
    let mut rules = RuleList::new(alloc)?;
    let mut more = words.next().is_some();
    while more {
        match add_next(alloc, &mut rules, words) {
            Err(unread) => return Err(unread),
            Ok(semicolon) => more = semicolon,
        }
    }
    Ok(rules)
}

/// Adds the rule in front of the next semicolon, and answers whether there is one.
fn add_next(alloc: Global, rules: &mut RuleList, words: &mut Words) -> Result<bool, Unread>
    ensures value { MatchResult result (λ more. Becomes more rules.new words.new
        (parts_added with_numbered_rule rules.old (by_semicolons words.old)))
        (λ unread. IsUnread unread (parts_added with_numbered_rule rules.old
        (by_semicolons words.old))) }
    ensures less { IfOk result (λ more. more ≡ true → length words.new < length words.old) }
{
    let (front, more) = up_to_semicolon(alloc, words)?;
    match add_rule(rules, front.as_slice()) {
        Err(unread) => Err(unread),
        Ok(()) => Ok(more),
    }
}

/// The words in front of the next semicolon, and whether there is one.
fn up_to_semicolon<'a>(
    alloc: Global,
    words: &mut Words<'a>,
) -> Result<(Vec<&'a str>, bool), AllocError>
    ensures { IfOk result (λ found. IsFront found.1
        (map (λ word. word.now) found.0.items) words.old words.new) }
{
    let mut front = Vec::new(alloc);
    while let Some(word) = words.next() {
        if word == ";" {
            return Ok((front, true));
        }
        front.push(word)?;
    }
    Ok((front, false))
}

/// Adds the rule behind its number.
#[tactic(auto, unfolding(crate::specs::Reading::with_numbered_rule))]
fn add_rule(rules: &mut RuleList, words: &[&str]) -> Result<(), Unread>
    ensures { IsRead (λ u. rules.new) result (with_numbered_rule rules.old
        (map (λ word. word.now) words.now)) }
{
    let (number, words) = words.split_first().ok_or(Unread::NoLine)?;
    let number = fields::number_in_word(number, u32::MAX)?;
    if number >= MAX_RULES {
        return Err(Unread::NoLine);
    }
    match read_rule(words) {
        Err(_) => Err(Unread::NoLine),
        Ok(rule) => {
            rules.set(number, rule)?;
            Ok(())
        }
    }
}
