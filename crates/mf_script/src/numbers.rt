//! Readers of words that are numbers.
#![tactic(auto, unfolding(crate::specs::Readers::and_then))]

ghost use Rattle.std.specs.Str.{byte};
ghost use Rattle.mf_labeltext.specs.Reading.{parts};
ghost use Rattle.mf_script.specs.Gives.{Gives};
ghost use Rattle.mf_script.specs.Readers.{and_then};
ghost use Rattle.mf_script.specs.Parts.{fixed, field, word_by, number_to, number_of, rule_number_of, descriptor_of, port_of, mode_of, all_added, with_group, groups_of};

use crate::Words;
use crate::error::ScriptFault;
use crate::parts::{fixed, split_at};
use crate::refusal::{Refusal, faulty};
use mf_calls::{MODE_LIMIT, UID_MAX};
use mf_cred::{ArrayVec, MOST_GROUPS};
use mf_names::MOST_DESCRIPTORS;
use mf_rule::{LAST_PORT, MAX_RULES};
use mf_text::{read_number, read_octal};

/// A number of at most that.
#[tactic(auto, unfolding(crate::specs::Parts::number_to))]
fn number_to(word: &str, most: u32) -> Result<u32, Refusal>
    ensures { Gives (λ n. n) result (number_to most word.now) }
{
    match read_number(word, 0, most) {
        Ok(number) => Ok(number),
        Err(_) => Err(faulty(ScriptFault::BadNumber)),
    }
}

#[tactic(auto, unfolding(crate::specs::Parts::mode_of))]
fn mode_of(word: &str) -> Result<u16, Refusal>
    ensures { Gives (λ n. n) result (mode_of word.now) }
{
    match read_octal(word, u32::from(MODE_LIMIT)) {
        Ok(mode) => Ok(mode as u16),
        Err(_) => Err(faulty(ScriptFault::BadNumber)),
    }
}

fn number(words: &mut Words, most: u32) -> Result<u32, Refusal>
    ensures { Gives (λ n. (n, words.new)) result (word_by (number_to most) words.old) }
{
    match words.next() {
        None => Err(faulty(ScriptFault::Missing)),
        Some(word) => number_to(word, most),
    }
}

/// The number of a rule.
pub fn rule_number(words: &mut Words) -> Result<u32, Refusal>
    ensures { Gives (λ n. (n, words.new)) result (word_by rule_number_of words.old) }
{
    number(words, MAX_RULES - 1)
}

/// The number of a descriptor.
pub fn descriptor(words: &mut Words) -> Result<u32, Refusal>
    ensures { Gives (λ n. (n, words.new)) result (word_by descriptor_of words.old) }
{
    number(words, MOST_DESCRIPTORS - 1)
}

/// A uid or gid, behind the word that says which.
#[tactic(auto, unfolding(crate::specs::Parts::field, crate::specs::Readers::and_then))]
pub fn number_field(words: &mut Words, title: &str) -> Result<u32, Refusal>
    ensures { Gives (λ n. (n, words.new)) result (field title.now number_of words.old) }
{
    fixed(words, title)?;
    let value = number(words, UID_MAX)?;
    Ok(value)
}

#[tactic(auto, unfolding(crate::specs::Parts::with_group, crate::specs::Readers::and_then))]
fn add_group(groups: &mut ArrayVec<u32, MOST_GROUPS>, word: &str) -> Result<(), Refusal>
    ensures { Gives (λ u. groups.new) result (with_group groups.old word.now) }
{
    if groups.len() >= MOST_GROUPS {
        return Err(faulty(ScriptFault::BadNumber));
    }
    let group = number_to(word, UID_MAX)?;
    groups.push(group);
    Ok(())
}

/// Adds the groups of the word.
fn add_groups(groups: &mut ArrayVec<u32, MOST_GROUPS>, word: &str) -> Result<(), Refusal>
    ensures { Gives (λ u. groups.new) result
        (all_added with_group groups.old (parts (byte ",") word.now)) }
{
    let mut rest = word;
    while let Some((group, after)) = split_at(rest, ',') {
        match add_group(groups, group) {
            Err(error) => return Err(error),
            Ok(()) => rest = after,
        }
    }
    add_group(groups, rest)
}

#[tactic(auto, unfolding(crate::specs::Parts::groups_of))]
fn groups_of(word: &str) -> Result<ArrayVec<u32, MOST_GROUPS>, Refusal>
    ensures { Gives (λ groups. groups) result (groups_of word.now) }
{
    let mut groups = ArrayVec::new();
    add_groups(&mut groups, word)?;
    Ok(groups)
}

fn groups(words: &mut Words) -> Result<ArrayVec<u32, MOST_GROUPS>, Refusal>
    ensures { Gives (λ groups. (groups, words.new)) result (word_by groups_of words.old) }
{
    match words.next() {
        None => Err(faulty(ScriptFault::Missing)),
        Some(word) => groups_of(word),
    }
}

/// One or more gids, with a comma between each two, behind the word that says so.
#[tactic(auto, unfolding(crate::specs::Parts::field, crate::specs::Readers::and_then))]
pub fn groups_field(words: &mut Words, title: &str) -> Result<ArrayVec<u32, MOST_GROUPS>, Refusal>
    ensures { Gives (λ groups. (groups, words.new)) result (field title.now groups_of words.old) }
{
    fixed(words, title)?;
    let groups = groups(words)?;
    Ok(groups)
}

/// A file mode, in octal.
pub fn mode(words: &mut Words) -> Result<u16, Refusal>
    ensures { Gives (λ n. (n, words.new)) result (word_by mode_of words.old) }
{
    match words.next() {
        None => Err(faulty(ScriptFault::Missing)),
        Some(word) => mode_of(word),
    }
}

/// A file mode behind the word that says so.
#[tactic(auto, unfolding(crate::specs::Parts::field, crate::specs::Readers::and_then))]
pub fn mode_field(words: &mut Words, title: &str) -> Result<u16, Refusal>
    ensures { Gives (λ n. (n, words.new)) result (field title.now mode_of words.old) }
{
    fixed(words, title)?;
    let value = mode(words)?;
    Ok(value)
}

#[tactic(auto, unfolding(crate::specs::Parts::number_to))]
fn port_of(word: &str) -> Result<u16, Refusal>
    ensures { Gives (λ n. n) result (port_of word.now) }
{
    match read_number(word, 0, LAST_PORT) {
        Ok(port) => Ok(port as u16),
        Err(_) => Err(faulty(ScriptFault::BadNumber)),
    }
}

/// A port.
pub fn port(words: &mut Words) -> Result<u16, Refusal>
    ensures { Gives (λ n. (n, words.new)) result (word_by port_of words.old) }
{
    match words.next() {
        None => Err(faulty(ScriptFault::Missing)),
        Some(word) => port_of(word),
    }
}
