//! Reading the words of a rule.
ghost use Rattle.std.specs.Prelude.{◌≡◌, ◌↔◌, if◌then◌else◌, Err, Ok, IfOk, ◌<◌, ◌^◌, ◌+◌, length, map};
ghost use Rattle.mf_rule.specs.Reading as spec;
ghost use Rattle.mf_rule.specs.RuleGrammar.{SpellsRule, IsRule};
ghost use Rattle.mf_rule.specs.RoundTrip.{IsInBounds};
ghost use Rattle.mf_rule.specs.declared.rule.Rule.{Rule};
ghost use Rattle.mf_rule.specs.declared.begun.Next.TheVariants as next;
ghost use Rattle.mf_rule.specs.declared.fault.RuleFault.TheVariants.{UnknownWord};

use crate::begun::{Begun, Next, Part};
use crate::fault::RuleFault;
use crate::rule::{IdTest, Rule, Side, TypeTest};
use crate::values::{read_mode, read_range, read_types};

fn reads_on(next: Next, rule: Rule) -> Result<Begun, RuleFault>
    ensures { result ≡ spec.reads_on next rule }
{
    Ok(Begun { next, rule })
}

/// The rule that these words of ugidfw(8) stand for, or their first fault.
pub fn read_rule(words: &[&str]) -> Result<Rule, RuleFault>
    ensures value { result ≡ spec.rule_in (map (λ word. word.now) words.now) }
    ensures spells { (rule : Rule) → (result ≡ Ok rule)
        ↔ SpellsRule (map (λ word. word.now) words.now) rule }
    ensures formed { IfOk result (λ rule. IsRule rule × IsInBounds rule) }
{
    read_words(words)
}

#[tactic(auto, unfolding(crate::specs::Reading::rule_in))]
fn read_words(words: &[&str]) -> Result<Rule, RuleFault>
    ensures { result ≡ spec.rule_in (map (λ word. word.now) words.now) }
{
    let mut begun = Begun::nothing();
    for (place, word) in words.iter().enumerate() {
        begun = match with_word(place, &begun, word) {
            Ok(more) => more,
            Err(fault) => return Err(fault),
        };
    }
    whole(words.len(), &begun)
}

fn whole(place: usize, begun: &Begun) -> Result<Rule, RuleFault>
    ensures { result ≡ spec.whole place begun.now.next begun.now.rule }
{
    match begun.next {
        Next::End => Ok(begun.rule),
        _ => Err(RuleFault::Missing(place)),
    }
}

/// The rule so far with the word of this number added.
#[tactic(auto, unfolding(crate::specs::Reading::fitted))]
fn with_word(place: usize, begun: &Begun, word: &str) -> Result<Begun, RuleFault>
    ensures { result ≡ spec.with_word place begun.now word.now }
{
    match begun.next {
        Next::Start => start(place, begun.rule, word),
        Next::First(part) => first(place, part, begun.rule, word),
        Next::Test(part) => tested(place, part, begun.rule, word),
        Next::Name(part) => test_named(place, part, true, begun.rule, word),
        Next::Uid(part, not) => with_ids(place, part, false, not, begun.rule, word),
        Next::Gid(part, not) => with_ids(place, part, true, not, begun.rule, word),
        Next::Types(not) => with_types(place, not, begun.rule, word),
        Next::Letters => with_letters(place, begun.rule, word),
        Next::End => Err(RuleFault::UnknownWord(place)),
    }
}

#[tactic(auto, unfolding(crate::specs::Reading::fitted))]
fn start(place: usize, rule: Rule, word: &str) -> Result<Begun, RuleFault>
    ensures { result ≡ spec.fitted place next.Start rule word.now }
{
    if word == "subject" {
        reads_on(Next::First(Part::Subject), rule)
    } else {
        Err(RuleFault::UnknownWord(place))
    }
}

#[tactic(auto, unfolding(crate::specs::Reading::fitted))]
fn first(place: usize, part: Part, rule: Rule, word: &str) -> Result<Begun, RuleFault>
    ensures { result ≡ spec.fitted place (next.First part) rule word.now }
{
    if word != "not" {
        return tested(place, part, rule, word);
    }
    let mut side = rule.side(part);
    side.not = true;
    with_side(part, rule, side)
}

fn closing_word(part: Part) -> &'static str
    ensures { result.now ≡ spec.closing_word part }
{
    match part {
        Part::Subject => "object",
        Part::Object => "mode",
    }
}

fn behind(part: Part) -> Next
    ensures { result ≡ spec.behind part }
{
    match part {
        Part::Subject => Next::First(Part::Object),
        Part::Object => Next::Letters,
    }
}

#[tactic(auto, unfolding(crate::specs::Reading::tested))]
fn tested(place: usize, part: Part, rule: Rule, word: &str) -> Result<Begun, RuleFault>
    ensures { result ≡ spec.tested place part rule word.now }
{
    if word == "!" {
        reads_on(Next::Name(part), rule)
    } else if word == closing_word(part) {
        reads_on(behind(part), rule)
    } else {
        test_named(place, part, false, rule, word)
    }
}

/// What comes behind a test's name, unless that test was there before.
fn once(place: usize, is_there: bool, next: Next, rule: Rule) -> Result<Begun, RuleFault>
    ensures { result ≡ (if is_there then Err (UnknownWord place) else spec.reads_on next rule) }
{
    if is_there {
        return Err(RuleFault::UnknownWord(place));
    }
    reads_on(next, rule)
}

#[tactic(auto, unfolding(crate::specs::Reading::test_named))]
fn test_named(
    place: usize,
    part: Part,
    not: bool,
    rule: Rule,
    word: &str,
) -> Result<Begun, RuleFault>
    ensures { result ≡ spec.test_named place part not rule word.now }
{
    let side = rule.side(part);
    if word == "uid" {
        once(place, side.uid.is_some(), Next::Uid(part, not), rule)
    } else if word == "gid" {
        once(place, side.gid.is_some(), Next::Gid(part, not), rule)
    } else if part == Part::Object {
        file_test(place, not, rule, word)
    } else {
        Err(RuleFault::UnknownWord(place))
    }
}

#[tactic(auto, unfolding(crate::specs::Reading::file_test))]
fn file_test(place: usize, not: bool, rule: Rule, word: &str) -> Result<Begun, RuleFault>
    ensures { result ≡ spec.file_test place not rule word.now }
{
    let mut more = rule;
    let test = Next::Test(Part::Object);
    if word == "suid" {
        more.object.suid = Some(!not);
        once(place, rule.object.suid.is_some(), test, more)
    } else if word == "sgid" {
        more.object.sgid = Some(!not);
        once(place, rule.object.sgid.is_some(), test, more)
    } else if word == "uid_of_subject" {
        more.object.uid_of_subject = Some(!not);
        once(place, rule.object.uid_of_subject.is_some(), test, more)
    } else if word == "gid_of_subject" {
        more.object.gid_of_subject = Some(!not);
        once(place, rule.object.gid_of_subject.is_some(), test, more)
    } else if word == "type" {
        once(place, rule.object.types.is_some(), Next::Types(not), rule)
    } else {
        Err(RuleFault::UnknownWord(place))
    }
}

/// The rule so far with this side in place of the part's.
fn with_side(part: Part, rule: Rule, side: Side) -> Result<Begun, RuleFault>
    ensures { result ≡ spec.reads_on (next.Test part) (spec.with_side part rule side) }
{
    let mut more = rule;
    more.set_side(part, side);
    reads_on(Next::Test(part), more)
}

/// The rule so far with the value of a test, of gids or of uids.
#[tactic(auto, unfolding(crate::specs::Reading::fitted))]
fn with_ids(
    place: usize,
    part: Part,
    gids: bool,
    not: bool,
    rule: Rule,
    word: &str,
) -> Result<Begun, RuleFault>
    ensures { result
        ≡ spec.fitted place (if gids then next.Gid part not else next.Uid part not) rule word.now }
{
    let Some((least, greatest)) = read_range(word) else {
        return Err(RuleFault::BadRange(place));
    };
    let mut side = rule.side(part);
    let test = IdTest {
        not,
        least,
        greatest,
    };
    if gids {
        side.gid = Some(test);
    } else {
        side.uid = Some(test);
    }
    with_side(part, rule, side)
}

#[tactic(auto, unfolding(crate::specs::Reading::fitted))]
fn with_types(place: usize, not: bool, rule: Rule, word: &str) -> Result<Begun, RuleFault>
    ensures { result ≡ spec.fitted place (next.Types not) rule word.now }
{
    let Some(types) = read_types(word) else {
        return Err(RuleFault::BadType(place));
    };
    let mut more = rule;
    more.object.types = Some(TypeTest { not, types });
    reads_on(Next::Test(Part::Object), more)
}

#[tactic(auto, unfolding(crate::specs::Reading::fitted))]
fn with_letters(place: usize, rule: Rule, word: &str) -> Result<Begun, RuleFault>
    ensures { result ≡ spec.fitted place next.Letters rule word.now }
{
    let Some(mode) = read_mode(word) else {
        return Err(RuleFault::BadMode(place));
    };
    let mut more = rule;
    more.mode = mode;
    reads_on(Next::End, more)
}
