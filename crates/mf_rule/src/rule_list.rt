//! Rule lists, and their verdict.
ghost use Rattle.std.specs.Prelude.{◌≡◌, ◌↔◌, ◌<◌, ◌≤◌, ℕ, IsTrue, true, false, Some, None, length, not, ◌||◌, position, replicate, slice_index_or, slice_set, IfOk, OnOk, OnErr, MatchResult};
ghost use Rattle.std.specs.Option.{is_none};
ghost use Rattle.mf_rule.specs.Candidates.{may_match, candidates, decided};
ghost use Rattle.mf_rule.specs.RuleList as spec;
ghost use Rattle.mf_rule.specs.UidIndex.{AreCandidates, IsCutAround, is_within, lone, rules_at};
ghost use Rattle.mf_rule.specs.declared.rule.Rule.{Rule};

use crate::Rule;
use crate::rule::{IdTest, LAST_ID};
use crate::rule_bits::{Bits, RuleBits};
use crate::uid_index::UidIndex;
use mf_cred::{Cred, FileView};
use std::alloc::{AllocError, Global};
use std::marker::Model;

/// The most rules of a list; their numbers are below it.
pub const MAX_RULES: u32 = 250;

/// The refusal to remove a rule where the number is unused.
#[derive(Clone, Copy, Debug, PartialEq, Eq)]
pub struct NoRule;

/// The rules of mac_bsdextended(4), each with a number below `MAX_RULES`. Contracts see, from number 0 on, the rule of each
/// number, or None. Room for all of them is taken when the list is made; a rule that is put in takes memory for the indexes
/// alone.
#[derive(Drop)]
pub struct RuleList {
    slots: Vec<Option<Rule>>,
    /// Every slot from this one on is free, so that a copy and a comparison look at those before it alone.
    used: usize,
    /// Which rules may match a subject of a uid, and a file that is no directory.
    files: UidIndex,
    /// The same, and a directory.
    directories: UidIndex,
}

impl Model for RuleList {
    ghost use Rattle.std.specs.Prelude.{◌≡◌, ◌≤◌, ℕ, true, false, None, length, slice_index_or};
    ghost use Rattle.mf_rule.specs.RuleList.{Slots};
    ghost use Rattle.mf_rule.specs.UidIndex.{IsIndexOf};
    ghost use Rattle.mf_rule.specs.declared.rule_list.TheConstants.{MAX_RULES};

    ghost Value = { Slots };

    ghost view = { λ list. list.slots.items };

    ghost invariant = { λ list. (length list.slots.items ≡ MAX_RULES) × (list.used ≤ MAX_RULES)
        × ((number : ℕ) → list.used ≤ number → slice_index_or list.slots.items number None ≡ None)
        × IsIndexOf list.slots.items false list.files
        × IsIndexOf list.slots.items true list.directories };
}

impl RuleList {
    /// No rules.
    pub fn new(alloc: Global) -> Result<RuleList, AllocError>
        ensures { IfOk result (λ list. list ≡ replicate MAX_RULES None) }
    {
        let slots = free_slots(alloc)?;
        Ok(RuleList {
            slots,
            used: 0,
            files: UidIndex::new(alloc),
            directories: UidIndex::new(alloc),
        })
    }

    /// Adds a rule under the lowest number that is free, and answers with it; where none is free, nothing changes.
    pub fn add(&mut self, rule: Rule) -> Result<Option<u32>, AllocError>
        ensures number { IfOk result (λ number. number ≡ position is_none self.old) }
        ensures ok { IfOk result (λ number. self.new ≡ spec.slots_with rule number self.old) }
        ensures err { OnErr result (self.new ≡ self.old) }
    {
        let Some(number) = first_free(&self.slots) else {
            return Ok(None);
        };
        let number = number as u32;
        self.set(number, rule)?;
        Ok(Some(number))
    }

    /// The lowest number that is free.
    pub fn free(&self) -> Option<u32>
        ensures { result ≡ position is_none self.now }
    {
        let number = first_free(&self.slots)?;
        Some(number as u32)
    }

    /// Puts a rule under a number, in place of the one that it has.
    pub fn set(&mut self, number: u32, rule: Rule) -> Result<(), AllocError>
        requires { number < MAX_RULES }
        ensures ok { OnOk result (self.new ≡ slice_set self.old number (Some rule)) }
        ensures err { OnErr result (self.new ≡ self.old) }
    {
        let (of_files, of_directories) = (rule.reach(false), rule.reach(true));
        cut_both(
            &mut self.files,
            &mut self.directories,
            &of_files,
            &of_directories,
        )?;
        let place = number as usize;
        let old = self.slots[place];
        self.files.replace(number, &reach(&old, false), &of_files);
        self.directories
            .replace(number, &reach(&old, true), &of_directories);
        self.slots[place] = Some(rule);
        self.used = self.used.max(place + 1);
        Ok(())
    }

    /// Takes the rule of a number away.
    pub fn remove(&mut self, number: u32) -> Result<(), NoRule>
        ensures { MatchResult result
            (λ u. (is_none (slice_index_or self.old number None) ≡ false)
            × (self.new ≡ slice_set self.old number None))
            (λ e. (is_none (slice_index_or self.old number None) ≡ true) × (self.new ≡ self.old)) }
    {
        let Some(rule) = self.get(number) else {
            return Err(NoRule);
        };
        self.files.replace(number, &rule.reach(false), &None);
        self.directories.replace(number, &rule.reach(true), &None);
        self.slots[number as usize] = None;
        self.used = end_of_rules(&self.slots[..self.used]);
        Ok(())
    }

    /// The rule of a number.
    pub fn get(&self, number: u32) -> Option<Rule>
        ensures { result ≡ slice_index_or self.now number None }
    {
        if number < MAX_RULES {
            self.slots[number as usize]
        } else {
            None
        }
    }

    /// The rule of each number, or None, from number 0 on.
    pub fn as_slice(&self) -> &[Option<Rule>]
        ensures value { result.now ≡ self.now }
        ensures len { length self.now ≡ MAX_RULES }
    {
        self.slots.as_slice()
    }

    /// Takes all rules away.
    pub fn clear(&mut self)
        ensures { self.new ≡ replicate MAX_RULES None }
    {
        while self.used > 0 {
            self.used -= 1;
            self.slots[self.used] = None;
        }
        self.files.clear();
        self.directories.clear();
    }

    /// Whether the two have the same rules.
    pub fn same(&self, other: &RuleList) -> bool
        ensures { IsTrue result ↔ (self.now ≡ other.now) }
    {
        let used = self.used.max(other.used);
        same_slots(&self.slots[..used], &other.slots[..used])
    }

    /// A copy.
    pub fn copy(&self, alloc: Global) -> Result<RuleList, AllocError>
        ensures { IfOk result (λ copy. copy ≡ self.now) }
    {
        let mut slots = Vec::with_capacity(alloc, MAX_RULES as usize)?;
        slots.extend_from_slice(&self.slots[..self.used])?;
        slots.resize(MAX_RULES as usize, None)?;
        Ok(RuleList {
            slots,
            used: self.used,
            files: self.files.copy(alloc)?,
            directories: self.directories.copy(alloc)?,
        })
    }

    /// The numbers of the rules that may match, by their tests of the subject's uids and of the type alone. It takes no
    /// memory.
    pub fn candidates(&self, cred: &Cred, dir: bool) -> RuleBits
        ensures { result ≡ candidates self.now cred.now dir }
    {
        RuleBits::of(self.candidate_bits(cred, dir))
    }

    fn candidate_bits(&self, cred: &Cred, dir: bool) -> Bits
        ensures { AreCandidates self.now cred.now dir result }
    {
        let (uid, ruid, svuid) = (cred.uid, cred.ruid, cred.svuid);
        if dir {
            self.directories.at_any(uid, ruid, svuid)
        } else {
            self.files.at_any(uid, ruid, svuid)
        }
    }

    /// Whether the rules let the subject do what these letters stand for to the file. It looks at the candidates alone.
    pub fn verdict(&self, first_match: bool, cred: &Cred, file: &FileView, wanted: u8) -> bool
        ensures { result ≡ spec.verdict first_match self.now cred.now file.now wanted }
    {
        let candidates = self.candidate_bits(cred, file.dir);
        by_candidates(&self.slots, candidates, first_match, cred, file, wanted)
    }
}

/// Cuts both indexes around the uids of a rule, which changes nothing.
fn cut_both(
    files: &mut UidIndex,
    directories: &mut UidIndex,
    of_files: &Option<IdTest>,
    of_directories: &Option<IdTest>,
) -> Result<(), AllocError>
    ensures files { (uid : ℕ) → rules_at files.new uid ≡ rules_at files.old uid }
    ensures directories { (uid : ℕ) → rules_at directories.new uid ≡ rules_at directories.old uid }
    ensures cuts { IfOk result (λ u. IsCutAround of_files.now files.new
        × IsCutAround of_directories.now directories.new) }
{
    files.cut_around(of_files)?;
    directories.cut_around(of_directories)
}

/// The uids of the subjects that the rule of a slot may match with a directory, or with another file, if any.
fn reach(slot: &Option<Rule>, dir: bool) -> Option<IdTest>
    ensures { (uid : ℕ) → uid ≤ LAST_ID → may_match (lone uid) dir slot.now ≡ is_within result uid }
{
    match slot {
        None => None,
        Some(rule) => rule.reach(dir),
    }
}

fn free_slots(alloc: Global) -> Result<Vec<Option<Rule>>, AllocError>
    ensures { IfOk result (λ slots. slots.items ≡ replicate MAX_RULES None) }
{
    let mut slots = Vec::with_capacity(alloc, MAX_RULES as usize)?;
    slots.resize(MAX_RULES as usize, None)?;
    Ok(slots)
}

fn first_free(slots: &[Option<Rule>]) -> Option<usize>
    ensures { result ≡ position is_none slots.now }
{
    slots.iter().position(|slot| slot.is_none())
}

/// The number behind the last rule, or 0 where there is none.
fn end_of_rules(slots: &[Option<Rule>]) -> usize
    ensures bound { result ≤ length slots.now }
    ensures rest { (number : ℕ) → result ≤ number → slice_index_or slots.now number None ≡ None }
{
    let mut end = slots.len();
    while end > 0 && slots[end - 1].is_none() {
        end -= 1;
    }
    end
}

fn is_match(slot: &Option<Rule>, cred: &Cred, file: &FileView) -> bool
    ensures { result ≡ spec.is_match cred.now file.now slot.now }
{
    match slot {
        None => false,
        Some(rule) => rule.matches(cred, file),
    }
}

fn slot_gives(slot: &Option<Rule>, wanted: u8) -> bool
    ensures { result ≡ spec.slot_gives wanted slot.now }
{
    match slot {
        None => true,
        Some(rule) => rule.gives(wanted),
    }
}

/// What the rule of a slot decides, if it matches: with first match whatever it gives, and without only that it doesn't give
/// the letters.
fn decision(
    slot: &Option<Rule>,
    first_match: bool,
    cred: &Cred,
    file: &FileView,
    wanted: u8,
) -> Option<bool>
    ensures { result ≡ decided first_match (spec.is_match cred.now file.now slot.now)
        (spec.slot_gives wanted slot.now) }
{
    let is_match = is_match(slot, cred, file);
    let gives = slot_gives(slot, wanted);
    if is_match && (first_match || !gives) {
        Some(gives)
    } else {
        None
    }
}

/// The first rule that decides, by the numbers of those that may match.
fn by_candidates(
    slots: &[Option<Rule>],
    mut candidates: Bits,
    first_match: bool,
    cred: &Cred,
    file: &FileView,
    wanted: u8,
) -> bool
    requires len { length slots.now ≡ MAX_RULES }
    requires candidates { AreCandidates slots.now cred.now file.now.dir candidates }
    ensures { result ≡ spec.verdict first_match slots.now cred.now file.now wanted }
{
    while let Some(number) = candidates.take_least() {
        let slot = &slots[number as usize];
        if let Some(gives) = decision(slot, first_match, cred, file, wanted) {
            return gives;
        }
    }
    true
}

fn same_slot(slot: &Option<Rule>, other: &Option<Rule>) -> bool
    ensures { IsTrue result ↔ (slot.now ≡ other.now) }
{
    match (slot, other) {
        (None, None) => true,
        (Some(rule), Some(theirs)) => rule.same(theirs),
        _ => false,
    }
}

fn same_slots(slots: &[Option<Rule>], others: &[Option<Rule>]) -> bool
    requires { length slots.now ≡ length others.now }
    ensures { IsTrue result ↔ (slots.now ≡ others.now) }
{
    for (number, slot) in slots.iter().enumerate() {
        if !same_slot(slot, &others[number]) {
            return false;
        }
    }
    true
}
