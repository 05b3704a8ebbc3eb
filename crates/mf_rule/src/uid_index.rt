//! Indexes of rules by uids of subjects.
ghost use Rattle.std.specs.Prelude.{◌≡◌, ◌==◌, ◌≤◌, ◌<◌, ◌||◌, ℕ, [], length, if◌then◌else◌, map, slice_index_or, true, IfOk};
ghost use Rattle.mf_rule.specs.RuleBits.{has_bit};
ghost use Rattle.mf_rule.specs.UidIndex as spec;

use crate::rule::{IdTest, LAST_ID};
use crate::rule_bits::Bits;
use std::alloc::{AllocError, Global};
use std::marker::Model;

/// Uids from the first on, as far as the next stretch, and the numbers of the rules that may match a subject of one of
/// them.
#[derive(Clone, Copy)]
pub struct Stretch {
    pub from: u32,
    pub rules: Bits,
}

/// For each uid the numbers of the rules that may match a subject who has it. Contracts see the stretches, by rising first
/// uid; in front of the first one no rule may match. Where a stretch begins is a cut.
#[derive(Drop)]
pub struct UidIndex {
    stretches: Vec<Stretch>,
}

impl Model for UidIndex {
    ghost use Rattle.std.specs.Prelude.{List};
    ghost use Rattle.mf_rule.specs.UidIndex.{Stretches, AreByUid};

    ghost Value = { Stretches };

    ghost view = { λ index. index.stretches.items };

    ghost invariant = { λ index. AreByUid index.stretches.items };
}

impl UidIndex {
    /// No rule may match anybody.
    pub fn new(alloc: Global) -> UidIndex
        ensures { result ≡ [] }
    {
        UidIndex {
            stretches: Vec::new(alloc),
        }
    }

    /// A copy.
    pub fn copy(&self, alloc: Global) -> Result<UidIndex, AllocError>
        ensures { IfOk result (λ copy. copy ≡ self.now) }
    {
        let mut stretches = Vec::with_capacity(alloc, self.stretches.len())?;
        stretches.extend_from_slice(&self.stretches)?;
        Ok(UidIndex { stretches })
    }

    /// Takes all rules out. The room stays.
    pub fn clear(&mut self)
        ensures { self.new ≡ [] }
    {
        self.stretches.clear();
    }

    /// The rules that may match a subject of the uid.
    pub fn at(&self, uid: u32) -> Bits
        ensures { result ≡ spec.rules_at self.now uid }
    {
        self.rules_before(self.end(uid))
    }

    /// The rules that may match a subject who has these uids.
    pub fn at_any(&self, uid: u32, ruid: u32, svuid: u32) -> Bits
        ensures { (n : ℕ) → has_bit n result
            ≡ (has_bit n (spec.rules_at self.now uid) || has_bit n (spec.rules_at self.now ruid)
            || has_bit n (spec.rules_at self.now svuid)) }
    {
        let rules = self.at(uid);
        if ruid == uid && svuid == uid {
            return rules;
        }
        rules.or(&self.at(ruid)).or(&self.at(svuid))
    }

    /// How many stretches begin at the uid or below.
    fn end(&self, uid: u32) -> usize
        ensures { spec.IsEnd uid result self.now }
    {
        self.stretches
            .partition_point(|stretch| stretch.from <= uid)
    }

    /// The rules of the last stretch before this place.
    fn rules_before(&self, place: usize) -> Bits
        requires { place ≤ length self.now }
        ensures { result ≡ spec.rules_before self.now place }
    {
        if place == 0 {
            Bits::none()
        } else {
            self.stretches[place - 1].rules
        }
    }

    /// Cuts at the first uid of the range, and behind its last one. Cuts change nothing, so that nothing has to be undone
    /// where memory runs out.
    pub fn cut_around(&mut self, range: &Option<IdTest>) -> Result<(), AllocError>
        ensures rules { (uid : ℕ) → spec.rules_at self.new uid ≡ spec.rules_at self.old uid }
        ensures cuts { IfOk result (λ u. spec.IsCutAround range.now self.new) }
    {
        if let Some(range) = range {
            self.cut(range.least)?;
            if range.greatest < LAST_ID {
                self.cut(range.greatest + 1)?;
            }
        }
        Ok(())
    }

    /// Cuts a stretch in two, where none begins at the uid.
    fn cut(&mut self, uid: u32) -> Result<(), AllocError>
        ensures rules { (other : ℕ) → spec.rules_at self.new other ≡ spec.rules_at self.old other }
        ensures cut { IfOk result (λ u. spec.is_cut uid self.new ≡ true) }
        ensures cuts { (other : ℕ) → spec.is_cut other self.old ≡ true
            → spec.is_cut other self.new ≡ true }
    {
        let end = self.end(uid);
        if end > 0 && self.stretches[end - 1].from == uid {
            return Ok(());
        }
        let rules = self.rules_before(end);
        self.stretches.insert(end, Stretch { from: uid, rules })?;
        Ok(())
    }

    /// Puts a number at the uids of the range, and takes it away from those where it was.
    pub fn replace(&mut self, number: u32, old: &Option<IdTest>, range: &Option<IdTest>)
        requires number { number < 256 }
        requires cuts { spec.IsCutAround range.now self.old }
        ensures { (uid n : ℕ) → uid ≤ LAST_ID → n < 256
            → has_bit n (spec.rules_at self.new uid)
            ≡ (if n == number then spec.is_within range.now uid
            else has_bit n (spec.rules_at self.old uid)) }
    {
        self.mark(number, range);
        self.join_around(old);
    }

    /// Puts a number at the uids of the range, and takes it away from all others.
    fn mark(&mut self, number: u32, range: &Option<IdTest>)
        requires number { number < 256 }
        requires cuts { spec.IsCutAround range.now self.old }
        ensures { (uid n : ℕ) → uid ≤ LAST_ID → n < 256
            → has_bit n (spec.rules_at self.new uid)
            ≡ (if n == number then spec.is_within range.now uid
            else has_bit n (spec.rules_at self.old uid)) }
    {
        mark_all(&mut self.stretches, number, range);
    }

    /// Drops the cuts at the first uid of the range and behind its last one, if they part the same rules from each other.
    fn join_around(&mut self, range: &Option<IdTest>)
        ensures { (uid : ℕ) → spec.rules_at self.new uid ≡ spec.rules_at self.old uid }
    {
        if let Some(range) = range {
            self.join(range.least);
            if range.greatest < LAST_ID {
                self.join(range.greatest + 1);
            }
        }
    }

    /// Joins the stretch of the uid with the one before, if the two have the same rules.
    fn join(&mut self, uid: u32)
        ensures { (other : ℕ) → spec.rules_at self.new other ≡ spec.rules_at self.old other }
    {
        let end = self.end(uid);
        if end > 0 && self.stretches[end - 1].rules == self.rules_before(end - 1) {
            self.stretches.remove(end - 1);
        }
    }
}

fn mark_all(stretches: &mut Vec<Stretch>, number: u32, range: &Option<IdTest>)
    requires { number < 256 }
    ensures { stretches.new.items ≡ map (spec.stretch_with number range.now) stretches.old.items }
{
    for stretch in stretches.iter_mut() {
        let is_in = is_within(range, stretch.from);
        stretch.rules.put(number, is_in);
    }
}

fn is_within(range: &Option<IdTest>, uid: u32) -> bool
    ensures { result ≡ spec.is_within range.now uid }
{
    match range {
        None => false,
        Some(range) => range.has(uid),
    }
}
