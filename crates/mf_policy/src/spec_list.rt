//! The listed registrations with the specs of their policies.
ghost use Rattle.std.specs.Prelude.{◌≡◌, ◌<◌, ◌≤◌, [], nat_eq, find, length, option_map, position, slice_index_or, slice_set, IfOk, OnOk, OnErr};
ghost use Rattle.std.specs.List.{insert, position_or_len};
ghost use Rattle.mf_policy.specs.Registration.{Entry, entries_without, holds_slot, is_listed, is_of, slot_in, spec_in, with_newest};
ghost use Rattle.mf_policy.specs.Dynamic.{is_dynamic};
ghost use Rattle.mf_policy.specs.Lowering.{lomac_slot};
ghost use Rattle.mf_policy.specs.Settings.{change_in, listed_rules};
ghost use Rattle.mf_policy.specs.IsChange.{IsChange};
ghost use Rattle.std.specs.Option.{option_copied};

use crate::{Change, Changed, Registration, Spec};
use mf_errno::Module;
use mf_rule::RuleList;
use std::alloc::{AllocError, Global};
use std::marker::Model;

/// The registrations of policies, each with the policy's spec.
#[derive(Drop)]
pub struct SpecList {
    entries: Vec<(Registration, Spec)>,
}

impl Model for SpecList {
    ghost use Rattle.std.specs.Prelude.{List};
    ghost use Rattle.mf_policy.specs.Registration.{Entry};

    ghost Value = { List Entry };

    ghost view = { λ list. list.entries.items };
}

impl SpecList {
    /// No entries.
    pub fn new(alloc: Global) -> SpecList
        ensures { result ≡ [] }
    {
        SpecList {
            entries: Vec::new(alloc),
        }
    }

    /// The number of entries.
    pub fn len(&self) -> usize
        ensures { result ≡ length self.now }
    {
        self.entries.len()
    }

    /// Whether there are no entries.
    pub fn is_empty(&self) -> bool
        ensures { result ≡ nat_eq (length self.now) 0 }
    {
        self.entries.is_empty()
    }

    /// The registration at a place.
    pub fn registration(&self, place: usize) -> Registration
        requires { place < length self.now }
        ensures { (other : Entry) → result ≡ (slice_index_or self.now place other).0 }
    {
        self.entries[place].0
    }

    /// The spec at a place.
    pub fn spec(&self, place: usize) -> &Spec
        requires { place < length self.now }
        ensures { (other : Entry) → result.now ≡ (slice_index_or self.now place other).1 }
    {
        &self.entries[place].1
    }

    /// Whether the module is listed.
    pub fn is_listed(&self, module: Module) -> bool
        ensures { result ≡ is_listed «module» self.now }
    {
        lists(&self.entries, module)
    }

    /// The first place of the module; None where it isn't listed.
    pub fn find(&self, module: Module) -> Option<usize>
        ensures { result ≡ position (is_of «module») self.now }
    {
        place_in(&self.entries, module)
    }

    /// The listed module that holds the slot.
    pub fn holder(&self, slot: u8) -> Option<Module>
        ensures { result
            ≡ option_map (λ entry. entry.0.«module») (find (holds_slot slot) self.now) }
    {
        holder_in(&self.entries, slot)
    }

    /// Replaces the spec at a place.
    pub fn put(&mut self, place: usize, spec: Spec)
        requires { place < length self.old }
        ensures len { length self.new ≡ length self.old }
        ensures entries { (other : Entry) → self.new
            ≡ slice_set self.old place ((slice_index_or self.old place other).0, spec) }
    {
        self.entries[place].1 = spec;
    }

    /// What a change of a setting of the module's policy would be answered. The errno is ENOENT where the module isn't listed.
    pub fn answer_to(&self, module: Module, change: &Change) -> Changed
        ensures { result ≡ (change_in «module» change.now self.now).0 }
    {
        match entry_of(&self.entries, module) {
            Some(entry) => entry.1.answer_to(change),
            None => Changed::no_setting(),
        }
    }

    /// Changes a setting of the module's policy. The errno is ENOENT where the module isn't listed. If memory runs out, the
    /// list is unchanged.
    pub fn change(
        &mut self,
        alloc: Global,
        module: Module,
        change: &Change,
    ) -> Result<Changed, AllocError>
        requires { IsChange change.now }
        ensures ok { IfOk result (λ changed.
            (changed, self.new) ≡ change_in «module» change.now self.old) }
        ensures err { OnErr result (self.new ≡ self.old) }
    {
        match self.find(module) {
            Some(place) => self.entries[place].1.change(alloc, change),
            None => Ok(Changed::no_setting()),
        }
    }

    /// The rules about files, where mac_bsdextended is listed.
    pub fn rules(&self) -> Option<&RuleList>
        ensures { option_copied result ≡ listed_rules self.now }
    {
        match entry_of(&self.entries, Module::Bsdextended) {
            Some(entry) => entry.1.rules(),
            None => None,
        }
    }

    /// The spec of the module's policy, where it is listed.
    pub fn spec_of(&self, module: Module) -> Option<&Spec>
        ensures { option_copied result ≡ spec_in «module» self.now }
    {
        match entry_of(&self.entries, module) {
            Some(entry) => Some(&entry.1),
            None => None,
        }
    }

    /// The label slot of the module, where it is listed and has one.
    pub fn slot_in(&self, module: Module) -> Option<u8>
        ensures { result ≡ slot_in «module» self.now }
    {
        match entry_of(&self.entries, module) {
            Some(entry) => entry.0.slot,
            None => None,
        }
    }

    /// The label slot of mac_lomac, where it is listed.
    pub fn lomac_slot(&self) -> Option<u8>
        ensures { result ≡ lomac_slot self.now }
    {
        self.slot_in(Module::Lomac)
    }

    /// Inserts an entry before a place, or at the end. If memory runs out, the list is unchanged.
    pub fn insert(
        &mut self,
        place: usize,
        registration: Registration,
        spec: Spec,
    ) -> Result<(), AllocError>
        requires { place ≤ length self.old }
        ensures ok { OnOk result (self.new ≡ insert self.old place (registration, spec)) }
        ensures err { OnErr result (self.new ≡ self.old) }
    {
        self.entries.insert(place, (registration, spec))?;
        Ok(())
    }

    /// Lists the policy as the newest of the static or of the dynamic list. If memory runs out, the list is unchanged.
    pub fn list(&mut self, registration: Registration, spec: Spec) -> Result<(), AllocError>
        ensures ok { OnOk result (self.new ≡ with_newest (registration, spec) self.old) }
        ensures err { OnErr result (self.new ≡ self.old) }
    {
        let place = place_for(&self.entries, registration.fixed);
        self.insert(place, registration, spec)
    }

    /// Takes the module off the list, where it is listed.
    pub fn unlist(&mut self, module: Module)
        ensures { self.new ≡ entries_without «module» self.old }
    {
        if let Some(place) = self.find(module) {
            let _left = self.entries.remove(place);
        }
    }

    /// A copy.
    pub fn copy(&self, alloc: Global) -> Result<SpecList, AllocError>
        ensures { IfOk result (λ copy. copy ≡ self.now) }
    {
        let mut copy = SpecList::new(alloc);
        for (registration, spec) in &self.entries {
            copy.insert(copy.len(), *registration, spec.copy(alloc)?)?;
        }
        Ok(copy)
    }
}

fn lists(entries: &[(Registration, Spec)], module: Module) -> bool
    ensures { result ≡ is_listed «module» entries.now }
{
    entries.iter().any(|entry| module.is(entry.0.module))
}

/// The module's entry.
fn entry_of(entries: &[(Registration, Spec)], module: Module) -> Option<&(Registration, Spec)>
    ensures { option_copied result ≡ find (is_of «module») entries.now }
{
    entries.iter().find(|entry| module.is(entry.0.module))
}

fn place_in(entries: &[(Registration, Spec)], module: Module) -> Option<usize>
    ensures { result ≡ position (is_of «module») entries.now }
{
    entries.iter().position(|entry| module.is(entry.0.module))
}

/// The place of a new entry: the front of the static list, or of the dynamic one.
fn place_for(entries: &[(Registration, Spec)], fixed: bool) -> usize
    ensures within { result ≤ length entries.now }
    ensures place { (entry : Entry) → entry.0.fixed ≡ fixed
        → insert entries.now result entry ≡ with_newest entry entries.now }
{
    if fixed { 0 } else { static_len(entries) }
}

/// The length of the static list.
fn static_len(entries: &[(Registration, Spec)]) -> usize
    ensures value { result ≡ position_or_len is_dynamic entries.now }
    ensures within { result ≤ length entries.now }
{
    match first_dynamic(entries) {
        Some(place) => place,
        None => entries.len(),
    }
}

fn first_dynamic(entries: &[(Registration, Spec)]) -> Option<usize>
    ensures { result ≡ position is_dynamic entries.now }
{
    entries.iter().position(|entry| !entry.0.fixed)
}

fn holder_in(entries: &[(Registration, Spec)], slot: u8) -> Option<Module>
    ensures { result ≡ option_map (λ entry. entry.0.«module») (find (holds_slot slot) entries.now) }
{
    let holder = entries.iter().find(|entry| entry.0.slot == Some(slot));
    holder.map(|entry| entry.0.module)
}
