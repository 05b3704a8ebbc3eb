//! Listed policies, newest first.
ghost use Rattle.std.specs.Prelude.{◌≡◌, ◌+◌, ◌<◌, ◌≤◌, [], ◌∷◌, length, OnErr, IfOk, false, MatchOption, find, position, slice_index_or};
ghost use Rattle.std.specs.List.{remove};
ghost use Rattle.std.specs.Option.{option_copied};
ghost use Rattle.mf_policy.specs.Settings.{change_in};
ghost use Rattle.mf_policy.specs.IsChange.{IsChange};
ghost use Rattle.mf_policy.specs.Registration.{Entry, is_listed, is_of};
ghost use Rattle.mf_list.specs.Once.{IsListedOnce};
ghost use Rattle.mf_list.specs.Places.{IsAbsent, IsEntryPlace};

use crate::listed_policy::ListedPolicy;
use mf_errno::Module;
use mf_policy::{Change, Changed, MOST_LISTED, Policy};
use std::alloc::{AllocError, Global};
use std::marker::Model;

/// Listed policies, the newest first, no module twice, with room for all modules.
#[derive(Drop)]
pub struct Entries<P: Policy> {
    policies: Vec<ListedPolicy<P>>,
}

impl<P: Policy> Model for Entries<P> {
    ghost use Rattle.std.specs.Prelude.{◌≤◌, List, vec_capacity};
    ghost use Rattle.mf_policy.specs.Registration.{Entry};
    ghost use Rattle.mf_policy.specs.declared.registration.TheConstants.{MOST_LISTED};
    ghost use Rattle.mf_list.specs.Once.{IsListedOnce};

    ghost Value = { List Entry };

    ghost view = { λ a. a.policies.items };

    ghost invariant = { λ a. IsListedOnce a.policies.items
        × (MOST_LISTED ≤ vec_capacity a.policies) };
}

impl<P: Policy> Entries<P> {
    /// No policies.
    pub fn new(alloc: Global) -> Result<Entries<P>, AllocError>
        ensures { IfOk result (λ entries. entries ≡ []) }
    {
        Ok(Entries {
            policies: Vec::with_capacity(alloc, MOST_LISTED)?,
        })
    }

    /// How many they are.
    pub fn len(&self) -> usize
        ensures value { result ≡ length self.now }
        ensures once { IsListedOnce self.now }
    {
        self.policies.len()
    }

    /// The policy at a place.
    pub fn policy(&self, place: usize) -> &ListedPolicy<P>
        requires { place < length self.now }
        ensures { (other : Entry) → result.now ≡ slice_index_or self.now place other }
    {
        &self.policies[place]
    }

    /// The module's policy, where it is listed.
    pub fn find(&self, wanted: Module) -> Option<&ListedPolicy<P>>
        ensures { option_copied result ≡ find (is_of wanted) self.now }
    {
        self.policies.iter().find(|policy| policy.is_of(wanted))
    }

    /// Where the module's policy stands.
    pub fn place_of(&self, wanted: Module) -> Option<usize>
        ensures { MatchOption result (IsAbsent wanted self.now)
            (λ place. IsEntryPlace wanted self.now place) }
    {
        self.position_of(wanted)
    }

    fn position_of(&self, wanted: Module) -> Option<usize>
        ensures { result ≡ position (is_of wanted) self.now }
    {
        self.policies.iter().position(|policy| policy.is_of(wanted))
    }

    /// Puts a policy before the others.
    pub fn put(&mut self, listed: ListedPolicy<P>)
        requires { is_listed listed.0.«module» self.old ≡ false }
        ensures { self.new ≡ listed ∷ self.old }
    {
        match self.policies.insert(0, listed) {
            Ok(()) => {}
            Err(_) => unreachable!(),
        }
    }

    /// Removes the policy at a place and returns it.
    pub fn take(&mut self, place: usize) -> ListedPolicy<P>
        requires { place < length self.old }
        ensures value { (other : Entry) → result ≡ slice_index_or self.old place other }
        ensures entries { self.new ≡ remove self.old place }
    {
        self.policies.remove(place)
    }

    /// Changes a setting of the module's policy. The result is ENOENT where the module isn't listed. If memory runs
    /// out, nothing is changed.
    pub fn change(
        &mut self,
        alloc: Global,
        module: Module,
        change: &Change,
    ) -> Result<Changed, AllocError>
        requires { IsChange change.now }
        ensures ok { IfOk result
            (λ changed. (changed, self.new) ≡ change_in «module» change.now self.old) }
        ensures err { OnErr result (self.new ≡ self.old) }
    {
        match self.place_of(module) {
            Some(place) => self.policies[place].change(alloc, change),
            None => Ok(Changed::no_setting()),
        }
    }
}
