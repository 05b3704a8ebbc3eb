//! The dynamic list.
ghost use Rattle.std.specs.Prelude.{◌≡◌, ◌<◌, [], ◌∷◌, All, IfOk, OnErr, MatchOption, false, find, length, slice_index_or};
ghost use Rattle.std.specs.List.{remove};
ghost use Rattle.std.specs.Option.{option_copied};
ghost use Rattle.mf_policy.specs.Settings.{change_in};
ghost use Rattle.mf_policy.specs.IsChange.{IsChange};
ghost use Rattle.mf_policy.specs.Registration.{Entry, is_listed, is_of};
ghost use Rattle.mf_list.specs.Lists.{MayLeave};
ghost use Rattle.mf_list.specs.Once.{IsListedOnce};
ghost use Rattle.mf_list.specs.Places.{IsAbsent, IsEntryPlace};

use crate::entries::Entries;
use crate::listed_policy::ListedPolicy;
use mf_errno::Module;
use mf_policy::{Change, Changed, Policy};
use std::alloc::{AllocError, Global};
use std::marker::Model;

/// The dynamic list, newest first: policies that may leave it. A module is listed at most once. No call after `new` takes
/// memory for the list; a change of a setting takes what the policy wants.
#[derive(Drop)]
pub struct PolicyList<P: Policy> {
    entries: Entries<P>,
}

impl<P: Policy> Model for PolicyList<P> {
    ghost use Rattle.std.specs.Prelude.{All, List};
    ghost use Rattle.mf_policy.specs.Registration.{Entry};
    ghost use Rattle.mf_list.specs.Lists.{MayLeave};

    ghost Value = { List Entry };

    ghost view = { λ a. a.entries };

    ghost invariant = { λ a. All MayLeave a.entries };
}

impl<P: Policy> PolicyList<P> {
    /// No policies.
    pub fn new(alloc: Global) -> Result<PolicyList<P>, AllocError>
        ensures { IfOk result (λ list. list ≡ []) }
    {
        Ok(PolicyList {
            entries: Entries::new(alloc)?,
        })
    }

    /// That each of them may leave the list, for proofs.
    pub fn may_leave(&self)
        ensures { All MayLeave self.now }
    {
        let _ = &self.entries;
    }

    /// The number of policies.
    pub(crate) fn len(&self) -> usize
        ensures value { result ≡ length self.now }
        ensures once { IsListedOnce self.now }
        ensures may_leave { All MayLeave self.now }
    {
        self.entries.len()
    }

    /// Changes a setting of the module's policy. The result is ENOENT where the module isn't listed here. If memory runs
    /// out, the list is unchanged.
    pub fn change(
        &mut self,
        alloc: Global,
        module: Module,
        change: &Change,
    ) -> Result<Changed, AllocError>
        requires { IsChange change.now }
        ensures ok { IfOk result
            (λ changed. (changed, self.new) ≡ change_in «module» change.now self.old) }
        ensures err { OnErr result (self.new ≡ self.old) }
    {
        self.entries.change(alloc, module, change)
    }

    /// The policy at a place.
    pub(crate) fn policy(&self, place: usize) -> &ListedPolicy<P>
        requires { place < length self.now }
        ensures { (other : Entry) → result.now ≡ slice_index_or self.now place other }
    {
        self.entries.policy(place)
    }

    /// The module's policy, where it is listed here.
    pub(crate) fn find(&self, wanted: Module) -> Option<&ListedPolicy<P>>
        ensures { option_copied result ≡ find (is_of wanted) self.now }
    {
        self.entries.find(wanted)
    }

    /// Where the module's policy stands.
    pub(crate) fn place_of(&self, wanted: Module) -> Option<usize>
        ensures { MatchOption result (IsAbsent wanted self.now)
            (λ place. IsEntryPlace wanted self.now place) }
    {
        self.entries.place_of(wanted)
    }

    /// Puts a policy before the others.
    pub(crate) fn put(&mut self, listed: ListedPolicy<P>)
        requires may_leave { MayLeave listed }
        requires absent { is_listed listed.0.«module» self.old ≡ false }
        ensures { self.new ≡ listed ∷ self.old }
    {
        self.entries.put(listed);
    }

    /// Removes the policy at a place and returns it.
    pub(crate) fn take(&mut self, place: usize) -> ListedPolicy<P>
        requires { place < length self.old }
        ensures value { (other : Entry) → result ≡ slice_index_or self.old place other }
        ensures entries { self.new ≡ remove self.old place }
    {
        self.entries.take(place)
    }
}
