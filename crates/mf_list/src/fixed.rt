//! The static list.
ghost use Rattle.std.specs.Prelude.{◌≡◌, ◌<◌, [], ◌∷◌, All, IfOk, OnErr, false, find, length, slice_index_or};
ghost use Rattle.std.specs.Option.{option_copied};
ghost use Rattle.mf_policy.specs.IsChange.{IsChange};
ghost use Rattle.mf_policy.specs.Registration.{Entry, is_listed, is_of};
ghost use Rattle.mf_policy.specs.Settings.{change_in};
ghost use Rattle.mf_list.specs.Lists.{IsPinned};
ghost use Rattle.mf_list.specs.Once.{IsListedOnce};

use crate::entries::Entries;
use crate::listed_policy::ListedPolicy;
use mf_errno::Module;
use mf_policy::{Change, Changed, Policy};
use std::alloc::{AllocError, Global};
use std::marker::Model;

/// The static list, newest first: policies that were listed before the end of boot and lack UNLOADOK, so that none leaves
/// it. A module is listed at most once. No call after `new` takes memory for it.
#[derive(Drop)]
pub struct Fixed<P: Policy> {
    entries: Entries<P>,
}

impl<P: Policy> Model for Fixed<P> {
    ghost use Rattle.std.specs.Prelude.{All, List};
    ghost use Rattle.mf_policy.specs.Registration.{Entry};
    ghost use Rattle.mf_list.specs.Lists.{IsPinned};

    ghost Value = { List Entry };

    ghost view = { λ a. a.entries };

    ghost invariant = { λ a. All IsPinned a.entries };
}

impl<P: Policy> Fixed<P> {
    /// No policies.
    pub fn new(alloc: Global) -> Result<Fixed<P>, AllocError>
        ensures { IfOk result (λ fixed. fixed ≡ []) }
    {
        Ok(Fixed {
            entries: Entries::new(alloc)?,
        })
    }

    /// That none of them leaves the list, for proofs.
    pub fn are_pinned(&self)
        ensures { All IsPinned self.now }
    {
        let _ = &self.entries;
    }

    /// The number of policies.
    pub(crate) fn len(&self) -> usize
        ensures value { result ≡ length self.now }
        ensures once { IsListedOnce self.now }
        ensures pinned { All IsPinned self.now }
    {
        self.entries.len()
    }

    /// Changes a setting of the module's policy. The result is ENOENT where the module isn't listed here, or its policy has no
    /// such setting. If memory runs out, the list is unchanged.
    pub fn set(
        &mut self,
        alloc: Global,
        module: Module,
        change: &Change,
    ) -> Result<Changed, AllocError>
        requires { IsChange change.now }
        ensures ok { IfOk result
            (λ changed. (changed, self.new) ≡ change_in «module» change.now self.old) }
        ensures err { OnErr result (self.new ≡ self.old) }
    {
        self.entries.change(alloc, module, change)
    }

    /// The policy at a place.
    pub(crate) fn policy(&self, place: usize) -> &ListedPolicy<P>
        requires { place < length self.now }
        ensures { (other : Entry) → result.now ≡ slice_index_or self.now place other }
    {
        self.entries.policy(place)
    }

    /// The module's policy, where it is listed here.
    pub(crate) fn find(&self, wanted: Module) -> Option<&ListedPolicy<P>>
        ensures { option_copied result ≡ find (is_of wanted) self.now }
    {
        self.entries.find(wanted)
    }

    /// Puts a policy before the others.
    pub(crate) fn put(&mut self, listed: ListedPolicy<P>)
        requires pinned { IsPinned listed }
        requires absent { is_listed listed.0.«module» self.old ≡ false }
        ensures { self.new ≡ listed ∷ self.old }
    {
        self.entries.put(listed);
    }
}
