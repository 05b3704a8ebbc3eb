//! The listed policies in walk order.
ghost use Rattle.std.specs.Prelude.{◌≡◌, ◌<◌, ◌≤◌, ◌++◌, ◌↔◌, IsTrue, IfSome, find, is_some, length, map, slice_index_or};
ghost use Rattle.std.specs.Option.{option_copied};
ghost use Rattle.mf_policy.specs.Registration.{Entry, is_listed, is_of};

use crate::fixed::Fixed;
use crate::listed_policy::ListedPolicy;
use crate::policy_list::PolicyList;
use mf_cred::ArrayVec;
use mf_errno::Module;
use mf_policy::{MOST_LISTED, Policy, Registration, SpecList};
use std::marker::Model;

/// The listed policies, lent. Contracts see the entries in walk order: those of the static list before those of the
/// dynamic one.
#[derive(Drop)]
pub struct Listed<'a, P: Policy> {
    fixed: &'a Fixed<P>,
    dynamic: &'a PolicyList<P>,
}

impl<'a, P: Policy> Model for Listed<'a, P> {
    ghost use Rattle.std.specs.Prelude.{◌++◌, List};
    ghost use Rattle.mf_policy.specs.Registration.{Entry};

    ghost Value = { List Entry };

    ghost view = { λ a. a.fixed.now ++ a.dynamic.now };
}

impl<'a, P: Policy> Listed<'a, P> {
    /// The policies of the static and of the dynamic list.
    pub fn new(fixed: &'a Fixed<P>, dynamic: &'a PolicyList<P>) -> Listed<'a, P>
        ensures entries { result ≡ fixed.now ++ dynamic.now }
    {
        Listed { fixed, dynamic }
    }

    /// The registrations in walk order.
    pub fn listed(&self) -> ArrayVec<Registration, MOST_LISTED>
        ensures { result ≡ map (λ entry. entry.0) self.now }
    {
        let mut registrations = ArrayVec::new();
        for place in 0..self.len() {
            registrations.push(self.policy(place).registration());
        }
        registrations
    }

    /// Whether the registrations with their specs, in walk order, are these.
    pub fn same_specs(&self, specs: &SpecList) -> bool
        ensures { IsTrue result ↔ (self.now ≡ specs.now) }
    {
        if self.len() != specs.len() {
            return false;
        }
        for place in 0..specs.len() {
            if !self.agrees_at(specs, place) {
                return false;
            }
        }
        true
    }

    fn agrees_at(&self, specs: &SpecList, place: usize) -> bool
        requires listed { place < length self.now }
        requires given { place < length specs.now }
        ensures { (other : Entry) → IsTrue result
            ↔ (slice_index_or self.now place other ≡ slice_index_or specs.now place other) }
    {
        self.policy(place)
            .is(specs.registration(place), specs.spec(place))
    }

    /// The number of policies.
    pub(crate) fn len(&self) -> usize
        ensures value { result ≡ length self.now }
        ensures few { length self.now ≤ MOST_LISTED }
    {
        self.fixed.len() + self.dynamic.len()
    }

    /// The policy at a place of the walk.
    pub(crate) fn policy(&self, place: usize) -> &ListedPolicy<P>
        requires { place < length self.now }
        ensures { (other : Entry) → result.now ≡ slice_index_or self.now place other }
    {
        let statics = self.fixed.len();
        if place < statics {
            self.fixed.policy(place)
        } else {
            self.dynamic.policy(place - statics)
        }
    }

    /// The module's policy, where it is listed.
    pub(crate) fn find(&self, wanted: Module) -> Option<&ListedPolicy<P>>
        ensures value { option_copied result ≡ find (is_of wanted) self.now }
        ensures variant { is_some result ≡ is_listed wanted self.now }
        ensures of { IfSome result (λ policy. policy.now.0.«module» ≡ wanted) }
    {
        match self.fixed.find(wanted) {
            Some(policy) => Some(policy),
            None => self.dynamic.find(wanted),
        }
    }

    /// Whether the module is listed.
    pub(crate) fn holds(&self, wanted: Module) -> bool
        ensures { result ≡ is_listed wanted self.now }
    {
        self.find(wanted).is_some()
    }
}
