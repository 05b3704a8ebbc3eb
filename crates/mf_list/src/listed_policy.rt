//! A policy in a list.
ghost use Rattle.std.specs.Prelude.{◌≡◌, IsTrue, ◌↔◌, IfOk, OnErr};
ghost use Rattle.mf_policy.specs.LoadFlags.{flags_of};
ghost use Rattle.mf_policy.specs.Modules as facts;
ghost use Rattle.mf_policy.specs.Registration.{is_of};
ghost use Rattle.mf_policy.specs.Settings.{change_of};
ghost use Rattle.mf_policy.specs.IsChange.{IsChange};
ghost use Rattle.mf_list.specs.Asked.{answer_of, grant_of};
ghost use Rattle.mf_list.specs.Lists.{IsEntry};

use mf_errno::{Errno, Module};
use mf_item::Item;
use mf_policy::{Change, Changed, LoadFlags, Policy, Registration, Spec};
use std::alloc::{AllocError, Global};
use std::marker::Model;

/// A policy with its registration. Contracts see the registration and the policy's spec.
#[derive(Drop)]
pub struct ListedPolicy<P: Policy> {
    registration: Registration,
    policy: P,
}

impl<P: Policy> Model for ListedPolicy<P> {
    ghost use Rattle.mf_policy.specs.Registration.{Entry};
    ghost use Rattle.mf_list.specs.Lists.{IsEntry};

    ghost Value = { Entry };

    ghost view = { λ a. (a.registration, P.spec a.policy) };

    ghost invariant = { λ a. IsEntry (a.registration, P.spec a.policy) };
}

impl<P: Policy> ListedPolicy<P> {
    /// The policy with this registration.
    pub fn new(registration: Registration, policy: P) -> ListedPolicy<P>
        requires { IsEntry (registration, P.spec policy) }
        ensures { result ≡ (registration, P.spec policy) }
    {
        ListedPolicy {
            registration,
            policy,
        }
    }

    /// How it is registered.
    pub fn registration(&self) -> Registration
        ensures value { result ≡ self.now.0 }
        ensures entry { IsEntry self.now }
    {
        self.registration
    }

    /// Whether it is the policy of `wanted`.
    pub fn is_of(&self, wanted: Module) -> bool
        ensures { result ≡ is_of wanted self.now }
    {
        wanted.is(self.registration.module)
    }

    /// The flags of its module.
    pub fn flags(&self) -> LoadFlags
        ensures { result ≡ flags_of self.now.0.«module» }
    {
        self.policy.flags()
    }

    /// Whether its module labels entities, and so has a label slot.
    pub fn wants_slot(&self) -> bool
        ensures { result ≡ facts.wants_slot self.now.0.«module» }
    {
        self.policy.wants_slot()
    }

    /// Whether its registration and its spec are these.
    pub fn is(&self, registration: Registration, spec: &Spec) -> bool
        ensures { IsTrue result ↔ (self.now ≡ (registration, spec.now)) }
    {
        self.registration == registration && self.policy.same(spec)
    }

    /// The policy's answer to an item.
    pub fn check(&self, item: &Item) -> Errno
        ensures { result ≡ answer_of item.now self.now }
    {
        let slot = self.registration.slot.unwrap_or(0);
        self.policy.check(slot, item)
    }

    /// Whether the policy grants the privilege that the item asks for.
    pub fn grants(&self, item: &Item) -> bool
        ensures { result ≡ grant_of item.now.privilege item.now.subject.cred self.now }
    {
        match item.privilege() {
            Some(privilege) => self.policy.grant(&item.subject().cred, privilege),
            None => false,
        }
    }

    /// Changes a setting of the policy.
    pub fn change(&mut self, alloc: Global, change: &Change) -> Result<Changed, AllocError>
        requires { IsChange change.now }
        ensures registration { self.new.0 ≡ self.old.0 }
        ensures ok { IfOk result
            (λ changed. (changed, self.new.1) ≡ change_of self.old.1 change.now) }
        ensures err { OnErr result (self.new ≡ self.old) }
    {
        self.policy.change(alloc, change)
    }

    /// The policy, put back into its initial state.
    pub fn into_fresh(self) -> P
        ensures fresh { P.spec result ≡ facts.fresh_of self.0.«module» }
        ensures of { facts.module_of (P.spec result) ≡ self.0.«module» }
    {
        let ListedPolicy {
            registration: _,
            mut policy,
        } = self;
        policy.reset();
        policy
    }
}
