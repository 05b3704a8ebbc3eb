//! The policies that are not listed.
ghost use Rattle.std.specs.Prelude.{◌≡◌, ◌++◌, ◌∷◌, [], All, map, IsTrue, position, OnSome, IfSome, IfNone, IfOk, is_some, MatchOption, false};
ghost use Rattle.mf_errno.specs.Same.{same_module};
ghost use Rattle.mf_errno.specs.Names.{module_named};
ghost use Rattle.mf_policy.specs.Modules as facts;
ghost use Rattle.mf_list.specs.Once.{are_distinct};
ghost use Rattle.mf_list.specs.Lists.{in_catalogue};
ghost use Rattle.mf_list.specs.Fresh.{IsFresh};
ghost use Rattle.mf_list.specs.Places.{IsModulePlace};
ghost use Rattle.mf_list.specs.Registration.{is_known, modules_without};

use crate::fixed::Fixed;
use crate::listed::Listed;
use crate::policy_list::PolicyList;
use mf_errno::Module;
use mf_policy::{MOST_LISTED, Policy};
use std::alloc::AllocError;
use std::marker::Model;

/// The policies that aren't listed, each in its initial state, none twice. Contracts see their modules. No call after
/// `new` takes memory for it.
#[derive(Drop)]
pub struct Catalogue<P: Policy> {
    policies: Vec<P>,
}

impl<P: Policy> Model for Catalogue<P> {
    ghost use Rattle.std.specs.Prelude.{◌≤◌, List, map, All, vec_capacity};
    ghost use Rattle.mf_errno.specs.declared.module.Module.{Module};
    ghost use Rattle.mf_policy.specs.Modules.{module_of};
    ghost use Rattle.mf_policy.specs.declared.registration.TheConstants.{MOST_LISTED};
    ghost use Rattle.mf_list.specs.Fresh.{IsFresh};
    ghost use Rattle.mf_list.specs.Once.{AreDistinct};

    ghost Value = { List Module };

    ghost view = { λ a. map (λ p. module_of (P.spec p)) a.policies.items };

    ghost invariant = { λ a. All (λ p. IsFresh (P.spec p)) a.policies.items
        × AreDistinct (map (λ p. module_of (P.spec p)) a.policies.items)
        × (MOST_LISTED ≤ vec_capacity a.policies) };
}

impl<P: Policy> Catalogue<P> {
    /// A catalogue of these policies, with room for all modules.
    pub fn new(mut modules: Vec<P>) -> Result<Catalogue<P>, AllocError>
        requires distinct { IsTrue
            (are_distinct (map (λ p. facts.module_of (P.spec p)) modules.items)) }
        requires fresh { All (λ p. IsFresh (P.spec p)) modules.items }
        ensures { IfOk result
            (λ catalogue. catalogue ≡ map (λ p. facts.module_of (P.spec p)) modules.items) }
    {
        modules.reserve(MOST_LISTED)?;
        Ok(Catalogue { policies: modules })
    }

    /// Whether the lists or the catalogue have the module of that name.
    pub fn knows(&self, fixed: &Fixed<P>, list: &PolicyList<P>, name: &str) -> bool
        ensures { result ≡ is_known (module_named name.now) (fixed.now ++ list.now) self.now }
    {
        match Module::from_name(name) {
            Some(wanted) => Listed::new(fixed, list).holds(wanted) || self.holds(wanted),
            None => false,
        }
    }

    fn holds(&self, wanted: Module) -> bool
        ensures { result ≡ in_catalogue wanted self.now }
    {
        self.place_of(wanted).is_some()
    }

    fn place_of(&self, wanted: Module) -> Option<usize>
        ensures { MatchOption result (in_catalogue wanted self.now ≡ false)
            (λ place. IsModulePlace wanted self.now place) }
    {
        self.position_of(wanted)
    }

    fn position_of(&self, wanted: Module) -> Option<usize>
        ensures { result ≡ position (same_module wanted) self.now }
    {
        first_of(self.policies.as_slice(), wanted)
    }

    /// The module's policy, where it is here.
    pub(crate) fn policy(&self, wanted: Module) -> Option<&P>
        ensures variant { is_some result ≡ in_catalogue wanted self.now }
        ensures value { IfSome result (λ p. facts.module_of (P.spec p.now) ≡ wanted) }
    {
        let place = self.place_of(wanted)?;
        Some(&self.policies[place])
    }

    /// Adds a policy, which isn't here.
    pub(crate) fn put(&mut self, policy: P)
        requires fresh { IsFresh (P.spec policy) }
        requires absent { in_catalogue (facts.module_of (P.spec policy)) self.old ≡ false }
        ensures { self.new ≡ self.old ++ facts.module_of (P.spec policy) ∷ [] }
    {
        match self.policies.push(policy) {
            Ok(()) => {}
            Err(_) => unreachable!(),
        }
    }

    /// Removes the module's policy and returns it, where it is here.
    pub(crate) fn take(&mut self, wanted: Module) -> Option<P>
        ensures variant { is_some result ≡ in_catalogue wanted self.old }
        ensures value { IfSome result (λ p. P.spec p ≡ facts.fresh_of wanted) }
        ensures of { IfSome result (λ p. facts.module_of (P.spec p) ≡ wanted) }
        ensures modules { OnSome result (self.new ≡ modules_without wanted self.old) }
        ensures absent { IfNone result (self.new ≡ self.old) }
    {
        match self.place_of(wanted) {
            Some(place) => Some(self.policies.remove(place)),
            None => None,
        }
    }
}

/// The first place of the module.
fn first_of<P: Policy>(policies: &[P], wanted: Module) -> Option<usize>
    ensures { result ≡ position
        (λ p. same_module wanted (facts.module_of (P.spec p))) policies.now }
{
    policies.iter().position(|policy| is_of(policy, wanted))
}

fn is_of<P: Policy>(policy: &P, wanted: Module) -> bool
    ensures { result ≡ same_module wanted (facts.module_of (P.spec policy.now)) }
{
    wanted.is(policy.module())
}
