//! MLS: a subject may observe what it dominates, and modify what dominates it.
ghost use Rattle.std.specs.Prelude.{◌≡◌};
ghost use Rattle.mf_policy.specs.declared.spec.Spec.TheVariants as means;

use mf_cred::Cred;
use mf_elem::{Elem, RangeLabel, Request, dominates};
use mf_errno::{Errno, Module, Priv};
use mf_item::Item;
use mf_policy::{
    Change, Changed, Lattice, LoadFlags, Policy, Spec, credential_relabel, flags_of,
    lattice_answer, object_relabel, range_asked, wants_slot,
};
use std::alloc::{AllocError, Global};

/// The confidentiality policy of mac_mls(4): no information flows down, from a subject or object to one of lesser
/// sensitivity. It has no settings.
#[derive(Debug, Drop)]
pub struct Mls;

impl Mls {
    /// The policy in its initial state.
    pub fn new() -> Mls
        ensures { ⟦<Mls as Policy>⟧.spec result ≡ means.Mls }
    {
        Mls
    }
}

impl Policy for Mls {
    ghost spec = { λ _. means.Mls };

    fn module(&self) -> Module {
        Module::Mls
    }

    fn flags(&self) -> LoadFlags {
        flags_of(Module::Mls)
    }

    fn wants_slot(&self) -> bool {
        wants_slot(Module::Mls)
    }

    fn same(&self, other: &Spec) -> bool {
        matches!(other, Spec::Mls)
    }

    fn check(&self, slot: u8, item: &Item) -> Errno {
        lattice_answer::<Mls>(slot, item)
    }

    fn grant(&self, _cred: &Cred, _privilege: Priv) -> bool {
        false
    }

    fn change(&mut self, _alloc: Global, _change: &Change) -> Result<Changed, AllocError> {
        Ok(Changed::no_setting())
    }

    fn reset(&mut self) {}
}

impl Lattice for Mls {
    ghost use Rattle.mf_policy.specs.Answer.{mls};

    ghost lattice = { mls };

    fn may_observe(subject: &Elem, object: &Elem) -> bool {
        dominates(subject, object)
    }

    fn may_modify(subject: &Elem, object: &Elem) -> bool {
        dominates(object, subject)
    }

    fn part(request: &Request) -> Option<RangeLabel> {
        range_asked(Module::Mls, request)
    }

    fn guard_modules(_label: &RangeLabel) -> Errno {
        Errno::Success
    }

    fn relabel_credential(_subject: &Elem, label: &RangeLabel, asked: &RangeLabel) -> Errno {
        credential_relabel(label, asked)
    }

    fn relabel_object(
        _subject: &Elem,
        label: &RangeLabel,
        old: &Elem,
        asked: &RangeLabel,
    ) -> Errno {
        object_relabel(label, old, asked)
    }
}
