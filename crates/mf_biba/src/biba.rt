//! Biba: a subject may observe what dominates it, and modify what it dominates.
ghost use Rattle.std.specs.Prelude.{◌≡◌, false};
ghost use Rattle.mf_policy.specs.declared.spec.Spec.TheVariants as means;

use mf_cred::Cred;
use mf_elem::{Elem, RangeLabel, Request, dominates, privileged};
use mf_errno::{Errno, Module, Priv};
use mf_item::Item;
use mf_policy::{
    Change, Changed, Lattice, LoadFlags, Policy, Spec, change_revocation, credential_relabel,
    errno_unless, flags_of, is_transfer, lattice_answer, object_relabel, range_asked, wants_slot,
};
use std::alloc::{AllocError, Global};

/// The integrity policy of mac_biba(4): no information flows up, from a subject or object to one of greater integrity. Its
/// setting is whether it tests each transfer of bytes through an open file, and not its opening alone.
#[derive(Debug, Drop)]
pub struct Biba {
    revocation: bool,
}

impl Biba {
    /// The policy in its initial state.
    pub fn new() -> Biba
        ensures { ⟦<Biba as Policy>⟧.spec result ≡ means.Biba false }
    {
        Biba { revocation: false }
    }
}

impl Policy for Biba {
    ghost spec = { λ policy. means.Biba policy.revocation };

    fn module(&self) -> Module {
        Module::Biba
    }

    fn flags(&self) -> LoadFlags {
        flags_of(Module::Biba)
    }

    fn wants_slot(&self) -> bool {
        wants_slot(Module::Biba)
    }

    fn same(&self, other: &Spec) -> bool {
        match other {
            Spec::Biba { revocation } => self.revocation == *revocation,
            _ => false,
        }
    }

    fn check(&self, slot: u8, item: &Item) -> Errno {
        if is_transfer(item.op()) && !self.revocation {
            return Errno::Success;
        }
        lattice_answer::<Biba>(slot, item)
    }

    fn grant(&self, _cred: &Cred, _privilege: Priv) -> bool {
        false
    }

    fn change(&mut self, _alloc: Global, change: &Change) -> Result<Changed, AllocError> {
        Ok(change_revocation(&mut self.revocation, change))
    }

    fn reset(&mut self) {
        self.revocation = false;
    }
}

impl Lattice for Biba {
    ghost use Rattle.mf_policy.specs.Answer.{biba};

    ghost lattice = { biba };

    fn may_observe(subject: &Elem, object: &Elem) -> bool {
        dominates(object, subject)
    }

    fn may_modify(subject: &Elem, object: &Elem) -> bool {
        dominates(subject, object)
    }

    fn part(request: &Request) -> Option<RangeLabel> {
        range_asked(Module::Biba, request)
    }

    fn guard_modules(label: &RangeLabel) -> Errno {
        errno_unless(privileged(label), Errno::Eperm)
    }

    fn relabel_credential(_subject: &Elem, label: &RangeLabel, asked: &RangeLabel) -> Errno {
        credential_relabel(label, asked)
    }

    fn relabel_object(
        _subject: &Elem,
        label: &RangeLabel,
        old: &Elem,
        asked: &RangeLabel,
    ) -> Errno {
        object_relabel(label, old, asked)
    }
}
