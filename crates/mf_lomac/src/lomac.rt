//! LOMAC: a subject may observe everything, and modify what it dominates.
ghost use Rattle.std.specs.Prelude.{◌≡◌};
ghost use Rattle.mf_policy.specs.Answer.{may_assign};
ghost use Rattle.mf_policy.specs.declared.spec.Spec.TheVariants as means;

use mf_cred::Cred;
use mf_elem::{Elem, RangeLabel, Request, dominates};
use mf_errno::{Errno, Module, Priv};
use mf_item::Item;
use mf_policy::{
    Change, Changed, Lattice, LoadFlags, Policy, Spec, errno_unless, flags_of, lattice_answer,
    range_asked, wants_slot,
};
use std::alloc::{AllocError, Global};

/// The low watermark integrity policy of mac_lomac(4): a subject of less integrity modifies nothing of greater. Labels are
/// grades without compartments, and without ranges. It has no settings.
#[derive(Debug, Drop)]
pub struct Lomac;

impl Lomac {
    /// The policy in its initial state.
    pub fn new() -> Lomac
        ensures { ⟦<Lomac as Policy>⟧.spec result ≡ means.Lomac }
    {
        Lomac
    }
}

impl Policy for Lomac {
    ghost spec = { λ _. means.Lomac };

    fn module(&self) -> Module {
        Module::Lomac
    }

    fn flags(&self) -> LoadFlags {
        flags_of(Module::Lomac)
    }

    fn wants_slot(&self) -> bool {
        wants_slot(Module::Lomac)
    }

    fn same(&self, other: &Spec) -> bool {
        matches!(other, Spec::Lomac)
    }

    fn check(&self, slot: u8, item: &Item) -> Errno {
        lattice_answer::<Lomac>(slot, item)
    }

    fn grant(&self, _cred: &Cred, _privilege: Priv) -> bool {
        false
    }

    fn change(&mut self, _alloc: Global, _change: &Change) -> Result<Changed, AllocError> {
        Ok(Changed::no_setting())
    }

    fn reset(&mut self) {}
}

impl Lattice for Lomac {
    ghost use Rattle.mf_policy.specs.Answer.{lomac};

    ghost lattice = { lomac };

    fn may_observe(_subject: &Elem, _object: &Elem) -> bool {
        true
    }

    fn may_modify(subject: &Elem, object: &Elem) -> bool {
        dominates(subject, object)
    }

    fn part(request: &Request) -> Option<RangeLabel> {
        range_asked(Module::Lomac, request)
    }

    fn guard_modules(_label: &RangeLabel) -> Errno {
        Errno::Success
    }

    fn relabel_credential(subject: &Elem, _label: &RangeLabel, asked: &RangeLabel) -> Errno {
        errno_unless(may_assign(subject, &asked.effective), Errno::Eperm)
    }

    fn relabel_object(
        subject: &Elem,
        _label: &RangeLabel,
        old: &Elem,
        asked: &RangeLabel,
    ) -> Errno {
        let may_give = dominates(subject, old) && may_assign(subject, &asked.effective);
        errno_unless(may_give, Errno::Eperm)
    }
}

/// Whether a subject may take or give an element: one that it dominates, and `equal` only where it is `equal` itself.
fn may_assign(subject: &Elem, asked: &Option<Elem>) -> bool
    ensures { result ≡ may_assign subject.now asked.now }
{
    match asked {
        None => true,
        Some(Elem::Equal) => matches!(subject, Elem::Equal),
        Some(asked) => dominates(subject, asked),
    }
}
