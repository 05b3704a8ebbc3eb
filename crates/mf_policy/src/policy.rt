//! The interface of a policy module, modelled on the MAC Framework's entry points (mac(9)).
ghost use Rattle.std.specs.Prelude.{◌≡◌, ◌<◌, ◌↔◌, IsTrue, IfOk, OnErr};
ghost use Rattle.mf_policy.specs.Answer.{answer, grants};
ghost use Rattle.mf_policy.specs.LoadFlags.{flags_of};
ghost use Rattle.mf_policy.specs.Modules as facts;
ghost use Rattle.mf_policy.specs.Settings.{change_of};
ghost use Rattle.mf_policy.specs.IsChange.{IsChange};

use crate::{Change, Changed, LoadFlags, Spec};
use mf_cred::Cred;
use mf_elem::SLOTS;
use mf_errno::{Errno, Module, Priv};
use mf_item::Item;
use std::alloc::{AllocError, Global};

/// A policy module. Its `spec` determines every answer that it gives.
pub trait Policy: Send + Sync + Drop {
    ghost use Rattle.mf_policy.specs.declared.spec.Spec.{Spec};

    ghost spec: { Self → Spec };

    /// The module.
    fn module(&self) -> Module
        ensures { result ≡ facts.module_of (spec self.now) };

    /// When the module may be loaded and unloaded.
    fn flags(&self) -> LoadFlags
        ensures { result ≡ flags_of (facts.module_of (spec self.now)) };

    /// Whether the module labels entities, and so has a label slot.
    fn wants_slot(&self) -> bool
        ensures { result ≡ facts.wants_slot (facts.module_of (spec self.now)) };

    /// Whether the policy's spec is `other`.
    fn same(&self, other: &Spec) -> bool
        ensures { IsTrue result ↔ (spec self.now ≡ other.now) };

    /// The answer to an item. The slot is the policy's own, and isn't looked at where the module has none.
    fn check(&self, slot: u8, item: &Item) -> Errno
        requires { IsTrue (facts.wants_slot (facts.module_of (spec self.now))) → slot < SLOTS }
        ensures { result ≡ answer (spec self.now) slot item.now };

    /// Whether the policy grants the privilege to a process of that credential, as the kernel's `mac_priv_grant` asks.
    fn grant(&self, cred: &Cred, privilege: Priv) -> bool
        ensures { result ≡ grants (spec self.now) cred.now privilege };

    /// Changes a setting. A policy without that setting returns ENOENT. If memory runs out, the policy is unchanged.
    fn change(&mut self, alloc: Global, change: &Change) -> Result<Changed, AllocError>
        requires { IsChange change.now }
        ensures ok { IfOk result (λ changed.
            (changed, spec self.new) ≡ change_of (spec self.old) change.now) }
        ensures err { OnErr result (spec self.new ≡ spec self.old) };

    /// Puts every setting back to its value at load time.
    fn reset(&mut self)
        ensures { spec self.new ≡ facts.fresh_of (facts.module_of (spec self.old)) };
}

impl Policy for Box<dyn Policy + Send + Sync> {
    ghost spec = { λ policy. (Policy-box policy).spec policy.value };

    fn module(&self) -> Module {
        (**self).module()
    }

    fn flags(&self) -> LoadFlags {
        (**self).flags()
    }

    fn wants_slot(&self) -> bool {
        (**self).wants_slot()
    }

    fn same(&self, other: &Spec) -> bool {
        (**self).same(other)
    }

    fn check(&self, slot: u8, item: &Item) -> Errno {
        (**self).check(slot, item)
    }

    fn grant(&self, cred: &Cred, privilege: Priv) -> bool {
        (**self).grant(cred, privilege)
    }

    fn change(&mut self, alloc: Global, change: &Change) -> Result<Changed, AllocError> {
        (**self).change(alloc, change)
    }

    fn reset(&mut self) {
        (**self).reset()
    }
}
