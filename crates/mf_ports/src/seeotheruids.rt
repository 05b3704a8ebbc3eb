//! Whose processes a subject sees: those of its own real uid, and by the settings those of more users.
ghost use Rattle.std.specs.Prelude.{◌≡◌, slice_index_or};
ghost use Rattle.mf_errno.specs.declared.module.Module.TheVariants as modules;
ghost use Rattle.mf_policy.specs.Modules.{fresh_of};
ghost use Rattle.mf_policy.specs.Ports as spec;
ghost use Rattle.mf_policy.specs.declared.spec.Spec.TheVariants as means;

use mf_cred::{Cred, FileView};
use mf_errno::{Errno, Module, Priv};
use mf_item::{CheckOp, Item};
use mf_policy::{
    Change, Changed, LoadFlags, Policy, Spec, change_see, errno_unless, flags_of, wants_slot,
};
use std::alloc::{AllocError, Global};

/// The policy of mac_seeotheruids(4): a subject doesn't see the processes of other users, and does nothing to them. It
/// labels nothing. Its settings say who sees more: by the primary group, by one group whose members see all, and root.
#[derive(Debug, Drop)]
pub struct Seeotheruids {
    primarygroup: bool,
    specific: bool,
    gid: u32,
    suser: bool,
}

impl Seeotheruids {
    /// The policy in its initial state: root sees all processes, and others those of their own real uid alone.
    pub fn new() -> Seeotheruids
        ensures { ⟦<Seeotheruids as Policy>⟧.spec result ≡ fresh_of modules.Seeotheruids }
    {
        Seeotheruids {
            primarygroup: false,
            specific: false,
            gid: 0,
            suser: true,
        }
    }

    /// Whether the subject sees a process with that real uid and that first group.
    fn may_see(&self, subject: &Cred, process: &FileView) -> bool
        ensures { result
            ≡ spec.may_see self.now.primarygroup self.now.specific self.now.gid self.now.suser
            subject.now process.now }
    {
        subject.ruid == process.uid
            || (self.primarygroup && first_group(subject) == process.gid)
            || (self.specific && subject.in_group(self.gid))
            || (self.suser && subject.is_root())
    }
}

impl Policy for Seeotheruids {
    ghost spec = { λ policy.
        means.Seeotheruids policy.primarygroup policy.specific policy.gid policy.suser };

    fn module(&self) -> Module {
        Module::Seeotheruids
    }

    fn flags(&self) -> LoadFlags {
        flags_of(Module::Seeotheruids)
    }

    fn wants_slot(&self) -> bool {
        wants_slot(Module::Seeotheruids)
    }

    fn same(&self, other: &Spec) -> bool {
        match other {
            Spec::Seeotheruids {
                primarygroup,
                specific,
                gid,
                suser,
            } => {
                self.primarygroup == *primarygroup
                    && self.specific == *specific
                    && self.gid == *gid
                    && self.suser == *suser
            }
            _ => false,
        }
    }

    fn check(&self, _slot: u8, item: &Item) -> Errno {
        if !is_on_process(item.op()) {
            return Errno::Success;
        }
        let subject = &item.subject().cred;
        let sees = match item.object() {
            Some(process) => self.may_see(subject, &process.file),
            None => self.may_see(subject, &FileView::default()),
        };
        errno_unless(sees, Errno::Esrch)
    }

    fn grant(&self, _cred: &Cred, _privilege: Priv) -> bool {
        false
    }

    fn change(&mut self, _alloc: Global, change: &Change) -> Result<Changed, AllocError> {
        Ok(change_see(
            &mut self.primarygroup,
            &mut self.specific,
            &mut self.gid,
            &mut self.suser,
            change,
        ))
    }

    fn reset(&mut self) {
        *self = Seeotheruids::new();
    }
}

/// Whether a process does the operation to another.
fn is_on_process(op: CheckOp) -> bool
    ensures { result ≡ spec.is_on_process op }
{
    matches!(
        op,
        CheckOp::ProcVisible | CheckOp::ProcSignal | CheckOp::ProcDebug | CheckOp::ProcSched
    )
}

/// The primary group; 0 where there is none.
fn first_group(cred: &Cred) -> u32
    ensures { result ≡ slice_index_or cred.now.groups 0 0 }
{
    match cred.groups.as_slice().first() {
        Some(group) => *group,
        None => 0,
    }
}
