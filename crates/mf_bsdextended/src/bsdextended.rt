//! Rules about files: which letters of ugidfw(8) an operation asks for, and whether the rules give them.
ghost use Rattle.std.specs.Prelude.{◌≡◌, IfOk, option_copied};
ghost use Rattle.mf_errno.specs.declared.module.Module.TheVariants as modules;
ghost use Rattle.mf_policy.specs.Answer as spec;
ghost use Rattle.mf_policy.specs.Modules.{fresh_of};
ghost use Rattle.mf_policy.specs.declared.spec.Spec.TheVariants as means;

use mf_cred::{Cred, FileView};
use mf_errno::{Errno, Module, Priv};
use mf_item::{Item, ObjectView};
use mf_policy::{
    Change, Changed, LoadFlags, Policy, Spec, change_rules, errno_unless, flags_of, row_of,
    wants_slot,
};
use mf_rule::RuleList;
use std::alloc::{AllocError, Global};

/// The file system firewall of mac_bsdextended(4): rules say which subjects may do what to which files, by uids, gids and
/// attributes. It labels nothing. Its settings are its rules, and whether the first of them that matches decides.
#[derive(Drop)]
pub struct Bsdextended {
    rules: RuleList,
    first_match: bool,
}

impl Bsdextended {
    /// The policy in its initial state: no rules, and the first match decides.
    pub fn new(alloc: Global) -> Result<Bsdextended, AllocError>
        ensures { IfOk result
            (λ policy. ⟦<Bsdextended as Policy>⟧.spec policy ≡ fresh_of modules.Bsdextended) }
    {
        Ok(Bsdextended {
            rules: RuleList::new(alloc)?,
            first_match: true,
        })
    }
}

impl Policy for Bsdextended {
    ghost spec = { λ policy. means.Bsdextended policy.rules policy.first_match };

    fn module(&self) -> Module {
        Module::Bsdextended
    }

    fn flags(&self) -> LoadFlags {
        flags_of(Module::Bsdextended)
    }

    fn wants_slot(&self) -> bool {
        wants_slot(Module::Bsdextended)
    }

    fn same(&self, other: &Spec) -> bool {
        match other {
            Spec::Bsdextended { rules, first_match } => {
                self.first_match == *first_match && self.rules.same(rules)
            }
            _ => false,
        }
    }

    fn check(&self, _slot: u8, item: &Item) -> Errno {
        match row_of(item.op()).letters {
            Some(letters) => {
                let cred = &item.subject().cred;
                let file = attributes_of(item.object());
                let allowed = self.rules.verdict(self.first_match, cred, &file, letters);
                errno_unless(allowed, Errno::Eacces)
            }
            None => Errno::Success,
        }
    }

    fn grant(&self, _cred: &Cred, _privilege: Priv) -> bool {
        false
    }

    fn change(&mut self, _alloc: Global, change: &Change) -> Result<Changed, AllocError> {
        change_rules(&mut self.rules, &mut self.first_match, change)
    }

    fn reset(&mut self) {
        self.rules.clear();
        self.first_match = true;
    }
}

/// The attributes of the object; all zero where there is none.
fn attributes_of(object: Option<&ObjectView>) -> FileView
    ensures { result ≡ spec.attributes_of (option_copied object.entry) }
{
    match object {
        Some(view) => view.file,
        None => FileView::default(),
    }
}
