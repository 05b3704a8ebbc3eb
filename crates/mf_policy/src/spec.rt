//! The specs of policies.
ghost use Rattle.std.specs.Prelude.{◌≡◌, ◌↔◌, IsTrue, IfOk, OnErr};
ghost use Rattle.mf_policy.specs.Modules as facts;
ghost use Rattle.mf_policy.specs.Answer.{tests_transfers};
ghost use Rattle.mf_policy.specs.Settings.{change_of, file_rules};
ghost use Rattle.mf_policy.specs.IsChange.{IsChange};
ghost use Rattle.std.specs.Option.{option_copied};

use crate::settings::{
    Change, Changed, answer_of_portacl, answer_of_revocation, answer_of_rules, answer_of_see,
    change_portacl, change_revocation, change_rules, change_see,
};
use mf_errno::Module;
use mf_rule::{PortRules, RuleList, same_port_rules};
use std::alloc::{AllocError, Global};

/// What determines a policy's answers: its module, with the values of its settings.
#[derive(Drop)]
pub enum Spec {
    /// Whether it tests each transfer of bytes through an open file.
    Biba {
        revocation: bool,
    },
    Mls,
    Lomac,
    Partition,
    /// Its rules about files, and whether the first of them that matches decides.
    Bsdextended {
        rules: RuleList,
        first_match: bool,
    },
    Priority,
    /// Whether a subject sees the processes of its own primary group, whether all where it is in the group of that gid, and whether
    /// all where it is root.
    Seeotheruids {
        primarygroup: bool,
        specific: bool,
        gid: u32,
        suser: bool,
    },
    /// Its rules about ports, the greatest port that it guards, whether root may bind them all, and whether everybody may bind
    /// port 0, for which the kernel chooses another.
    Portacl {
        rules: PortRules,
        port_high: u32,
        suser: bool,
        autoport: bool,
    },
}

impl Spec {
    /// The spec of the module in its initial state.
    pub fn fresh(alloc: Global, module: Module) -> Result<Spec, AllocError>
        ensures { IfOk result (λ spec. spec ≡ facts.fresh_of «module») }
    {
        match module {
            Module::Biba => Ok(Spec::Biba { revocation: false }),
            Module::Mls => Ok(Spec::Mls),
            Module::Lomac => Ok(Spec::Lomac),
            Module::Partition => Ok(Spec::Partition),
            Module::Bsdextended => Ok(Spec::Bsdextended {
                rules: RuleList::new(alloc)?,
                first_match: true,
            }),
            Module::Priority => Ok(Spec::Priority),
            Module::Seeotheruids => Ok(Spec::Seeotheruids {
                primarygroup: false,
                specific: false,
                gid: 0,
                suser: true,
            }),
            Module::Portacl => Ok(Spec::Portacl {
                rules: PortRules::new(),
                port_high: 1023,
                suser: true,
                autoport: true,
            }),
        }
    }

    /// A copy.
    pub fn copy(&self, alloc: Global) -> Result<Spec, AllocError>
        ensures { IfOk result (λ spec. spec ≡ self.now) }
    {
        match self {
            Spec::Biba { revocation } => Ok(Spec::Biba {
                revocation: *revocation,
            }),
            Spec::Mls => Ok(Spec::Mls),
            Spec::Lomac => Ok(Spec::Lomac),
            Spec::Partition => Ok(Spec::Partition),
            Spec::Bsdextended { rules, first_match } => Ok(Spec::Bsdextended {
                rules: rules.copy(alloc)?,
                first_match: *first_match,
            }),
            Spec::Priority => Ok(Spec::Priority),
            Spec::Seeotheruids {
                primarygroup,
                specific,
                gid,
                suser,
            } => Ok(Spec::Seeotheruids {
                primarygroup: *primarygroup,
                specific: *specific,
                gid: *gid,
                suser: *suser,
            }),
            Spec::Portacl {
                rules,
                port_high,
                suser,
                autoport,
            } => Ok(Spec::Portacl {
                rules: rules.copy(),
                port_high: *port_high,
                suser: *suser,
                autoport: *autoport,
            }),
        }
    }

    /// Whether the two are equal.
    pub fn same(&self, other: &Spec) -> bool
        ensures { IsTrue result ↔ (self.now ≡ other.now) }
    {
        match self {
            Spec::Biba { revocation } => match other {
                Spec::Biba { revocation: other } => *revocation == *other,
                _ => false,
            },
            Spec::Mls => matches!(other, Spec::Mls),
            Spec::Lomac => matches!(other, Spec::Lomac),
            Spec::Partition => matches!(other, Spec::Partition),
            Spec::Bsdextended { rules, first_match } => match other {
                Spec::Bsdextended {
                    rules: other_rules,
                    first_match: other_first,
                } => *first_match == *other_first && rules.same(other_rules),
                _ => false,
            },
            Spec::Priority => matches!(other, Spec::Priority),
            Spec::Seeotheruids {
                primarygroup,
                specific,
                gid,
                suser,
            } => match other {
                Spec::Seeotheruids {
                    primarygroup: other_primarygroup,
                    specific: other_specific,
                    gid: other_gid,
                    suser: other_suser,
                } => {
                    *primarygroup == *other_primarygroup
                        && *specific == *other_specific
                        && *gid == *other_gid
                        && *suser == *other_suser
                }
                _ => false,
            },
            Spec::Portacl {
                rules,
                port_high,
                suser,
                autoport,
            } => match other {
                Spec::Portacl {
                    rules: other_rules,
                    port_high: other_port_high,
                    suser: other_suser,
                    autoport: other_autoport,
                } => {
                    *port_high == *other_port_high
                        && *suser == *other_suser
                        && *autoport == *other_autoport
                        && same_port_rules(rules, other_rules)
                }
                _ => false,
            },
        }
    }

    /// What `change` would answer. It takes no memory.
    pub fn answer_to(&self, change: &Change) -> Changed
        ensures { result ≡ (change_of self.now change.now).0 }
    {
        match self {
            Spec::Bsdextended { rules, .. } => answer_of_rules(rules, change),
            Spec::Biba { .. } => answer_of_revocation(change),
            Spec::Seeotheruids { .. } => answer_of_see(change),
            Spec::Portacl { .. } => answer_of_portacl(change),
            Spec::Mls | Spec::Lomac | Spec::Partition | Spec::Priority => Changed::no_setting(),
        }
    }

    /// Changes a setting, as `Policy::change` does.
    pub fn change(&mut self, _alloc: Global, change: &Change) -> Result<Changed, AllocError>
        requires { IsChange change.now }
        ensures ok { IfOk result (λ changed. (changed, self.new) ≡ change_of self.old change.now) }
        ensures err { OnErr result (self.new ≡ self.old) }
    {
        match self {
            Spec::Bsdextended { rules, first_match } => change_rules(rules, first_match, change),
            Spec::Biba { revocation } => Ok(change_revocation(revocation, change)),
            Spec::Seeotheruids {
                primarygroup,
                specific,
                gid,
                suser,
            } => Ok(change_see(primarygroup, specific, gid, suser, change)),
            Spec::Portacl {
                rules,
                port_high,
                suser,
                autoport,
            } => Ok(change_portacl(rules, port_high, suser, autoport, change)),
            Spec::Mls | Spec::Lomac | Spec::Partition | Spec::Priority => Ok(Changed::no_setting()),
        }
    }

    /// The rules about files, where the policy has some.
    pub fn rules(&self) -> Option<&RuleList>
        ensures { option_copied result ≡ file_rules self.now }
    {
        match self {
            Spec::Bsdextended { rules, .. } => Some(rules),
            Spec::Biba { .. }
            | Spec::Mls
            | Spec::Lomac
            | Spec::Partition
            | Spec::Priority
            | Spec::Seeotheruids { .. }
            | Spec::Portacl { .. } => None,
        }
    }

    /// Whether the policy goes by the table of operations at transfers too, and not at the opening of a file alone. mac_biba's
    /// doesn't without revocation.
    pub fn tests_transfers(&self) -> bool
        ensures { result ≡ tests_transfers self.now }
    {
        match self {
            Spec::Biba { revocation } => *revocation,
            Spec::Mls
            | Spec::Lomac
            | Spec::Partition
            | Spec::Bsdextended { .. }
            | Spec::Priority
            | Spec::Seeotheruids { .. }
            | Spec::Portacl { .. } => true,
        }
    }
}
