//! Which ports a subject may bind a socket to: those above the guarded ones, and those that rules give it.
ghost use Rattle.std.specs.Prelude.{◌≡◌, ◌&&◌, ◌==◌, if◌then◌else◌, not};
ghost use Rattle.mf_cred.specs.Groups.{in_group};
ghost use Rattle.std.specs.List.{list_any};
ghost use Rattle.mf_errno.specs.declared.module.Module.TheVariants as modules;
ghost use Rattle.mf_policy.specs.Modules.{fresh_of};
ghost use Rattle.mf_policy.specs.Ports as spec;
ghost use Rattle.mf_policy.specs.declared.spec.Spec.TheVariants as means;

use mf_cred::Cred;
use mf_errno::{Errno, Module, Priv};
use mf_item::{CheckOp, Item};
use mf_policy::{
    Change, Changed, LoadFlags, Policy, Spec, change_portacl, errno_unless, flags_of, wants_slot,
};
use mf_rule::{PortRule, PortRules, same_port_rules};
use std::alloc::{AllocError, Global};

/// The greatest port that is guarded at first. Those up to it are the privileged ports of ip(4).
const LAST_GUARDED: u32 = 1023;

/// The policy of mac_portacl(4): rules say which users and groups may bind a socket to which of the guarded ports. It labels
/// nothing. Its settings are its rules, the greatest guarded port, and whether root and port 0 are exempt.
#[derive(Drop)]
pub struct Portacl {
    rules: PortRules,
    port_high: u32,
    suser: bool,
    autoport: bool,
}

impl Portacl {
    /// The policy in its initial state: no rules, the ports up to 1023 guarded, and root and port 0 exempt.
    pub fn new() -> Portacl
        ensures { ⟦<Portacl as Policy>⟧.spec result ≡ fresh_of modules.Portacl }
    {
        Portacl {
            rules: PortRules::new(),
            port_high: LAST_GUARDED,
            suser: true,
            autoport: true,
        }
    }

    /// Whether the subject may bind a socket to the port of that protocol, TCP or else UDP.
    fn may_bind(&self, cred: &Cred, port: (bool, u16)) -> bool
        ensures { result
            ≡ spec.may_bind self.now.rules self.now.port_high self.now.suser self.now.autoport
            cred.now port }
    {
        port.1 as u32 > self.port_high
            || (self.autoport && port.1 == 0)
            || (self.suser && cred.is_root())
            || is_given(self.rules.as_slice(), cred, port)
    }
}

impl Policy for Portacl {
    ghost spec = { λ policy.
        means.Portacl policy.rules policy.port_high policy.suser policy.autoport };

    fn module(&self) -> Module {
        Module::Portacl
    }

    fn flags(&self) -> LoadFlags {
        flags_of(Module::Portacl)
    }

    fn wants_slot(&self) -> bool {
        wants_slot(Module::Portacl)
    }

    fn same(&self, other: &Spec) -> bool {
        match other {
            Spec::Portacl {
                rules,
                port_high,
                suser,
                autoport,
            } => {
                self.port_high == *port_high
                    && self.suser == *suser
                    && self.autoport == *autoport
                    && same_port_rules(&self.rules, rules)
            }
            _ => false,
        }
    }

    fn check(&self, _slot: u8, item: &Item) -> Errno {
        if !matches!(item.op(), CheckOp::SocketBind) {
            return Errno::Success;
        }
        match item.port() {
            Some(port) => {
                let may_bind = self.may_bind(&item.subject().cred, port);
                errno_unless(may_bind, Errno::Eperm)
            }
            None => Errno::Success,
        }
    }

    fn grant(&self, _cred: &Cred, _privilege: Priv) -> bool {
        false
    }

    fn change(&mut self, _alloc: Global, change: &Change) -> Result<Changed, AllocError> {
        Ok(change_portacl(
            &mut self.rules,
            &mut self.port_high,
            &mut self.suser,
            &mut self.autoport,
            change,
        ))
    }

    fn reset(&mut self) {
        *self = Portacl::new();
    }
}

/// Whether a rule gives the subject the port.
fn is_given(rules: &[PortRule], cred: &Cred, port: (bool, u16)) -> bool
    ensures { result
        ≡ list_any (λ rule. (if rule.tcp then port.0 else not port.0) && rule.port == port.1
        && (if rule.group then in_group cred.now rule.id else cred.now.uid == rule.id)) rules.now }
{
    rules.iter().any(|rule| gives(rule, cred, port))
}

/// Whether the rule gives the subject the port.
fn gives(rule: &PortRule, cred: &Cred, port: (bool, u16)) -> bool
    ensures { result ≡ ((if rule.now.tcp then port.0 else not port.0) && rule.now.port == port.1
        && (if rule.now.group then in_group cred.now rule.now.id
        else cred.now.uid == rule.now.id)) }
{
    is_for(port, rule) && is_held_by(cred, rule)
}

/// Whether the rule is for the port.
fn is_for(port: (bool, u16), rule: &PortRule) -> bool
    ensures { result ≡ ((if rule.now.tcp then port.0 else not port.0) && rule.now.port == port.1) }
{
    rule.tcp == port.0 && rule.port == port.1 as u32
}

/// Whether the rule is for the subject, by one of its groups or by its effective uid.
fn is_held_by(cred: &Cred, rule: &PortRule) -> bool
    ensures { result
        ≡ (if rule.now.group then in_group cred.now rule.now.id else cred.now.uid == rule.now.id) }
{
    if rule.group {
        cred.in_group(rule.id)
    } else {
        cred.uid == rule.id
    }
}
