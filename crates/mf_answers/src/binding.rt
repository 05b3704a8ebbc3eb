//! Why mac_portacl(4) denies: a port is guarded, its subject isn't exempt, and no rule names both. And which rule allows.
ghost use Rattle.std.specs.Prelude.{◌≡◌, ◌<◌, ◌≤◌, length, position, Some};
ghost use Rattle.mf_policy.specs.Ports as ports;
ghost use Rattle.mf_answers.specs.Permits as permits;
ghost use Rattle.mf_answers.specs.Reasons as spec;

use crate::permits::Permit;
use crate::reasons::Reason;
use mf_cred::Cred;
use mf_item::{CheckOp, Item};
use mf_rule::{MOST_PORT_RULES, PortRule};

/// Why a subject doesn't bind a port, by these rules and settings of the policy. Everything but a binding passes.
pub fn port_reason(
    rules: &[PortRule],
    port_high: u32,
    suser: bool,
    autoport: bool,
    item: &Item,
) -> Option<Reason>
    ensures { result ≡ spec.port_reason rules.now port_high suser autoport item.now }
{
    if !matches!(item.op(), CheckOp::SocketBind) {
        return None;
    }
    let port = item.port()?;
    let cred = &item.subject().cred;
    if may_bind(rules, port_high, suser, autoport, cred, port) {
        return None;
    }
    Some(Reason::Port {
        tcp: port.0,
        port: port.1,
        uid: cred.uid,
    })
}

/// Whether a subject may bind a port: one above those that are guarded; with the settings, one that the kernel chooses, and any
/// where it is root; and one that a rule gives it.
#[tactic(auto, using(crate::proofs::Places::some_place))]
fn may_bind(
    rules: &[PortRule],
    port_high: u32,
    suser: bool,
    autoport: bool,
    cred: &Cred,
    port: (bool, u16),
) -> bool
    ensures { result ≡ ports.may_bind rules.now port_high suser autoport cred.now port }
{
    needs_no_rule(port_high, suser, autoport, cred, port) || giving(rules, cred, port).is_some()
}

/// Whether a subject may bind a port without any rule.
fn needs_no_rule(
    port_high: u32,
    suser: bool,
    autoport: bool,
    cred: &Cred,
    port: (bool, u16),
) -> bool
    ensures { result ≡ permits.needs_no_rule port_high suser autoport cred.now port }
{
    port_high < port.1 as u32 || (autoport && port.1 == 0) || (suser && cred.is_root())
}

/// The rule that allows an item: the first that names the subject and the port, where one is needed.
pub fn port_permit(
    rules: &[PortRule],
    port_high: u32,
    suser: bool,
    autoport: bool,
    item: &Item,
) -> Option<Permit>
    requires { length rules.now ≤ MOST_PORT_RULES }
    ensures { result ≡ permits.port_permit rules.now port_high suser autoport item.now }
{
    if !matches!(item.op(), CheckOp::SocketBind) {
        return None;
    }
    let port = item.port()?;
    let cred = &item.subject().cred;
    if needs_no_rule(port_high, suser, autoport, cred, port) {
        return None;
    }
    match giving(rules, cred, port) {
        None => None,
        Some(place) => Some(place_permit(rules, place)),
    }
}

/// The rule at that place, which are counted from 1.
fn place_permit(rules: &[PortRule], place: usize) -> Permit
    requires place { place < length rules.now }
    requires few { length rules.now ≤ MOST_PORT_RULES }
    ensures { Some result ≡ permits.place_permit rules.now place }
{
    Permit::Port {
        place: place as u32 + 1,
        rule: rules[place],
    }
}

/// The place of the first rule that gives the subject the port.
fn giving(rules: &[PortRule], cred: &Cred, port: (bool, u16)) -> Option<usize>
    ensures { result ≡ position (permits.names_both cred.now port) rules.now }
{
    rules.iter().position(|rule| gives(rule, cred, port))
}

/// Whether the rule names the subject, by one of its groups or by its effective uid, and the port, of TCP or else of UDP.
fn gives(rule: &PortRule, cred: &Cred, port: (bool, u16)) -> bool
    ensures { result ≡ permits.names_both cred.now port rule.now }
{
    let (tcp, number) = port;
    if rule.tcp != tcp || rule.port != number as u32 {
        false
    } else if rule.group {
        cred.in_group(rule.id)
    } else {
        rule.id == cred.uid
    }
}
