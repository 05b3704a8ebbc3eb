//! Rules about ports of mac_portacl(4), and the text in which a sysctl has them.
ghost use Rattle.std.specs.Prelude.{◌≡◌, ◌↔◌, if◌then◌else◌, IsTrue, Some, None, length, nat_le, option_and_then};
ghost use Rattle.std.specs.Str.{byte};
ghost use Rattle.mf_labeltext.specs.Reading.{number, parts};
ghost use Rattle.mf_rule.specs.PortRules as spec;

use crate::values::{read_id, split_once};
use mf_cred::{ArrayVec, Duplicate};
use mf_text::read_number;

/// The greatest port.
pub const LAST_PORT: u32 = 65_535;

/// The most rules about ports.
pub const MOST_PORT_RULES: usize = 64;

/// A rule about ports: who may bind a socket to a port of a protocol.
#[derive(Clone, Copy, Debug, Default, PartialEq, Eq)]
pub struct PortRule {
    /// Whether it is for those in a group, and not for those of an effective uid.
    pub group: bool,
    /// The gid, or the uid.
    pub id: u32,
    /// Whether the port is one of TCP, and not of UDP.
    pub tcp: bool,
    /// The port, up to `LAST_PORT`.
    pub port: u32,
}

impl Duplicate for PortRule {
    fn copy(&self) -> PortRule {
        *self
    }
}

/// Rules about ports.
pub type PortRules = ArrayVec<PortRule, MOST_PORT_RULES>;

/// Whether both have the same rules, in the same order.
pub fn same_port_rules(rules: &PortRules, others: &PortRules) -> bool
    ensures { IsTrue result ↔ (rules.now ≡ others.now) }
{
    rules.len() == others.len() && same_rules(rules.as_slice(), others.as_slice())
}

fn same_rules(rules: &[PortRule], others: &[PortRule]) -> bool
    requires { length rules.now ≡ length others.now }
    ensures { IsTrue result ↔ (rules.now ≡ others.now) }
{
    for (number, rule) in rules.iter().enumerate() {
        if *rule != others[number] {
            return false;
        }
    }
    true
}

/// The rules that a text spells, as the sysctl `security.mac.portacl.rules` of mac_portacl(4) takes them. None for every other
/// text, and where there are more than `MOST_PORT_RULES`. It takes no memory.
#[tactic(auto, unfolding(crate::specs::PortRules::port_rules_in))]
pub fn read_ports(text: &str) -> Option<PortRules>
    ensures { result ≡ spec.port_rules_in text.now }
{
    if text.is_empty() {
        return Some(PortRules::new());
    }
    read_listed(text)
}

/// The rules of a text, with a comma between each two.
fn read_listed(text: &str) -> Option<PortRules>
    ensures { result ≡ option_and_then (λ rules.
        if nat_le (length rules) MOST_PORT_RULES then Some rules else None)
        (spec.each_port_rule (parts (byte ",") text.now)) }
{
    let mut rules = PortRules::new();
    let mut rest = text;
    while let Some((first, behind)) = split_once(rest, ',') {
        if !add_rule(&mut rules, first) {
            return None;
        }
        rest = behind;
    }
    if add_rule(&mut rules, rest) {
        Some(rules)
    } else {
        None
    }
}

/// Adds the rule of a text; false where it is none, or there is no room.
#[tactic(auto, unfolding(crate::specs::PortRules::with_port_rule))]
fn add_rule(rules: &mut PortRules, text: &str) -> bool
    ensures { spec.with_port_rule rules.old text.now
        ≡ (if result then Some rules.new else None) }
{
    if rules.len() >= MOST_PORT_RULES {
        return false;
    }
    match read_port_rule(text) {
        None => false,
        Some(rule) => {
            rules.push(rule);
            true
        }
    }
}

/// The rule of a text.
#[tactic(auto, unfolding(crate::specs::PortRules::port_rule_in))]
fn read_port_rule(text: &str) -> Option<PortRule>
    ensures { result ≡ spec.port_rule_in text.now }
{
    let (kind, behind) = split_once(text, ':')?;
    let group = first_of(kind, "gid", "uid")?;
    let (id, behind) = split_once(behind, ':')?;
    let id = read_id(id)?;
    let (protocol, port) = split_once(behind, ':')?;
    let tcp = first_of(protocol, "tcp", "udp")?;
    let port = read_port(port)?;
    Some(PortRule {
        group,
        id,
        tcp,
        port,
    })
}

/// Whether a word is the first of two; None where it is neither.
#[tactic(auto, unfolding(crate::specs::PortRules::first_of))]
fn first_of(word: &str, first: &str, second: &str) -> Option<bool>
    ensures { result ≡ spec.first_of first.now second.now word.now }
{
    if word == first {
        Some(true)
    } else if word == second {
        Some(false)
    } else {
        None
    }
}

#[tactic(auto, unfolding(mf_labeltext::specs::Reading::number))]
fn read_port(word: &str) -> Option<u32>
    ensures { result ≡ number 0 LAST_PORT word.now }
{
    read_number(word, 0, LAST_PORT).ok()
}
