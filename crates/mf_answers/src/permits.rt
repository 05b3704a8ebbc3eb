//! Which rule allows a check: of mac_bsdextended(4) with first match, and of mac_portacl(4).
ghost use Rattle.std.specs.Prelude.{◌≡◌};
ghost use Rattle.mf_answers.specs.Permits.{permit};

use crate::binding::port_permit;
use crate::rules::rules_permit;
use mf_item::Item;
use mf_policy::Spec;
use mf_rule::PortRule;

/// A rule that allows a check by itself.
#[derive(Clone, Copy)]
pub enum Permit {
    /// By mac_bsdextended(4) with first match the rule of this number decides, and gives all of the letters that are wanted.
    Rule { number: u32, wanted: u8, given: u8 },
    /// By mac_portacl(4) this rule, at that place of the list, counted from 1, is the first that names the subject and the port.
    Port { place: u32, rule: PortRule },
}

/// The rule of a policy of this spec that allows an item; none where the policy has no rules, or where none decides: without first
/// match, where no rule matches, and where a port needs no rule. It takes no memory.
pub fn permit_of(spec: &Spec, item: &Item) -> Option<Permit>
    ensures { result ≡ permit spec.now item.now }
{
    match spec {
        Spec::Bsdextended {
            rules,
            first_match: true,
        } => rules_permit(rules.as_slice(), item),
        Spec::Portacl {
            rules,
            port_high,
            suser,
            autoport,
        } => port_permit(rules.as_slice(), *port_high, *suser, *autoport, item),
        _ => None,
    }
}
