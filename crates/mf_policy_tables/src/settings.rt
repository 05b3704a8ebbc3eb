//! Settings of modules, as rows have them, and the changes that ask for them.
ghost use Rattle.mf_policy.specs.IsChange.{IsChange};

use mf_policy::{Change, Policy, Spec};
use mf_rule::read_ports;

/// The settings `primarygroup_enabled`, `specificgid_enabled`, `specificgid` and `suser_privileged` of mac_seeotheruids.
pub type See = (bool, bool, u32, bool);

/// The settings `rules`, `port_high`, `suser_exempt` and `autoport_exempt` of mac_portacl.
pub type Acl = (&'static str, u32, bool, bool);

/// What a change asks for: revocation or first match so, or these settings of mac_seeotheruids or of mac_portacl.
#[derive(Drop)]
pub enum Asked {
    Revocation(bool),
    FirstMatch(bool),
    Sights(See),
    Ports(Acl),
}

/// mac_seeotheruids with these settings.
pub fn see(settings: See) -> Spec {
    let (primarygroup, specific, gid, suser) = settings;
    Spec::Seeotheruids {
        primarygroup,
        specific,
        gid,
        suser,
    }
}

/// mac_portacl with these settings. A text that is no rules makes it another module, which no policy takes as settings or has.
pub fn acl(settings: Acl) -> Spec {
    let (rules, port_high, suser, autoport) = settings;
    match read_ports(rules) {
        Some(rules) => Spec::Portacl {
            rules,
            port_high,
            suser,
            autoport,
        },
        None => Spec::Mls,
    }
}

/// Whether the policy has these settings.
pub fn has<P: Policy>(policy: &P, asked: &Asked) -> bool {
    match asked {
        Asked::Sights(settings) => policy.same(&see(*settings)),
        Asked::Ports(settings) => policy.same(&acl(*settings)),
        Asked::Revocation(_) | Asked::FirstMatch(_) => false,
    }
}

/// The change that asks for that.
pub fn change_of(asked: &Asked) -> Change
    ensures { IsChange result }
{
    match asked {
        Asked::Revocation(revocation) => Change::Revocation(*revocation),
        Asked::FirstMatch(first_match) => Change::FirstMatch(*first_match),
        Asked::Sights(settings) => Change::See(see(*settings)),
        Asked::Ports(settings) => Change::Port(acl(*settings)),
    }
}
