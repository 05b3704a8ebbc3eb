//! The settings that have a name: variables of sysctl(8), and tunables of loader.conf(5).
ghost use Rattle.std.specs.Prelude.{◌≡◌, Some, None, MatchOption};
ghost use Rattle.mf_labeltext.specs.Reading.{number};
ghost use Rattle.mf_policy.specs.Sysctls as spec;
ghost use Rattle.mf_policy.specs.declared.settings.Change.TheVariants as changes;
ghost use Rattle.mf_policy.specs.declared.spec.Spec.TheVariants as means;

use crate::{Change, Spec, SpecList};
use mf_errno::Module;
use mf_rule::{LAST_ID, LAST_PORT, PortRules, read_ports};
use mf_text::read_number;

/// A setting that has a name.
#[derive(Clone, Copy, Debug, PartialEq, Eq)]
pub enum Sysctl {
    /// `security.mac.biba.revocation_enabled`, a tunable.
    RevocationEnabled,
    /// `security.mac.bsdextended.firstmatch_enabled`.
    FirstmatchEnabled,
    /// `security.mac.seeotheruids.primarygroup_enabled`.
    PrimarygroupEnabled,
    /// `security.mac.seeotheruids.specificgid_enabled`.
    SpecificgidEnabled,
    /// `security.mac.seeotheruids.specificgid`, a gid.
    Specificgid,
    /// `security.mac.seeotheruids.suser_privileged`.
    SuserPrivileged,
    /// `security.mac.portacl.port_high`, a port.
    PortHigh,
    /// `security.mac.portacl.suser_exempt`.
    SuserExempt,
    /// `security.mac.portacl.autoport_exempt`.
    AutoportExempt,
    /// `security.mac.portacl.rules`, rules about ports.
    Rules,
}

impl Sysctl {
    /// The name.
    pub fn name(self) -> &'static str
        ensures { result.now ≡ (spec.sysctl_row self).name }
    {
        match self {
            Sysctl::RevocationEnabled => "security.mac.biba.revocation_enabled",
            Sysctl::FirstmatchEnabled => "security.mac.bsdextended.firstmatch_enabled",
            Sysctl::PrimarygroupEnabled => "security.mac.seeotheruids.primarygroup_enabled",
            Sysctl::SpecificgidEnabled => "security.mac.seeotheruids.specificgid_enabled",
            Sysctl::Specificgid => "security.mac.seeotheruids.specificgid",
            Sysctl::SuserPrivileged => "security.mac.seeotheruids.suser_privileged",
            Sysctl::PortHigh => "security.mac.portacl.port_high",
            Sysctl::SuserExempt => "security.mac.portacl.suser_exempt",
            Sysctl::AutoportExempt => "security.mac.portacl.autoport_exempt",
            Sysctl::Rules => "security.mac.portacl.rules",
        }
    }

    /// The setting of that name. None for every other text.
    #[tactic(auto, unfolding(crate::specs::Sysctls::sysctl_named))]
    pub fn from_name(name: &str) -> Option<Sysctl>
        ensures { result ≡ spec.sysctl_named name.now }
    {
        match name {
            "security.mac.biba.revocation_enabled" => Some(Sysctl::RevocationEnabled),
            "security.mac.bsdextended.firstmatch_enabled" => Some(Sysctl::FirstmatchEnabled),
            "security.mac.seeotheruids.primarygroup_enabled" => Some(Sysctl::PrimarygroupEnabled),
            "security.mac.seeotheruids.specificgid_enabled" => Some(Sysctl::SpecificgidEnabled),
            "security.mac.seeotheruids.specificgid" => Some(Sysctl::Specificgid),
            "security.mac.seeotheruids.suser_privileged" => Some(Sysctl::SuserPrivileged),
            "security.mac.portacl.port_high" => Some(Sysctl::PortHigh),
            "security.mac.portacl.suser_exempt" => Some(Sysctl::SuserExempt),
            "security.mac.portacl.autoport_exempt" => Some(Sysctl::AutoportExempt),
            "security.mac.portacl.rules" => Some(Sysctl::Rules),
            _ => None,
        }
    }

    /// The module whose setting it is.
    pub fn owner(self) -> Module
        ensures { result ≡ (spec.sysctl_row self).owner }
    {
        match self {
            Sysctl::RevocationEnabled => Module::Biba,
            Sysctl::FirstmatchEnabled => Module::Bsdextended,
            Sysctl::PrimarygroupEnabled
            | Sysctl::SpecificgidEnabled
            | Sysctl::Specificgid
            | Sysctl::SuserPrivileged => Module::Seeotheruids,
            Sysctl::PortHigh | Sysctl::SuserExempt | Sysctl::AutoportExempt | Sysctl::Rules => {
                Module::Portacl
            }
        }
    }

    /// Whether it is set before boot alone.
    pub fn is_tunable(self) -> bool
        ensures { result ≡ (spec.sysctl_row self).tunable }
    {
        matches!(self, Sysctl::RevocationEnabled)
    }

    /// The change that a value asks for while these policies are listed. None where the setting's module isn't listed, and for what is
    /// none of its values. It doesn't ask whether the setting is a tunable, which no call changes.
    pub fn asked_of(self, listed: &SpecList, value: &str) -> Option<Change>
        ensures { result ≡ spec.asked_of self listed.now value.now }
    {
        match listed.spec_of(self.owner()) {
            Some(present) => self.asks(value, present),
            None => None,
        }
    }

    /// What the value asks of a policy that has this spec.
    fn asks(self, value: &str, present: &Spec) -> Option<Change>
        ensures { result ≡ (spec.sysctl_row self).asks value.now present.now }
    {
        match self {
            Sysctl::RevocationEnabled => Some(Change::Revocation(switch(value)?)),
            Sysctl::FirstmatchEnabled => Some(Change::FirstMatch(switch(value)?)),
            Sysctl::PrimarygroupEnabled => {
                let (_, specific, gid, suser) = see_settings(present)?;
                Some(see(switch(value)?, specific, gid, suser))
            }
            Sysctl::SpecificgidEnabled => {
                let (primarygroup, _, gid, suser) = see_settings(present)?;
                Some(see(primarygroup, switch(value)?, gid, suser))
            }
            Sysctl::Specificgid => {
                let (primarygroup, specific, _, suser) = see_settings(present)?;
                Some(see(primarygroup, specific, number(value, LAST_ID)?, suser))
            }
            Sysctl::SuserPrivileged => {
                let (primarygroup, specific, gid, _) = see_settings(present)?;
                Some(see(primarygroup, specific, gid, switch(value)?))
            }
            Sysctl::PortHigh => {
                let (rules, _, suser, autoport) = portacl_settings(present)?;
                Some(portacl(rules, number(value, LAST_PORT)?, suser, autoport))
            }
            Sysctl::SuserExempt => {
                let (rules, port_high, _, autoport) = portacl_settings(present)?;
                Some(portacl(rules, port_high, switch(value)?, autoport))
            }
            Sysctl::AutoportExempt => {
                let (rules, port_high, suser, _) = portacl_settings(present)?;
                Some(portacl(rules, port_high, suser, switch(value)?))
            }
            Sysctl::Rules => {
                let (_, port_high, suser, autoport) = portacl_settings(present)?;
                Some(portacl(&read_ports(value)?, port_high, suser, autoport))
            }
        }
    }
}

/// Off or on.
#[tactic(auto, unfolding(crate::specs::Sysctls::switch))]
pub fn switch(value: &str) -> Option<bool>
    ensures { result ≡ spec.switch value.now }
{
    match value {
        "0" => Some(false),
        "1" => Some(true),
        _ => None,
    }
}

#[tactic(auto, unfolding(mf_labeltext::specs::Reading::number))]
fn number(value: &str, greatest: u32) -> Option<u32>
    ensures { result ≡ number 0 greatest value.now }
{
    read_number(value, 0, greatest).ok()
}

/// The settings of mac_seeotheruids's policy, where the spec is one of its.
fn see_settings(present: &Spec) -> Option<(bool, bool, u32, bool)>
    ensures { result ≡ spec.see_settings present.now }
{
    match present {
        Spec::Seeotheruids {
            primarygroup,
            specific,
            gid,
            suser,
        } => Some((*primarygroup, *specific, *gid, *suser)),
        _ => None,
    }
}

/// The change after which mac_seeotheruids's policy has these settings.
fn see(primarygroup: bool, specific: bool, gid: u32, suser: bool) -> Change
    ensures { result ≡ changes.See (means.Seeotheruids primarygroup specific gid suser) }
{
    Change::See(Spec::Seeotheruids {
        primarygroup,
        specific,
        gid,
        suser,
    })
}

/// The settings of mac_portacl's policy, where the spec is one of its.
fn portacl_settings(present: &Spec) -> Option<(&PortRules, u32, bool, bool)>
    ensures { MatchOption result (spec.portacl_settings present.now ≡ None)
        (λ s. spec.portacl_settings present.now ≡ Some (s.0.now, s.1, s.2, s.3)) }
{
    match present {
        Spec::Portacl {
            rules,
            port_high,
            suser,
            autoport,
        } => Some((rules, *port_high, *suser, *autoport)),
        _ => None,
    }
}

/// The change after which mac_portacl's policy has these settings.
fn portacl(rules: &PortRules, port_high: u32, suser: bool, autoport: bool) -> Change
    ensures { result ≡ changes.Port (means.Portacl rules.now port_high suser autoport) }
{
    Change::Port(Spec::Portacl {
        rules: rules.copy(),
        port_high,
        suser,
        autoport,
    })
}
