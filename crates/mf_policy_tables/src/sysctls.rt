//! The settings that have a name, and what their values ask for.

use crate::asked::wants;
use crate::settings::Asked::{self, FirstMatch, Ports, Revocation, Sights};
use crate::settings::{Acl, See, acl, see};
use mf_errno::Module;
use mf_policy::Sysctl::{
    self, AutoportExempt, FirstmatchEnabled, PortHigh, PrimarygroupEnabled, RevocationEnabled,
    Rules, Specificgid, SpecificgidEnabled, SuserExempt, SuserPrivileged,
};
use mf_policy::{Change, Registration, Spec, SpecList};
use std::alloc::{AllocError, Global};

/// The names of mac_biba(4), mac_bsdextended(4), mac_seeotheruids(4) and mac_portacl(4), with their modules; the first is a
/// tunable.
const NAMES: &[(&str, Sysctl, Module)] = &[
    (
        "security.mac.biba.revocation_enabled",
        RevocationEnabled,
        Module::Biba,
    ),
    (
        "security.mac.bsdextended.firstmatch_enabled",
        FirstmatchEnabled,
        Module::Bsdextended,
    ),
    (
        "security.mac.seeotheruids.primarygroup_enabled",
        PrimarygroupEnabled,
        Module::Seeotheruids,
    ),
    (
        "security.mac.seeotheruids.specificgid_enabled",
        SpecificgidEnabled,
        Module::Seeotheruids,
    ),
    (
        "security.mac.seeotheruids.specificgid",
        Specificgid,
        Module::Seeotheruids,
    ),
    (
        "security.mac.seeotheruids.suser_privileged",
        SuserPrivileged,
        Module::Seeotheruids,
    ),
    ("security.mac.portacl.port_high", PortHigh, Module::Portacl),
    (
        "security.mac.portacl.suser_exempt",
        SuserExempt,
        Module::Portacl,
    ),
    (
        "security.mac.portacl.autoport_exempt",
        AutoportExempt,
        Module::Portacl,
    ),
    ("security.mac.portacl.rules", Sysctl::Rules, Module::Portacl),
];

/// Whether the setting has this name and is of this module.
fn is_named(sysctl: Sysctl, name: &str, owner: Module) -> bool {
    let is_tunable = sysctl == RevocationEnabled;
    Sysctl::from_name(name) == Some(sysctl)
        && sysctl.name() == name
        && sysctl.owner() == owner
        && sysctl.is_tunable() == is_tunable
}

fn names_of_settings() -> bool {
    let mut holds = true;
    for (name, sysctl, owner) in NAMES {
        holds &= is_named(*sysctl, name, *owner);
    }
    holds && Sysctl::from_name("security.mac.portacl.enabled").is_none()
}

/// Values of settings, each with what it asks for where mac_seeotheruids and mac_portacl have `SEE` and `ACL`: the other
/// settings stay.
const VALUES: &[(Sysctl, &str, Option<Asked>)] = &[
    (RevocationEnabled, "1", Some(Revocation(true))),
    (RevocationEnabled, "2", None),
    (FirstmatchEnabled, "0", Some(FirstMatch(false))),
    (FirstmatchEnabled, "1", Some(FirstMatch(true))),
    (FirstmatchEnabled, "x", None),
    (
        PrimarygroupEnabled,
        "0",
        Some(Sights((false, false, 7, false))),
    ),
    (PrimarygroupEnabled, "1", Some(Sights(SEE))),
    (PrimarygroupEnabled, "2", None),
    (
        SpecificgidEnabled,
        "1",
        Some(Sights((true, true, 7, false))),
    ),
    (SpecificgidEnabled, "x", None),
    (Specificgid, "0", Some(Sights((true, false, 0, false)))),
    (Specificgid, "4294967295", Some(Sights(LAST))),
    (Specificgid, "4294967296", None),
    (Specificgid, "x", None),
    (Specificgid, "", None),
    (SuserPrivileged, "1", Some(Sights((true, false, 7, true)))),
    (SuserPrivileged, "2", None),
    (PortHigh, "0", Some(Ports((WWW, 0, false, true)))),
    (PortHigh, "65535", Some(Ports((WWW, 65_535, false, true)))),
    (PortHigh, "65536", None),
    (PortHigh, "x", None),
    (SuserExempt, "1", Some(Ports((WWW, 99, true, true)))),
    (SuserExempt, "2", None),
    (SuserExempt, "x", None),
    (AutoportExempt, "0", Some(Ports((WWW, 99, false, false)))),
    (AutoportExempt, "1", Some(Ports(ACL))),
    (AutoportExempt, "2", None),
    (Rules, "", Some(Ports(("", 99, false, true)))),
    (Rules, DOMAIN, Some(Ports((DOMAIN, 99, false, true)))),
    (Rules, WWW, Some(Ports(ACL))),
    (Rules, "uid:80:tcp:http", None),
    (Rules, "x", None),
];

const WWW: &str = "uid:80:tcp:80";

const DOMAIN: &str = "gid:0:udp:53";

const SEE: See = (true, false, 7, false);

/// With the greatest gid.
const LAST: See = (true, false, 4_294_967_295, false);

const ACL: Acl = (WWW, 99, false, true);

/// Whether this is what was asked for.
fn is_change(found: &Change, wanted: &Asked) -> bool {
    match (found, wanted) {
        (Change::Revocation(found), Revocation(wanted)) => *found == *wanted,
        (Change::FirstMatch(found), FirstMatch(wanted)) => *found == *wanted,
        (Change::See(found), Sights(wanted)) => found.same(&see(*wanted)),
        (Change::Port(found), Ports(wanted)) => found.same(&acl(*wanted)),
        _ => false,
    }
}

/// Whether that was asked for, or nothing.
fn is_asked(found: Option<&Change>, wanted: Option<&Asked>) -> bool {
    match found {
        Some(found) => match wanted {
            Some(wanted) => is_change(found, wanted),
            None => false,
        },
        None => wanted.is_none(),
    }
}

/// Whether the value asks for that where these policies are listed.
fn asks(list: &SpecList, sysctl: Sysctl, value: &str, wanted: Option<&Asked>) -> bool {
    let found = sysctl.asked_of(list, value);
    is_asked(found.as_ref(), wanted)
}

/// Lists a module that has such settings.
fn list(specs: &mut SpecList, module: Module, spec: Spec) -> Result<(), AllocError> {
    let registration = Registration {
        module,
        slot: None,
        fixed: false,
    };
    specs.list(registration, spec)
}

/// Lists the module in its initial state.
fn list_fresh(alloc: Global, specs: &mut SpecList, module: Module) -> Result<(), AllocError> {
    let fresh = Spec::fresh(alloc, module)?;
    list(specs, module, fresh)
}

/// Lists the modules that have such settings.
fn list_all(alloc: Global, specs: &mut SpecList) -> Result<(), AllocError> {
    list_fresh(alloc, specs, Module::Biba)?;
    list_fresh(alloc, specs, Module::Bsdextended)?;
    list(specs, Module::Seeotheruids, see(SEE))?;
    list(specs, Module::Portacl, acl(ACL))
}

/// The first value that doesn't ask for that where the modules are listed, or that asks for something where they aren't.
fn wrong_value(specs: &SpecList, are_listed: bool) -> Option<Sysctl> {
    for (sysctl, value, asked) in VALUES {
        let wanted = if are_listed { asked.as_ref() } else { None };
        if !asks(specs, *sysctl, value, wanted) {
            return Some(*sysctl);
        }
    }
    None
}

/// Whether all ask so before the modules are listed, and then.
fn all_ask(alloc: Global, specs: &mut SpecList) -> bool {
    let is_nothing = wrong_value(specs, false).is_none();
    is_nothing && list_all(alloc, specs).is_ok() && wrong_value(specs, true).is_none()
}

fn values_of_settings(alloc: Global) -> bool {
    all_ask(alloc, &mut SpecList::new(alloc))
}

#[test]
fn names_and_values_of_settings(rt: HostRuntime) {
    wants(&rt, "names", names_of_settings());
    wants(&rt, "values", values_of_settings(rt.alloc()));
}
