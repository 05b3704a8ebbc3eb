//! Settings, which sysctl changes: the plans of its calls, and what they change. The process t is root's, and its child c isn't. The policies
//! that have settings are listed, in their initial state.
ghost use Rattle.mf_calls.specs.WellFormed.{IsFormedLine};

use crate::plans::are_planned;
use crate::population::state_of;
use crate::scripts::{only_line, script_of, wants};
use mf_calls::Line;
use mf_errno::Module;
use mf_perform::{listed_after, relisting_of};
use mf_plan::State;
use mf_policy::{Spec, SpecList, registration_of};
use std::alloc::{AllocError, Global};
use std::process::Abort;

/// Root's call that gives a setting a value, and how it ends.
const ENDS: &str = "sysctl security.mac.biba.revocation_enabled=1 -> EPERM
sysctl security.mac.biba.revocation_enabled=2 -> EPERM
sysctl security.mac.bsdextended.firstmatch_enabled=1 -> ok
sysctl security.mac.bsdextended.firstmatch_enabled=2 -> EINVAL
sysctl security.mac.seeotheruids.primarygroup_enabled=1 -> ok
sysctl security.mac.seeotheruids.primarygroup_enabled=2 -> EINVAL
sysctl security.mac.seeotheruids.specificgid_enabled=x -> EINVAL
sysctl security.mac.seeotheruids.specificgid=4294967295 -> ok
sysctl security.mac.seeotheruids.specificgid=4294967296 -> EINVAL
sysctl security.mac.seeotheruids.suser_privileged=01 -> EINVAL
sysctl security.mac.seeotheruids.enabled=1 -> ENOENT
sysctl security.mac.portacl.port_high=65535 -> ok
sysctl security.mac.portacl.port_high=65536 -> EINVAL
sysctl security.mac.portacl.suser_exempt=-1 -> EINVAL
sysctl security.mac.portacl.autoport_exempt= -> EINVAL
sysctl security.mac.portacl.rules= -> ok
sysctl security.mac.portacl.rules=uid:80:tcp:80 -> ok
sysctl security.mac.portacl.rules=uid:80:tcp -> EINVAL
sysctl security.mac.portacl.rules=80 -> EINVAL
sysctl security.mac.portacl.enabled=1 -> ENOENT
sysctl security.mac.portacl=1 -> ENOENT
";

/// The same where no policy is listed.
const UNLISTED: &str = "sysctl security.mac.biba.revocation_enabled=1 -> ENOENT
sysctl security.mac.bsdextended.firstmatch_enabled=1 -> ENOENT
sysctl security.mac.seeotheruids.suser_privileged=1 -> ENOENT
sysctl security.mac.seeotheruids.specificgid=x -> ENOENT
sysctl security.mac.portacl.rules=uid:80:tcp:80 -> ENOENT
";

/// Calls of others than root.
const OTHERS: &str = "@c sysctl security.mac.portacl.port_high=80 -> EPERM
@c sysctl security.mac.portacl.port_high=x -> EPERM
@c sysctl security.mac.portacl.enabled=1 -> EPERM
@d sysctl security.mac.portacl.port_high=80 -> ESRCH
";

/// Root's call that gives a setting a value, and the settings after it: those of mac_bsdextended, mac_seeotheruids and mac_portacl.
const AFTER: &str =
    "sysctl security.mac.bsdextended.firstmatch_enabled=0 -> false, false false 0 true, 1023 true true
sysctl security.mac.seeotheruids.primarygroup_enabled=1 -> true, true false 0 true, 1023 true true
sysctl security.mac.seeotheruids.specificgid_enabled=1 -> true, false true 0 true, 1023 true true
sysctl security.mac.seeotheruids.specificgid=7 -> true, false false 7 true, 1023 true true
sysctl security.mac.seeotheruids.suser_privileged=0 -> true, false false 0 false, 1023 true true
sysctl security.mac.portacl.port_high=80 -> true, false false 0 true, 80 true true
sysctl security.mac.portacl.suser_exempt=0 -> true, false false 0 true, 1023 false true
sysctl security.mac.portacl.autoport_exempt=0 -> true, false false 0 true, 1023 true false
sysctl security.mac.portacl.rules=uid:80:tcp:81,gid:82:udp:0 -> true, false false 0 true, 1023 true true, false 80 true 81, true 82 false 0
sysctl security.mac.portacl.rules= -> true, false false 0 true, 1023 true true
sysctl security.mac.portacl.port_high=x -> no change
sysctl security.mac.portacl.enabled=1 -> no change
sysctl security.mac.biba.revocation_enabled=1 -> no change
";

/// Lists a module in its initial state.
fn list_fresh(alloc: Global, specs: &mut SpecList, module: Module) -> Result<(), AllocError> {
    let fresh = Spec::fresh(alloc, module)?;
    specs.list(registration_of(module, false, 0), fresh)
}

/// The modules that have settings.
const MODULES: &[Module] = &[
    Module::Biba,
    Module::Bsdextended,
    Module::Seeotheruids,
    Module::Portacl,
];

fn list_all(alloc: Global, specs: &mut SpecList) -> Result<(), AllocError> {
    for module in MODULES {
        list_fresh(alloc, specs, *module)?;
    }
    Ok(())
}

fn with_policies(rt: &impl Abort, alloc: Global) -> Result<State, AllocError> {
    let mut state = state_of(rt, alloc)?;
    list_all(alloc, &mut state.specs)?;
    Ok(state)
}

/// Adds the values of a spec's settings.
fn spell(text: &mut String, spec: &Spec) -> Result<(), AllocError> {
    match spec {
        Spec::Bsdextended { first_match, .. } => write!(text, "{first_match}"),
        Spec::Seeotheruids {
            primarygroup,
            specific,
            gid,
            suser,
        } => write!(text, ", {primarygroup} {specific} {gid} {suser}"),
        Spec::Portacl {
            rules,
            port_high,
            suser,
            autoport,
        } => {
            write!(text, ", {port_high} {suser} {autoport}")?;
            for rule in rules.as_slice() {
                let (group, id, tcp, port) = (rule.group, rule.id, rule.tcp, rule.port);
                write!(text, ", {group} {id} {tcp} {port}")?;
            }
            Ok(())
        }
        _ => Ok(()),
    }
}

fn spell_all(text: &mut String, specs: &SpecList) -> Result<(), AllocError> {
    for module in MODULES {
        if let Some(spec) = specs.spec_of(*module) {
            spell(text, spec)?;
        }
    }
    Ok(())
}

/// The settings of the policies.
fn spelled(alloc: Global, specs: &SpecList) -> Result<String, AllocError> {
    let mut text = String::new(alloc);
    spell_all(&mut text, specs)?;
    Ok(text)
}

/// The settings after the change of the policies that a line asks for.
fn after_line(alloc: Global, state: &State, line: &Line) -> Result<String, AllocError>
    requires line { IsFormedLine line.now }
{
    match relisting_of(state, &line.call) {
        Some(relisting) => {
            let specs = listed_after(alloc, state, &relisting)?;
            spelled(alloc, &specs)
        }
        None => String::from_str(alloc, "no change"),
    }
}

/// The settings after the call that is written as a script's line.
fn after_text(
    rt: &impl Abort,
    alloc: Global,
    state: &State,
    text: &str,
) -> Result<String, AllocError> {
    let script = script_of(rt, alloc, text)?;
    let (_task, line) = only_line(rt, &script);
    after_line(alloc, state, line)
}

fn is_changed(
    rt: &impl Abort,
    alloc: Global,
    state: &State,
    text: &str,
    wanted: &str,
) -> Result<(), AllocError> {
    let found = after_text(rt, alloc, state, text)?;
    wants(rt, text, found.as_str() == wanted);
    Ok(())
}

/// Each call changes the settings so.
fn are_changed(rt: &impl Abort, alloc: Global, state: &State) -> Result<(), AllocError> {
    for row in AFTER.lines() {
        match row.split_once(" -> ") {
            Some((text, wanted)) => is_changed(rt, alloc, state, text, wanted)?,
            None => wants(rt, row, false),
        }
    }
    Ok(())
}

/// The policies' settings are known, have such values, and are changed alone.
#[test]
fn settings_of_policies_that_are_listed(rt: HostRuntime) -> Result<(), AllocError> {
    let state = with_policies(&rt, rt.alloc())?;
    are_planned(&rt, rt.alloc(), &state, ENDS)?;
    are_planned(&rt, rt.alloc(), &state, OTHERS)?;
    are_changed(&rt, rt.alloc(), &state)
}

#[test]
fn a_policy_that_is_not_listed_has_no_setting(rt: HostRuntime) -> Result<(), AllocError> {
    let state = state_of(&rt, rt.alloc())?;
    are_planned(&rt, rt.alloc(), &state, UNLISTED)?;
    are_planned(&rt, rt.alloc(), &state, OTHERS)
}
