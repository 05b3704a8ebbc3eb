//! The lines of one call: where its caller was lowered, which rules allowed it, and why it was denied.
ghost use Rattle.std.specs.Option.{option_map_or};
ghost use Rattle.std.specs.Prelude.{◌≡◌, ◌-◌, ◌≤◌, ◌++◌, [], false, length, slice_get, string_bytes, take, OnOk, OnErr};
ghost use Rattle.mf_text.specs.Appending.{Extends};
ghost use Rattle.mf_perform.specs.Passed.{passed};
ghost use Rattle.mf_why.specs.Ruled as tells;
ghost use Rattle.mf_why.specs.Slots.{HaveLabelSlots};
ghost use Rattle.mf_why.specs.Lines as lines;
ghost use Rattle.mf_why.specs.WhyText as spec;

use crate::causes::push_denial;
use crate::extent::Extent;
use crate::lowerings::push_lowered;
use crate::permits::push_permits;
use mf_calls::Call;
use mf_errno::Module;
use mf_plan::{Check, MOST_CHECKS, Plan, Reply, State};
use mf_policy::{Spec, SpecList, lowers};
use std::alloc::AllocError;

/// Whether the plan of a call with this reply is made at once: where it is told how policies decided the call, or where its caller
/// observes by most such calls. Of another call the outline may show that nothing is told.
pub fn is_planned(extent: Extent, reply: &Reply, listed: &SpecList, call: &Call) -> bool
    ensures { result ≡ false → tells.tells_decision extent reply.now listed.now ≡ false }
{
    tells_decision(extent, reply, listed) || (listed.lomac_slot().is_some() && observes(call))
}

/// Whether it is told why a call with this reply was denied, or which rules may have allowed it.
fn tells_decision(extent: Extent, reply: &Reply, listed: &SpecList) -> bool
    ensures { result ≡ tells.tells_decision extent reply.now listed.now }
{
    is_denied(reply) || (tells_permits(extent, reply) && is_ruled(listed))
}

/// Whether a call looks up a path, or reads what something holds.
fn observes(call: &Call) -> bool {
    matches!(
        call,
        Call::Exec(_)
            | Call::Create(_)
            | Call::Mkdir(_)
            | Call::Read(_)
            | Call::Write(..)
            | Call::Stat(_)
            | Call::Getfmac(_)
            | Call::Setfmac(..)
            | Call::Readdir(_)
            | Call::Chmod(..)
            | Call::Unlink(_)
            | Call::OpenFd(..)
            | Call::Fread(_)
            | Call::Pread(_)
            | Call::Pstat(_)
            | Call::Recv(_)
    )
}

/// Whether checks may lower their caller. Where none does, and no decision is told, the plan of their call isn't wanted.
pub fn may_lower(listed: &SpecList, checks: &[Check]) -> bool
    ensures { result ≡ tells.may_lower listed.now checks.now }
{
    listed.lomac_slot().is_some() && any_observes(checks)
}

/// Whether a subject observes by one of the checks.
fn any_observes(checks: &[Check]) -> bool
    ensures { result ≡ tells.any_observes checks.now }
{
    for check in checks {
        if lowers(check.op) {
            return true;
        }
    }
    false
}

fn is_denied(reply: &Reply) -> bool
    ensures { result ≡ tells.is_denied reply.now }
{
    matches!(reply, Reply::Denied { .. })
}

/// Whether a listed policy has rules.
fn is_ruled(listed: &SpecList) -> bool
    ensures { result ≡ tells.is_ruled listed.now }
{
    for place in 0..listed.len() {
        if has_rules(listed.spec(place)) {
            return true;
        }
    }
    false
}

fn has_rules(means: &Spec) -> bool
    ensures { result ≡ tells.has_rules means.now }
{
    matches!(means, Spec::Bsdextended { .. } | Spec::Portacl { .. })
}

/// The lines of a call with this plan and this reply, of the state before it.
pub fn push_call(
    extent: Extent,
    state: &State,
    place: &str,
    plan: &Plan,
    reply: &Reply,
    text: &mut String,
) -> Result<(), AllocError>
    requires { HaveLabelSlots state.now.specs }
    ensures ok { OnOk result (string_bytes text.new ≡ string_bytes text.old
        ++ spec.call_text extent state.now place.now plan.now reply.now) }
    ensures err { OnErr result (Extends (string_bytes text.old) (string_bytes text.new)) }
{
    push_lowerings(state, place, plan, reply, text)?;
    if tells_permits(extent, reply) {
        push_allowed(&state.specs, place, plan, text)?;
    }
    push_denied(state, place, plan, reply, text)
}

/// A line for each check that passed and lowered the caller.
fn push_lowerings(
    state: &State,
    place: &str,
    plan: &Plan,
    reply: &Reply,
    text: &mut String,
) -> Result<(), AllocError>
    ensures ok { OnOk result (string_bytes text.new ≡ string_bytes text.old
        ++ lines.lowerings_text state.now place.now (passed reply.now plan.now.items)) }
    ensures err { OnErr result (Extends (string_bytes text.old) (string_bytes text.new)) }
{
    match state.specs.lomac_slot() {
        None => Ok(()),
        Some(slot) => push_each_lowered(state, place, slot, plan, passed(reply, plan), text),
    }
}

/// How many checks of a plan passed.
fn passed(reply: &Reply, plan: &Plan) -> usize
    ensures passed { take result plan.now.items ≡ passed reply.now plan.now.items }
    ensures within { result ≤ length plan.now.items }
    ensures few { result ≤ MOST_CHECKS }
{
    match reply {
        Reply::Denied { item, .. } => plan.len().min((*item as usize).saturating_sub(1)),
        Reply::Ok(_) | Reply::Refused(_) => plan.len(),
    }
}

/// The same of the first checks.
fn push_each_lowered(
    state: &State,
    place: &str,
    slot: u8,
    plan: &Plan,
    checks: usize,
    text: &mut String,
) -> Result<(), AllocError>
    requires within { checks ≤ length plan.now.items }
    requires few { checks ≤ MOST_CHECKS }
    ensures ok { OnOk result (string_bytes text.new ≡ string_bytes text.old
        ++ lines.each_check (lines.lowered_text state.now.objects place.now slot) 1
        (take checks plan.now.items)) }
    ensures err { OnErr result (Extends (string_bytes text.old) (string_bytes text.new)) }
{
    for check in 0..checks {
        let item = plan.item(check);
        push_lowered(&state.objects, place, slot, check as u32 + 1, &item, text)?;
    }
    Ok(())
}

/// Whether the rules that allowed a call are told.
fn tells_permits(extent: Extent, reply: &Reply) -> bool
    ensures { result ≡ lines.tells_permits extent reply.now }
{
    matches!((extent, reply), (Extent::All, Reply::Ok(_)))
}

/// The rules that allowed each check.
fn push_allowed(
    listed: &SpecList,
    place: &str,
    plan: &Plan,
    text: &mut String,
) -> Result<(), AllocError>
    ensures ok { OnOk result (string_bytes text.new ≡ string_bytes text.old
        ++ lines.each_check (lines.permits_text listed.now place.now) 1 plan.now.items) }
    ensures err { OnErr result (Extends (string_bytes text.old) (string_bytes text.new)) }
{
    for check in 0..plan.len() {
        let item = plan.item(check);
        push_permits(listed, place, check as u32 + 1, &item, text)?;
    }
    Ok(())
}

/// Why a call was denied, where it was.
fn push_denied(
    state: &State,
    place: &str,
    plan: &Plan,
    reply: &Reply,
    text: &mut String,
) -> Result<(), AllocError>
    requires { HaveLabelSlots state.now.specs }
    ensures ok { OnOk result (string_bytes text.new ≡ string_bytes text.old
        ++ lines.denied_text state.now place.now plan.now.items reply.now) }
    ensures err { OnErr result (Extends (string_bytes text.old) (string_bytes text.new)) }
{
    match reply {
        Reply::Denied { item, by, .. } => push_numbered(state, place, plan, *item, *by, text),
        Reply::Ok(_) | Reply::Refused(_) => Ok(()),
    }
}

/// Why the check of that number was denied.
fn push_numbered(
    state: &State,
    place: &str,
    plan: &Plan,
    number: u8,
    by: Option<Module>,
    text: &mut String,
) -> Result<(), AllocError>
    requires { HaveLabelSlots state.now.specs }
    ensures ok { OnOk result (string_bytes text.new ≡ string_bytes text.old ++ option_map_or
        (lines.denial_text state.now place.now number by)
        (slice_get plan.now.items (number - 1)) []) }
    ensures err { OnErr result (Extends (string_bytes text.old) (string_bytes text.new)) }
{
    let check = (number as usize).saturating_sub(1);
    if check >= plan.len() {
        return Ok(());
    }
    let item = plan.item(check);
    push_denial(state, place, number, by, &item, text)
}
