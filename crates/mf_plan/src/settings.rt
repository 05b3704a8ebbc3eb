//! Calls that change a policy's setting.
ghost use Rattle.std.specs.Prelude.{◌≡◌, ℕ, true, List, [], IfOk, IfSome, IsSome, None, Some, if◌then◌else◌, option_and_then};
ghost use Rattle.mf_policy.specs.Sysctls.{asked_of, sysctl_named, sysctl_row};
ghost use Rattle.mf_calls.specs.WellFormed.{IsFormedCall};
ghost use Rattle.mf_policy.specs.IsChange.{IsChange};
ghost use Rattle.mf_objects.specs.declared.id.Id.{Id};
ghost use Rattle.mf_objects.specs.Live.{live_at};
ghost use Rattle.mf_calls.specs.declared.script.Call.TheVariants as call;
ghost use Rattle.mf_errno.specs.declared.module.Module.TheVariants as modules;
ghost use Rattle.mf_plan.specs.declared.reply.Payload.TheVariants as payload;
ghost use Rattle.mf_plan.specs.declared.state.State.{State};
ghost use Rattle.mf_plan.specs.Ended.{end_by, end_for, ended_by, end_in};
ghost use Rattle.mf_plan.specs.Found.{asked_change, is_setting, setting_at, tunable_at};
ghost use Rattle.mf_plan.specs.Row as row;
ghost use Rattle.mf_plan.specs.Rows.{about_of, set};
ghost use Rattle.mf_plan.specs.Settings as spec;
ghost use Rattle.mf_plan.specs.Ways.Place.{Setting};
ghost use Rattle.mf_plan.specs.Ways.{way_to};

use crate::state::State;
use mf_calls::Call;
use mf_errno::{Errno, Module};
use mf_objects::Id;
use mf_policy::{Change, Sysctl};

/// The change of a setting that the call asks for in this state, and of which module's. None where no module has a setting of that
/// name, where it is a tunable, where its module isn't listed, where it has no such value, and for a call that changes none. Whether
/// the change is refused is the plan's matter.
pub fn asked_change(state: &State, call: &Call) -> Option<(Module, Change)>
    ensures value { (task : List ℕ) → (me : Id)
        → result ≡ asked_change (about_of state.now task me call.now).place }
    ensures change { IsFormedCall call.now → IfSome result (λ asked. IsChange asked.1) }
{
    let (module, change) = setting_of(state, call);
    Some((module?, change?))
}

/// The module of the setting of that name.
fn owner_named(name: &str) -> Option<Module>
    ensures { result ≡ spec.owner_named name.now }
{
    match Sysctl::from_name(name) {
        Some(setting) => Some(setting.owner()),
        None => None,
    }
}

/// Whether the name is that of a tunable of a listed module.
fn is_tunable_named(state: &State, name: &str) -> bool
    ensures { result ≡ spec.is_tunable state.now.specs name.now }
{
    match Sysctl::from_name(name) {
        Some(setting) => setting.is_tunable() && state.specs.is_listed(setting.owner()),
        None => false,
    }
}

/// The change that a value asks of the setting of that name, which is no tunable.
fn asked_named(state: &State, name: &str, value: &str) -> Option<Change>
    ensures value { result ≡ option_and_then (λ s. if (sysctl_row s).tunable then None
        else asked_of s state.now.specs value.now) (sysctl_named name.now) }
    ensures change { IfSome result IsChange }
{
    match Sysctl::from_name(name) {
        Some(setting) if !setting.is_tunable() => setting.asked_of(&state.specs, value),
        _ => None,
    }
}

/// The module whose setting the call changes, and the change that it is to have, where they are known. The clause says so of every
/// call by its place, so a call that is new and changes a setting is refused here until it has its line.
fn setting_of(state: &State, call: &Call) -> (Option<Module>, Option<Change>)
    ensures value { (task : List ℕ) → (me : Id)
        → result ≡ setting_at (about_of state.now task me call.now).place }
    ensures change { IsFormedCall call.now → IfSome result.1 IsChange }
{
    match call {
        Call::Sysctl(name, value) => (
            owner_named(name.as_str()),
            asked_named(state, name.as_str(), value.as_str()),
        ),
        Call::UgidfwAdd(rule) => of_rules(Change::RuleAdd(*rule.get())),
        Call::UgidfwSet(number, rule) => of_rules(Change::RuleSet(*number, *rule.get())),
        Call::UgidfwRemove(number) => of_rules(Change::RuleRemove(*number)),
        _ => (None, None),
    }
}

/// Whether the call would change a tunable of a listed module.
fn is_tunable(state: &State, call: &Call) -> bool
    ensures { (task : List ℕ) → (me : Id)
        → result ≡ tunable_at (about_of state.now task me call.now).place }
{
    match call {
        Call::Sysctl(name, _) => is_tunable_named(state, name.as_str()),
        _ => false,
    }
}

/// A change of the rules about files.
fn of_rules(change: Change) -> (Option<Module>, Option<Change>)
    ensures { result ≡ (Some modules.Bsdextended, Some change) }
{
    (Some(Module::Bsdextended), Some(change))
}

/// The tests of a call that changes a setting.
pub(crate) fn change_setting(
    state: &State,
    _task: &str,
    caller: Id,
    call: &Call,
) -> Result<Option<Id>, Errno>
    requires lives { IsSome (live_at state.now.objects caller) }
    requires setting { is_setting (about_of state.now _task.now caller call.now).place ≡ true }
    ensures row { ended_by [] result ≡ end_by state.now _task.now caller call.now }
    ensures target { IfOk result (λ target. target ≡ None) }
{
    let (module, change) = setting_of(state, call);
    judge(state, caller, is_tunable(state, call), module, &change)
}

/// The tests of a change of a setting, which root alone makes, and of a tunable nobody. The change is wide, and lent.
fn judge(
    state: &State,
    caller: Id,
    tunable: bool,
    module: Option<Module>,
    change: &Option<Change>,
) -> Result<Option<Id>, Errno>
    requires lives { IsSome (live_at state.now.objects caller) }
    ensures row { ended_by [] result ≡ end_in (row.through
        (way_to state.now caller (Setting tunable «module» change.now))
        (set state.now payload.None)) }
    ensures target { IfOk result (λ target. target ≡ None) }
{
    if !state.objects.cred(caller).is_root() || tunable {
        return Err(Errno::Eperm);
    }
    let module = module.ok_or(Errno::Enoent)?;
    if !state.specs.is_listed(module) {
        return Err(Errno::Enoent);
    }
    match change {
        None => Err(Errno::Einval),
        Some(change) => match state.specs.answer_to(module, change).errno {
            Errno::Success => Ok(None),
            errno => Err(errno),
        },
    }
}

/// The test of the call that lists the rules about files.
pub(crate) fn list_rules(state: &State, _caller: Id) -> Result<Option<Id>, Errno>
    ensures row { ended_by [] result ≡ end_for state.now _caller call.UgidfwList }
    ensures target { IfOk result (λ target. target ≡ None) }
{
    if state.specs.is_listed(Module::Bsdextended) {
        Ok(None)
    } else {
        Err(Errno::Enoent)
    }
}
