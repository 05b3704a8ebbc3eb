//! The checks and tests of the calls that load and unload modules.
ghost use Rattle.std.specs.Prelude.{◌≡◌, [], IfOk, None};
ghost use Rattle.mf_calls.specs.declared.script.Call.TheVariants as call;
ghost use Rattle.mf_plan.specs.Ended.{end_for, ended_by, end_in};
ghost use Rattle.mf_plan.specs.Loading as spec;
ghost use Rattle.mf_plan.specs.Outline as outline;
ghost use Rattle.mf_plan.specs.Row as row;

use crate::outline::{Checks, ask_alone, ask_privilege};
use crate::state::State;
use mf_errno::{Errno, Module, Priv};
use mf_item::CheckOp;
use mf_objects::Id;
use mf_policy::{load_fault, unload_fault};

/// How a load of the module ends.
fn end_of_load(state: &State, wanted: Module) -> Result<Option<Id>, Errno>
    ensures row { ended_by [] result
        ≡ end_in (row.refuse_by (spec.load_refusal state.now wanted) row.does_nothing) }
    ensures target { IfOk result (λ target. target ≡ None) }
{
    match load_fault(state.booted, &state.specs, state.numbers.given(), wanted) {
        None => Ok(None),
        Some(fault) => Err(fault.errno()),
    }
}

/// How an unload of the module ends.
fn end_of_unload(state: &State, wanted: Module) -> Result<Option<Id>, Errno>
    ensures row { ended_by [] result
        ≡ end_in (row.refuse_by (spec.unload_refusal state.now wanted) row.does_nothing) }
    ensures target { IfOk result (λ target. target ≡ None) }
{
    match unload_fault(&state.specs, wanted) {
        None => Ok(None),
        Some(fault) => Err(fault.errno()),
    }
}

pub(crate) fn kldload(
    state: &State,
    caller: Id,
    name: &str,
    checks: &mut Checks,
) -> Result<Option<Id>, Errno>
    requires empty { checks.old ≡ [] }
    requires asking { outline.IsAsking state.now.objects caller checks.old }
    ensures row { ended_by checks.new result ≡ end_for state.now caller (call.Kldload name.now) }
    ensures target { IfOk result (λ target. target ≡ None) }
    ensures asking { outline.IsAsking state.now.objects caller checks.new }
{
    ask_privilege(&state.objects, caller, Priv::KldLoad, checks);
    let wanted = Module::from_name(name).ok_or(Errno::Enoent)?;
    ask_alone(&state.objects, caller, CheckOp::KldLoad, checks);
    end_of_load(state, wanted)
}

pub(crate) fn kldunload(
    state: &State,
    caller: Id,
    name: &str,
    checks: &mut Checks,
) -> Result<Option<Id>, Errno>
    requires empty { checks.old ≡ [] }
    requires asking { outline.IsAsking state.now.objects caller checks.old }
    ensures row { ended_by checks.new result ≡ end_for state.now caller (call.Kldunload name.now) }
    ensures target { IfOk result (λ target. target ≡ None) }
    ensures asking { outline.IsAsking state.now.objects caller checks.new }
{
    ask_privilege(&state.objects, caller, Priv::KldUnload, checks);
    ask_alone(&state.objects, caller, CheckOp::KldUnload, checks);
    let wanted = Module::from_name(name).ok_or(Errno::Enoent)?;
    end_of_unload(state, wanted)
}
