//! Calls about modules and about settings of policies.
ghost use Rattle.std.specs.Prelude.{◌≡◌, ◌<◌, IsSome};
ghost use Rattle.mf_calls.specs.WellFormed.{IsFormedCall};
ghost use Rattle.mf_objects.specs.Live.{live_at};
ghost use Rattle.mf_plan.specs.Plan.{row_for};
ghost use Rattle.mf_audit.specs.Ends.{Goes};
ghost use Rattle.mf_audit.specs.Sorts.{sort_of};
ghost use Rattle.mf_audit.specs.declared.rows.Sort.TheVariants as sorts;

use crate::done::{Done, Shown};
use crate::kernel::Kernel;
use crate::modules::{load, unload};
use crate::processes::just_shown;
use crate::settings::{add, changing, set, sysctl};
use crate::walk::Walk;
use crate::ways::{listed, loading, unloading};
use mf_calls::Call;
use mf_errno::{Errno, Module};
use mf_parties::PartyId;
use mf_policy::Change;

/// About a module.
pub(super) fn on_module<'c>(
    kernel: &Kernel,
    walk: &mut Walk,
    _task: &str,
    me: PartyId,
    call: &'c Call,
) -> Result<Done<'c>, Errno>
    requires few { walk.old.asked < 50 }
    requires caller { IsSome (live_at kernel.now.objects me) }
    requires sort { sort_of call.now ≡ sorts.Module }
    ensures { Goes kernel.now _task.now me (row_for kernel.now _task.now call.now me) walk.old
        walk.new result }
{
    match call {
        Call::Kldload(name) => {
            let module = loading(kernel, walk, me, name)?;
            load(kernel, walk, me, module)
        }
        Call::Kldunload(name) => {
            let module = unloading(kernel, walk, me, name)?;
            unload(kernel, me, module)
        }
        _ => Err(Errno::Enoent),
    }
}

/// About a setting.
pub(super) fn on_setting<'c>(
    kernel: &Kernel,
    _task: &str,
    me: PartyId,
    call: &'c Call,
) -> Result<Done<'c>, Errno>
    requires formed { IsFormedCall call.now }
    requires sort { sort_of call.now ≡ sorts.Setting }
    ensures { (walk : _) → Goes kernel.now _task.now me
        (row_for kernel.now _task.now call.now me) walk walk result }
{
    match call {
        Call::Sysctl(name, value) => sysctl(kernel, me, name, value),
        Call::UgidfwList => {
            listed(kernel, Module::Bsdextended)?;
            just_shown(kernel, me, Shown::Rules)
        }
        Call::UgidfwAdd(rule) => {
            let module = changing(kernel, me, false, Some(Module::Bsdextended))?;
            add(kernel, me, module, Change::RuleAdd(*rule.get()))
        }
        Call::UgidfwSet(number, rule) => {
            let module = changing(kernel, me, false, Some(Module::Bsdextended))?;
            set(kernel, me, module, Change::RuleSet(*number, *rule.get()))
        }
        Call::UgidfwRemove(number) => {
            let module = changing(kernel, me, false, Some(Module::Bsdextended))?;
            set(kernel, me, module, Change::RuleRemove(*number))
        }
        _ => Err(Errno::Enoent),
    }
}
