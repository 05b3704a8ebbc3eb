//! The rows of calls that load and unload modules.
ghost use Rattle.std.specs.Prelude.{◌<◌, ℕ, List, IsSome};
ghost use Rattle.mf_calls.specs.declared.script.Call.TheVariants as call;
ghost use Rattle.mf_objects.specs.Live.{live_at};
ghost use Rattle.mf_plan.specs.Rows as rows;
ghost use Rattle.mf_audit.specs.Ends.{Goes};

use crate::done::{Done, Effect, Shown};
use crate::kernel::Kernel;
use crate::walk::{Check, Walk};
use mf_errno::{Errno, Module};
use mf_item::CheckOp;
use mf_parties::PartyId;
use mf_policy::{load_fault, unload_fault, wants_slot};

/// The module is loaded.
pub(crate) fn load<'c>(
    kernel: &Kernel,
    walk: &mut Walk,
    me: PartyId,
    module: Module,
) -> Result<Done<'c>, Errno>
    requires few { walk.old.asked < 100 }
    requires caller { IsSome (live_at kernel.now.objects me) }
    ensures { (task : List ℕ) → (name : List ℕ) → Goes kernel.now task me
        ((rows.about_of kernel.now task me (call.Kldload name)).row «module») walk.old walk.new
        result }
{
    walk.ask(kernel, me, &Check::Alone(CheckOp::KldLoad), None);
    if let Some(fault) = load_fault(true, &kernel.listed, kernel.given, module) {
        return Err(fault.errno());
    }
    let slot = if wants_slot(module) {
        Some(kernel.given)
    } else {
        None
    };
    Ok(Done {
        shown: Shown::Slot(slot),
        effect: Effect::Load(module),
    })
}

/// The module is unloaded.
pub(crate) fn unload<'c>(kernel: &Kernel, _me: PartyId, module: Module) -> Result<Done<'c>, Errno>
    ensures { (task : List ℕ) → (name : List ℕ) → (walk : _) → Goes kernel.now task _me
        ((rows.about_of kernel.now task _me (call.Kldunload name)).row «module») walk walk result }
{
    match unload_fault(&kernel.listed, module) {
        None => Ok(Done::changes(Effect::Unload(module))),
        Some(fault) => Err(fault.errno()),
    }
}
