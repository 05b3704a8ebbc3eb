//! The rows of calls of a process about itself, and of those that make an entity under a name.
ghost use Rattle.std.specs.Prelude.{◌<◌, ℕ, List, IsSome};
ghost use Rattle.mf_calls.specs.declared.script.Call.TheVariants as call;
ghost use Rattle.mf_item.specs.declared.operation.CheckOp.TheVariants as op;
ghost use Rattle.mf_objects.specs.Live.{live_at};
ghost use Rattle.mf_plan.specs.Checks as checks;
ghost use Rattle.mf_plan.specs.Row as row;
ghost use Rattle.mf_plan.specs.Rows as rows;
ghost use Rattle.mf_audit.specs.Ends.{Goes, IsShown, payload_of};

use crate::done::{Done, Effect, Shown};
use crate::files::is_full;
use crate::kernel::Kernel;
use crate::walk::{Check, Walk};
use mf_elem::Request;
use mf_errno::{Errno, Priv};
use mf_item::CheckOp;
use mf_names::Name;
use mf_parties::PartyId;

/// A child of the task is made.
pub(crate) fn fork<'c>(kernel: &Kernel, _me: PartyId, child: &'c Name) -> Result<Done<'c>, Errno>
    ensures { (task : List ℕ) → (walk : _) → Goes kernel.now task _me
        ((rows.about_of kernel.now task _me (call.Fork child.now)).row (tt {0})) walk walk result }
{
    if is_full(kernel) {
        return Err(Errno::Enfile);
    }
    Ok(Done::changes(Effect::Fork(child.as_str())))
}

/// A pipe is made.
pub(crate) fn make_pipe<'c>(
    kernel: &Kernel,
    _me: PartyId,
    name: &'c Name,
) -> Result<Done<'c>, Errno>
    ensures { (task : List ℕ) → (walk : _) → Goes kernel.now task _me
        ((rows.about_of kernel.now task _me (call.Pipe name.now)).row (tt {0})) walk walk result }
{
    if is_full(kernel) {
        return Err(Errno::Enfile);
    }
    Ok(Done::changes(Effect::MakePipe(name.as_str())))
}

/// A socket is made.
pub(crate) fn make_socket<'c>(
    kernel: &Kernel,
    _me: PartyId,
    name: &'c Name,
) -> Result<Done<'c>, Errno>
    ensures { (task : List ℕ) → (walk : _) → Goes kernel.now task _me
        ((rows.about_of kernel.now task _me (call.Socket name.now)).row (tt {0})) walk walk result }
{
    if is_full(kernel) {
        return Err(Errno::Enfile);
    }
    Ok(Done::changes(Effect::MakeSocket(name.as_str())))
}

/// The caller exits.
pub(crate) fn exit<'c>(_kernel: &Kernel, _me: PartyId) -> Result<Done<'c>, Errno>
    ensures { (task : List ℕ) → (walk : _) → Goes _kernel.now task _me
        ((rows.about_of _kernel.now task _me call.Exit).row (tt {0})) walk walk result }
{
    Ok(Done::changes(Effect::End))
}

/// A descriptor is closed.
pub(crate) fn close<'c>(_kernel: &Kernel, _me: PartyId, n: u32) -> Result<Done<'c>, Errno>
    ensures { (task : List ℕ) → (walk : _) → (id : _) → Goes _kernel.now task _me
        ((rows.about_of _kernel.now task _me (call.Close n)).row id) walk walk result }
{
    Ok(Done::changes(Effect::Close(n)))
}

/// This is shown.
pub(crate) fn just_shown<'c>(
    _kernel: &Kernel,
    _me: PartyId,
    shown: Shown,
) -> Result<Done<'c>, Errno>
    requires { IsShown _kernel.now shown }
    ensures { (task : List ℕ) → (walk : _) → Goes _kernel.now task _me
        (row.shows (payload_of _kernel.now shown)) walk walk result }
{
    Ok(Done::shows(shown))
}

/// The check of a privilege.
pub(crate) fn privileged<'c>(
    kernel: &Kernel,
    walk: &mut Walk,
    me: PartyId,
    p: Priv,
) -> Result<Done<'c>, Errno>
    requires few { walk.old.asked < 100 }
    requires caller { IsSome (live_at kernel.now.objects me) }
    ensures { (task : List ℕ) → Goes kernel.now task me
        (row.ask (checks.for_privilege me p) row.does_nothing) walk.old walk.new result }
{
    walk.ask(kernel, me, &Check::Privilege(p), None);
    Ok(Done::shows(Shown::Nothing))
}

/// The row of a relabel of the caller itself.
pub(crate) fn relabel_itself<'c>(
    kernel: &Kernel,
    walk: &mut Walk,
    me: PartyId,
    request: Request,
) -> Result<Done<'c>, Errno>
    requires few { walk.old.asked < 100 }
    requires caller { IsSome (live_at kernel.now.objects me) }
    ensures { (task : List ℕ) → Goes kernel.now task me
        (row.relabel_by (λ id. checks.by_itself me op.CredRelabel) (request, me)) walk.old walk.new
        result }
{
    walk.ask(
        kernel,
        me,
        &Check::Alone(CheckOp::CredRelabel),
        Some(request),
    );
    Ok(Done::changes(Effect::Relabel(me, request)))
}
