//! Calls about processes, and those that make an entity.
ghost use Rattle.std.specs.Prelude.{◌≡◌, ◌<◌, ℕ, List, IsSome};
ghost use Rattle.mf_item.specs.declared.view.Kind.TheVariants as kinds;
ghost use Rattle.mf_objects.specs.Live.{live_at};
ghost use Rattle.mf_plan.specs.Checks.{on};
ghost use Rattle.mf_plan.specs.Plan.{row_for};
ghost use Rattle.mf_plan.specs.Row.{ask, does_nothing, through};
ghost use Rattle.mf_plan.specs.Ways.Place.{Named};
ghost use Rattle.mf_plan.specs.Ways.{way_to};
ghost use Rattle.mf_audit.specs.Ends.{Goes};
ghost use Rattle.mf_audit.specs.Sorts.{sort_of};
ghost use Rattle.mf_audit.specs.declared.rows.Sort.TheVariants as sorts;

use crate::done::{Done, Shown};
use crate::files::{make_file, shown};
use crate::kernel::Kernel;
use crate::paths::free;
use crate::processes::{
    exit, fork, just_shown, make_pipe, make_socket, privileged, relabel_itself,
};
use crate::walk::Walk;
use crate::ways::{claimed, named, unused, unused_child};
use mf_calls::Call;
use mf_cred::{DIRECTORY_MODE, FILE_MODE};
use mf_errno::Errno;
use mf_item::{CheckOp, Kind};
use mf_names::Name;
use mf_parties::PartyId;

/// Calls that make an entity.
pub(super) fn make<'c>(
    kernel: &Kernel,
    walk: &mut Walk,
    task: &str,
    me: PartyId,
    call: &'c Call,
) -> Result<Done<'c>, Errno>
    requires few { walk.old.asked < 50 }
    requires caller { IsSome (live_at kernel.now.objects me) }
    requires sort { sort_of call.now ≡ sorts.Making }
    ensures { Goes kernel.now task.now me (row_for kernel.now task.now call.now me) walk.old
        walk.new result }
{
    match call {
        Call::Fork(child) => {
            unused_child(kernel, task, child)?;
            fork(kernel, me, child)
        }
        Call::Pipe(name) => {
            unused(kernel, Kind::Pipe, name)?;
            make_pipe(kernel, me, name)
        }
        Call::Socket(name) => {
            unused(kernel, Kind::Socket, name)?;
            make_socket(kernel, me, name)
        }
        Call::Create(path) => {
            let dir = free(kernel, walk, me, path)?;
            make_file(kernel, walk, me, path, FILE_MODE, false, dir)
        }
        Call::Mkdir(path) => {
            let dir = free(kernel, walk, me, path)?;
            make_file(kernel, walk, me, path, DIRECTORY_MODE, true, dir)
        }
        _ => Err(Errno::Eexist),
    }
}

/// About the caller itself, or about nothing.
pub(super) fn on_itself<'c>(
    kernel: &Kernel,
    walk: &mut Walk,
    _task: &str,
    me: PartyId,
    call: &'c Call,
) -> Result<Done<'c>, Errno>
    requires few { walk.old.asked < 50 }
    requires caller { IsSome (live_at kernel.now.objects me) }
    requires sort { sort_of call.now ≡ sorts.Itself }
    ensures { Goes kernel.now _task.now me (row_for kernel.now _task.now call.now me) walk.old
        walk.new result }
{
    match call {
        Call::Exit => exit(kernel, me),
        Call::Priv(p) => privileged(kernel, walk, me, *p),
        Call::Getpmac => just_shown(kernel, me, Shown::Label(me)),
        Call::Setpmac(text) => {
            let request = claimed(kernel, Kind::Process, text)?;
            relabel_itself(kernel, walk, me, request)
        }
        Call::Kldstat => just_shown(kernel, me, Shown::Modules),
        _ => Err(Errno::Esrch),
    }
}

/// About a process that is named.
pub(super) fn on_process<'c>(
    kernel: &Kernel,
    walk: &mut Walk,
    _task: &str,
    me: PartyId,
    call: &'c Call,
) -> Result<Done<'c>, Errno>
    requires few { walk.old.asked < 50 }
    requires caller { IsSome (live_at kernel.now.objects me) }
    requires sort { sort_of call.now ≡ sorts.Process }
    ensures { Goes kernel.now _task.now me (row_for kernel.now _task.now call.now me) walk.old
        walk.new result }
{
    match call {
        Call::See(name) => checked(kernel, walk, me, CheckOp::ProcVisible, name),
        Call::Signal(name) => checked(kernel, walk, me, CheckOp::ProcSignal, name),
        Call::Debug(name) => checked(kernel, walk, me, CheckOp::ProcDebug, name),
        Call::Sched(name) => checked(kernel, walk, me, CheckOp::ProcSched, name),
        _ => Err(Errno::Esrch),
    }
}

/// A check of the process of a name, behind which nothing is shown.
fn checked<'c>(
    kernel: &Kernel,
    walk: &mut Walk,
    me: PartyId,
    op: CheckOp,
    name: &Name,
) -> Result<Done<'c>, Errno>
    requires few { walk.old.asked < 50 }
    requires caller { IsSome (live_at kernel.now.objects me) }
    ensures { (task : List ℕ) → Goes kernel.now task me
        (through (way_to kernel.now me (Named kinds.Process name.now))
        (λ id. ask (on me op id) does_nothing)) walk.old walk.new result }
{
    let id = named(kernel, Kind::Process, name)?;
    shown(kernel, walk, me, op, id, Shown::Nothing)
}
