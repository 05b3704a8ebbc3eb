//! Calls about pipes and sockets.
ghost use Rattle.std.specs.Prelude.{◌≡◌, ◌<◌, IsSome};
ghost use Rattle.mf_objects.specs.Live.{live_at};
ghost use Rattle.mf_plan.specs.Plan.{row_for};
ghost use Rattle.mf_audit.specs.Ends.{Goes};
ghost use Rattle.mf_audit.specs.Sorts.{sort_of};
ghost use Rattle.mf_audit.specs.declared.rows.Sort.TheVariants as sorts;

use crate::channels::{bind, pread, pwrite, recv, send};
use crate::done::{Done, Shown};
use crate::files::{relabel, shown};
use crate::kernel::Kernel;
use crate::walk::Walk;
use crate::ways::{asked_named, named, sockets};
use mf_calls::Call;
use mf_errno::Errno;
use mf_item::{CheckOp, Kind};
use mf_parties::PartyId;

/// About a pipe.
pub(super) fn on_pipe<'c>(
    kernel: &Kernel,
    walk: &mut Walk,
    _task: &str,
    me: PartyId,
    call: &'c Call,
) -> Result<Done<'c>, Errno>
    requires few { walk.old.asked < 50 }
    requires caller { IsSome (live_at kernel.now.objects me) }
    requires sort { sort_of call.now ≡ sorts.Pipe }
    ensures { Goes kernel.now _task.now me (row_for kernel.now _task.now call.now me) walk.old
        walk.new result }
{
    match call {
        Call::Pread(name) => {
            let id = named(kernel, Kind::Pipe, name)?;
            pread(kernel, walk, me, id)
        }
        Call::Pwrite(name, text) => {
            let id = named(kernel, Kind::Pipe, name)?;
            pwrite(kernel, walk, me, text.as_slice(), id)
        }
        Call::Pstat(name) => {
            let id = named(kernel, Kind::Pipe, name)?;
            shown(kernel, walk, me, CheckOp::PipeStat, id, Shown::Size(id))
        }
        Call::Setpipemac(text, name) => {
            let asked = asked_named(kernel, Kind::Pipe, text, name)?;
            relabel(kernel, walk, me, CheckOp::PipeRelabel, asked)
        }
        _ => Err(Errno::Enoent),
    }
}

/// About a socket, or two.
pub(super) fn on_socket<'c>(
    kernel: &Kernel,
    walk: &mut Walk,
    _task: &str,
    me: PartyId,
    call: &'c Call,
) -> Result<Done<'c>, Errno>
    requires few { walk.old.asked < 50 }
    requires caller { IsSome (live_at kernel.now.objects me) }
    requires sort { sort_of call.now ≡ sorts.Socket }
    ensures { Goes kernel.now _task.now me (row_for kernel.now _task.now call.now me) walk.old
        walk.new result }
{
    match call {
        Call::Send(from, to, text) => {
            let ends = sockets(kernel, walk, me, from, to.get())?;
            send(kernel, walk, me, text.get().as_slice(), ends)
        }
        Call::Recv(name) => {
            let id = named(kernel, Kind::Socket, name)?;
            recv(kernel, walk, me, id)
        }
        Call::Seesock(name) => {
            let id = named(kernel, Kind::Socket, name)?;
            shown(kernel, walk, me, CheckOp::SocketVisible, id, Shown::Nothing)
        }
        Call::Setsockmac(text, name) => {
            let asked = asked_named(kernel, Kind::Socket, text, name)?;
            relabel(kernel, walk, me, CheckOp::SocketRelabel, asked)
        }
        Call::Bind(name, tcp, port) => {
            let id = named(kernel, Kind::Socket, name)?;
            bind(kernel, walk, me, *tcp, *port, id)
        }
        _ => Err(Errno::Enoent),
    }
}
