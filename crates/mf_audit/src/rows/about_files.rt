//! Calls about files and directories.
ghost use Rattle.std.specs.Prelude.{◌≡◌, ◌<◌, IsSome};
ghost use Rattle.mf_objects.specs.Live.{live_at};
ghost use Rattle.mf_plan.specs.Plan.{row_for};
ghost use Rattle.mf_audit.specs.Ends.{Goes};
ghost use Rattle.mf_audit.specs.Sorts.{sort_of};
ghost use Rattle.mf_audit.specs.declared.rows.Sort.TheVariants as sorts;

use crate::descriptors::open;
use crate::done::{Done, Shown};
use crate::files::{appends, chmod, exec, read, readdir, reads, relabel, shown, unlink, write};
use crate::kernel::Kernel;
use crate::paths::{entry, file};
use crate::processes::close;
use crate::walk::Walk;
use crate::ways::{Access, asked_file, opened};
use mf_calls::Call;
use mf_errno::Errno;
use mf_item::CheckOp;
use mf_parties::PartyId;

/// About a file or a directory at a path. By its sort no call comes to the last arm, here and below.
pub(super) fn on_file<'c>(
    kernel: &Kernel,
    walk: &mut Walk,
    _task: &str,
    me: PartyId,
    call: &'c Call,
) -> Result<Done<'c>, Errno>
    requires few { walk.old.asked < 50 }
    requires caller { IsSome (live_at kernel.now.objects me) }
    requires sort { sort_of call.now ≡ sorts.File }
    ensures { Goes kernel.now _task.now me (row_for kernel.now _task.now call.now me) walk.old
        walk.new result }
{
    match call {
        Call::Exec(path) => {
            let id = file(kernel, walk, me, path)?;
            exec(kernel, walk, me, id)
        }
        Call::Read(path) => {
            let id = file(kernel, walk, me, path)?;
            read(kernel, walk, me, id)
        }
        Call::Write(path, text) => {
            let id = file(kernel, walk, me, path)?;
            write(kernel, walk, me, text.as_slice(), id)
        }
        Call::Stat(path) => {
            let id = file(kernel, walk, me, path)?;
            shown(kernel, walk, me, CheckOp::VnodeStat, id, Shown::Stat(id))
        }
        Call::Getfmac(path) => {
            let id = file(kernel, walk, me, path)?;
            shown(kernel, walk, me, CheckOp::VnodeStat, id, Shown::Label(id))
        }
        Call::Readdir(path) => {
            let id = file(kernel, walk, me, path)?;
            readdir(kernel, walk, me, id)
        }
        Call::OpenFd(path, reading, writing) => {
            let id = file(kernel, walk, me, path)?;
            open(kernel, walk, me, *reading, *writing, id)
        }
        _ => Err(Errno::Enoent),
    }
}

/// About one that gets another label or mode, or goes.
pub(super) fn change_file<'c>(
    kernel: &Kernel,
    walk: &mut Walk,
    _task: &str,
    me: PartyId,
    call: &'c Call,
) -> Result<Done<'c>, Errno>
    requires few { walk.old.asked < 50 }
    requires caller { IsSome (live_at kernel.now.objects me) }
    requires sort { sort_of call.now ≡ sorts.Change }
    ensures { Goes kernel.now _task.now me (row_for kernel.now _task.now call.now me) walk.old
        walk.new result }
{
    match call {
        Call::Setfmac(text, path) => {
            let asked = asked_file(kernel, walk, me, text, path)?;
            relabel(kernel, walk, me, CheckOp::VnodeRelabel, asked)
        }
        Call::Chmod(path, mode) => {
            let id = file(kernel, walk, me, path)?;
            chmod(kernel, walk, me, *mode, id)
        }
        Call::Unlink(path) => {
            let entry = entry(kernel, walk, me, path)?;
            unlink(kernel, walk, me, entry.0, entry.1)
        }
        _ => Err(Errno::Enoent),
    }
}

/// About an open file.
pub(super) fn on_descriptor<'c>(
    kernel: &Kernel,
    walk: &mut Walk,
    _task: &str,
    me: PartyId,
    call: &'c Call,
) -> Result<Done<'c>, Errno>
    requires few { walk.old.asked < 50 }
    requires caller { IsSome (live_at kernel.now.objects me) }
    requires sort { sort_of call.now ≡ sorts.Descriptor }
    ensures { Goes kernel.now _task.now me (row_for kernel.now _task.now call.now me) walk.old
        walk.new result }
{
    match call {
        Call::Fread(n) => {
            let id = opened(kernel, me, Access::Reading, *n)?;
            reads(kernel, walk, me, id)
        }
        Call::Fwrite(n, text) => {
            let id = opened(kernel, me, Access::Writing, *n)?;
            appends(kernel, walk, me, text.as_slice(), id)
        }
        Call::Close(n) => {
            let _file = opened(kernel, me, Access::Any, *n)?;
            close(kernel, me, *n)
        }
        _ => Err(Errno::Ebadf),
    }
}
