//! The rows of calls about a file or a directory: what is checked and tested once it is found, and how they end.
ghost use Rattle.std.specs.Prelude.{◌≡◌, ◌<◌, ◌≢◌, nat_le, ℕ, List, length, IsSome};
ghost use Rattle.mf_calls.specs.declared.script.Call.TheVariants as call;
ghost use Rattle.mf_objects.specs.Live.{live_at};
ghost use Rattle.mf_objects.specs.Lives.{IsLive, is_vnode};
ghost use Rattle.mf_objects.specs.declared.limits.TheConstants.{MOST_ENTITIES};
ghost use Rattle.mf_plan.specs.Checks.{on};
ghost use Rattle.mf_plan.specs.Row as row;
ghost use Rattle.mf_plan.specs.Rows as rows;
ghost use Rattle.mf_plan.specs.Views as views;
ghost use Rattle.mf_audit.specs.Ends.{Goes, IsShown, payload_of};

use crate::done::{Done, Effect, Shown};
use crate::kernel::Kernel;
use crate::paths::last_name;
use crate::walk::{Check, Walk};
use mf_elem::Request;
use mf_errno::Errno;
use mf_item::CheckOp;
use mf_names::{CONTENT_LIMIT, Path};
use mf_objects::MOST_ENTITIES;
use mf_parties::PartyId;

/// A check of an entity, and then this is shown.
pub(crate) fn shown<'c>(
    kernel: &Kernel,
    walk: &mut Walk,
    me: PartyId,
    op: CheckOp,
    id: PartyId,
    shown: Shown,
) -> Result<Done<'c>, Errno>
    requires few { walk.old.asked < 200 }
    requires caller { IsSome (live_at kernel.now.objects me) }
    requires live { IsSome (live_at kernel.now.objects id) }
    requires shown { IsShown kernel.now shown }
    ensures { (task : List ℕ) → Goes kernel.now task me
        (row.ask (on me op id) (row.shows (payload_of kernel.now shown))) walk.old walk.new result }
{
    walk.ask(kernel, me, &Check::On(op, id), None);
    Ok(Done::shows(shown))
}

/// Whether it is a directory.
pub(crate) fn is_dir(kernel: &Kernel, id: PartyId) -> bool
    ensures { result ≡ views.is_dir kernel.now.objects id }
{
    kernel.parties.is_dir(id)
}

/// Whether no entity can be made.
pub(crate) fn is_full(kernel: &Kernel) -> bool
    ensures { result ≡ nat_le MOST_ENTITIES (length kernel.now.objects.live) }
{
    kernel.parties.len() >= MOST_ENTITIES as usize
}

/// Whether the text doesn't fit a file or pipe that holds at most so many bytes.
pub(crate) fn overfills(most: usize, kernel: &Kernel, text: &[u8], id: PartyId) -> bool
    ensures { result ≡ views.overfills most kernel.now.objects text.now id }
{
    let held = kernel.parties.content(id).len();
    held > most || text.len() > most - held
}

pub(crate) fn exec<'c>(
    kernel: &Kernel,
    walk: &mut Walk,
    me: PartyId,
    id: PartyId,
) -> Result<Done<'c>, Errno>
    requires few { walk.old.asked < 100 }
    requires caller { IsSome (live_at kernel.now.objects me) }
    requires live { IsSome (live_at kernel.now.objects id) }
    ensures { (task : List ℕ) → (path : List (List ℕ)) → Goes kernel.now task me
        ((rows.about_of kernel.now task me (call.Exec path)).row id) walk.old walk.new result }
{
    if kernel.parties.is_dir(id) {
        return Err(Errno::Eacces);
    }
    walk.ask(kernel, me, &Check::On(CheckOp::VnodeExec, id), None);
    Ok(Done::shows(Shown::Nothing))
}

/// The bytes of an open file.
pub(crate) fn reads<'c>(
    kernel: &Kernel,
    walk: &mut Walk,
    me: PartyId,
    id: PartyId,
) -> Result<Done<'c>, Errno>
    requires few { walk.old.asked < 200 }
    requires caller { IsSome (live_at kernel.now.objects me) }
    requires live { IsSome (live_at kernel.now.objects id) }
    ensures { (task : List ℕ) → Goes kernel.now task me
        (rows.reads kernel.now me id) walk.old walk.new result }
{
    shown(kernel, walk, me, CheckOp::VnodeRead, id, Shown::Head(id))
}

/// A text goes into an open file.
pub(crate) fn appends<'c>(
    kernel: &Kernel,
    walk: &mut Walk,
    me: PartyId,
    text: &'c [u8],
    id: PartyId,
) -> Result<Done<'c>, Errno>
    requires few { walk.old.asked < 200 }
    requires caller { IsSome (live_at kernel.now.objects me) }
    requires live { IsSome (live_at kernel.now.objects id) }
    ensures { (task : List ℕ) → Goes kernel.now task me
        (rows.appends kernel.now me text.now id) walk.old walk.new result }
{
    walk.ask(kernel, me, &Check::On(CheckOp::VnodeWrite, id), None);
    if overfills(CONTENT_LIMIT, kernel, text, id) {
        return Err(Errno::Efbig);
    }
    Ok(Done::changes(Effect::Append(id, text)))
}

pub(crate) fn read<'c>(
    kernel: &Kernel,
    walk: &mut Walk,
    me: PartyId,
    id: PartyId,
) -> Result<Done<'c>, Errno>
    requires few { walk.old.asked < 100 }
    requires caller { IsSome (live_at kernel.now.objects me) }
    requires live { IsSome (live_at kernel.now.objects id) }
    ensures { (task : List ℕ) → (path : List (List ℕ)) → Goes kernel.now task me
        ((rows.about_of kernel.now task me (call.Read path)).row id) walk.old walk.new result }
{
    if kernel.parties.is_dir(id) {
        return Err(Errno::Eisdir);
    }
    walk.ask(kernel, me, &Check::On(CheckOp::VnodeOpenRead, id), None);
    walk.ask(kernel, me, &Check::On(CheckOp::VnodeRead, id), None);
    Ok(Done::shows(Shown::Head(id)))
}

pub(crate) fn write<'c>(
    kernel: &Kernel,
    walk: &mut Walk,
    me: PartyId,
    text: &'c [u8],
    id: PartyId,
) -> Result<Done<'c>, Errno>
    requires few { walk.old.asked < 100 }
    requires caller { IsSome (live_at kernel.now.objects me) }
    requires live { IsSome (live_at kernel.now.objects id) }
    ensures { (task : List ℕ) → (path : List (List ℕ)) → Goes kernel.now task me
        ((rows.about_of kernel.now task me (call.Write path text.now)).row id) walk.old walk.new
        result }
{
    if kernel.parties.is_dir(id) {
        return Err(Errno::Eisdir);
    }
    walk.ask(kernel, me, &Check::On(CheckOp::VnodeOpenWrite, id), None);
    walk.ask(kernel, me, &Check::On(CheckOp::VnodeWrite, id), None);
    if overfills(CONTENT_LIMIT, kernel, text, id) {
        return Err(Errno::Efbig);
    }
    Ok(Done::changes(Effect::Append(id, text)))
}

pub(crate) fn readdir<'c>(
    kernel: &Kernel,
    walk: &mut Walk,
    me: PartyId,
    id: PartyId,
) -> Result<Done<'c>, Errno>
    requires few { walk.old.asked < 100 }
    requires caller { IsSome (live_at kernel.now.objects me) }
    requires live { IsSome (live_at kernel.now.objects id) }
    ensures { (task : List ℕ) → (path : List (List ℕ)) → Goes kernel.now task me
        ((rows.about_of kernel.now task me (call.Readdir path)).row id) walk.old walk.new result }
{
    if !kernel.parties.is_dir(id) {
        return Err(Errno::Enotdir);
    }
    walk.ask(kernel, me, &Check::On(CheckOp::VnodeReaddir, id), None);
    Ok(Done::shows(Shown::Names(id)))
}

pub(crate) fn chmod<'c>(
    kernel: &Kernel,
    walk: &mut Walk,
    me: PartyId,
    mode: u16,
    id: PartyId,
) -> Result<Done<'c>, Errno>
    requires few { walk.old.asked < 100 }
    requires caller { IsSome (live_at kernel.now.objects me) }
    requires live { IsSome (live_at kernel.now.objects id) }
    ensures { (task : List ℕ) → (path : List (List ℕ)) → Goes kernel.now task me
        ((rows.about_of kernel.now task me (call.Chmod path mode)).row id) walk.old walk.new
        result }
{
    walk.ask(kernel, me, &Check::On(CheckOp::VnodeSetmode, id), None);
    Ok(Done::changes(Effect::SetMode(id, mode)))
}

pub(crate) fn unlink<'c>(
    kernel: &Kernel,
    walk: &mut Walk,
    me: PartyId,
    dir: PartyId,
    id: PartyId,
) -> Result<Done<'c>, Errno>
    requires few { walk.old.asked < 100 }
    requires caller { IsSome (live_at kernel.now.objects me) }
    requires dir { IsSome (live_at kernel.now.objects dir) }
    requires live { IsLive is_vnode kernel.now.objects id }
    requires not_root { id.0 ≢ 0 }
    ensures { (task : List ℕ) → (path : List (List ℕ)) → Goes kernel.now task me
        ((rows.about_of kernel.now task me (call.Unlink path)).row (dir, id)) walk.old walk.new
        result }
{
    walk.ask(kernel, me, &Check::On(CheckOp::VnodeUnlinkDir, dir), None);
    walk.ask(kernel, me, &Check::On(CheckOp::VnodeUnlink, id), None);
    if kernel.parties.count(id) > 0 {
        return Err(Errno::Enotempty);
    }
    Ok(Done::changes(Effect::Unlink(id)))
}

/// A file or a directory is made, under the last component of the path.
pub(crate) fn make_file<'c>(
    kernel: &Kernel,
    walk: &mut Walk,
    me: PartyId,
    path: &'c Path,
    mode: u16,
    is_dir: bool,
    dir: PartyId,
) -> Result<Done<'c>, Errno>
    requires few { walk.old.asked < 100 }
    requires caller { IsSome (live_at kernel.now.objects me) }
    requires dir { IsSome (live_at kernel.now.objects dir) }
    ensures { (task : List ℕ) → Goes kernel.now task me
        (rows.makes_file kernel.now me path.now mode is_dir dir) walk.old walk.new result }
{
    walk.ask(kernel, me, &Check::On(CheckOp::VnodeCreate, dir), None);
    if is_full(kernel) {
        return Err(Errno::Enfile);
    }
    Ok(Done::changes(Effect::MakeFile {
        dir,
        name: last_name(path),
        mode,
        is_dir,
    }))
}

/// The row of a relabel of an entity.
pub(crate) fn relabel<'c>(
    kernel: &Kernel,
    walk: &mut Walk,
    me: PartyId,
    op: CheckOp,
    asked: (Request, PartyId),
) -> Result<Done<'c>, Errno>
    requires few { walk.old.asked < 100 }
    requires caller { IsSome (live_at kernel.now.objects me) }
    requires live { IsSome (live_at kernel.now.objects asked.1) }
    ensures { (task : List ℕ) → Goes kernel.now task me
        (row.relabel_by (on me op) asked) walk.old walk.new result }
{
    let (request, id) = asked;
    walk.ask(kernel, me, &Check::On(op, id), Some(request));
    Ok(Done::changes(Effect::Relabel(id, request)))
}
