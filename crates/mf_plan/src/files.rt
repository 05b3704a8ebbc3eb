//! Calls on files and directories: what a path leads to, and the checks and tests there.
ghost use Rattle.std.specs.Prelude.{◌≡◌, ◌≤◌, ◌<◌, [], ◌++◌, map, length, if◌then◌else◌, All, IfOk, IsSome, Err, Ok, Some};
ghost use Rattle.mf_text.specs.Results.{and_then};
ghost use Rattle.mf_item.specs.declared.operation.CheckOp.TheVariants as op;
ghost use Rattle.mf_objects.specs.Live.{live_at};
ghost use Rattle.mf_objects.specs.Lives.{IsLive, is_directory, is_regular, is_vnode};
ghost use Rattle.mf_calls.specs.declared.script.Call.TheVariants as call;
ghost use Rattle.mf_plan.specs.Checks.{on};
ghost use Rattle.mf_plan.specs.Ended.{end_for, ended_by, end_in, tail_of};
ghost use Rattle.mf_plan.specs.Found.{target_at};
ghost use Rattle.mf_plan.specs.Outline as outline;
ghost use Rattle.mf_plan.specs.Path.{lookup_along};
ghost use Rattle.mf_plan.specs.Places.{IsTarget};
ghost use Rattle.mf_plan.specs.Row as row;
ghost use Rattle.mf_plan.specs.Rows.{appends, reads};
ghost use Rattle.mf_plan.specs.Views.{is_dir};
ghost use Rattle.mf_plan.specs.Ways.Place.{Entry, File, Free};
ghost use Rattle.mf_plan.specs.Ways.{way_to};

use crate::lookup::lookup_along;
use crate::outline::{Checks, ask};
use crate::plan::MOST_CHECKS;
use crate::refusing::{is_full, overfills, refused_if};
use crate::state::State;
use crate::target::Target;
use mf_errno::Errno;
use mf_item::CheckOp;
use mf_names::{CONTENT_LIMIT, MOST_DESCRIPTORS, PATH_LIMIT, Path, SCRIPT_LIMIT};
use mf_objects::{Id, Objects};

// What a path leads to

/// Looks the path up, and adds the check of each component's look-up.
fn walk(objects: &Objects, caller: Id, path: &Path, checks: &mut Checks) -> Target
    requires empty { checks.old ≡ [] }
    requires asking { outline.IsAsking objects.now caller checks.old }
    ensures checks { checks.new
        ≡ map (on caller op.VnodeLookup) (lookup_along objects.now path.now).lookups }
    ensures few { length checks.new ≤ PATH_LIMIT }
    ensures target { result ≡ (lookup_along objects.now path.now).target }
    ensures live { IsTarget objects.now result }
    ensures asking { outline.IsAsking objects.now caller checks.new }
{
    let walk = lookup_along(objects, path);
    ask_lookups(objects, caller, walk.lookups.as_slice(), checks);
    walk.target
}

fn ask_lookups(objects: &Objects, caller: Id, dirs: &[Id], checks: &mut Checks)
    requires few { length dirs.now ≤ PATH_LIMIT }
    requires live { All (λ dir. IsLive is_directory objects.now dir) dirs.now }
    requires empty { checks.old ≡ [] }
    requires asking { outline.IsAsking objects.now caller checks.old }
    ensures checks { checks.new ≡ map (on caller op.VnodeLookup) dirs.now }
    ensures few { length checks.new ≡ length dirs.now }
    ensures asking { outline.IsAsking objects.now caller checks.new }
{
    for dir in dirs {
        ask(objects, caller, CheckOp::VnodeLookup, *dir, checks);
    }
}

/// The file or directory.
fn file(state: &State, caller: Id, path: &Path, checks: &mut Checks) -> Result<Id, Errno>
    requires empty { checks.old ≡ [] }
    requires asking { outline.IsAsking state.now.objects caller checks.old }
    ensures way { checks.new ≡ (way_to state.now caller (File path.now)).checks }
    ensures there { result ≡ (way_to state.now caller (File path.now)).there }
    ensures live { IfOk result (λ id. IsLive is_vnode state.now.objects id) }
    ensures few { length checks.new ≤ PATH_LIMIT }
    ensures asking { outline.IsAsking state.now.objects caller checks.new }
{
    walk(&state.objects, caller, path, checks).found(&state.objects)
}

/// The file. A directory is refused with this errno.
fn regular(
    state: &State,
    caller: Id,
    path: &Path,
    errno: Errno,
    checks: &mut Checks,
) -> Result<Id, Errno>
    requires empty { checks.old ≡ [] }
    requires asking { outline.IsAsking state.now.objects caller checks.old }
    ensures way { checks.new ≡ (way_to state.now caller (File path.now)).checks }
    ensures there { result ≡ and_then (way_to state.now caller (File path.now)).there
        (λ id. if is_dir state.now.objects id then Err errno else Ok id) }
    ensures live { IfOk result (λ id. IsLive is_regular state.now.objects id) }
    ensures few { length checks.new ≤ PATH_LIMIT }
    ensures asking { outline.IsAsking state.now.objects caller checks.new }
{
    let id = file(state, caller, path, checks)?;
    if state.objects.file(id).dir {
        return Err(errno);
    }
    Ok(id)
}

/// The directory in which the last name is free.
fn free(state: &State, caller: Id, path: &Path, checks: &mut Checks) -> Result<Id, Errno>
    requires empty { checks.old ≡ [] }
    requires asking { outline.IsAsking state.now.objects caller checks.old }
    ensures way { checks.new ≡ (way_to state.now caller (Free path.now)).checks }
    ensures there { result ≡ (way_to state.now caller (Free path.now)).there }
    ensures live { IfOk result (λ dir. IsLive is_directory state.now.objects dir) }
    ensures few { length checks.new ≤ PATH_LIMIT }
    ensures asking { outline.IsAsking state.now.objects caller checks.new }
{
    walk(&state.objects, caller, path, checks).free()
}

/// The directory, and its entry.
fn entry(state: &State, caller: Id, path: &Path, checks: &mut Checks) -> Result<(Id, Id), Errno>
    requires empty { checks.old ≡ [] }
    requires asking { outline.IsAsking state.now.objects caller checks.old }
    ensures way { checks.new ≡ (way_to state.now caller (Entry path.now)).checks }
    ensures there { result ≡ (way_to state.now caller (Entry path.now)).there }
    ensures live { IfOk result (λ found. IsLive is_directory state.now.objects found.0
        × IsLive is_vnode state.now.objects found.1) }
    ensures few { length checks.new ≤ PATH_LIMIT }
    ensures asking { outline.IsAsking state.now.objects caller checks.new }
{
    walk(&state.objects, caller, path, checks).entry()
}

// Calls

/// One check of what is at the end of the path.
pub(crate) fn on_file(
    state: &State,
    caller: Id,
    op: CheckOp,
    path: &Path,
    checks: &mut Checks,
) -> Result<Option<Id>, Errno>
    requires empty { checks.old ≡ [] }
    requires asking { outline.IsAsking state.now.objects caller checks.old }
    ensures row { ended_by checks.new result ≡ end_in (row.through (way_to state.now caller
        (File path.now)) (λ id. row.ask (on caller op id) row.does_nothing)) }
    ensures target { IfOk result (λ target. target ≡ target_at state.now caller (File path.now)) }
    ensures asking { outline.IsAsking state.now.objects caller checks.new }
{
    let id = file(state, caller, path, checks)?;
    ask(&state.objects, caller, op, id, checks);
    Ok(Some(id))
}

pub(crate) fn exec(
    state: &State,
    caller: Id,
    path: &Path,
    checks: &mut Checks,
) -> Result<Option<Id>, Errno>
    requires empty { checks.old ≡ [] }
    requires asking { outline.IsAsking state.now.objects caller checks.old }
    ensures row { ended_by checks.new result ≡ end_for state.now caller (call.Exec path.now) }
    ensures target { IfOk result (λ target. target ≡ target_at state.now caller (File path.now)) }
    ensures asking { outline.IsAsking state.now.objects caller checks.new }
{
    let id = regular(state, caller, path, Errno::Eacces, checks)?;
    ask(&state.objects, caller, CheckOp::VnodeExec, id, checks);
    Ok(Some(id))
}

/// The checks and tests of `create` and `mkdir`.
pub(crate) fn create(
    state: &State,
    caller: Id,
    path: &Path,
    checks: &mut Checks,
) -> Result<Option<Id>, Errno>
    requires empty { checks.old ≡ [] }
    requires asking { outline.IsAsking state.now.objects caller checks.old }
    ensures row { ended_by checks.new result ≡ end_for state.now caller (call.Create path.now) }
    ensures target { IfOk result (λ target. target ≡ target_at state.now caller (Free path.now)) }
    ensures asking { outline.IsAsking state.now.objects caller checks.new }
{
    let dir = free(state, caller, path, checks)?;
    ask(&state.objects, caller, CheckOp::VnodeCreate, dir, checks);
    refused_if(is_full(&state.objects), Errno::Enfile, dir)
}

/// The check of reading a file that is open.
pub(crate) fn read_opened(
    state: &State,
    caller: Id,
    id: Id,
    checks: &mut Checks,
) -> Result<Option<Id>, Errno>
    requires live { IsSome (live_at state.now.objects id) }
    requires few { length checks.old < MOST_CHECKS }
    requires asking { outline.IsAsking state.now.objects caller checks.old }
    ensures checks { checks.new ≡ checks.old ++ (reads state.now caller id).checks }
    ensures end { result ≡ Ok (Some id) }
    ensures asking { outline.IsAsking state.now.objects caller checks.new }
{
    ask(&state.objects, caller, CheckOp::VnodeRead, id, checks);
    Ok(Some(id))
}

/// The check of appending to a file that is open, and the test that the text fits.
pub(crate) fn write_opened(
    state: &State,
    caller: Id,
    text: &[u8],
    id: Id,
    checks: &mut Checks,
) -> Result<Option<Id>, Errno>
    requires live { IsSome (live_at state.now.objects id) }
    requires text { length text.now ≤ SCRIPT_LIMIT }
    requires few { length checks.old < MOST_CHECKS }
    requires asking { outline.IsAsking state.now.objects caller checks.old }
    ensures checks { checks.new ≡ checks.old ++ (appends state.now caller text.now id).checks }
    ensures end { tail_of result ≡ (appends state.now caller text.now id).tail }
    ensures target { IfOk result (λ target. target ≡ Some id) }
    ensures asking { outline.IsAsking state.now.objects caller checks.new }
{
    ask(&state.objects, caller, CheckOp::VnodeWrite, id, checks);
    let full = overfills(CONTENT_LIMIT, &state.objects, text, id);
    refused_if(full, Errno::Efbig, id)
}

pub(crate) fn read(
    state: &State,
    caller: Id,
    path: &Path,
    checks: &mut Checks,
) -> Result<Option<Id>, Errno>
    requires empty { checks.old ≡ [] }
    requires asking { outline.IsAsking state.now.objects caller checks.old }
    ensures row { ended_by checks.new result ≡ end_for state.now caller (call.Read path.now) }
    ensures target { IfOk result (λ target. target ≡ target_at state.now caller (File path.now)) }
    ensures asking { outline.IsAsking state.now.objects caller checks.new }
{
    let id = regular(state, caller, path, Errno::Eisdir, checks)?;
    ask(&state.objects, caller, CheckOp::VnodeOpenRead, id, checks);
    read_opened(state, caller, id, checks)
}

pub(crate) fn write(
    state: &State,
    caller: Id,
    path: &Path,
    text: &[u8],
    checks: &mut Checks,
) -> Result<Option<Id>, Errno>
    requires empty { checks.old ≡ [] }
    requires text { length text.now ≤ SCRIPT_LIMIT }
    requires asking { outline.IsAsking state.now.objects caller checks.old }
    ensures row { ended_by checks.new result
        ≡ end_for state.now caller (call.Write path.now text.now) }
    ensures target { IfOk result (λ target. target ≡ target_at state.now caller (File path.now)) }
    ensures asking { outline.IsAsking state.now.objects caller checks.new }
{
    let id = regular(state, caller, path, Errno::Eisdir, checks)?;
    ask(&state.objects, caller, CheckOp::VnodeOpenWrite, id, checks);
    write_opened(state, caller, text, id, checks)
}

pub(crate) fn readdir(
    state: &State,
    caller: Id,
    path: &Path,
    checks: &mut Checks,
) -> Result<Option<Id>, Errno>
    requires empty { checks.old ≡ [] }
    requires asking { outline.IsAsking state.now.objects caller checks.old }
    ensures row { ended_by checks.new result ≡ end_for state.now caller (call.Readdir path.now) }
    ensures target { IfOk result (λ target. target ≡ target_at state.now caller (File path.now)) }
    ensures asking { outline.IsAsking state.now.objects caller checks.new }
{
    let id = file(state, caller, path, checks)?;
    if !state.objects.file(id).dir {
        return Err(Errno::Enotdir);
    }
    ask(&state.objects, caller, CheckOp::VnodeReaddir, id, checks);
    Ok(Some(id))
}

pub(crate) fn unlink(
    state: &State,
    caller: Id,
    path: &Path,
    checks: &mut Checks,
) -> Result<Option<Id>, Errno>
    requires empty { checks.old ≡ [] }
    requires asking { outline.IsAsking state.now.objects caller checks.old }
    ensures row { ended_by checks.new result ≡ end_for state.now caller (call.Unlink path.now) }
    ensures target { IfOk result (λ target. target ≡ target_at state.now caller (Entry path.now)) }
    ensures asking { outline.IsAsking state.now.objects caller checks.new }
{
    let (dir, id) = entry(state, caller, path, checks)?;
    ask(&state.objects, caller, CheckOp::VnodeUnlinkDir, dir, checks);
    ask(&state.objects, caller, CheckOp::VnodeUnlink, id, checks);
    refused_if(state.objects.count(id) > 0, Errno::Enotempty, id)
}

/// The checks and tests of `open`: for reading, for writing, or for both.
pub(crate) fn open(
    state: &State,
    caller: Id,
    path: &Path,
    read: bool,
    write: bool,
    checks: &mut Checks,
) -> Result<Option<Id>, Errno>
    requires empty { checks.old ≡ [] }
    requires asking { outline.IsAsking state.now.objects caller checks.old }
    ensures row { ended_by checks.new result
        ≡ end_for state.now caller (call.OpenFd path.now read write) }
    ensures target { IfOk result (λ target. target ≡ target_at state.now caller (File path.now)) }
    ensures asking { outline.IsAsking state.now.objects caller checks.new }
{
    let id = regular(state, caller, path, Errno::Eisdir, checks)?;
    if read {
        ask(&state.objects, caller, CheckOp::VnodeOpenRead, id, checks);
    }
    if write {
        ask(&state.objects, caller, CheckOp::VnodeOpenWrite, id, checks);
    }
    let full = state.objects.fd_count(caller) >= MOST_DESCRIPTORS;
    refused_if(full, Errno::Emfile, id)
}
