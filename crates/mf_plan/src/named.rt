//! Calls on processes, pipes and sockets, which go by name.
ghost use Rattle.std.specs.Option.{ok_or};
ghost use Rattle.std.specs.Prelude.{◌≡◌, ◌≤◌, [], ◌∷◌, length, if◌then◌else◌, is_some, Err, IfOk, IfSome, IsSome, None, Ok};
ghost use Rattle.mf_errno.specs.declared.errno.Errno.TheVariants as errno;
ghost use Rattle.mf_item.specs.declared.view.Kind.TheVariants as kinds;
ghost use Rattle.mf_objects.specs.Live.{live_at};
ghost use Rattle.mf_calls.specs.WellFormed.{IsName};
ghost use Rattle.mf_calls.specs.declared.script.Call.TheVariants as call;
ghost use Rattle.mf_plan.specs.Checks.{on};
ghost use Rattle.mf_plan.specs.Ended.{end_by, end_for, ended_by, end_in};
ghost use Rattle.mf_plan.specs.Found.{target_at};
ghost use Rattle.mf_plan.specs.Outline as outline;
ghost use Rattle.mf_plan.specs.Row as row;
ghost use Rattle.mf_plan.specs.Views.{entity_named};
ghost use Rattle.mf_plan.specs.Ways.{missing, straight, way_to};
ghost use Rattle.mf_plan.specs.Ways.Place.{Named, Sockets};

use crate::names::child_name;
use crate::outline::{Checks, ask, ask_binding, ask_delivery};
use crate::refusing::{is_full, overfills, refused_if};
use crate::state::State;
use mf_errno::Errno;
use mf_item::{CheckOp, Kind};
use mf_names::{Name, SCRIPT_LIMIT};
use mf_objects::{Id, MOST_MESSAGES, Objects, PIPE_LIMIT};

/// The tests of a call that makes an entity: EEXIST where `holder` has its name already, ENFILE where no further entity
/// can be made.
pub(crate) fn make(state: &State, holder: Option<Id>) -> Result<Option<Id>, Errno>
    ensures row { ended_by [] result
        ≡ end_in (row.through (straight (if is_some holder then Err errno.Eexist else Ok (tt {0})))
        (λ free. row.if_room state.now row.does_nothing)) }
    ensures target { IfOk result (λ target. target ≡ None) }
{
    if holder.is_some() {
        return Err(Errno::Eexist);
    }
    if is_full(&state.objects) {
        return Err(Errno::Enfile);
    }
    Ok(None)
}

/// The tests of `fork`.
pub(crate) fn fork(state: &State, task: &str, _caller: Id, child: &str) -> Result<Option<Id>, Errno>
    requires task { IsName task.now }
    requires child { IsName child.now }
    ensures row { ended_by [] result ≡ end_by state.now task.now _caller (call.Fork child.now) }
    ensures target { IfOk result (λ target. target ≡ None) }
{
    let name = child_name(task, child);
    make(state, state.objects.process(name.as_str()))
}

/// The live process, pipe or socket of a name.
fn named(objects: &Objects, kind: Kind, name: &str) -> Option<Id>
    ensures value { result ≡ entity_named objects.now kind name.now }
    ensures live { IfSome result (λ id. IsSome (live_at objects.now id)) }
{
    match kind {
        Kind::Process => objects.process(name),
        Kind::Vnode => None,
        Kind::Pipe => objects.pipe(name),
        Kind::Socket => objects.socket(name),
    }
}

/// The errno where none has the name.
fn missing(kind: Kind) -> Errno
    ensures { result ≡ missing kind }
{
    match kind {
        Kind::Process => Errno::Esrch,
        Kind::Vnode | Kind::Pipe | Kind::Socket => Errno::Enoent,
    }
}

/// Which process, pipe or socket a name names.
fn holder(state: &State, kind: Kind, name: &Name) -> Result<Id, Errno>
    ensures there { result ≡ ok_or (entity_named state.now.objects kind name.now) (missing kind) }
    ensures live { IfOk result (λ id. IsSome (live_at state.now.objects id)) }
{
    named(&state.objects, kind, name.as_str()).ok_or(missing(kind))
}

/// The process, pipe or socket of a name, and the check of it.
fn asked(
    state: &State,
    caller: Id,
    kind: Kind,
    op: CheckOp,
    name: &Name,
    checks: &mut Checks,
) -> Result<Id, Errno>
    requires empty { checks.old ≡ [] }
    requires asking { outline.IsAsking state.now.objects caller checks.old }
    ensures checks { checks.new ≡ row.if_there (λ id. on caller op id ∷ []) (λ e. []) result }
    ensures there { result ≡ (way_to state.now caller (Named kind name.now)).there }
    ensures live { IfOk result (λ id. IsSome (live_at state.now.objects id)) }
    ensures asking { outline.IsAsking state.now.objects caller checks.new }
{
    let id = holder(state, kind, name)?;
    ask(&state.objects, caller, op, id, checks);
    Ok(id)
}

/// One check of the process, pipe or socket of a name.
pub(crate) fn on_named(
    state: &State,
    caller: Id,
    kind: Kind,
    op: CheckOp,
    name: &Name,
    checks: &mut Checks,
) -> Result<Option<Id>, Errno>
    requires empty { checks.old ≡ [] }
    requires asking { outline.IsAsking state.now.objects caller checks.old }
    ensures row { ended_by checks.new result
        ≡ end_in (row.through (way_to state.now caller (Named kind name.now))
        (λ id. row.ask (on caller op id) row.does_nothing)) }
    ensures target { IfOk result (λ target. target
        ≡ target_at state.now caller (Named kind name.now)) }
    ensures asking { outline.IsAsking state.now.objects caller checks.new }
{
    let id = asked(state, caller, kind, op, name, checks)?;
    Ok(Some(id))
}

pub(crate) fn pread(
    state: &State,
    caller: Id,
    name: &Name,
    checks: &mut Checks,
) -> Result<Option<Id>, Errno>
    requires empty { checks.old ≡ [] }
    requires asking { outline.IsAsking state.now.objects caller checks.old }
    ensures row { ended_by checks.new result ≡ end_for state.now caller (call.Pread name.now) }
    ensures target { IfOk result (λ target. target
        ≡ target_at state.now caller (Named kinds.Pipe name.now)) }
    ensures asking { outline.IsAsking state.now.objects caller checks.new }
{
    let id = asked(state, caller, Kind::Pipe, CheckOp::PipeRead, name, checks)?;
    refused_if(state.objects.size(id) == 0, Errno::Eagain, id)
}

pub(crate) fn pwrite(
    state: &State,
    caller: Id,
    name: &Name,
    text: &[u8],
    checks: &mut Checks,
) -> Result<Option<Id>, Errno>
    requires empty { checks.old ≡ [] }
    requires text { length text.now ≤ SCRIPT_LIMIT }
    requires asking { outline.IsAsking state.now.objects caller checks.old }
    ensures row { ended_by checks.new result
        ≡ end_for state.now caller (call.Pwrite name.now text.now) }
    ensures target { IfOk result (λ target. target
        ≡ target_at state.now caller (Named kinds.Pipe name.now)) }
    ensures asking { outline.IsAsking state.now.objects caller checks.new }
{
    let id = asked(state, caller, Kind::Pipe, CheckOp::PipeWrite, name, checks)?;
    let full = overfills(PIPE_LIMIT, &state.objects, text, id);
    refused_if(full, Errno::Eagain, id)
}

/// The checks and tests of `send`. The receiver is looked up after the check of the sender, so a denial wins over its
/// ENOENT.
pub(crate) fn send(
    state: &State,
    caller: Id,
    from: &Name,
    to: &Name,
    checks: &mut Checks,
) -> Result<Option<Id>, Errno>
    requires empty { checks.old ≡ [] }
    requires asking { outline.IsAsking state.now.objects caller checks.old }
    ensures row { ended_by checks.new result
        ≡ end_for state.now caller (call.Send from.now to.now []) }
    ensures target { IfOk result (λ target. target
        ≡ target_at state.now caller (Sockets from.now to.now)) }
    ensures asking { outline.IsAsking state.now.objects caller checks.new }
{
    let objects = &state.objects;
    let from = holder(state, Kind::Socket, from)?;
    ask(objects, caller, CheckOp::SocketSend, from, checks);
    let to = holder(state, Kind::Socket, to)?;
    ask_delivery(objects, caller, from, to, checks);
    let full = objects.count(to) as usize >= MOST_MESSAGES;
    refused_if(full, Errno::Enobufs, to)
}

pub(crate) fn recv(
    state: &State,
    caller: Id,
    name: &Name,
    checks: &mut Checks,
) -> Result<Option<Id>, Errno>
    requires empty { checks.old ≡ [] }
    requires asking { outline.IsAsking state.now.objects caller checks.old }
    ensures row { ended_by checks.new result ≡ end_for state.now caller (call.Recv name.now) }
    ensures target { IfOk result (λ target. target
        ≡ target_at state.now caller (Named kinds.Socket name.now)) }
    ensures asking { outline.IsAsking state.now.objects caller checks.new }
{
    let id = asked(
        state,
        caller,
        Kind::Socket,
        CheckOp::SocketReceive,
        name,
        checks,
    )?;
    refused_if(state.objects.count(id) == 0, Errno::Eagain, id)
}

/// The check of `bind`.
pub(crate) fn bind(
    state: &State,
    caller: Id,
    name: &Name,
    tcp: bool,
    port: u16,
    checks: &mut Checks,
) -> Result<Option<Id>, Errno>
    requires empty { checks.old ≡ [] }
    requires asking { outline.IsAsking state.now.objects caller checks.old }
    ensures row { ended_by checks.new result
        ≡ end_for state.now caller (call.Bind name.now tcp port) }
    ensures target { IfOk result (λ target. target
        ≡ target_at state.now caller (Named kinds.Socket name.now)) }
    ensures asking { outline.IsAsking state.now.objects caller checks.new }
{
    let id = holder(state, Kind::Socket, name)?;
    ask_binding(&state.objects, caller, tcp, port, id, checks);
    Ok(Some(id))
}
