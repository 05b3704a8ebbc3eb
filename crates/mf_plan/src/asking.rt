//! What each call asks for: its checks and tests in their order, and what it is about.
ghost use Rattle.std.specs.Prelude.{◌≡◌, [], ◌∷◌, Ok, Some, None, IfOk, ℕ, List};
ghost use Rattle.mf_calls.specs.WellFormed.{IsFormedCall, IsName};
ghost use Rattle.mf_item.specs.declared.operation.CheckOp.TheVariants as op;
ghost use Rattle.mf_item.specs.declared.view.Kind.TheVariants as kinds;
ghost use Rattle.mf_objects.specs.declared.id.Id.{Id};
ghost use Rattle.mf_plan.specs.Checks as check;
ghost use Rattle.mf_plan.specs.Ended.{end_by, ended_by};
ghost use Rattle.mf_plan.specs.Found.{asked_at, kind_of_place, target_at};
ghost use Rattle.mf_plan.specs.Outline as outlines;
ghost use Rattle.mf_plan.specs.Rows.{about_of};
ghost use Rattle.mf_plan.specs.declared.state.State.{State};

use crate::descriptors::{close, fread, fwrite};
use crate::files::{create, exec, on_file, open, read, readdir, unlink, write};
use crate::last_label::LastLabel;
use crate::loading::{kldload, kldunload};
use crate::named::{bind, fork, make, on_named, pread, pwrite, recv, send};
use crate::outline::{Checks, ask_privilege};
use crate::relabels::{relabel_caller, relabel_file, relabel_named};
use crate::settings::{change_setting, list_rules};
use crate::state::State;
use mf_calls::Call;
use mf_elem::Request;
use mf_errno::{Errno, Priv};
use mf_item::Kind::{Pipe, Process, Socket, Vnode};
use mf_item::{CheckOp, Kind};
use mf_objects::{Id, Objects};

/// The check of a privilege of the caller.
fn has_privilege(
    objects: &Objects,
    caller: Id,
    privilege: Priv,
    checks: &mut Checks,
) -> Result<Option<Id>, Errno>
    requires empty { checks.old ≡ [] }
    requires asking { outlines.IsAsking objects.now caller checks.old }
    ensures checks { checks.new ≡ check.for_privilege caller privilege ∷ [] }
    ensures target { result ≡ Ok None }
    ensures asking { outlines.IsAsking objects.now caller checks.new }
{
    ask_privilege(objects, caller, privilege, checks);
    Ok(None)
}

/// Collects the checks of a call of a live process, in order, and what a relabel asks for. First comes what the call is about, where it
/// stands; then the checks and tests of its row.
pub(crate) fn ask_for(
    state: &State,
    task: &str,
    caller: Id,
    call: &Call,
    last: &LastLabel,
    checks: &mut Checks,
    asked: &mut Option<Request>,
) -> Result<Option<Id>, Errno>
    requires task { IsName task.now }
    requires formed { IsFormedCall call.now }
    requires empty { checks.old ≡ [] }
    requires unasked { asked.old ≡ None }
    requires asking { outlines.IsAsking state.now.objects caller checks.old }
    ensures row { ended_by checks.new result ≡ end_by state.now task.now caller call.now }
    ensures target { IfOk result (λ target. target
        ≡ target_at state.now caller (about_of state.now task.now caller call.now).place) }
    ensures request { IfOk result (λ target. asked.new
        ≡ asked_at state.now (about_of state.now task.now caller call.now).place) }
    ensures asking { outlines.IsAsking state.now.objects caller checks.new }
{
    match kind_of(call) {
        Some(Process) => ask_on_process(state, task, caller, call, last, checks, asked),
        Some(Vnode) => ask_on_file(state, task, caller, call, last, checks, asked),
        Some(Pipe) => ask_on_pipe(state, task, caller, call, last, checks, asked),
        Some(Socket) => ask_on_socket(state, task, caller, call, last, checks, asked),
        None => ask_on_none(state, task, caller, call, checks),
    }
}

/// Of which kind the entity is that the call is about, where it names one. The clause says so of every call.
fn kind_of(call: &Call) -> Option<Kind>
    ensures { (state : State) → (task : List ℕ) → (me : Id)
        → result ≡ kind_of_place (about_of state task me call.now).place }
{
    match call {
        Call::Fork(_) | Call::Setpmac(_) => Some(Process),
        Call::See(_) | Call::Signal(_) | Call::Debug(_) | Call::Sched(_) => Some(Process),
        Call::Create(_) | Call::Mkdir(_) | Call::Exec(_) | Call::Unlink(_) => Some(Vnode),
        Call::Read(_) | Call::Write(..) | Call::Stat(_) | Call::Getfmac(_) => Some(Vnode),
        Call::Readdir(_) | Call::Chmod(..) | Call::Setfmac(..) => Some(Vnode),
        Call::OpenFd(..) | Call::Fread(_) | Call::Fwrite(..) | Call::Close(_) => Some(Vnode),
        Call::Pipe(_) | Call::Pread(_) | Call::Pwrite(..) | Call::Pstat(_) => Some(Pipe),
        Call::Setpipemac(..) => Some(Pipe),
        Call::Socket(_) | Call::Send(..) | Call::Recv(_) | Call::Seesock(_) => Some(Socket),
        Call::Setsockmac(..) | Call::Bind(..) => Some(Socket),
        Call::Exit | Call::Getpmac | Call::Priv(_) | Call::Kldstat => None,
        Call::Kldload(_) | Call::Kldunload(_) | Call::Sysctl(..) => None,
        Call::UgidfwList | Call::UgidfwAdd(_) | Call::UgidfwSet(..) | Call::UgidfwRemove(_) => None,
    }
}

/// The checks of a call about a process that it names or makes, or about the caller's own label, and what it finds. By its kind no
/// call comes to the last arm, here and below.
fn ask_on_process(
    state: &State,
    task: &str,
    caller: Id,
    call: &Call,
    last: &LastLabel,
    checks: &mut Checks,
    asked: &mut Option<Request>,
) -> Result<Option<Id>, Errno>
    requires task { IsName task.now }
    requires formed { IsFormedCall call.now }
    requires kind { kind_of_place (about_of state.now task.now caller call.now).place
        ≡ Some kinds.Process }
    requires empty { checks.old ≡ [] }
    requires unasked { asked.old ≡ None }
    requires asking { outlines.IsAsking state.now.objects caller checks.old }
    ensures row { ended_by checks.new result ≡ end_by state.now task.now caller call.now }
    ensures target { IfOk result (λ target. target
        ≡ target_at state.now caller (about_of state.now task.now caller call.now).place) }
    ensures request { IfOk result (λ target. asked.new
        ≡ asked_at state.now (about_of state.now task.now caller call.now).place) }
    ensures asking { outlines.IsAsking state.now.objects caller checks.new }
{
    match call {
        Call::Fork(child) => fork(state, task, caller, child.as_str()),
        Call::Setpmac(label) => relabel_caller(state, caller, label, last, checks, asked),
        Call::See(name) => on_named(state, caller, Process, CheckOp::ProcVisible, name, checks),
        Call::Signal(name) => on_named(state, caller, Process, CheckOp::ProcSignal, name, checks),
        Call::Debug(name) => on_named(state, caller, Process, CheckOp::ProcDebug, name, checks),
        Call::Sched(name) => on_named(state, caller, Process, CheckOp::ProcSched, name, checks),
        _ => Err(Errno::Esrch),
    }
}

/// The same of a call about a file or a directory.
fn ask_on_file(
    state: &State,
    _task: &str,
    caller: Id,
    call: &Call,
    last: &LastLabel,
    checks: &mut Checks,
    asked: &mut Option<Request>,
) -> Result<Option<Id>, Errno>
    requires formed { IsFormedCall call.now }
    requires kind { kind_of_place (about_of state.now _task.now caller call.now).place
        ≡ Some kinds.Vnode }
    requires empty { checks.old ≡ [] }
    requires unasked { asked.old ≡ None }
    requires asking { outlines.IsAsking state.now.objects caller checks.old }
    ensures row { ended_by checks.new result ≡ end_by state.now _task.now caller call.now }
    ensures target { IfOk result (λ target. target
        ≡ target_at state.now caller (about_of state.now _task.now caller call.now).place) }
    ensures request { IfOk result (λ target. asked.new
        ≡ asked_at state.now (about_of state.now _task.now caller call.now).place) }
    ensures asking { outlines.IsAsking state.now.objects caller checks.new }
{
    match call {
        Call::Exec(path) => exec(state, caller, path, checks),
        Call::Create(path) | Call::Mkdir(path) => create(state, caller, path, checks),
        Call::Read(path) => read(state, caller, path, checks),
        Call::Write(path, text) => write(state, caller, path, text.as_slice(), checks),
        Call::Stat(path) => on_file(state, caller, CheckOp::VnodeStat, path, checks),
        Call::Getfmac(path) => on_file(state, caller, CheckOp::VnodeStat, path, checks),
        Call::Setfmac(label, path) => {
            relabel_file(state, caller, label, path, last, checks, asked)
        }
        Call::Readdir(path) => readdir(state, caller, path, checks),
        Call::Chmod(path, _) => on_file(state, caller, CheckOp::VnodeSetmode, path, checks),
        Call::Unlink(path) => unlink(state, caller, path, checks),
        Call::OpenFd(path, reading, writing) => {
            open(state, caller, path, *reading, *writing, checks)
        }
        Call::Fread(n) => fread(state, caller, *n, checks),
        Call::Fwrite(n, text) => fwrite(state, caller, *n, text.as_slice(), checks),
        Call::Close(n) => close(state, caller, *n),
        _ => Err(Errno::Enoent),
    }
}

/// The same of a call about a pipe.
fn ask_on_pipe(
    state: &State,
    _task: &str,
    caller: Id,
    call: &Call,
    last: &LastLabel,
    checks: &mut Checks,
    asked: &mut Option<Request>,
) -> Result<Option<Id>, Errno>
    requires formed { IsFormedCall call.now }
    requires kind { kind_of_place (about_of state.now _task.now caller call.now).place
        ≡ Some kinds.Pipe }
    requires empty { checks.old ≡ [] }
    requires unasked { asked.old ≡ None }
    requires asking { outlines.IsAsking state.now.objects caller checks.old }
    ensures row { ended_by checks.new result ≡ end_by state.now _task.now caller call.now }
    ensures target { IfOk result (λ target. target
        ≡ target_at state.now caller (about_of state.now _task.now caller call.now).place) }
    ensures request { IfOk result (λ target. asked.new
        ≡ asked_at state.now (about_of state.now _task.now caller call.now).place) }
    ensures asking { outlines.IsAsking state.now.objects caller checks.new }
{
    match call {
        Call::Pipe(name) => make(state, state.objects.pipe(name.as_str())),
        Call::Pread(name) => pread(state, caller, name, checks),
        Call::Pwrite(name, text) => pwrite(state, caller, name, text.as_slice(), checks),
        Call::Pstat(name) => on_named(state, caller, Pipe, CheckOp::PipeStat, name, checks),
        Call::Setpipemac(label, name) => {
            let op = CheckOp::PipeRelabel;
            relabel_named(state, caller, Pipe, op, label, name, last, checks, asked)
        }
        _ => Err(Errno::Enoent),
    }
}

/// The same of a call about a socket.
fn ask_on_socket(
    state: &State,
    _task: &str,
    caller: Id,
    call: &Call,
    last: &LastLabel,
    checks: &mut Checks,
    asked: &mut Option<Request>,
) -> Result<Option<Id>, Errno>
    requires formed { IsFormedCall call.now }
    requires kind { kind_of_place (about_of state.now _task.now caller call.now).place
        ≡ Some kinds.Socket }
    requires empty { checks.old ≡ [] }
    requires unasked { asked.old ≡ None }
    requires asking { outlines.IsAsking state.now.objects caller checks.old }
    ensures row { ended_by checks.new result ≡ end_by state.now _task.now caller call.now }
    ensures target { IfOk result (λ target. target
        ≡ target_at state.now caller (about_of state.now _task.now caller call.now).place) }
    ensures request { IfOk result (λ target. asked.new
        ≡ asked_at state.now (about_of state.now _task.now caller call.now).place) }
    ensures asking { outlines.IsAsking state.now.objects caller checks.new }
{
    match call {
        Call::Socket(name) => make(state, state.objects.socket(name.as_str())),
        Call::Send(from, to, _) => send(state, caller, from, to.get(), checks),
        Call::Recv(name) => recv(state, caller, name, checks),
        Call::Seesock(name) => {
            let op = CheckOp::SocketVisible;
            on_named(state, caller, Socket, op, name, checks)
        }
        Call::Setsockmac(label, name) => {
            let op = CheckOp::SocketRelabel;
            relabel_named(state, caller, Socket, op, label, name, last, checks, asked)
        }
        Call::Bind(name, tcp, port) => bind(state, caller, name, *tcp, *port, checks),
        _ => Err(Errno::Enoent),
    }
}

/// The same of a call that names no entity.
fn ask_on_none(
    state: &State,
    task: &str,
    caller: Id,
    call: &Call,
    checks: &mut Checks,
) -> Result<Option<Id>, Errno>
    requires task { IsName task.now }
    requires formed { IsFormedCall call.now }
    requires kind { kind_of_place (about_of state.now task.now caller call.now).place ≡ None }
    requires empty { checks.old ≡ [] }
    requires asking { outlines.IsAsking state.now.objects caller checks.old }
    ensures row { ended_by checks.new result ≡ end_by state.now task.now caller call.now }
    ensures target { IfOk result (λ target. target
        ≡ target_at state.now caller (about_of state.now task.now caller call.now).place) }
    ensures request { asked_at state.now (about_of state.now task.now caller call.now).place
        ≡ None }
    ensures asking { outlines.IsAsking state.now.objects caller checks.new }
{
    match call {
        Call::Exit | Call::Kldstat => Ok(None),
        Call::Getpmac => Ok(Some(caller)),
        Call::Priv(privilege) => has_privilege(&state.objects, caller, *privilege, checks),
        Call::Kldload(name) => kldload(state, caller, name.as_str(), checks),
        Call::Kldunload(name) => kldunload(state, caller, name.as_str(), checks),
        Call::UgidfwList => list_rules(state, caller),
        Call::Sysctl(..) | Call::UgidfwAdd(_) | Call::UgidfwSet(..) | Call::UgidfwRemove(_) => {
            change_setting(state, task, caller, call)
        }
        _ => Err(Errno::Enoent),
    }
}
