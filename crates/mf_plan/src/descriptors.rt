//! Calls on descriptors: which file is open under a number, and the checks and tests of what is done with it.
ghost use Rattle.std.specs.Prelude.{◌≡◌, ◌≤◌, ℕ, List, [], length, option_and_then, IfOk, IfSome, IsSome};
ghost use Rattle.std.specs.Option.{option_copied};
ghost use Rattle.mf_objects.specs.Live.{is_process, live_at};
ghost use Rattle.mf_objects.specs.Lives.{IsLive, is_regular};
ghost use Rattle.mf_objects.specs.declared.id.Id.{Id};
ghost use Rattle.mf_calls.specs.WellFormed.{IsName};
ghost use Rattle.mf_calls.specs.declared.script.Call.TheVariants as call;
ghost use Rattle.mf_plan.specs.Ended.{end_for, ended_by};
ghost use Rattle.mf_plan.specs.declared.descriptors.Access.TheVariants.{Reading, Writing, Any};
ghost use Rattle.mf_plan.specs.declared.state.State.{State};
ghost use Rattle.mf_plan.specs.Found as found;
ghost use Rattle.mf_plan.specs.Names.{caller_name};
ghost use Rattle.mf_plan.specs.Outline as outline;
ghost use Rattle.mf_plan.specs.Rows as rows;
ghost use Rattle.mf_plan.specs.Views.{process_named};
ghost use Rattle.mf_plan.specs.Ways as ways;
ghost use Rattle.mf_plan.specs.Ways.Place.{Opened};

use crate::files::{read_opened, write_opened};
use crate::names::caller_of;
use crate::outline::Checks;
use crate::state::State;
use mf_calls::Call;
use mf_elem::LabelValue;
use mf_errno::{Errno, Module};
use mf_names::SCRIPT_LIMIT;
use mf_objects::{Fd, Id, Objects};
use mf_policy::value_in;

/// How a descriptor has to be open.
#[derive(Clone, Copy)]
pub enum Access {
    /// For reading.
    Reading,
    /// For writing.
    Writing,
    /// In any way.
    Any,
}

impl Access {
    /// Whether the descriptor is open so.
    fn allows(self, fd: &Fd) -> bool
        ensures { result ≡ ways.allows self fd.now }
    {
        match self {
            Access::Reading => fd.read,
            Access::Writing => fd.write,
            Access::Any => true,
        }
    }
}

/// The descriptor of that number of a process, where it is open so.
fn opened_at(objects: &Objects, caller: Id, access: Access, n: u32) -> Option<&Fd>
    requires { IsLive is_process objects.now caller }
    ensures value { option_copied result ≡ ways.opened_at objects.now caller access n }
    ensures file { IfSome result (λ fd. IsLive is_regular objects.now fd.now.file) }
{
    let fd = objects.fd(caller, n)?;
    if access.allows(fd) { Some(fd) } else { None }
}

/// How the descriptor that a call goes through has to be open, and its number; None for a call that goes through none. The clause says so
/// of every call by its place, so a call that is new and goes through one is refused here until it has its line.
fn access_of(call: &Call) -> Option<(Access, u32)>
    ensures { (s : State) (task : List ℕ) (me : Id) →
        option_and_then (λ used. ways.opened_at s.objects me used.0 used.1) result
        ≡ found.descriptor_at s me (rows.about_of s task me call.now).place }
{
    match call {
        Call::Fread(n) => Some((Access::Reading, *n)),
        Call::Fwrite(n, _) => Some((Access::Writing, *n)),
        Call::Close(n) => Some((Access::Any, *n)),
        _ => None,
    }
}

/// The descriptor that a call of the task's own process, or of its child of that name, goes through. Few calls go through one: so
/// who calls is looked up for these alone.
pub fn descriptor_of_call<'a>(
    state: &'a State,
    task: &str,
    child: Option<&str>,
    call: &Call,
) -> Option<&'a Fd>
    requires task { IsName task.now }
    requires child { IfSome (option_copied child) IsName }
    ensures value { option_copied result ≡ option_and_then
        (λ me. found.descriptor_at state.now me
        (rows.about_of state.now task.now me call.now).place)
        (process_named state.now.objects (caller_name task.now (option_copied child.entry))) }
    ensures file { IfSome result (λ fd. IsLive is_regular state.now.objects fd.now.file) }
{
    let (access, n) = access_of(call)?;
    let caller = caller_of(&state.objects, task, child)?;
    opened_at(&state.objects, caller, access, n)
}

/// What mac_biba has in its slot of an entity's label.
pub fn biba_value(state: &State, id: Id) -> LabelValue
    requires { IsSome (live_at state.now.objects id) }
    ensures { result ≡ rows.biba_value state.now id }
{
    match state.specs.slot_in(Module::Biba) {
        Some(slot) => value_in(&state.objects.label(id), slot),
        None => LabelValue::Unset,
    }
}

/// The file on which the caller has a descriptor of that number, which is open so.
fn opened(state: &State, caller: Id, access: Access, n: u32) -> Result<Id, Errno>
    requires { IsLive is_process state.now.objects caller }
    ensures way { (ways.way_to state.now caller (Opened access n)).checks ≡ [] }
    ensures there { result ≡ (ways.way_to state.now caller (Opened access n)).there }
    ensures live { IfOk result (λ id. IsLive is_regular state.now.objects id) }
{
    match opened_at(&state.objects, caller, access, n) {
        Some(fd) => Ok(fd.file),
        None => Err(Errno::Ebadf),
    }
}

// Calls

pub(crate) fn fread(
    state: &State,
    caller: Id,
    n: u32,
    checks: &mut Checks,
) -> Result<Option<Id>, Errno>
    requires empty { checks.old ≡ [] }
    requires asking { outline.IsAsking state.now.objects caller checks.old }
    ensures row { ended_by checks.new result ≡ end_for state.now caller (call.Fread n) }
    ensures target { IfOk result (λ target. target
        ≡ found.target_at state.now caller (Opened Reading n)) }
    ensures asking { outline.IsAsking state.now.objects caller checks.new }
{
    let id = opened(state, caller, Access::Reading, n)?;
    read_opened(state, caller, id, checks)
}

pub(crate) fn fwrite(
    state: &State,
    caller: Id,
    n: u32,
    text: &[u8],
    checks: &mut Checks,
) -> Result<Option<Id>, Errno>
    requires empty { checks.old ≡ [] }
    requires text { length text.now ≤ SCRIPT_LIMIT }
    requires asking { outline.IsAsking state.now.objects caller checks.old }
    ensures row { ended_by checks.new result
        ≡ end_for state.now caller (call.Fwrite n text.now) }
    ensures target { IfOk result (λ target. target
        ≡ found.target_at state.now caller (Opened Writing n)) }
    ensures asking { outline.IsAsking state.now.objects caller checks.new }
{
    let id = opened(state, caller, Access::Writing, n)?;
    write_opened(state, caller, text, id, checks)
}

pub(crate) fn close(state: &State, caller: Id, n: u32) -> Result<Option<Id>, Errno>
    requires { IsLive is_process state.now.objects caller }
    ensures row { ended_by [] result ≡ end_for state.now caller (call.Close n) }
    ensures target { IfOk result (λ target. target
        ≡ found.target_at state.now caller (Opened Any n)) }
{
    Ok(Some(opened(state, caller, Access::Any, n)?))
}
