//! What the calls on descriptors change.
ghost use Rattle.std.specs.Prelude.{◌≡◌, true, IfSome, IsSome};
ghost use Rattle.mf_objects.specs.declared.id.Id.{Id};
ghost use Rattle.mf_objects.specs.Live.{live_at};
ghost use Rattle.mf_plan.specs.Effect.Effect.{Close, Open};
ghost use Rattle.mf_perform.specs.Effect.{after};
ghost use Rattle.mf_perform.specs.Found as spec;
ghost use Rattle.mf_perform.specs.Suits.{Suits};

use mf_calls::Call;
use mf_elem::LabelValue;
use mf_objects::Id;
use mf_plan::{Found, State, biba_value};

/// What mac_biba has in the labels of a process and of the file that it opens.
#[derive(Clone, Copy)]
pub(crate) struct Opening {
    pub(crate) subject: LabelValue,
    pub(crate) object: LabelValue,
}

/// What mac_biba has in the labels of the caller and of the file, where the call opens one. For any other call both are Unset, and
/// nothing asks for them.
pub(crate) fn opening_of(state: &State, found: &Found, call: &Call) -> Opening
    requires caller { IfSome found.now.caller (λ id. IsSome (live_at state.now.objects id)) }
    requires file { IfSome found.now.target (λ id. IsSome (live_at state.now.objects id)) }
    ensures { spec.is_open_call call.now ≡ true
        → result ≡ spec.opening_of state.now found.now.caller found.now.target }
{
    if let Call::OpenFd(..) = call {
        return Opening {
            subject: biba_found(state, found.caller),
            object: biba_found(state, found.target),
        };
    }
    Opening {
        subject: LabelValue::Unset,
        object: LabelValue::Unset,
    }
}

/// What mac_biba has in the label of what was found; Unset where nothing was.
fn biba_found(state: &State, found: Option<Id>) -> LabelValue
    requires { IfSome found (λ id. IsSome (live_at state.now.objects id)) }
    ensures { result ≡ spec.biba_found state.now found }
{
    match found {
        Some(id) => biba_value(state, id),
        None => LabelValue::Unset,
    }
}

/// Opens the file in the process, under its lowest free number. It takes no memory.
pub(crate) fn open(
    state: &mut State,
    caller: Id,
    file: Option<Id>,
    read: bool,
    write: bool,
    opening: &Opening,
)
    requires { Suits state.old (spec.where_found
        (λ id. Open caller (spec.fd_by state.old caller read write opening.now id)) file) }
    ensures { (me : Id) → state.new ≡ after state.old me (spec.where_found
        (λ id. Open caller (spec.fd_by state.old caller read write opening.now id)) file) }
{
    if let Some(id) = file {
        let (subject, object) = (opening.subject, opening.object);
        let _number = state
            .objects
            .open_fd(caller, id, read, write, subject, object);
    }
}

/// Closes what the process has open under this number.
pub(crate) fn close(state: &mut State, caller: Id, number: u32)
    requires { Suits state.old (Close caller number) }
    ensures { state.new ≡ after state.old caller (Close caller number) }
{
    state.objects.close_fd(caller, number);
}
