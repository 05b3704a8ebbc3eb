//! What the calls on pipes and sockets change, and how bytes come to a file or a pipe.
ghost use Rattle.std.specs.Prelude.{◌≡◌, ◌<◌, ◌≤◌, OnOk, OnErr, IsOk, false, length};
ghost use Rattle.mf_names.specs.declared.limits.TheConstants.{SCRIPT_LIMIT};
ghost use Rattle.mf_objects.specs.declared.limits.TheConstants.{ID_LIMIT};
ghost use Rattle.mf_objects.specs.declared.id.Id.{Id};
ghost use Rattle.mf_objects.specs.Live.{is_process};
ghost use Rattle.mf_objects.specs.Lives.{IsLive};
ghost use Rattle.mf_plan.specs.Effect.Effect.{Append, Deliver, Empty, Make, Receive};
ghost use Rattle.mf_perform.specs.Effect.{after, takes_memory};
ghost use Rattle.mf_perform.specs.Found.{new_channel, where_found};
ghost use Rattle.mf_perform.specs.Suits.{Suits};

use crate::processes::label_from;
use mf_item::Kind;
use mf_objects::Id;
use mf_plan::State;
use std::alloc::{AllocError, Global};

/// What carries bytes between processes.
#[derive(Clone, Copy)]
pub(crate) enum Channel {
    Pipe,
    Socket,
}

/// Makes a pipe or a socket. If memory runs out, the state is unchanged.
pub(crate) fn make_channel(
    alloc: Global,
    state: &mut State,
    caller: Id,
    channel: Channel,
    name: &str,
) -> Result<(), AllocError>
    requires caller { IsLive is_process state.old.objects caller }
    requires room { Suits state.old (Make name.now (new_channel channel caller)) }
    requires next { state.old.objects.next < ID_LIMIT }
    ensures ok { OnOk result (state.new
        ≡ after state.old caller (Make name.now (new_channel channel caller))) }
    ensures err { OnErr result (state.new ≡ state.old) }
{
    match channel {
        Channel::Pipe => {
            let label = label_from(state, caller, Kind::Pipe);
            state.objects.add_pipe(alloc, name, caller, &label)?;
        }
        Channel::Socket => {
            let label = label_from(state, caller, Kind::Socket);
            state.objects.add_socket(alloc, name, caller, &label)?;
        }
    }
    Ok(())
}

/// Takes all bytes out of the pipe.
pub(crate) fn empty(state: &mut State, pipe: Option<Id>)
    requires { Suits state.old (where_found Empty pipe) }
    ensures { (me : Id) → state.new ≡ after state.old me (where_found Empty pipe) }
{
    if let Some(id) = pipe {
        state.objects.clear(id);
    }
}

/// Puts the bytes at the end of what the file or pipe holds. If memory runs out, the state is
/// unchanged.
pub(crate) fn append(state: &mut State, target: Option<Id>, text: &[u8]) -> Result<(), AllocError>
    requires { Suits state.old (where_found (λ id. Append id text.now) target) }
    ensures ok { OnOk result ((me : Id)
        → state.new ≡ after state.old me (where_found (λ id. Append id text.now) target)) }
    ensures err { OnErr result (state.new ≡ state.old) }
    ensures memory { takes_memory (where_found (λ id. Append id text.now) target) ≡ false
        → IsOk result }
{
    match target {
        Some(id) => state.objects.append(id, text),
        None => Ok(()),
    }
}

/// Puts a message into the socket. If memory runs out, the state is unchanged.
pub(crate) fn deliver(
    alloc: Global,
    state: &mut State,
    socket: Option<Id>,
    text: &[u8],
) -> Result<(), AllocError>
    requires text { length text.now ≤ SCRIPT_LIMIT }
    requires room { Suits state.old (where_found (λ id. Deliver id text.now) socket) }
    ensures ok { OnOk result ((me : Id)
        → state.new ≡ after state.old me (where_found (λ id. Deliver id text.now) socket)) }
    ensures err { OnErr result (state.new ≡ state.old) }
    ensures memory { takes_memory (where_found (λ id. Deliver id text.now) socket) ≡ false
        → IsOk result }
{
    match socket {
        Some(id) => state.objects.push_message(alloc, id, text),
        None => Ok(()),
    }
}

/// Takes the oldest message out of the socket.
pub(crate) fn receive(state: &mut State, socket: Option<Id>)
    requires { Suits state.old (where_found Receive socket) }
    ensures { (me : Id) → state.new ≡ after state.old me (where_found Receive socket) }
{
    if let Some(id) = socket {
        state.objects.pop_message(id);
    }
}
