//! What the call of an entry changes: entities alone.
ghost use Rattle.std.specs.Prelude.{◌≡◌, ◌+◌, ◌<◌, ◌≤◌, IfSome, IsOk, OnOk, OnErr, false};
ghost use Rattle.mf_objects.specs.declared.limits.TheConstants.{ID_LIMIT};
ghost use Rattle.mf_objects.specs.Live.{is_process};
ghost use Rattle.mf_objects.specs.Lives.{IsLive};
ghost use Rattle.mf_calls.specs.Tasks.{is_change};
ghost use Rattle.mf_calls.specs.WellFormed.{IsFormedCall, IsFormedLine, IsName};
ghost use Rattle.mf_perform.specs.Effect.{after, takes_memory};
ghost use Rattle.mf_perform.specs.Found.{after_found, effect_found, effect_of};
ghost use Rattle.mf_perform.specs.Suits.{Suits};

use crate::channels::{Channel, append, deliver, empty, make_channel, receive};
use crate::descriptors::{Opening, close, open};
use crate::files::{make_file, set_mode, unlink};
use crate::labels::relabel;
use crate::processes::{exit, fork};
use mf_calls::{Call, DIRECTORY_MODE, FILE_MODE, Line};
use mf_objects::Id;
use mf_plan::{Found, State};
use std::alloc::{AllocError, Global};

/// Does the call of a line of the task, by what was found of it in the state before its checks, and
/// by what mac_biba had there in the labels. The checks have lowered its caller by now, and nothing
/// else has changed since. It mustn't be a change of the policies, which is made by `listed_after`
/// and `put_listed`. If memory runs out, the state is unchanged.
pub(crate) fn perform(
    alloc: Global,
    state: &mut State,
    task: &str,
    line: &Line,
    found: &Found,
    opening: &Opening,
) -> Result<(), AllocError>
    requires task { IsName task.now }
    requires line { IsFormedLine line.now }
    requires entry { is_change line.now.call ≡ false }
    requires caller { IfSome found.now.caller (λ me. IsLive is_process state.old.objects me) }
    requires suits { IfSome found.now.caller (λ me. Suits state.old
        (effect_found state.old task.now me opening.now line.now.call
        found.now.target found.now.request)) }
    requires next { state.old.objects.next < ID_LIMIT }
    ensures ok { OnOk result (state.new
        ≡ after_found state.old task.now opening.now line.now.call found.now) }
    ensures err { OnErr result (state.new ≡ state.old) }
    ensures next { state.new.objects.next ≤ state.old.objects.next + 1 }
    ensures rises { state.old.objects.next ≤ state.new.objects.next }
    ensures kept { state.new.booted ≡ state.old.booted }
    ensures memory { takes_memory (effect_of state.old task.now opening.now line.now.call found.now)
        ≡ false → IsOk result }
{
    match found.caller {
        Some(caller) => perform_by(alloc, state, task, caller, found, opening, &line.call),
        None => Ok(()),
    }
}

/// Does the call of a live process of the task, by the target and the request that were found. The
/// clause says of every call what `effect_found` has, so one that is new and changes something is
/// refused here until it has its line. Changes of the policies aren't made here.
fn perform_by(
    alloc: Global,
    state: &mut State,
    task: &str,
    caller: Id,
    found: &Found,
    opening: &Opening,
    call: &Call,
) -> Result<(), AllocError>
    requires task { IsName task.now }
    requires formed { IsFormedCall call.now }
    requires entry { is_change call.now ≡ false }
    requires caller { IsLive is_process state.old.objects caller }
    requires suits { Suits state.old (effect_found state.old task.now caller opening.now call.now
        found.now.target found.now.request) }
    requires next { state.old.objects.next < ID_LIMIT }
    ensures ok { OnOk result (state.new ≡ after state.old caller (effect_found state.old task.now
        caller opening.now call.now found.now.target found.now.request)) }
    ensures err { OnErr result (state.new ≡ state.old) }
    ensures memory { takes_memory (effect_found state.old task.now caller opening.now call.now
        found.now.target found.now.request) ≡ false → IsOk result }
{
    let target = found.target;
    match call {
        Call::Fork(child) => return fork(alloc, state, task, caller, child.as_str()),
        Call::Exit => exit(state, caller),
        Call::Setpmac(_) | Call::Setfmac(..) | Call::Setpipemac(..) | Call::Setsockmac(..) => {
            return relabel(state, target, &found.request);
        }
        Call::Create(path) => {
            return make_file(alloc, state, caller, target, path, FILE_MODE, false);
        }
        Call::Mkdir(path) => {
            return make_file(alloc, state, caller, target, path, DIRECTORY_MODE, true);
        }
        Call::Write(_, text) | Call::Fwrite(_, text) | Call::Pwrite(_, text) => {
            return append(state, target, text.as_slice());
        }
        Call::Chmod(_, mode) => set_mode(state, target, *mode),
        Call::Unlink(_) => unlink(state, target),
        Call::OpenFd(_, read, write) => open(state, caller, target, *read, *write, opening),
        Call::Close(number) => close(state, caller, *number),
        Call::Pipe(name) => {
            return make_channel(alloc, state, caller, Channel::Pipe, name.as_str());
        }
        Call::Socket(name) => {
            return make_channel(alloc, state, caller, Channel::Socket, name.as_str());
        }
        Call::Pread(_) => empty(state, target),
        Call::Send(_, _, text) => return deliver(alloc, state, target, text.get().as_slice()),
        Call::Recv(_) => receive(state, target),
        _ => {}
    }
    Ok(())
}
