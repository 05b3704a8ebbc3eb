//! The rows of calls on pipes and sockets.
ghost use Rattle.std.specs.Prelude.{◌<◌, ℕ, List, IsSome};
ghost use Rattle.mf_calls.specs.declared.script.Call.TheVariants as call;
ghost use Rattle.mf_objects.specs.Live.{live_at};
ghost use Rattle.mf_plan.specs.Rows as rows;
ghost use Rattle.mf_audit.specs.Ends.{Goes};

use crate::done::{Done, Effect, Shown};
use crate::files::overfills;
use crate::kernel::Kernel;
use crate::walk::{Check, Walk};
use mf_errno::Errno;
use mf_item::CheckOp;
use mf_objects::{MOST_MESSAGES, PIPE_LIMIT};
use mf_parties::PartyId;

pub(crate) fn pread<'c>(
    kernel: &Kernel,
    walk: &mut Walk,
    me: PartyId,
    id: PartyId,
) -> Result<Done<'c>, Errno>
    requires few { walk.old.asked < 100 }
    requires caller { IsSome (live_at kernel.now.objects me) }
    requires live { IsSome (live_at kernel.now.objects id) }
    ensures { (task : List ℕ) → (name : List ℕ) → Goes kernel.now task me
        ((rows.about_of kernel.now task me (call.Pread name)).row id) walk.old walk.new result }
{
    walk.ask(kernel, me, &Check::On(CheckOp::PipeRead, id), None);
    if kernel.parties.content(id).is_empty() {
        return Err(Errno::Eagain);
    }
    Ok(Done {
        shown: Shown::Head(id),
        effect: Effect::Empty(id),
    })
}

pub(crate) fn pwrite<'c>(
    kernel: &Kernel,
    walk: &mut Walk,
    me: PartyId,
    text: &'c [u8],
    id: PartyId,
) -> Result<Done<'c>, Errno>
    requires few { walk.old.asked < 100 }
    requires caller { IsSome (live_at kernel.now.objects me) }
    requires live { IsSome (live_at kernel.now.objects id) }
    ensures { (task : List ℕ) → (name : List ℕ) → Goes kernel.now task me
        ((rows.about_of kernel.now task me (call.Pwrite name text.now)).row id) walk.old walk.new
        result }
{
    walk.ask(kernel, me, &Check::On(CheckOp::PipeWrite, id), None);
    if overfills(PIPE_LIMIT, kernel, text, id) {
        return Err(Errno::Eagain);
    }
    Ok(Done::changes(Effect::Append(id, text)))
}

/// A message goes from the first of two sockets to the second.
pub(crate) fn send<'c>(
    kernel: &Kernel,
    walk: &mut Walk,
    me: PartyId,
    text: &'c [u8],
    ends: (PartyId, PartyId),
) -> Result<Done<'c>, Errno>
    requires few { walk.old.asked < 100 }
    requires caller { IsSome (live_at kernel.now.objects me) }
    requires from { IsSome (live_at kernel.now.objects ends.0) }
    requires to { IsSome (live_at kernel.now.objects ends.1) }
    ensures { (task : List ℕ) → (from to : List ℕ) → Goes kernel.now task me
        ((rows.about_of kernel.now task me (call.Send from to text.now)).row ends) walk.old walk.new
        result }
{
    let (from, to) = ends;
    walk.ask(
        kernel,
        me,
        &Check::BySocket(from, CheckOp::SocketDeliver, to),
        None,
    );
    if kernel.parties.count(to) >= MOST_MESSAGES {
        return Err(Errno::Enobufs);
    }
    Ok(Done::changes(Effect::Deliver(to, text)))
}

pub(crate) fn recv<'c>(
    kernel: &Kernel,
    walk: &mut Walk,
    me: PartyId,
    id: PartyId,
) -> Result<Done<'c>, Errno>
    requires few { walk.old.asked < 100 }
    requires caller { IsSome (live_at kernel.now.objects me) }
    requires live { IsSome (live_at kernel.now.objects id) }
    ensures { (task : List ℕ) → (name : List ℕ) → Goes kernel.now task me
        ((rows.about_of kernel.now task me (call.Recv name)).row id) walk.old walk.new result }
{
    walk.ask(kernel, me, &Check::On(CheckOp::SocketReceive, id), None);
    if kernel.parties.count(id) == 0 {
        return Err(Errno::Eagain);
    }
    Ok(Done {
        shown: Shown::Message(id),
        effect: Effect::Receive(id),
    })
}

pub(crate) fn bind<'c>(
    kernel: &Kernel,
    walk: &mut Walk,
    me: PartyId,
    tcp: bool,
    port: u16,
    id: PartyId,
) -> Result<Done<'c>, Errno>
    requires few { walk.old.asked < 100 }
    requires caller { IsSome (live_at kernel.now.objects me) }
    requires live { IsSome (live_at kernel.now.objects id) }
    ensures { (task : List ℕ) → (name : List ℕ) → Goes kernel.now task me
        ((rows.about_of kernel.now task me (call.Bind name tcp port)).row id) walk.old walk.new
        result }
{
    walk.ask(kernel, me, &Check::Binding(tcp, port, id), None);
    Ok(Done::shows(Shown::Nothing))
}
