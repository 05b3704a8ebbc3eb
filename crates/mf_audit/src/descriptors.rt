//! The row of an open.
ghost use Rattle.std.specs.Prelude.{◌≡◌, ◌<◌, ◌≤◌, ◌+◌, if◌then◌else◌, ℕ, List, IsSome};
ghost use Rattle.mf_calls.specs.declared.script.Call.TheVariants as call;
ghost use Rattle.mf_objects.specs.Live.{live_at};
ghost use Rattle.mf_objects.specs.Lives.{IsLive, is_regular, is_vnode};
ghost use Rattle.mf_plan.specs.Checks.{on};
ghost use Rattle.mf_plan.specs.Outline.{item_of};
ghost use Rattle.mf_plan.specs.Rows as rows;
ghost use Rattle.mf_audit.specs.Asking.{asking};
ghost use Rattle.mf_audit.specs.Ends.{Goes};

use crate::done::{Done, Effect, Shown};
use crate::files::is_dir;
use crate::kernel::Kernel;
use crate::walk::{Check, Walk};
use mf_elem::LabelValue;
use mf_errno::{Errno, Module};
use mf_item::CheckOp;
use mf_names::MOST_DESCRIPTORS;
use mf_parties::{OpenFile, PartyId};
use mf_policy::value_in;

/// What mac_biba has in its slot of an entity's label.
fn biba_value(kernel: &Kernel, id: PartyId) -> LabelValue
    requires { IsSome (live_at kernel.now.objects id) }
    ensures { result ≡ rows.biba_value kernel.now id }
{
    match kernel.listed.slot_in(Module::Biba) {
        Some(slot) => value_in(&kernel.parties.label(id), slot),
        None => LabelValue::Unset,
    }
}

/// A regular file is opened, where the process may have one descriptor more.
fn opens<'c>(
    kernel: &Kernel,
    me: PartyId,
    read: bool,
    write: bool,
    file: PartyId,
) -> Result<Done<'c>, Errno>
    requires caller { IsSome (live_at kernel.now.objects me) }
    requires live { IsSome (live_at kernel.now.objects file) }
    requires regular { IsLive is_regular kernel.now.objects file }
    ensures { (task : List ℕ) → (walk : _) → Goes kernel.now task me
        (rows.opens kernel.now me read write file) walk walk result }
{
    if kernel.parties.fd_count(me) >= MOST_DESCRIPTORS as usize {
        return Err(Errno::Emfile);
    }
    let fd = OpenFile {
        number: kernel.parties.lowest_free(me),
        file,
        read,
        write,
        subject: biba_value(kernel, me),
        object: biba_value(kernel, file),
    };
    Ok(Done {
        shown: Shown::Fd(fd.number),
        effect: Effect::Open(fd),
    })
}

/// A check that is made where the test holds.
fn ask_if(kernel: &Kernel, walk: &mut Walk, me: PartyId, test: bool, op: CheckOp, id: PartyId)
    requires few { walk.old.asked < 255 }
    requires caller { IsSome (live_at kernel.now.objects me) }
    requires live { IsSome (live_at kernel.now.objects id) }
    ensures walk { walk.new ≡ (if test then asking kernel.now.specs me walk.old
        (item_of kernel.now.objects (on me op id)) else walk.old) }
    ensures few { walk.new.asked ≤ walk.old.asked + 1 }
{
    if test {
        walk.ask(kernel, me, &Check::On(op, id), None);
    }
}

/// A file is opened, and not a directory.
pub(crate) fn open<'c>(
    kernel: &Kernel,
    walk: &mut Walk,
    me: PartyId,
    read: bool,
    write: bool,
    id: PartyId,
) -> Result<Done<'c>, Errno>
    requires few { walk.old.asked < 100 }
    requires caller { IsSome (live_at kernel.now.objects me) }
    requires live { IsLive is_vnode kernel.now.objects id }
    ensures { (task : List ℕ) → (path : List (List ℕ)) → Goes kernel.now task me
        ((rows.about_of kernel.now task me (call.OpenFd path read write)).row id) walk.old walk.new
        result }
{
    if is_dir(kernel, id) {
        return Err(Errno::Eisdir);
    }
    ask_if(kernel, walk, me, read, CheckOp::VnodeOpenRead, id);
    ask_if(kernel, walk, me, write, CheckOp::VnodeOpenWrite, id);
    opens(kernel, me, read, write, id)
}
