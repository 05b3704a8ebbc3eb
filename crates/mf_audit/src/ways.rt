//! What a call is about, where it isn't named by a path, and what it asks of a label.
ghost use Rattle.std.specs.Option.{ok_or};
ghost use Rattle.std.specs.Prelude.{◌≡◌, ◌<◌, if◌then◌else◌, is_some, IfOk, IsSome, Err, Ok, []};
ghost use Rattle.mf_errno.specs.declared.errno.Errno.TheVariants as errno;
ghost use Rattle.mf_item.specs.declared.view.Kind.TheVariants as kinds;
ghost use Rattle.mf_objects.specs.declared.id.Id.{Id};
ghost use Rattle.mf_objects.specs.Live.{live_at};
ghost use Rattle.mf_plan.specs.Relabels.{claimed_in};
ghost use Rattle.mf_plan.specs.Views.{entity_named, process_named};
ghost use Rattle.mf_plan.specs.Names.{child_name};
ghost use Rattle.mf_plan.specs.Ways as ways;
ghost use Rattle.mf_plan.specs.Ways.Place.{Asking, File, Loading, Named, Sockets, Unloading};
ghost use Rattle.mf_plan.specs.Ways.{way_to};
ghost use Rattle.mf_policy.specs.Registration.{is_listed};
ghost use Rattle.mf_audit.specs.Ends.{Leads};
ghost use Rattle.mf_audit.specs.Open.{access_of};

use crate::kernel::Kernel;
use crate::paths::file;
use crate::walk::{Check, Walk};
use mf_elem::Request;
use mf_errno::{Errno, Module, Priv};
use mf_item::{CheckOp, Kind};
use mf_labeltext::read_request;
use mf_names::{Name, Path, Word};
use mf_parties::{OpenFile, PartyId};

/// How a descriptor has to be open.
#[derive(Clone, Copy)]
pub enum Access {
    Reading,
    Writing,
    Any,
}

/// The process, pipe or socket of a name.
pub(crate) fn named(kernel: &Kernel, kind: Kind, name: &Name) -> Result<PartyId, Errno>
    ensures there { result ≡ ok_or (entity_named kernel.now.objects kind name.now)
        (ways.missing kind) }
    ensures live { IfOk result (λ id. IsSome (live_at kernel.now.objects id)) }
{
    let found = kernel.parties.named(kind, name.as_str());
    found.ok_or(missing(kind))
}

/// The errno where none has the name.
fn missing(kind: Kind) -> Errno
    ensures { result ≡ ways.missing kind }
{
    if matches!(kind, Kind::Process) {
        Errno::Esrch
    } else {
        Errno::Enoent
    }
}

/// Whether no pipe, or no socket, has the name yet.
pub(crate) fn unused(kernel: &Kernel, kind: Kind, name: &Name) -> Result<(), Errno>
    ensures { result ≡ (if is_some (entity_named kernel.now.objects kind name.now)
        then Err errno.Eexist else Ok (tt {0})) }
{
    match kernel.parties.named(kind, name.as_str()) {
        Some(_) => Err(Errno::Eexist),
        None => Ok(()),
    }
}

/// Whether the task has no child of the name yet.
pub(crate) fn unused_child(kernel: &Kernel, task: &str, child: &Name) -> Result<(), Errno>
    ensures { result ≡ (if is_some (process_named kernel.now.objects
        (child_name task.now child.now)) then Err errno.Eexist else Ok (tt {0})) }
{
    match kernel.parties.child_named(task, child.as_str()) {
        Some(_) => Err(Errno::Eexist),
        None => Ok(()),
    }
}

/// Whether a module is listed.
pub(crate) fn listed(kernel: &Kernel, module: Module) -> Result<(), Errno>
    ensures { result ≡ (if is_listed «module» kernel.now.specs
        then Ok (tt {0}) else Err errno.Enoent) }
{
    if kernel.listed.is_listed(module) {
        Ok(())
    } else {
        Err(Errno::Enoent)
    }
}

/// The file on which the caller has a descriptor of that number, which is open so.
pub(crate) fn opened(kernel: &Kernel, me: PartyId, access: Access, n: u32) -> Result<PartyId, Errno>
    ensures there { result ≡ ok_or (ways.opened_file_at kernel.now.objects me (access_of access) n)
        errno.Ebadf }
    ensures live { IfOk result (λ id. IsSome (live_at kernel.now.objects id)) }
{
    match kernel.parties.fd(me, n) {
        Some(fd) if allows(access, &fd) => Ok(fd.file),
        _ => Err(Errno::Ebadf),
    }
}

/// Whether a descriptor is open so.
fn allows(access: Access, fd: &OpenFile) -> bool
    ensures { result ≡ ways.allows (access_of access) fd.now }
{
    match access {
        Access::Reading => fd.read,
        Access::Writing => fd.write,
        Access::Any => true,
    }
}

/// A socket, and another that it reaches. The other is looked up after the check of the sender.
pub(crate) fn sockets(
    kernel: &Kernel,
    walk: &mut Walk,
    me: PartyId,
    from: &Name,
    to: &Name,
) -> Result<(PartyId, PartyId), Errno>
    requires few { walk.old.asked < 50 }
    requires caller { IsSome (live_at kernel.now.objects me) }
    ensures way { Leads kernel.now me (way_to kernel.now me (Sockets from.now to.now)) walk.old
        walk.new result }
    ensures from { IfOk result (λ ends. IsSome (live_at kernel.now.objects ends.0)) }
    ensures to { IfOk result (λ ends. IsSome (live_at kernel.now.objects ends.1)) }
    ensures few { walk.new.asked < 100 }
{
    let from = named(kernel, Kind::Socket, from)?;
    walk.ask(kernel, me, &Check::On(CheckOp::SocketSend, from), None);
    let to = named(kernel, Kind::Socket, to)?;
    Ok((from, to))
}

/// The module of a name, to be loaded.
pub(crate) fn loading(
    kernel: &Kernel,
    walk: &mut Walk,
    me: PartyId,
    name: &Word,
) -> Result<Module, Errno>
    requires few { walk.old.asked < 50 }
    requires caller { IsSome (live_at kernel.now.objects me) }
    ensures way { Leads kernel.now me (way_to kernel.now me (Loading name.now)) walk.old walk.new
        result }
    ensures few { walk.new.asked < 100 }
{
    walk.ask(kernel, me, &Check::Privilege(Priv::KldLoad), None);
    Module::from_name(name.as_str()).ok_or(Errno::Enoent)
}

/// The module of a name, to be unloaded.
pub(crate) fn unloading(
    kernel: &Kernel,
    walk: &mut Walk,
    me: PartyId,
    name: &Word,
) -> Result<Module, Errno>
    requires few { walk.old.asked < 50 }
    requires caller { IsSome (live_at kernel.now.objects me) }
    ensures way { Leads kernel.now me (way_to kernel.now me (Unloading name.now)) walk.old walk.new
        result }
    ensures few { walk.new.asked < 100 }
{
    walk.ask(kernel, me, &Check::Privilege(Priv::KldUnload), None);
    walk.ask(kernel, me, &Check::Alone(CheckOp::KldUnload), None);
    Module::from_name(name.as_str()).ok_or(Errno::Enoent)
}

/// What a label text asks of the label of an entity of that kind.
pub(crate) fn claimed(kernel: &Kernel, kind: Kind, text: &Word) -> Result<Request, Errno>
    ensures { result ≡ ok_or (claimed_in kernel.now.specs kind text.now) errno.Einval }
{
    match read_request(text.as_str()) {
        Ok(request) if kernel.listed.claims(kind, &request) => Ok(request),
        _ => Err(Errno::Einval),
    }
}

/// What a label text asks of the file or directory at a path, and the id of it.
pub(crate) fn asked_file(
    kernel: &Kernel,
    walk: &mut Walk,
    me: PartyId,
    text: &Word,
    path: &Path,
) -> Result<(Request, PartyId), Errno>
    requires few { walk.old.asked < 50 }
    requires caller { IsSome (live_at kernel.now.objects me) }
    ensures way { Leads kernel.now me (way_to kernel.now me
        (Asking kinds.Vnode text.now (File path.now))) walk.old walk.new result }
    ensures live { IfOk result (λ asked. IsSome (live_at kernel.now.objects asked.1)) }
    ensures few { walk.new.asked < 100 }
{
    let request = claimed(kernel, Kind::Vnode, text)?;
    let id = file(kernel, walk, me, path)?;
    Ok((request, id))
}

/// What a label text asks of the pipe or socket of a name, and the id of it.
pub(crate) fn asked_named(
    kernel: &Kernel,
    kind: Kind,
    text: &Word,
    name: &Name,
) -> Result<(Request, PartyId), Errno>
    ensures there { (me : Id) → result ≡ (way_to kernel.now me
        (Asking kind text.now (Named kind name.now))).there }
    ensures none { (me : Id) → (way_to kernel.now me (Asking kind text.now
        (Named kind name.now))).checks ≡ [] }
    ensures live { IfOk result (λ asked. IsSome (live_at kernel.now.objects asked.1)) }
{
    let request = claimed(kernel, kind, text)?;
    let id = named(kernel, kind, name)?;
    Ok((request, id))
}
