//! Where a path leads, as namei(9) finds it: each component is looked up in the directory that the one before names.
ghost use Rattle.std.specs.Prelude.{◌≡◌, ◌≢◌, ◌+◌, ◌<◌, ◌∷◌, length, map, IfOk, IfSome, IsSome};
ghost use Rattle.mf_item.specs.declared.operation.CheckOp.TheVariants as op;
ghost use Rattle.mf_objects.specs.Live.{live_at};
ghost use Rattle.mf_objects.specs.Lives.{IsLive, is_vnode};
ghost use Rattle.mf_plan.specs.Checks.{on};
ghost use Rattle.mf_plan.specs.Outline.{item_of};
ghost use Rattle.mf_plan.specs.Path as spec;
ghost use Rattle.mf_plan.specs.Ways.Place.{Entry, File, Free};
ghost use Rattle.mf_plan.specs.Ways.{way_to};
ghost use Rattle.mf_audit.specs.Asking.{asking_all};
ghost use Rattle.mf_audit.specs.Ends.{Leads, target_of};

use crate::kernel::Kernel;
use crate::walk::{Check, Walk};
use mf_errno::Errno;
use mf_item::CheckOp;
use mf_names::{Components, Path};
use mf_parties::PartyId;

/// Looks up a component in a directory, and then those below it: the last one's directory, and its entry where there is one.
#[tactic(auto, unfolding(mf_plan::specs::Path::lookup_from))]
fn look_up(
    kernel: &Kernel,
    walk: &mut Walk,
    me: PartyId,
    dir: PartyId,
    name: &str,
    mut below: Components<'_>,
) -> Result<(PartyId, Option<PartyId>), Errno>
    requires few { walk.old.asked + length below < 99 }
    requires caller { IsSome (live_at kernel.now.objects me) }
    requires dir { IsSome (live_at kernel.now.objects dir) }
    ensures walk { walk.new ≡ asking_all kernel.now.specs me walk.old
        (map (item_of kernel.now.objects)
        (map (on me op.VnodeLookup) (spec.lookup_from kernel.now.objects
        (name.now ∷ below.entry) dir).lookups)) }
    ensures target { target_of result ≡ (spec.lookup_from kernel.now.objects
        (name.now ∷ below.entry) dir).target }
    ensures dir { IfOk result (λ leaf. IsSome (live_at kernel.now.objects leaf.0)) }
    ensures entry { IfOk result (λ leaf. IfSome leaf.1 (λ id. IsLive is_vnode kernel.now.objects id
        × (id.0 ≢ 0))) }
    ensures few { walk.new.asked < 100 }
{
    walk.ask(kernel, me, &Check::On(CheckOp::VnodeLookup, dir), None);
    let entry = kernel.parties.entry_of(dir, name);
    let Some(next) = below.next() else {
        return Ok((dir, entry));
    };
    let Some(id) = entry else {
        return Err(Errno::Enoent);
    };
    if !kernel.parties.is_dir(id) {
        return Err(Errno::Enotdir);
    }
    look_up(kernel, walk, me, id, next, below)
}

/// The file or directory at a path.
#[tactic(auto, unfolding(mf_plan::specs::Path::lookup_from))]
pub(crate) fn file(
    kernel: &Kernel,
    walk: &mut Walk,
    me: PartyId,
    path: &Path,
) -> Result<PartyId, Errno>
    requires few { walk.old.asked < 50 }
    requires caller { IsSome (live_at kernel.now.objects me) }
    ensures way { Leads kernel.now me (way_to kernel.now me (File path.now)) walk.old walk.new
        result }
    ensures live { IfOk result (λ id. IsLive is_vnode kernel.now.objects id) }
    ensures few { walk.new.asked < 100 }
{
    let mut names = path.components();
    match names.next() {
        None => Ok(kernel.parties.root()),
        Some(name) => {
            let leaf = look_up(kernel, walk, me, kernel.parties.root(), name, names)?;
            leaf.1.ok_or(Errno::Enoent)
        }
    }
}

/// The directory of a path's last component, where that has no entry.
#[tactic(auto, unfolding(mf_plan::specs::Path::lookup_from))]
pub(crate) fn free(
    kernel: &Kernel,
    walk: &mut Walk,
    me: PartyId,
    path: &Path,
) -> Result<PartyId, Errno>
    requires few { walk.old.asked < 50 }
    requires caller { IsSome (live_at kernel.now.objects me) }
    ensures way { Leads kernel.now me (way_to kernel.now me (Free path.now)) walk.old walk.new
        result }
    ensures live { IfOk result (λ id. IsSome (live_at kernel.now.objects id)) }
    ensures few { walk.new.asked < 100 }
{
    let mut names = path.components();
    match names.next() {
        None => Err(Errno::Einval),
        Some(name) => {
            let leaf = look_up(kernel, walk, me, kernel.parties.root(), name, names)?;
            match leaf.1 {
                None => Ok(leaf.0),
                Some(_) => Err(Errno::Eexist),
            }
        }
    }
}

/// The directory of a path's last component, and its entry.
#[tactic(auto, unfolding(mf_plan::specs::Path::lookup_from))]
pub(crate) fn entry(
    kernel: &Kernel,
    walk: &mut Walk,
    me: PartyId,
    path: &Path,
) -> Result<(PartyId, PartyId), Errno>
    requires few { walk.old.asked < 50 }
    requires caller { IsSome (live_at kernel.now.objects me) }
    ensures way { Leads kernel.now me (way_to kernel.now me (Entry path.now)) walk.old walk.new
        result }
    ensures dir { IfOk result (λ entry. IsSome (live_at kernel.now.objects entry.0)) }
    ensures entry { IfOk result (λ entry. IsLive is_vnode kernel.now.objects entry.1
        × (entry.1.0 ≢ 0)) }
    ensures few { walk.new.asked < 100 }
{
    let mut names = path.components();
    match names.next() {
        None => Err(Errno::Einval),
        Some(name) => {
            let leaf = look_up(kernel, walk, me, kernel.parties.root(), name, names)?;
            match leaf.1 {
                None => Err(Errno::Enoent),
                Some(id) => Ok((leaf.0, id)),
            }
        }
    }
}

/// The last component of a path.
pub(crate) fn last_name(path: &Path) -> &str
    ensures { result.now ≡ spec.last_name path.now }
{
    match path.components().split_last() {
        Some((_, last)) => last,
        None => "",
    }
}
