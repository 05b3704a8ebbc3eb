//! What the calls on files and directories change.
ghost use Rattle.std.specs.Prelude.{◌≡◌, ◌<◌, [], OnOk, OnErr, IsOk, false};
ghost use Rattle.mf_objects.specs.declared.limits.TheConstants.{ID_LIMIT};
ghost use Rattle.mf_objects.specs.Changes as change;
ghost use Rattle.mf_objects.specs.Live.{is_process};
ghost use Rattle.mf_objects.specs.Lives.{IsLive};
ghost use Rattle.mf_objects.specs.declared.id.Id.{Id};
ghost use Rattle.mf_plan.specs.Effect.Effect.{Make, SetMode, Unlink};
ghost use Rattle.mf_plan.specs.Rows.{new_file};
ghost use Rattle.mf_perform.specs.Effect.{after, takes_memory};
ghost use Rattle.mf_perform.specs.Found as spec;
ghost use Rattle.mf_perform.specs.Suits.{Suits};

use crate::paths::last_name;
use crate::processes::label_from;
use mf_cred::FileView;
use mf_item::Kind;
use mf_names::Path;
use mf_objects::Id;
use mf_plan::State;
use std::alloc::{AllocError, Global};

/// Makes an empty file or directory under the last name of the path, which is free in the
/// directory. If memory runs out, the state is unchanged.
pub(crate) fn make_file(
    alloc: Global,
    state: &mut State,
    caller: Id,
    dir: Option<Id>,
    path: &Path,
    mode: u16,
    is_dir: bool,
) -> Result<(), AllocError>
    requires caller { IsLive is_process state.old.objects caller }
    requires room { Suits state.old (spec.make_file state.old caller path.now mode is_dir dir) }
    requires next { state.old.objects.next < ID_LIMIT }
    ensures ok { OnOk result (state.new
        ≡ after state.old caller (spec.make_file state.old caller path.now mode is_dir dir)) }
    ensures err { OnErr result (state.new ≡ state.old) }
    ensures memory { takes_memory (spec.make_file state.old caller path.now mode is_dir dir) ≡ false
        → IsOk result }
{
    match dir {
        Some(dir) => {
            let name = last_name(path);
            add_file(alloc, state, caller, dir, name, mode, is_dir)
        }
        None => Ok(()),
    }
}

fn add_file(
    alloc: Global,
    state: &mut State,
    caller: Id,
    dir: Id,
    name: &str,
    mode: u16,
    is_dir: bool,
) -> Result<(), AllocError>
    requires caller { IsLive is_process state.old.objects caller }
    requires room { Suits state.old (Make name.now
        (change.new_vnode dir (new_file state.old.objects caller dir mode is_dir) [])) }
    requires next { state.old.objects.next < ID_LIMIT }
    ensures ok { OnOk result (state.new
        ≡ after state.old caller (Make name.now
        (change.new_vnode dir (new_file state.old.objects caller dir mode is_dir) []))) }
    ensures err { OnErr result (state.new ≡ state.old) }
{
    let file = FileView {
        uid: state.objects.cred(caller).uid,
        gid: state.objects.file(dir).gid,
        mode,
        dir: is_dir,
    };
    let label = label_from(state, caller, Kind::Vnode);
    state
        .objects
        .add_vnode(alloc, dir, name, &file, &[], &label)?;
    Ok(())
}

/// Gives the file or directory these mode bits.
pub(crate) fn set_mode(state: &mut State, file: Option<Id>, mode: u16)
    requires { Suits state.old (spec.where_found (λ id. SetMode id mode) file) }
    ensures { (me : Id)
        → state.new ≡ after state.old me (spec.where_found (λ id. SetMode id mode) file) }
{
    if let Some(id) = file {
        state.objects.set_mode(id, mode);
    }
}

/// Removes the entry of its directory.
pub(crate) fn unlink(state: &mut State, entry: Option<Id>)
    requires { Suits state.old (spec.where_found Unlink entry) }
    ensures { (me : Id) → state.new ≡ after state.old me (spec.where_found Unlink entry) }
{
    if let Some(id) = entry {
        state.objects.remove_vnode(id);
    }
}
