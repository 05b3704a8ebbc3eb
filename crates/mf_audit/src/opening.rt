//! The kernel at the end of boot.
ghost use Rattle.std.specs.Prelude.{◌≡◌, ◌<◌, ◌≤◌, ◌+◌, fold, length, IfOk, OnOk};
ghost use Rattle.std.specs.Result.{result_ok};
ghost use Rattle.mf_objects.specs.declared.limits.TheConstants.{ID_LIMIT};
ghost use Rattle.mf_calls.specs.declared.limits.TheConstants.{FILE_LIMIT};
ghost use Rattle.mf_calls.specs.WellFormed.{IsWellFormed};
ghost use Rattle.mf_plan.specs.Path.{free_at, lookup_along, lookup_from};
ghost use Rattle.mf_core.specs.declared.limits.TheConstants.{MOST_AT_OPENING};
ghost use Rattle.mf_core.specs.Opening as spec;

use crate::boots::{listed_after, registrations};
use crate::kernel::Kernel;
use crate::paths::last_name;
use mf_calls::{FileLine, Script, Task};
use mf_elem::Request;
use mf_item::Kind;
use mf_names::{Components, Path};
use mf_parties::{Parties, PartyId, What};
use mf_policy::{Origin, SpecList, new_label};
use std::alloc::{AllocError, Global};

/// The kernel at the end of boot: what the script registers is listed, and the root, its files and the processes of its tasks live.
pub(crate) fn opening(alloc: Global, script: &Script) -> Result<Kernel, AllocError>
    requires { IsWellFormed script.now }
    ensures state { IfOk result (λ kernel. kernel ≡ spec.opening_state script.now) }
    ensures ids { IfOk result (λ kernel. kernel.objects.next ≤ MOST_AT_OPENING) }
{
    let (boots, given) = registrations(alloc, script.boots.as_slice())?;
    let listed = listed_after(alloc, script, boots.as_slice())?;
    let parties = opening_parties(alloc, script, &listed)?;
    Ok(Kernel {
        parties,
        listed,
        given,
    })
}

/// The root, then the files, then the processes of the tasks, where these policies are listed.
fn opening_parties(alloc: Global, script: &Script, listed: &SpecList) -> Result<Parties, AllocError>
    requires { IsWellFormed script.now }
    ensures value { IfOk result (λ parties. parties ≡ spec.opening_objects listed.now script.now) }
    ensures ids { IfOk result (λ parties. parties.next ≤ MOST_AT_OPENING) }
{
    let root = new_label(listed, Kind::Vnode, &Origin::Boot(Request::none()));
    let mut parties = Parties::with_root(alloc, &root)?;
    add_files(alloc, &mut parties, script, listed)?;
    add_tasks(alloc, &mut parties, script, listed)?;
    Ok(parties)
}

fn add_files(
    alloc: Global,
    parties: &mut Parties,
    script: &Script,
    listed: &SpecList,
) -> Result<(), AllocError>
    requires script { IsWellFormed script.now }
    requires ids { parties.old.next ≤ 1 }
    ensures value { OnOk result (parties.new
        ≡ fold (spec.with_file listed.now) parties.old script.now.files) }
    ensures ids { OnOk result (parties.new.next ≤ 1 + FILE_LIMIT) }
{
    for file in script.files.as_slice() {
        add_file(alloc, parties, file, listed)?;
    }
    Ok(())
}

/// Makes the file in the directory that its path names.
fn add_file(
    alloc: Global,
    parties: &mut Parties,
    file: &FileLine,
    listed: &SpecList,
) -> Result<(), AllocError>
    requires { parties.old.next < ID_LIMIT }
    ensures value { OnOk result (parties.new ≡ spec.with_file listed.now parties.old file.now) }
    ensures ids { OnOk result (parties.new.next ≤ parties.old.next + 1) }
{
    if let Some(dir) = free_along(parties, &file.path) {
        let label = new_label(listed, Kind::Vnode, &Origin::Boot(file.label));
        let what = What::file(alloc, dir, file.file, file.text.as_slice())?;
        parties.add(alloc, last_name(&file.path), &label, what)?;
    }
    Ok(())
}

/// The directory of a path's last component, where that has no entry.
fn free_along(parties: &Parties, path: &Path) -> Option<PartyId>
    ensures { result ≡ result_ok (free_at (lookup_along parties.now path.now).target) }
{
    free_from(parties, parties.root(), path.components())
}

/// The same, looked up from a directory.
#[tactic(auto, unfolding(mf_plan::specs::Path::lookup_from))]
fn free_from(parties: &Parties, dir: PartyId, mut names: Components<'_>) -> Option<PartyId>
    ensures { result ≡ result_ok (free_at (lookup_from parties.now names.entry dir).target) }
{
    let name = names.next()?;
    let entry = parties.entry_of(dir, name);
    if names.is_empty() {
        return match entry {
            None => Some(dir),
            Some(_) => None,
        };
    }
    let id = entry?;
    if parties.is_dir(id) {
        free_from(parties, id, names)
    } else {
        None
    }
}

fn add_tasks(
    alloc: Global,
    parties: &mut Parties,
    script: &Script,
    listed: &SpecList,
) -> Result<(), AllocError>
    requires script { IsWellFormed script.now }
    requires ids { parties.old.next ≤ 1 + FILE_LIMIT }
    ensures value { OnOk result (parties.new
        ≡ fold (spec.with_task listed.now) parties.old script.now.tasks) }
    ensures ids { OnOk result (parties.new.next ≤ MOST_AT_OPENING) }
{
    for task in script.tasks.as_slice() {
        add_task(alloc, parties, task, listed)?;
    }
    Ok(())
}

/// Makes the process of the task.
fn add_task(
    alloc: Global,
    parties: &mut Parties,
    task: &Task,
    listed: &SpecList,
) -> Result<(), AllocError>
    requires { parties.old.next < ID_LIMIT }
    ensures value { OnOk result (parties.new ≡ spec.with_task listed.now parties.old task.now) }
    ensures ids { OnOk result (parties.new.next ≤ parties.old.next + 1) }
{
    let name = task.name.as_str();
    match parties.named(Kind::Process, name) {
        Some(_) => Ok(()),
        None => {
            let label = new_label(listed, Kind::Process, &Origin::Boot(task.label));
            let what = What::process(alloc, &task.cred);
            parties.add(alloc, name, &label, what)
        }
    }
}
