//! The live entities of a script at the end of boot.
ghost use Rattle.std.specs.Prelude.{◌≡◌, ◌≤◌, ◌<◌, ◌+◌, ℕ, [], fold, length, IfOk, IsTrue, OnOk};
ghost use Rattle.mf_names.specs.declared.limits.TheConstants.{CONTENT_LIMIT};
ghost use Rattle.mf_objects.specs.declared.limits.TheConstants.{ID_LIMIT, MOST_ENTITIES};
ghost use Rattle.mf_calls.specs.declared.limits.TheConstants.{FILE_LIMIT};
ghost use Rattle.mf_calls.specs.WellFormed.{IsWellFormed};
ghost use Rattle.mf_core.specs.declared.limits.TheConstants.{MOST_AT_OPENING};
ghost use Rattle.mf_core.specs.Opening as spec;
ghost use Rattle.mf_core.specs.Registering.{HasAtMost};
ghost use Rattle.mf_elem.specs.declared.label.TheConstants.{SLOTS};
ghost use Rattle.mf_policy.specs.declared.labels.Origin.TheVariants.{Boot};
ghost use Rattle.mf_policy.specs.NewLabels.{new_label, new_value};

use mf_calls::{FileLine, Script, Task};
use mf_elem::{LabelValue, Request, SLOTS};
use mf_item::Kind;
use mf_objects::Objects;
use mf_perform::last_name;
use mf_plan::{Target, target_of};
use mf_policy::{SpecList, boot_value};
use std::alloc::{AllocError, Global};

/// The root, then the files, then the processes of the tasks, where these policies are listed.
pub fn opening_objects(
    alloc: Global,
    script: &Script,
    listed: &SpecList,
) -> Result<Objects, AllocError>
    requires { IsWellFormed script.now }
    ensures value { IfOk result (λ objects. objects ≡ spec.opening_objects listed.now script.now) }
    ensures few { IfOk result (λ objects. HasAtMost objects MOST_AT_OPENING) }
{
    let root = boot_label(listed, Kind::Vnode, &Request::none());
    let mut objects = Objects::new(alloc, &root)?;
    objects.reserve(script.files.len().saturating_add(script.tasks.len()))?;
    add_files(alloc, &mut objects, script, listed)?;
    add_tasks(alloc, &mut objects, script, listed)?;
    Ok(objects)
}

fn add_files(
    alloc: Global,
    objects: &mut Objects,
    script: &Script,
    listed: &SpecList,
) -> Result<(), AllocError>
    requires script { IsWellFormed script.now }
    requires few { HasAtMost objects.old 1 }
    ensures value { OnOk result (objects.new
        ≡ fold (spec.with_file listed.now) objects.old script.now.files) }
    ensures few { OnOk result (HasAtMost objects.new (1 + FILE_LIMIT)) }
{
    for file in script.files.as_slice() {
        add_file(alloc, objects, file, listed)?;
    }
    Ok(())
}

/// Makes the file in the directory that its path names.
fn add_file(
    alloc: Global,
    objects: &mut Objects,
    file: &FileLine,
    listed: &SpecList,
) -> Result<(), AllocError>
    requires few { length objects.old.live < MOST_ENTITIES }
    requires next { objects.old.next < ID_LIMIT }
    requires fits { length file.now.text ≤ CONTENT_LIMIT }
    requires bare { IsTrue file.now.file.dir → file.now.text ≡ [] }
    ensures value { OnOk result (objects.new ≡ spec.with_file listed.now objects.old file.now) }
    ensures few { (n : ℕ) → HasAtMost objects.old n → OnOk result (HasAtMost objects.new (n + 1)) }
{
    match target_of(objects, &file.path) {
        Target::Name(dir, None) => {
            let name = last_name(&file.path);
            let label = boot_label(listed, Kind::Vnode, &file.label);
            let text = file.text.as_slice();
            objects.add_vnode(alloc, dir, name, &file.file, text, &label)?;
            Ok(())
        }
        Target::Root | Target::Name(_, Some(_)) | Target::Nowhere(_) => Ok(()),
    }
}

fn add_tasks(
    alloc: Global,
    objects: &mut Objects,
    script: &Script,
    listed: &SpecList,
) -> Result<(), AllocError>
    requires script { IsWellFormed script.now }
    requires few { HasAtMost objects.old (1 + FILE_LIMIT) }
    ensures value { OnOk result (objects.new
        ≡ fold (spec.with_task listed.now) objects.old script.now.tasks) }
    ensures few { OnOk result (HasAtMost objects.new MOST_AT_OPENING) }
{
    for task in script.tasks.as_slice() {
        add_task(alloc, objects, task, listed)?;
    }
    Ok(())
}

/// Makes the process of the task.
fn add_task(
    alloc: Global,
    objects: &mut Objects,
    task: &Task,
    listed: &SpecList,
) -> Result<(), AllocError>
    requires few { length objects.old.live < MOST_ENTITIES }
    requires next { objects.old.next < ID_LIMIT }
    ensures value { OnOk result (objects.new ≡ spec.with_task listed.now objects.old task.now) }
    ensures few { (n : ℕ) → HasAtMost objects.old n → OnOk result (HasAtMost objects.new (n + 1)) }
{
    let name = task.name.as_str();
    match objects.process(name) {
        Some(_) => Ok(()),
        None => {
            let label = boot_label(listed, Kind::Process, &task.label);
            objects.add_process(alloc, name, &task.cred, &label)?;
            Ok(())
        }
    }
}

/// The label of an entity of that kind at boot, for which the script asks this. The request is wide, and isn't copied.
fn boot_label(listed: &SpecList, kind: Kind, request: &Request) -> [LabelValue; SLOTS]
    ensures { result ≡ new_label listed.now kind (Boot request.now) }
{
    [
        first_value(listed, kind, request, 0),
        first_value(listed, kind, request, 1),
        first_value(listed, kind, request, 2),
        first_value(listed, kind, request, 3),
    ]
}

/// The value in a slot at boot.
fn first_value(listed: &SpecList, kind: Kind, request: &Request, slot: u8) -> LabelValue
    requires { slot < SLOTS }
    ensures { result ≡ new_value listed.now kind (Boot request.now) slot }
{
    match listed.holder(slot) {
        None => LabelValue::Unset,
        Some(module) => boot_value(module, kind, request),
    }
}
