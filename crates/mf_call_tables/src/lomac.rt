//! Calls of t where mac_lomac is listed. There is nothing but the root and the process t, which are high.

use crate::calls::run;
use crate::machine::{Machine, add_process, beside, labelled, machine_with, with_module};
use crate::scripts::wants;
use mf_elem::{Comps, Elem};
use mf_errno::Module;
use mf_lomac::Lomac;
use mf_objects::Objects;
use mf_policy::Spec;
use std::alloc::{AllocError, Global};
use std::process::Abort;

/// The root and the process t.
fn population(rt: &impl Abort, alloc: Global) -> Result<Objects, AllocError> {
    let high = labelled(Elem::High, None);
    let mut objects = Objects::new(alloc, &high)?;
    add_process(rt, alloc, &mut objects, "t", &high)?;
    Ok(objects)
}

fn booted(rt: &impl Abort, alloc: Global) -> Result<Machine<Lomac>, AllocError> {
    let specs = with_module(alloc, Module::Lomac, Spec::Lomac)?;
    let (specs, objects) = beside(specs, population(rt, alloc))?;
    machine_with(alloc, objects, specs, Lomac::new(), "mac_lomac")
}

/// Who lowers himself writes nothing high any more, and doesn't rise again.
const LOWERED: &str = "create /hi -> ok
write /hi x -> ok
setpmac lomac/5 -> ok
write /hi x -> EACCES vnode_open_write 2
read /hi -> ok
setpmac lomac/high -> EPERM cred_relabel 1
setpmac biba/5 -> EINVAL
setpmac lomac/4 -> ok
getpmac -> ok
";

/// Nor does who is lowered by what he reads.
const READS_DOWN: &str = "create /hi -> ok
create /lo -> ok
setfmac lomac/5 /lo -> ok
read /lo -> ok
write /hi x -> EACCES vnode_open_write 2
setpmac lomac/high -> EPERM cred_relabel 1
getpmac -> ok
";

/// A check finds the caller as those before it have lowered it, and so it stays where the call is denied.
const DENIED: &str = "mkdir /d -> ok
create /d/f -> ok
setfmac lomac/6 /d -> ok
write /d/f x -> EACCES vnode_open_write 3
";

/// And where it is refused; what the process makes then has the lowered element.
const REFUSED: &str = "mkdir /d -> ok
setfmac lomac/3 /d -> ok
read /d/none -> ENOENT
pipe p -> ok
fork c -> ok
@c pwrite p x -> ok
@c setpmac lomac/4 -> EPERM cred_relabel 1
";

/// By what is read through an open file too; and what is written through one is tested each time.
const OPEN: &str = "create /lo -> ok
create /hi -> ok
open /lo r -> ok fd 0
open /hi w -> ok fd 1
setfmac lomac/2 /lo -> ok
fwrite 1 x -> ok
fread 0 -> ok
fwrite 1 x -> EACCES vnode_write 1
open /lo rw -> ok fd 2
";

/// Calls, and the grade to which they lower t.
const CALLS: &[(&str, u16)] = &[
    (LOWERED, 4),
    (READS_DOWN, 5),
    (DENIED, 6),
    (REFUSED, 3),
    (OPEN, 2),
];

fn has_grade(objects: &Objects, grade: u16) -> bool {
    let label = labelled(Elem::Grade(grade, Comps::empty()), None);
    match objects.process("t") {
        Some(t) => objects.label(t) == label,
        None => false,
    }
}

/// Whether t has this grade after the calls.
fn sinks_by(
    rt: &impl Abort,
    alloc: Global,
    machine: &mut Machine<Lomac>,
    calls: &str,
    grade: u16,
) -> Result<bool, AllocError> {
    run(rt, alloc, machine, calls)?;
    Ok(has_grade(&machine.state.objects, grade))
}

/// The same from the beginning.
fn sinks_to(rt: &impl Abort, alloc: Global, calls: &str, grade: u16) -> Result<bool, AllocError> {
    let mut machine = booted(rt, alloc)?;
    sinks_by(rt, alloc, &mut machine, calls, grade)
}

#[test]
fn who_is_lowered(rt: HostRuntime) -> Result<(), AllocError> {
    for (calls, grade) in CALLS {
        let sinks = sinks_to(&rt, rt.alloc(), calls, *grade)?;
        wants(&rt, "its grade", sinks);
    }
    Ok(())
}
