//! What there is before the calls whose plans are made: /d with a regular file f, and a regular file /e; the processes t, its child c, which
//! alone isn't root's, and u; t's empty pipe p and empty socket a.
ghost use Rattle.mf_objects.specs.Lives.{IsLive, is_directory};

use mf_cred::{Cred, FileView};
use mf_elem::LabelValue;
use mf_objects::{Id, Objects};
use mf_plan::State;
use mf_policy::SpecList;
use mf_slots::SlotNumbers;
use std::alloc::{AllocError, Global};
use std::process::Abort;

const UNSET: [LabelValue; 4] = [LabelValue::Unset; 4];

fn add_file(
    rt: &impl Abort,
    alloc: Global,
    objects: &mut Objects,
    parent: Id,
    name: &str,
    dir: bool,
) -> Result<(), AllocError>
    requires { IsLive is_directory objects.old parent }
{
    let file = FileView {
        uid: 0,
        gid: 0,
        mode: 0o755,
        dir,
    };
    assert!(rt; objects.live() < 1024 && objects.next_id() < u32::MAX);
    if objects.child(parent, name).is_none() {
        let _id = objects.add_vnode(alloc, parent, name, &file, &[], &UNSET)?;
    }
    Ok(())
}

/// A credential of that uid alone.
fn cred_of(uid: u32) -> Cred {
    let mut cred = Cred::default();
    cred.uid = uid;
    cred.ruid = uid;
    cred.svuid = uid;
    cred
}

pub fn add_process(
    rt: &impl Abort,
    alloc: Global,
    objects: &mut Objects,
    name: &str,
    uid: u32,
) -> Result<(), AllocError> {
    assert!(rt; objects.live() < 1024 && objects.next_id() < u32::MAX);
    if objects.process(name).is_none() {
        let _id = objects.add_process(alloc, name, &cred_of(uid), &UNSET)?;
    }
    Ok(())
}

fn add_files(rt: &impl Abort, alloc: Global, objects: &mut Objects) -> Result<(), AllocError> {
    let root = objects.root();
    add_file(rt, alloc, objects, root, "d", true)?;
    let root = objects.root();
    add_file(rt, alloc, objects, root, "e", false)?;
    let root = objects.root();
    if let Some(dir) = objects.child(root, "d") {
        assert!(rt; objects.file(dir).dir);
        add_file(rt, alloc, objects, dir, "f", false)?;
    }
    Ok(())
}

fn add_pipe(rt: &impl Abort, alloc: Global, objects: &mut Objects) -> Result<(), AllocError> {
    assert!(rt; objects.live() < 1024 && objects.next_id() < u32::MAX);
    if let Some(t) = objects.process("t") {
        if objects.pipe("p").is_none() {
            let _id = objects.add_pipe(alloc, "p", t, &UNSET)?;
        }
    }
    Ok(())
}

fn add_socket(rt: &impl Abort, alloc: Global, objects: &mut Objects) -> Result<(), AllocError> {
    assert!(rt; objects.live() < 1024 && objects.next_id() < u32::MAX);
    if let Some(t) = objects.process("t") {
        if objects.socket("a").is_none() {
            let _id = objects.add_socket(alloc, "a", t, &UNSET)?;
        }
    }
    Ok(())
}

/// All that there is before the calls.
fn populate(rt: &impl Abort, alloc: Global, objects: &mut Objects) -> Result<(), AllocError> {
    add_files(rt, alloc, objects)?;
    add_process(rt, alloc, objects, "t", 0)?;
    add_process(rt, alloc, objects, "t.c", 80)?;
    add_process(rt, alloc, objects, "u", 0)?;
    add_pipe(rt, alloc, objects)?;
    add_socket(rt, alloc, objects)
}

/// The state before the calls, without policies.
pub fn state_of(rt: &impl Abort, alloc: Global) -> Result<State, AllocError> {
    let mut objects = Objects::new(alloc, &UNSET)?;
    populate(rt, alloc, &mut objects)?;
    Ok(State {
        objects,
        specs: SpecList::new(alloc),
        numbers: SlotNumbers::new(),
        booted: true,
    })
}
