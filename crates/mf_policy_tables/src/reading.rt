//! All that can be read of the entities, as a text.
ghost use Rattle.std.specs.Prelude.{◌≡◌, IsSome};
ghost use Rattle.mf_objects.specs.Live.{is_process, live_at};
ghost use Rattle.mf_objects.specs.Lives.{IsLive};

use mf_cred::Cred;
use mf_elem::LabelValue;
use mf_item::{Kind, ObjectView};
use mf_names::MOST_DESCRIPTORS;
use mf_objects::{Fd, Id, Objects};
use std::alloc::{AllocError, Global};

/// Writes numbers, each behind a blank.
fn write_numbers(numbers: &[u32], out: &mut String) -> Result<(), AllocError> {
    for number in numbers {
        write!(out, " {number}")?;
    }
    Ok(())
}

/// How many entities are live, the next id, and how many entities have each label slot made.
fn counts_of(objects: &Objects) -> [u32; 6] {
    [
        objects.live(),
        objects.next_id(),
        objects.held(0),
        objects.held(1),
        objects.held(2),
        objects.held(3),
    ]
}

/// Writes the names of the root's entries, one behind the other.
fn write_names(alloc: Global, objects: &Objects, out: &mut String) -> Result<(), AllocError> {
    let names = objects.names(alloc, objects.root())?;
    for name in names.as_slice() {
        out.push_str(name.as_str())?;
    }
    out.push_str("\n")
}

/// A part of a label, as a number: 0 where it is unset.
fn part(value: LabelValue) -> u32 {
    match value {
        LabelValue::Number(number) => number,
        LabelValue::Unset => 0,
        LabelValue::Range(_) => u32::MAX,
    }
}

/// Whether the entity's label and credential are the same, however they are asked for; of root it is that of no groups.
fn is_the_same(objects: &Objects, id: Id) -> bool
    requires { IsSome (live_at objects.now id) }
{
    let label = objects.label(id);
    let has_label = objects.has_label(id, &label) && objects.value(id, 1) == label[1];
    let cred = objects.cred(id);
    let is_known = cred.uid != 0 || objects.has_cred(id, &Cred::default());
    has_label && is_known && objects.has_cred(id, &cred)
}

/// Whether policies see the entity with what is read of it, and not as an entity of another kind.
fn has_its_view(objects: &Objects, id: Id) -> bool
    requires { IsSome (live_at objects.now id) }
{
    let view = ObjectView {
        id: id.number(),
        kind: objects.kind(id),
        file: objects.file(id),
        label: objects.label(id),
    };
    let other = ObjectView {
        kind: if view.kind == Kind::Pipe {
            Kind::Socket
        } else {
            Kind::Pipe
        },
        ..view
    };
    objects.has_view(id, &view) && !objects.has_view(id, &other)
}

/// A letter for the kind of an entity.
fn letter(kind: Kind) -> &'static str {
    match kind {
        Kind::Process => "p",
        Kind::Vnode => "v",
        Kind::Pipe => "f",
        Kind::Socket => "s",
    }
}

/// Writes a letter for the kind of an entity, its mode, and whether it is a directory.
fn write_kind(objects: &Objects, id: Id, out: &mut String) -> Result<(), AllocError>
    requires { IsSome (live_at objects.now id) }
{
    let (kind, view) = (letter(objects.kind(id)), objects.file(id));
    let (mode, dir) = (view.mode, if view.dir { "d" } else { "" });
    write!(out, " {kind}{mode:o}{dir}")
}

/// The uid of an entity's credential, its owner, its group, its size, its count, and the lengths of its head and of its oldest
/// message.
fn numbers_of(objects: &Objects, id: Id) -> [u32; 7]
    requires { IsSome (live_at objects.now id) }
{
    let view = objects.file(id);
    [
        objects.cred(id).uid,
        view.uid,
        view.gid,
        objects.size(id),
        objects.count(id),
        objects.head(id).len,
        objects.message(id).len,
    ]
}

/// The label of an entity, as numbers.
fn label_of(objects: &Objects, id: Id) -> [u32; 4]
    requires { IsSome (live_at objects.now id) }
{
    let [first, second, third, fourth] = objects.label(id);
    [part(first), part(second), part(third), part(fourth)]
}

/// Writes all that can be read of an entity: its title, its kind, its numbers and its label.
fn write_entity(objects: &Objects, id: Id, out: &mut String) -> Result<(), AllocError>
    requires { IsSome (live_at objects.now id) }
{
    objects.title(id, out)?;
    write_kind(objects, id, out)?;
    write_numbers(&numbers_of(objects, id), out)?;
    if is_the_same(objects, id) && has_its_view(objects, id) {
        write_numbers(&label_of(objects, id), out)?;
    }
    out.push_str("\n")
}

/// For what a file is open.
fn letters(fd: &Fd) -> &'static str {
    match (fd.read, fd.write) {
        (true, false) => " r",
        (false, true) => " w",
        _ => " another",
    }
}

/// Writes for what a file is open, under which number, and with which values of its opening.
fn write_fd(fd: &Fd, out: &mut String) -> Result<(), AllocError> {
    out.push_str(letters(fd))?;
    write_numbers(&[fd.number, part(fd.subject), part(fd.object)], out)
}

/// Writes how many descriptors the process has, and the lowest number that is free; then what is open under each number.
fn write_fds(objects: &Objects, t: Id, out: &mut String) -> Result<(), AllocError>
    requires { IsLive is_process objects.now t }
{
    write_numbers(&[objects.fd_count(t), objects.lowest_free(t)], out)?;
    for number in 0..MOST_DESCRIPTORS + 1 {
        if let Some(fd) = objects.fd(t, number) {
            write_fd(fd, out)?;
        }
    }
    out.push_str("\n")
}

/// All that can be read of the entities.
pub fn reading_of(alloc: Global, objects: &Objects) -> Result<String, AllocError> {
    let mut text = String::new(alloc);
    write_all(alloc, objects, &mut text)?;
    Ok(text)
}

/// Writes it: the counts and the names, each entity by rising id, and what t has open.
fn write_all(alloc: Global, objects: &Objects, out: &mut String) -> Result<(), AllocError> {
    write_numbers(&counts_of(objects), out)?;
    out.push_str("\n")?;
    write_names(alloc, objects, out)?;
    write_entities(objects, out)?;
    match objects.process("t") {
        Some(t) => write_fds(objects, t, out),
        None => Ok(()),
    }
}

/// Writes each entity, by rising id.
fn write_entities(objects: &Objects, out: &mut String) -> Result<(), AllocError> {
    for number in 0..objects.next_id() {
        if let Some(id) = objects.least_from(number) {
            if id.number() == number {
                write_entity(objects, id, out)?;
            }
        }
    }
    Ok(())
}

/// Whether this is read of the entities.
pub fn reads(alloc: Global, objects: &Objects, wanted: &str) -> Result<bool, AllocError> {
    let found = reading_of(alloc, objects)?;
    Ok(found.as_str() == wanted)
}
