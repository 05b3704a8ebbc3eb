//! What is done with entities: each step by itself.
ghost use Rattle.std.specs.Prelude.{◌<◌, IsTrue, length};

use mf_cred::{ArrayVec, Cred, FileView};
use mf_elem::{LabelValue, SLOTS};
use mf_names::MOST_DESCRIPTORS;
use mf_objects::{ID_LIMIT, Id, MOST_ENTITIES, Objects};
use std::alloc::{AllocError, Global};

/// The values of a label.
pub type Values = [LabelValue; SLOTS];

/// What is done.
pub enum Step {
    /// A file of that name comes into the root.
    File(&'static str),
    /// A process of root's, of that name and with that label.
    Process(&'static str, Values),
    /// The process t of a user.
    User,
    /// The pipe p, which the process of that name makes.
    Pipe(&'static str),
    /// The socket s of t.
    Socket,
    /// A byte more in the file f.
    Append,
    /// Four bytes more in the pipe p.
    Fill,
    /// No byte in the pipe p.
    Empty,
    /// A message more in the socket s.
    Send(&'static [u8]),
    /// Its oldest message, of that length, is taken.
    Receive(u32),
    /// The root gets a label.
    Relabel(Values),
    /// The file f gets a mode.
    SetMode(u16),
    /// The file f gets a second label value.
    SetLabel(u32),
    /// The file f is opened in t, to be read and to be written, under that number.
    Open(bool, bool, u32),
    /// What t has open under the number is closed.
    Close(u32),
    /// The file f goes.
    Unlink,
    /// The process of that name ends.
    Exit(&'static str),
    /// All that is then read.
    Reads(&'static str),
}

/// The label of a file.
const OF_FILES: &Values = &[
    LabelValue::Number(1),
    LabelValue::Unset,
    LabelValue::Unset,
    LabelValue::Unset,
];

/// The label of a pipe or a socket.
const OF_OTHERS: &Values = &[
    LabelValue::Number(3),
    LabelValue::Unset,
    LabelValue::Unset,
    LabelValue::Unset,
];

/// Whether there is room for an entity more.
fn has_room(objects: &Objects) -> bool
    ensures live { IsTrue result → length objects.now.live < MOST_ENTITIES }
    ensures next { IsTrue result → objects.now.next < ID_LIMIT }
{
    objects.live() < MOST_ENTITIES && objects.next_id() < ID_LIMIT
}

/// Whether an entity was made.
fn made(found: Result<Id, AllocError>) -> Result<(), AllocError> {
    match found {
        Ok(_) => Ok(()),
        Err(error) => Err(error),
    }
}

/// A plain file of root's.
const FILE: &FileView = &FileView {
    uid: 0,
    gid: 0,
    mode: 0o644,
    dir: false,
};

/// A file of the root with that name and the bytes `text`.
fn add_file(alloc: Global, objects: &mut Objects, name: &str) -> Result<(), AllocError> {
    let root = objects.root();
    if has_room(objects) && objects.child(root, name).is_none() {
        made(objects.add_vnode(alloc, root, name, FILE, b"text", OF_FILES))
    } else {
        Ok(())
    }
}

/// The process of that name and credential, with these label values.
fn add_process(
    alloc: Global,
    objects: &mut Objects,
    name: &str,
    cred: &Cred,
    values: &Values,
) -> Result<(), AllocError> {
    if has_room(objects) && objects.process(name).is_none() {
        made(objects.add_process(alloc, name, cred, values))
    } else {
        Ok(())
    }
}

/// A credential whose uids and groups all differ.
fn user() -> Cred {
    let mut groups = ArrayVec::one(5);
    groups.push(6);
    Cred {
        uid: 1,
        ruid: 2,
        svuid: 3,
        groups,
    }
}

/// The empty pipe p, which the process of that name makes.
fn add_pipe(alloc: Global, objects: &mut Objects, maker: &str) -> Result<(), AllocError> {
    match objects.process(maker) {
        Some(maker) if has_room(objects) && objects.pipe("p").is_none() => {
            made(objects.add_pipe(alloc, "p", maker, OF_OTHERS))
        }
        _ => Ok(()),
    }
}

/// The socket s of t, without a message.
fn add_socket(alloc: Global, objects: &mut Objects) -> Result<(), AllocError> {
    match objects.process("t") {
        Some(t) if has_room(objects) && objects.socket("s").is_none() => {
            made(objects.add_socket(alloc, "s", t, OF_OTHERS))
        }
        _ => Ok(()),
    }
}

/// Appends a byte to the file f of the root.
#[tactic(auto, using(mf_objects::proofs::Laws::fits_file))]
fn append(objects: &mut Objects) -> Result<(), AllocError> {
    let root = objects.root();
    match objects.child(root, "f") {
        Some(f) if !objects.file(f).dir && objects.size(f) < 10 => objects.append(f, b"s"),
        _ => Ok(()),
    }
}

/// Fills the pipe p.
#[tactic(auto, using(mf_objects::proofs::Laws::fits_pipe))]
fn fill(objects: &mut Objects) -> Result<(), AllocError> {
    match objects.pipe("p") {
        Some(p) if objects.size(p) < 10 => objects.append(p, b"text"),
        _ => Ok(()),
    }
}

/// Puts a short message into the socket s.
#[tactic(auto, using(mf_objects::proofs::Laws::fits_message))]
fn send(alloc: Global, objects: &mut Objects, text: &[u8]) -> Result<(), AllocError> {
    match objects.socket("s") {
        Some(s) if objects.count(s) < 16 && text.len() < 9 => objects.push_message(alloc, s, text),
        _ => Ok(()),
    }
}

/// Gives the root a label.
fn relabel(objects: &mut Objects, values: &Values) -> Result<(), AllocError> {
    let root = objects.root();
    objects.relabel(root, values)
}

/// Gives the file f a second label value.
fn set_label(objects: &mut Objects, number: u32) -> Result<(), AllocError> {
    let root = objects.root();
    match objects.child(root, "f") {
        Some(f) => objects.set_label(f, 1, LabelValue::Number(number)),
        None => Ok(()),
    }
}

/// The part of a step that takes memory.
pub fn grow(alloc: Global, objects: &mut Objects, step: &Step) -> Result<(), AllocError> {
    match step {
        Step::File(name) => add_file(alloc, objects, name),
        Step::Process(name, values) => {
            add_process(alloc, objects, name, &Cred::default(), values)
        }
        Step::User => add_process(alloc, objects, "t", &user(), OF_OTHERS),
        Step::Pipe(maker) => add_pipe(alloc, objects, maker),
        Step::Socket => add_socket(alloc, objects),
        Step::Append => append(objects),
        Step::Fill => fill(objects),
        Step::Send(text) => send(alloc, objects, text),
        Step::Relabel(values) => relabel(objects, values),
        Step::SetLabel(number) => set_label(objects, *number),
        _ => Ok(()),
    }
}

/// Empties the pipe p.
fn empty(objects: &mut Objects) {
    if let Some(p) = objects.pipe("p") {
        objects.clear(p);
    }
}

/// Takes the oldest message out of the socket s, and says whether it has that length.
#[tactic(auto, using(mf_objects::proofs::Laws::has_message))]
fn receives(objects: &mut Objects, len: u32) -> bool {
    match objects.socket("s") {
        Some(s) => objects.count(s) > 0 && objects.pop_message(s).len == len,
        None => false,
    }
}

/// Changes the mode of the file f.
fn set_mode(objects: &mut Objects, mode: u16) {
    let root = objects.root();
    if let Some(f) = objects.child(root, "f") {
        objects.set_mode(f, mode);
    }
}

/// Opens the file f in t, where there is room for it, and says whether it has that number.
#[tactic(auto, using(crate::proofs::Regular::live_regular))]
fn opens(objects: &mut Objects, read: bool, write: bool, number: u32) -> bool {
    let (subject, object) = (LabelValue::Number(3), LabelValue::Number(1));
    let root = objects.root();
    match (objects.process("t"), objects.child(root, "f")) {
        (Some(t), Some(f)) if !objects.file(f).dir && objects.fd_count(t) < MOST_DESCRIPTORS => {
            objects.open_fd(t, f, read, write, subject, object) == number
        }
        _ => false,
    }
}

/// Closes what t has open under this number.
fn close(objects: &mut Objects, number: u32) {
    match objects.process("t") {
        Some(t) if objects.fd(t, number).is_some() => objects.close_fd(t, number),
        _ => (),
    }
}

/// Removes the file f.
fn unlink(objects: &mut Objects) {
    let root = objects.root();
    match objects.child(root, "f") {
        Some(f) if f.number() != 0 && !objects.file(f).dir && objects.count(f) == 0 => {
            objects.remove_vnode(f);
        }
        _ => (),
    }
}

/// The process of that name ends.
fn exit(objects: &mut Objects, name: &str) {
    if let Some(id) = objects.process(name) {
        objects.remove_process(id);
    }
}

/// The part of a step that takes no memory, and whether it comes out as it says.
pub fn changes(objects: &mut Objects, step: &Step) -> bool {
    match step {
        Step::Empty => empty(objects),
        Step::Receive(len) => return receives(objects, *len),
        Step::SetMode(mode) => set_mode(objects, *mode),
        Step::Open(read, write, number) => return opens(objects, *read, *write, *number),
        Step::Close(number) => close(objects, *number),
        Step::Unlink => unlink(objects),
        Step::Exit(name) => exit(objects, name),
        _ => (),
    }
    true
}
