//! Files, processes, pipes and sockets through their lives. Each step is taken once more where memory is refused: then all can be
//! read as before. Where no memory is refused the tests show nothing but what comes of each step; checks/memory.sh runs one of
//! them with one allocation refused after another.

use crate::asked::{holds, wants};
use crate::reading::{reading_of, reads};
use crate::steps::Step::{
    Append, Close, Empty, Exit, File, Fill, Open, Pipe, Process, Reads, Receive, Relabel, Send,
    SetLabel, SetMode, Socket, Unlink, User,
};
use crate::steps::{Step, Values, changes, grow};
use mf_elem::LabelValue::{Number, Unset};
use mf_objects::Objects;
use std::alloc::{AllocError, Global};

/// Takes a step once more, which was refused: before that all can be read as before the first time.
fn takes_again(
    alloc: Global,
    objects: &mut Objects,
    step: &Step,
    before: &str,
) -> Result<bool, AllocError> {
    let is_same = reads(alloc, objects, before)?;
    grow(alloc, objects, step)?;
    Ok(is_same)
}

/// Takes a step, which comes out as it says.
fn takes(alloc: Global, objects: &mut Objects, step: &Step) -> Result<bool, AllocError> {
    let before = reading_of(alloc, objects)?;
    match grow(alloc, objects, step) {
        Ok(()) => Ok(changes(objects, step)),
        Err(AllocError) => takes_again(alloc, objects, step, before.as_str()),
    }
}

/// Takes the steps, each of which comes out as it says.
fn takes_all(alloc: Global, objects: &mut Objects, steps: &[Step]) -> Result<bool, AllocError> {
    for step in steps {
        let is_so = match step {
            Reads(wanted) => reads(alloc, objects, wanted)?,
            _ => takes(alloc, objects, step)?,
        };
        if !is_so {
            return Ok(false);
        }
    }
    Ok(true)
}

/// The label of the root.
const OF_ROOT: &Values = &[Number(7), Unset, Unset, Unset];

/// Takes them from the root on.
fn lives(alloc: Global, steps: &[Step]) -> Result<bool, AllocError> {
    let mut objects = Objects::new(alloc, OF_ROOT)?;
    takes_all(alloc, &mut objects, steps)
}

/// The label of t.
const THREE: Values = [Number(3), Unset, Unset, Unset];

/// Every growth, some of them of what an earlier one made.
const GROWTHS: &[Step] = &[
    File("f"),
    File("g"),
    Process("t", THREE),
    Pipe("t"),
    Socket,
    File("h"),
    Append,
    Fill,
    Send(b"one"),
    Send(b"one"),
    Relabel([Unset, Number(2), Number(3), Unset]),
    Reads(
        " 7 7 7 1 1 0
fgh
vnode:/ v755d 0 0 0 0 3 0 0 7 2 3 0
vnode:/f v644 0 0 0 5 0 5 0 1 0 0 0
vnode:/g v644 0 0 0 4 0 4 0 1 0 0 0
proc:t p0 0 0 0 0 0 0 0 3 0 0 0
pipe:p f0 0 0 0 4 0 4 0 3 0 0 0
socket:s s0 0 0 0 0 2 0 3 3 0 0 0
vnode:/h v644 0 0 0 4 0 4 0 1 0 0 0
 0 0
",
    ),
];

#[test]
fn entities_after_refused_growths(rt: HostRuntime) -> Result<(), AllocError> {
    let lives = lives(rt.alloc(), GROWTHS)?;
    wants(&rt, "growths", lives);
    Ok(())
}

/// The label of t and of its child.
const FIVES: Values = [Number(5), Unset, Number(5), Unset];

/// The child t.c of t makes the pipe p, which goes with it; then there is a child without one.
const EXITS: &[Step] = &[
    Process("t", FIVES),
    Process("t.c", FIVES),
    Pipe("t.c"),
    Reads(
        " 4 4 4 0 2 0

vnode:/ v755d 0 0 0 0 0 0 0 7 0 0 0
proc:t p0 0 0 0 0 0 0 0 5 0 5 0
proc:t.c p0 0 0 0 0 0 0 0 5 0 5 0
pipe:p f0 0 0 0 0 0 0 0 3 0 0 0
 0 0
",
    ),
    Exit("t.c"),
    Reads(
        " 2 4 2 0 1 0

vnode:/ v755d 0 0 0 0 0 0 0 7 0 0 0
proc:t p0 0 0 0 0 0 0 0 5 0 5 0
 0 0
",
    ),
    Process("t.c", FIVES),
    Reads(
        " 3 5 3 0 2 0

vnode:/ v755d 0 0 0 0 0 0 0 7 0 0 0
proc:t p0 0 0 0 0 0 0 0 5 0 5 0
proc:t.c p0 0 0 0 0 0 0 0 5 0 5 0
 0 0
",
    ),
    Exit("t.c"),
    Reads(
        " 2 5 2 0 1 0

vnode:/ v755d 0 0 0 0 0 0 0 7 0 0 0
proc:t p0 0 0 0 0 0 0 0 5 0 5 0
 0 0
",
    ),
];

#[test]
fn an_exit_gives_up_its_slots(rt: HostRuntime) {
    wants(&rt, "slots", holds(lives(rt.alloc(), EXITS)));
}

/// Files of the root, whose names are listed in byte order.
const NAMES: &[Step] = &[
    File("b"),
    File("a"),
    File("c"),
    File("B"),
    Reads(
        " 5 5 5 0 0 0
Babc
vnode:/ v755d 0 0 0 0 4 0 0 7 0 0 0
vnode:/b v644 0 0 0 4 0 4 0 1 0 0 0
vnode:/a v644 0 0 0 4 0 4 0 1 0 0 0
vnode:/c v644 0 0 0 4 0 4 0 1 0 0 0
vnode:/B v644 0 0 0 4 0 4 0 1 0 0 0
",
    ),
];

/// The process t makes the pipe p, uses it, and ends; its pipe goes with it.
const PIPES: &[Step] = &[
    Process("t", THREE),
    Pipe("t"),
    Reads(
        " 3 3 3 0 0 0

vnode:/ v755d 0 0 0 0 0 0 0 7 0 0 0
proc:t p0 0 0 0 0 0 0 0 3 0 0 0
pipe:p f0 0 0 0 0 0 0 0 3 0 0 0
 0 0
",
    ),
    Fill,
    Reads(
        " 3 3 3 0 0 0

vnode:/ v755d 0 0 0 0 0 0 0 7 0 0 0
proc:t p0 0 0 0 0 0 0 0 3 0 0 0
pipe:p f0 0 0 0 4 0 4 0 3 0 0 0
 0 0
",
    ),
    Empty,
    Reads(
        " 3 3 3 0 0 0

vnode:/ v755d 0 0 0 0 0 0 0 7 0 0 0
proc:t p0 0 0 0 0 0 0 0 3 0 0 0
pipe:p f0 0 0 0 0 0 0 0 3 0 0 0
 0 0
",
    ),
    Exit("t"),
    Reads(
        " 1 3 1 0 0 0

vnode:/ v755d 0 0 0 0 0 0 0 7 0 0 0
",
    ),
];

/// The socket s of t gets two messages, and gives back the first.
const MESSAGES: &[Step] = &[
    Process("t", THREE),
    Socket,
    Send(b"one"),
    Send(b"three"),
    Receive(3),
    Reads(
        " 3 3 3 0 0 0

vnode:/ v755d 0 0 0 0 0 0 0 7 0 0 0
proc:t p0 0 0 0 0 0 0 0 3 0 0 0
socket:s s0 0 0 0 0 1 0 5 3 0 0 0
 0 0
",
    ),
];

/// The root gets two slots more, and keeps the first as it is.
const LABELS: &[Step] = &[
    Relabel([Unset, Number(2), Number(3), Unset]),
    Reads(
        " 1 1 1 1 1 0

vnode:/ v755d 0 0 0 0 0 0 0 7 2 3 0
",
    ),
];

/// The file f from its beginning to its end.
const WRITES: &[Step] = &[
    File("f"),
    Append,
    SetMode(0o1777),
    SetLabel(9),
    Reads(
        " 2 2 2 1 0 0
f
vnode:/ v755d 0 0 0 0 1 0 0 7 0 0 0
vnode:/f v1777 0 0 0 5 0 5 0 1 9 0 0
",
    ),
    Unlink,
    Reads(
        " 1 2 1 0 0 0

vnode:/ v755d 0 0 0 0 0 0 0 7 0 0 0
",
    ),
];

/// The file f is open in t under all numbers, and under fewer, and goes.
const OPENINGS: &[Step] = &[
    Process("t", THREE),
    File("f"),
    Open(true, false, 0),
    Open(true, false, 1),
    Open(true, false, 2),
    Open(true, false, 3),
    Open(true, false, 4),
    Open(true, false, 5),
    Open(true, false, 6),
    Open(true, false, 7),
    Open(true, false, 8),
    Open(true, false, 9),
    Open(true, false, 10),
    Open(true, false, 11),
    Open(true, false, 12),
    Open(true, false, 13),
    Open(true, false, 14),
    Open(true, false, 15),
    Reads(
        " 3 3 3 0 0 0
f
vnode:/ v755d 0 0 0 0 1 0 0 7 0 0 0
proc:t p0 0 0 0 0 0 0 0 3 0 0 0
vnode:/f v644 0 0 0 4 0 4 0 1 0 0 0
 16 16 r 0 3 1 r 1 3 1 r 2 3 1 r 3 3 1 r 4 3 1 r 5 3 1 r 6 3 1 r 7 3 1 r 8 3 1 r 9 3 1 r 10 3 1 r 11 3 1 r 12 3 1 r 13 3 1 r 14 3 1 r 15 3 1
",
    ),
    Close(15),
    Close(3),
    Close(0),
    Close(3),
    Reads(
        " 3 3 3 0 0 0
f
vnode:/ v755d 0 0 0 0 1 0 0 7 0 0 0
proc:t p0 0 0 0 0 0 0 0 3 0 0 0
vnode:/f v644 0 0 0 4 0 4 0 1 0 0 0
 13 0 r 1 3 1 r 2 3 1 r 4 3 1 r 5 3 1 r 6 3 1 r 7 3 1 r 8 3 1 r 9 3 1 r 10 3 1 r 11 3 1 r 12 3 1 r 13 3 1 r 14 3 1
",
    ),
    Open(false, true, 0),
    Reads(
        " 3 3 3 0 0 0
f
vnode:/ v755d 0 0 0 0 1 0 0 7 0 0 0
proc:t p0 0 0 0 0 0 0 0 3 0 0 0
vnode:/f v644 0 0 0 4 0 4 0 1 0 0 0
 14 3 w 0 3 1 r 1 3 1 r 2 3 1 r 4 3 1 r 5 3 1 r 6 3 1 r 7 3 1 r 8 3 1 r 9 3 1 r 10 3 1 r 11 3 1 r 12 3 1 r 13 3 1 r 14 3 1
",
    ),
    Unlink,
    Reads(
        " 2 3 2 0 0 0

vnode:/ v755d 0 0 0 0 0 0 0 7 0 0 0
proc:t p0 0 0 0 0 0 0 0 3 0 0 0
 0 0
",
    ),
];

/// A process is seen by its real uid and its first group.
const SEEN: &[Step] = &[
    User,
    Reads(
        " 2 2 2 0 0 0

vnode:/ v755d 0 0 0 0 0 0 0 7 0 0 0
proc:t p0 1 2 5 0 0 0 0 3 0 0 0
 0 0
",
    ),
];

/// What comes of lives.
const LIVES: &[(&str, &[Step])] = &[
    ("names in byte order", NAMES),
    ("an exit takes its pipes", PIPES),
    ("the oldest message first", MESSAGES),
    ("unset leaves a slot as it is", LABELS),
    ("a file from write to unlink", WRITES),
    ("a file is open until it goes", OPENINGS),
    ("a process is seen by its real uid and first group", SEEN),
];

#[test]
fn entities_through_their_lives(rt: HostRuntime) {
    for (name, steps) in LIVES {
        wants(&rt, name, holds(lives(rt.alloc(), steps)));
    }
}
