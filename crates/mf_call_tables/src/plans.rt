//! Plans of calls by t and its child c. There is /d with a regular file f, and a regular file /e; t has the empty socket a and the
//! empty pipe p, and has /e open for reading as 0 and /d/f for writing as 1; the process u has nothing. All are root's but c.
ghost use Rattle.mf_objects.specs.Live.{is_process};
ghost use Rattle.mf_calls.specs.WellFormed.{IsFormedLine, IsName};

use crate::bindings::are_bindings;
use crate::calls::{is_said, run};
use crate::machine::{Machine, beside, no_lists};
use crate::population::{add_process, state_of};
use crate::scripts::{only_line, script_of, wants};
use mf_biba::Biba;
use mf_calls::Line;
use mf_objects::Objects;
use mf_plan::{Outline, Plan, State, Tail, plan_of};
use std::alloc::{AllocError, Global};
use std::process::Abort;

/// Each call, and its plan: the checks, and `ok` or the errno at the end.
const ROWS: &str = "fork e -> ok
fork c -> EEXIST
exit -> ok
see u -> proc_visible ok
see t.d -> ESRCH
signal t.c -> proc_signal ok
priv SCHED_RTPRIO -> priv ok
@c getpmac -> ok
setpmac biba/5 -> EINVAL
@d setpmac biba/ -> ESRCH
exec /e -> vnode_lookup vnode_exec ok
exec /d -> vnode_lookup EACCES
create /d/g -> vnode_lookup vnode_lookup vnode_create ok
create /d/f -> vnode_lookup vnode_lookup EEXIST
create / -> EINVAL
mkdir /e/g -> vnode_lookup ENOTDIR
read /d/f -> vnode_lookup vnode_lookup vnode_open_read vnode_read ok
read /d/x -> vnode_lookup vnode_lookup ENOENT
read /x/f -> vnode_lookup ENOENT
read /e/f -> vnode_lookup ENOTDIR
read / -> EISDIR
write /e x -> vnode_lookup vnode_open_write vnode_write ok
stat / -> vnode_stat ok
getfmac /e -> vnode_lookup vnode_stat ok
getfmac /d/x -> vnode_lookup vnode_lookup ENOENT
setfmac biba/5 /x/f -> EINVAL
readdir /d -> vnode_lookup vnode_readdir ok
readdir /e -> vnode_lookup ENOTDIR
chmod /e 700 -> vnode_lookup vnode_setmode ok
unlink /e -> vnode_lookup vnode_unlink_dir vnode_unlink ok
unlink /d -> vnode_lookup vnode_unlink_dir vnode_unlink ENOTEMPTY
unlink / -> EINVAL
open /e r -> vnode_lookup vnode_open_read ok
open /e w -> vnode_lookup vnode_open_write ok
open /d/f rw -> vnode_lookup vnode_lookup vnode_open_read vnode_open_write ok
open /d r -> vnode_lookup EISDIR
open /x w -> vnode_lookup ENOENT
fread 0 -> vnode_read ok
fread 1 -> EBADF
fread 2 -> EBADF
@c fread 0 -> EBADF
@d fread 0 -> ESRCH
fwrite 0 x -> EBADF
fwrite 1 x -> vnode_write ok
close 1 -> ok
close 15 -> EBADF
@c close 0 -> EBADF
pipe p -> EEXIST
socket p -> ok
pread p -> pipe_read EAGAIN
pwrite p x -> pipe_write ok
pstat a -> ENOENT
send a b x -> socket_send ENOENT
send b a x -> ENOENT
send a a x -> socket_send socket_deliver ok
recv a -> socket_receive EAGAIN
@c seesock a -> socket_visible ok
bind a tcp 80 -> socket_bind ok
@c bind a udp 0 -> socket_bind ok
bind b tcp 80 -> ENOENT
bind p tcp 80 -> ENOENT
@d bind a tcp 80 -> ESRCH
@d kldstat -> ESRCH
kldload mac_partition -> priv kld_load ok
kldload mac_biba -> priv kld_load EBUSY
kldload partition -> priv ENOENT
kldunload partition -> priv kld_unload ENOENT
sysctl security.mac.biba.revocation_enabled=1 -> ENOENT
sysctl security.mac.biba.revocation_enabled=2 -> ENOENT
";

/// The calls that open the two files.
const OPENING: &str = "open /e r -> ok fd 0
open /d/f w -> ok fd 1
";

/// A machine without policies.
fn machine_of(rt: &impl Abort, alloc: Global) -> Result<Machine<Biba>, AllocError> {
    let state = state_of(rt, alloc)?;
    let (state, (fixed, list)) = beside(state, no_lists(alloc))?;
    Ok(Machine { state, fixed, list })
}

fn plan_of_line(state: &State, task: &str, line: &Line) -> Plan
    requires task { IsName task.now }
    requires line { IsFormedLine line.now }
{
    plan_of(state, task, line.child_name(), &line.call)
}

/// Adds the operations of the checks, and the end.
fn spell(text: &mut String, plan: &Plan) -> Result<(), AllocError> {
    for place in 0..plan.len() {
        text.push_str(plan.item(place).op().name())?;
        text.push_str(" ")?;
    }
    match plan.tail() {
        Tail::Do => text.push_str("ok"),
        Tail::Refuse(errno) => text.push_str(errno.name()),
    }
}

fn spelled(alloc: Global, plan: &Plan) -> Result<String, AllocError> {
    let mut text = String::new(alloc);
    spell(&mut text, plan)?;
    Ok(text)
}

/// Whether the plan is that of the line in this state.
fn is_of_line(plan: &Plan, state: &State, task: &str, line: &Line) -> bool
    requires task { IsName task.now }
    requires line { IsFormedLine line.now }
{
    plan.is_of(
        state,
        task,
        line.child_name(),
        &line.call,
        &mut Outline::new(),
    )
}

/// The plan of a call that is written as a script's line.
pub fn plan_of_text(
    rt: &impl Abort,
    alloc: Global,
    state: &State,
    text: &str,
) -> Result<Plan, AllocError> {
    let script = script_of(rt, alloc, text)?;
    let (task, line) = only_line(rt, &script);
    Ok(plan_of_line(state, task, line))
}

/// Whether the plan is that of a call that is written as a script's line.
fn is_of_text(
    rt: &impl Abort,
    alloc: Global,
    plan: &Plan,
    state: &State,
    text: &str,
) -> Result<bool, AllocError> {
    let script = script_of(rt, alloc, text)?;
    let (task, line) = only_line(rt, &script);
    Ok(is_of_line(plan, state, task, line))
}

/// The text of the line's plan, where it is told to be that.
fn text_of_line(alloc: Global, state: &State, task: &str, line: &Line) -> Result<String, AllocError>
    requires task { IsName task.now }
    requires line { IsFormedLine line.now }
{
    let plan = plan_of_line(state, task, line);
    if is_of_line(&plan, state, task, line) {
        spelled(alloc, &plan)
    } else {
        String::from_str(alloc, "another plan")
    }
}

/// The text of the plan of a call that is written as a script's line.
fn text_of_plan(
    rt: &impl Abort,
    alloc: Global,
    state: &State,
    text: &str,
) -> Result<String, AllocError> {
    let script = script_of(rt, alloc, text)?;
    let (task, line) = only_line(rt, &script);
    text_of_line(alloc, state, task, line)
}

fn is_planned(
    rt: &impl Abort,
    alloc: Global,
    state: &State,
    text: &str,
    wanted: &str,
) -> Result<(), AllocError> {
    let found = text_of_plan(rt, alloc, state, text)?;
    wants(rt, text, found.as_str() == wanted);
    Ok(())
}

/// Each row is of the form `CALL -> PLAN`.
pub fn are_planned(
    rt: &impl Abort,
    alloc: Global,
    state: &State,
    rows: &str,
) -> Result<(), AllocError> {
    for row in rows.lines() {
        match row.split_once(" -> ") {
            Some((text, wanted)) => is_planned(rt, alloc, state, text, wanted)?,
            None => wants(rt, row, false),
        }
    }
    Ok(())
}

fn add_numbered(
    rt: &impl Abort,
    alloc: Global,
    objects: &mut Objects,
    number: u32,
) -> Result<(), AllocError> {
    let name = format!(in alloc; "n{number}")?;
    add_process(rt, alloc, objects, name.as_str(), 0)
}

/// Makes as many entities as there may be.
fn fill(rt: &impl Abort, alloc: Global, objects: &mut Objects) -> Result<(), AllocError> {
    for number in 0..1024 {
        if objects.live() < 1024 {
            add_numbered(rt, alloc, objects, number)?;
        }
    }
    Ok(())
}

/// Calls where no entity may be made, and their plans.
const FULL: &str = "fork c -> EEXIST
fork e -> ENFILE
create /d/f -> vnode_lookup vnode_lookup EEXIST
create /g -> vnode_lookup vnode_create ENFILE
";

#[test]
fn a_full_population_is_told_last(rt: HostRuntime) -> Result<(), AllocError> {
    let mut state = state_of(&rt, rt.alloc())?;
    fill(&rt, rt.alloc(), &mut state.objects)?;
    are_planned(&rt, rt.alloc(), &state, FULL)
}

fn open_next(
    rt: &impl Abort,
    alloc: Global,
    machine: &mut Machine<Biba>,
    number: u32,
) -> Result<(), AllocError> {
    let opened = format!(in alloc; "ok fd {number}")?;
    is_said(rt, alloc, machine, "open /e r", opened.as_str())
}

/// Opens files until the process has as many descriptors as it may have.
fn open_all(rt: &impl Abort, alloc: Global, machine: &mut Machine<Biba>) -> Result<(), AllocError> {
    for number in 2..16 {
        open_next(rt, alloc, machine, number)?;
    }
    Ok(())
}

/// Calls where t has no descriptor free, and their plans.
const ALL_OPEN: &str = "open /e rw -> vnode_lookup vnode_open_read vnode_open_write EMFILE
open /d/f w -> vnode_lookup vnode_lookup vnode_open_write EMFILE
open /d r -> vnode_lookup EISDIR
open /x r -> vnode_lookup ENOENT
@c open /e r -> vnode_lookup vnode_open_read ok
fread 15 -> vnode_read ok
close 15 -> ok
";

/// Whether the second check's subject is the socket a, with the credential of the first one's.
fn is_sent_by_the_socket(objects: &Objects, plan: &Plan) -> bool {
    if plan.len() != 2 {
        return false;
    }
    let (first, second) = (plan.item(0), plan.item(1));
    let (caller, sender) = (first.subject(), second.subject());
    let is_socket = match objects.socket("a") {
        Some(id) => id.number() == sender.id,
        None => false,
    };
    is_socket && sender.cred.same(&caller.cred)
}

/// The sender is a socket with the caller's credential.
fn is_sent(rt: &impl Abort, alloc: Global, state: &State) -> Result<(), AllocError> {
    let plan = plan_of_text(rt, alloc, state, "send a a x")?;
    let is_socket = is_sent_by_the_socket(&state.objects, &plan);
    wants(rt, "the sender", is_socket);
    Ok(())
}

/// The plan of one of the calls isn't that of the other.
fn differ(
    rt: &impl Abort,
    alloc: Global,
    state: &State,
    one: &str,
    other: &str,
) -> Result<(), AllocError> {
    let plan = plan_of_text(rt, alloc, state, one)?;
    let is_same = is_of_text(rt, alloc, &plan, state, other)?;
    wants(rt, other, !is_same);
    Ok(())
}

/// The plan of a call isn't that of the same call where this one was done before it.
fn differ_after(
    rt: &impl Abort,
    alloc: Global,
    machine: &mut Machine<Biba>,
    done: &str,
    call: &str,
) -> Result<(), AllocError> {
    let plan = plan_of_text(rt, alloc, &machine.state, call)?;
    is_said(rt, alloc, machine, done, "ok")?;
    let is_same = is_of_text(rt, alloc, &plan, &machine.state, call)?;
    wants(rt, call, !is_same);
    Ok(())
}

/// Two calls each, whose plans differ.
const DIFFER: &[(&str, &str)] = &[
    ("see u", "signal u"),
    ("see u", "see t.c"),
    ("open /e r", "open /e rw"),
    ("bind a tcp 80", "bind a udp 80"),
    ("bind a tcp 80", "bind a tcp 81"),
];

/// A call that is done, and one whose plan it changes.
const DIFFER_AFTER: &[(&str, &str)] = &[("fork e", "fork e"), ("unlink /e", "fread 0")];

fn all_differ(rt: &impl Abort, alloc: Global, state: &State) -> Result<(), AllocError> {
    for (one, other) in DIFFER {
        differ(rt, alloc, state, one, other)?;
    }
    Ok(())
}

fn all_differ_after(
    rt: &impl Abort,
    alloc: Global,
    machine: &mut Machine<Biba>,
) -> Result<(), AllocError> {
    for (done, call) in DIFFER_AFTER {
        differ_after(rt, alloc, machine, done, call)?;
    }
    Ok(())
}

/// The plans of calls, and which plans differ; then those where no descriptor is free, and those that other calls change.
fn are_told(rt: &impl Abort, alloc: Global, machine: &mut Machine<Biba>) -> Result<(), AllocError> {
    run(rt, alloc, machine, OPENING)?;
    are_planned(rt, alloc, &machine.state, ROWS)?;
    is_sent(rt, alloc, &machine.state)?;
    are_bindings(rt, alloc, &machine.state)?;
    all_differ(rt, alloc, &machine.state)?;
    open_all(rt, alloc, machine)?;
    are_planned(rt, alloc, &machine.state, ALL_OPEN)?;
    all_differ_after(rt, alloc, machine)
}

#[test]
fn checks_and_ends_of_every_call(rt: HostRuntime) -> Result<(), AllocError> {
    let mut machine = machine_of(&rt, rt.alloc())?;
    are_told(&rt, rt.alloc(), &mut machine)
}
