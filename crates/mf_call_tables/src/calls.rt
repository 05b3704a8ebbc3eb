//! Calls of t and its child c where mac_biba is listed: what they make, and what the policy refuses. There is nothing but the
//! root, which is high, the process t and the process u.
ghost use Rattle.std.specs.Prelude.{◌≡◌, ◌≤◌, IfOk, length};
ghost use Rattle.mf_policy.specs.declared.registration.TheConstants.{MOST_LISTED};
ghost use Rattle.mf_calls.specs.WellFormed.{IsFormedLine, IsName};
ghost use Rattle.mf_plan.specs.declared.plan.Tail.TheVariants.{Do};
ghost use Rattle.mf_plan.specs.Found.{AreFound};
ghost use Rattle.mf_plan.specs.Plan.{plan_of};
ghost use Rattle.mf_perform.specs.OneCall.{call_reply};
ghost use Rattle.mf_perform.specs.Verdict.{verdict_of};

use crate::machine::{Machine, booted, labelled, with_biba};
use crate::scripts::{only_line, script_of, wants};
use mf_biba::Biba;
use mf_calls::Line;
use mf_elem::{Elem, LabelValue};
use mf_errno::Module;
use mf_item::Kind;
use mf_list::Listed;
use mf_objects::Objects;
use mf_perform::{Verdict, complete, payload_of, refusal_of, verdict_of};
use mf_plan::{Found, Outline, Payload, Plan, Reply, State};
use mf_policy::{Origin, Policy, Registration, Spec, SpecList, new_label};
use std::alloc::{AllocError, Global};
use std::process::Abort;

/// The reply to the call of a line, by its plan and the verdict on it.
fn reply_by(
    alloc: Global,
    state: &State,
    task: &str,
    line: &Line,
    plan: &Plan,
    found: &Found,
    verdict: &Verdict,
) -> Result<Reply, AllocError>
    requires line { IsFormedLine line.now }
    requires plan { plan.now ≡ plan_of state.now task.now line.now.child line.now.call }
    requires found { plan.now.tail ≡ Do
        → AreFound state.now task.now line.now.child line.now.call found.now }
    requires verdict { verdict.now ≡ verdict_of state.now.specs plan.now }
    requires few { length state.now.specs ≤ MOST_LISTED }
    ensures { IfOk result (λ reply. reply
        ≡ call_reply state.now task.now line.now.child line.now.call) }
{
    if let Some(refusal) = refusal_of(plan, verdict) {
        return Ok(refusal);
    }
    let payload = payload_of(alloc, state, found, &line.call)?;
    Ok(Reply::Ok(payload))
}

/// Makes of the state what the call of the line makes of it, where the policies are those of the state, and replies to it. It is no
/// change.
fn reply_of<P: Policy>(
    rt: &impl Abort,
    alloc: Global,
    machine: &mut Machine<P>,
    task: &str,
    line: &Line,
) -> Result<Reply, AllocError>
    requires task { IsName task.now }
    requires line { IsFormedLine line.now }
{
    let list = Listed::new(&machine.fixed, &machine.list);
    assert!(rt; list.same_specs(&machine.state.specs) && !line.call.is_change());
    assert!(rt; machine.state.specs.len() <= 8 && machine.state.objects.next_id() < u32::MAX);
    let mut plan = Plan::new();
    let mut outline = Outline::new();
    plan.make(
        &machine.state,
        task,
        line.child_name(),
        &line.call,
        &mut outline,
    );
    let found = &outline.found;
    let verdict = verdict_of(&list, &plan);
    let reply = reply_by(alloc, &machine.state, task, line, &plan, found, &verdict)?;
    complete(alloc, &mut machine.state, task, line, &outline, &reply)?;
    Ok(reply)
}

fn reply_text(alloc: Global, reply: &Reply) -> Result<String, AllocError> {
    match reply {
        Reply::Ok(Payload::Fd(number)) => format!(in alloc; "ok fd {number}"),
        Reply::Ok(_) => String::from_str(alloc, "ok"),
        Reply::Refused(errno) => String::from_str(alloc, errno.name()),
        Reply::Denied {
            errno,
            op,
            item,
            ..
        } => format!(in alloc; "{} {} {item}", errno.name(), op.name()),
    }
}

/// The text of the reply to the call of the line.
fn said<P: Policy>(
    rt: &impl Abort,
    alloc: Global,
    machine: &mut Machine<P>,
    task: &str,
    line: &Line,
) -> Result<String, AllocError>
    requires task { IsName task.now }
    requires line { IsFormedLine line.now }
{
    let reply = reply_of(rt, alloc, machine, task, line)?;
    reply_text(alloc, &reply)
}

/// The text of the reply to a call that is written as a script's line.
fn said_to<P: Policy>(
    rt: &impl Abort,
    alloc: Global,
    machine: &mut Machine<P>,
    text: &str,
) -> Result<String, AllocError> {
    let script = script_of(rt, alloc, text)?;
    let (task, line) = only_line(rt, &script);
    said(rt, alloc, machine, task, line)
}

/// Does the call, with its reply.
pub fn is_said<P: Policy>(
    rt: &impl Abort,
    alloc: Global,
    machine: &mut Machine<P>,
    line: &str,
    wanted: &str,
) -> Result<(), AllocError> {
    let reply = said_to(rt, alloc, machine, line)?;
    wants(rt, line, reply.as_str() == wanted);
    Ok(())
}

/// Does the call of each row of the form `CALL -> REPLY`.
pub fn run<P: Policy>(
    rt: &impl Abort,
    alloc: Global,
    machine: &mut Machine<P>,
    rows: &str,
) -> Result<(), AllocError> {
    for row in rows.lines() {
        match row.split_once(" -> ") {
            Some((line, wanted)) => is_said(rt, alloc, machine, line, wanted)?,
            None => wants(rt, row, false),
        }
    }
    Ok(())
}

/// Whether the child and its pipe live and have these labels.
fn are_labelled(objects: &Objects, of_child: &[LabelValue; 4], of_pipe: &[LabelValue; 4]) -> bool {
    match (objects.process("t.c"), objects.pipe("p")) {
        (Some(child), Some(pipe)) => {
            objects.label(child) == *of_child && objects.label(pipe) == *of_pipe
        }
        _ => false,
    }
}

const CHILD: &str = "fork c -> ok
@c pipe p -> ok
";

/// A child and its pipe get their labels.
fn labels_child(
    rt: &impl Abort,
    alloc: Global,
    machine: &mut Machine<Biba>,
) -> Result<(), AllocError> {
    run(rt, alloc, machine, CHILD)?;
    let low = labelled(Elem::Low, None);
    let wide = labelled(Elem::Low, Some((Elem::Low, Elem::High)));
    wants(
        rt,
        "labels",
        are_labelled(&machine.state.objects, &wide, &low),
    );
    Ok(())
}

#[test]
fn labels_of_a_child_and_of_its_pipe(rt: HostRuntime) -> Result<(), AllocError> {
    let mut machine = booted(&rt, rt.alloc(), Elem::Low, Elem::High)?;
    labels_child(&rt, rt.alloc(), &mut machine)
}

/// Whether a child has its maker's label, and no partition, where mac_partition is younger than the maker.
fn has_no_partition(specs: &SpecList) -> bool {
    let maker = labelled(Elem::Low, None);
    let child = new_label(specs, Kind::Process, &Origin::Maker(maker));
    let unset = LabelValue::Unset;
    child == [maker[0], LabelValue::Number(0), unset, unset]
}

fn with_late_partition(alloc: Global) -> Result<SpecList, AllocError> {
    let mut specs = with_biba(alloc, false)?;
    let registration = Registration {
        module: Module::Partition,
        slot: Some(1),
        fixed: false,
    };
    specs.insert(0, registration, Spec::Partition)?;
    Ok(specs)
}

#[test]
fn a_child_of_a_process_older_than_mac_partition(rt: HostRuntime) -> Result<(), AllocError> {
    let specs = with_late_partition(rt.alloc())?;
    wants(&rt, "its label", has_no_partition(&specs));
    Ok(())
}

/// The call that fills the pipe p.
fn full_write(alloc: Global) -> Result<String, AllocError> {
    let mut call = String::from_str(alloc, "pwrite p ")?;
    for _ in 0..16_384 {
        call.push_str("a")?;
    }
    Ok(call)
}

/// A pipe that this call fills takes no more until it is read.
fn fill_twice(
    rt: &impl Abort,
    alloc: Global,
    machine: &mut Machine<Biba>,
    full: &str,
) -> Result<(), AllocError> {
    is_said(rt, alloc, machine, "pipe p", "ok")?;
    is_said(rt, alloc, machine, full, "ok")?;
    run(rt, alloc, machine, "pread p -> ok\npread p -> EAGAIN\n")?;
    is_said(rt, alloc, machine, full, "ok")
}

fn fill_pipe(
    rt: &impl Abort,
    alloc: Global,
    machine: &mut Machine<Biba>,
) -> Result<(), AllocError> {
    let full = full_write(alloc)?;
    fill_twice(rt, alloc, machine, full.as_str())
}

/// What a full socket says, until a message is received.
const FULL: &str = "send s s x -> ENOBUFS
recv s -> ok
send s s x -> ok
";

fn fill_socket(
    rt: &impl Abort,
    alloc: Global,
    machine: &mut Machine<Biba>,
) -> Result<(), AllocError> {
    is_said(rt, alloc, machine, "socket s", "ok")?;
    for _ in 0..16 {
        is_said(rt, alloc, machine, "send s s x", "ok")?;
    }
    run(rt, alloc, machine, FULL)
}

fn fill_both(
    rt: &impl Abort,
    alloc: Global,
    machine: &mut Machine<Biba>,
) -> Result<(), AllocError> {
    fill_pipe(rt, alloc, machine)?;
    fill_socket(rt, alloc, machine)
}

#[test]
fn what_is_taken_makes_room(rt: HostRuntime) -> Result<(), AllocError> {
    let mut machine = booted(&rt, rt.alloc(), Elem::Low, Elem::High)?;
    fill_both(&rt, rt.alloc(), &mut machine)
}

/// Calls of a process that is low, beside one that is high.
const BELOW: &str = "see u -> ok
debug u -> EACCES proc_debug 1
getpmac -> ok
create /f -> EACCES vnode_create 2
";

/// Calls of a process that is high, beside one that is low.
const ABOVE: &str = "see u -> ESRCH proc_visible 1
debug u -> ESRCH proc_debug 1
debug t -> ok
getfmac / -> ok
";

/// Does the calls of t where t and u have these elements.
fn does(rt: &impl Abort, alloc: Global, t: Elem, u: Elem, rows: &str) -> Result<(), AllocError> {
    let mut machine = booted(rt, alloc, t, u)?;
    run(rt, alloc, &mut machine, rows)
}

#[test]
fn who_may_see_and_debug(rt: HostRuntime) -> Result<(), AllocError> {
    does(&rt, rt.alloc(), Elem::Low, Elem::High, BELOW)?;
    does(&rt, rt.alloc(), Elem::High, Elem::Low, ABOVE)
}
