//! The check of a binding: one of t, which is root's, or of its child c, which isn't, on t's socket a.

use crate::plans::plan_of_text;
use crate::scripts::wants;
use mf_item::{CheckOp, Item, ObjectView};
use mf_objects::{Id, Objects};
use mf_plan::{Plan, State};
use std::alloc::{AllocError, Global};
use std::process::Abort;

/// Each call, the process that makes it, and its port: of TCP, or else of UDP.
const BINDINGS: &[(&str, &str, bool, u16)] = &[
    ("bind a tcp 80", "t", true, 80),
    ("bind a udp 80", "t", false, 80),
    ("bind a tcp 0", "t", true, 0),
    ("@c bind a tcp 80", "t.c", true, 80),
    ("@c bind a udp 65535", "t.c", false, 65_535),
];

fn is_view_of(object: Option<&ObjectView>, id: Id) -> bool {
    match object {
        Some(object) => object.id == id.number(),
        None => false,
    }
}

/// Whether the check is that of a binding of the socket by the process to the port.
fn is_binding(item: &Item, process: Id, socket: Id, port: (bool, u16)) -> bool {
    item.op() == CheckOp::SocketBind
        && item.subject().id == process.number()
        && is_view_of(item.object(), socket)
        && item.port() == Some(port)
}

/// Whether the plan has one check, of a binding of the socket a by the process of that name to the port.
fn binds(objects: &Objects, plan: &Plan, name: &str, port: (bool, u16)) -> bool {
    match (objects.process(name), objects.socket("a")) {
        (Some(process), Some(socket)) => {
            plan.len() == 1 && is_binding(&plan.item(0), process, socket, port)
        }
        _ => false,
    }
}

/// Each call asks for its port.
pub fn are_bindings(rt: &impl Abort, alloc: Global, state: &State) -> Result<(), AllocError> {
    for (text, name, tcp, port) in BINDINGS {
        let plan = plan_of_text(rt, alloc, state, text)?;
        wants(rt, text, binds(&state.objects, &plan, name, (*tcp, *port)));
    }
    Ok(())
}
