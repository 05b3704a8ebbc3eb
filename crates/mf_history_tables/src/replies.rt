//! The texts of replies.

use mf_cred::{ArrayVec, FileView};
use mf_elem::{Elem, LabelValue, RangeLabel};
use mf_errno::{Errno, Module};
use mf_hist::print_reply;
use mf_item::CheckOp;
use mf_names::NameList;
use mf_objects::Head;
use mf_plan::{LabelPart, Loaded, Payload, Reply};
use mf_rule::{RuleList, read_rule};
use std::alloc::{AllocError, Global};
use std::process::Abort;

const DIRECTORY: FileView = FileView {
    uid: 0,
    gid: 5,
    mode: 493,
    dir: true,
};

const FILE: FileView = FileView {
    uid: 80,
    gid: 0,
    mode: 0,
    dir: false,
};

const BIBA: Loaded = Loaded {
    module: Module::Biba,
    slot: Some(0),
};

const BSDEXTENDED: Loaded = Loaded {
    module: Module::Bsdextended,
    slot: None,
};

fn two_rules(alloc: Global) -> Result<RuleList, AllocError> {
    let mut rules = RuleList::new(alloc)?;
    if let Ok(rule) = read_rule(&["subject", "object", "mode", "n"]) {
        rules.set(249, rule)?;
    }
    if let Ok(rule) = read_rule(&["subject", "uid", "5:5", "object", "mode", "r"]) {
        rules.set(3, rule)?;
    }
    Ok(rules)
}

/// A reply, and its text.
type Row = (Reply, &'static str);

/// Wants what is said of this to hold.
pub fn wants(rt: &impl Abort, name: &str, holds: bool) {
    assert!(rt; holds, "{name}");
}

/// The reply has this text.
fn is_printed(rt: &impl Abort, alloc: Global, reply: &Reply, text: &str) -> Result<(), AllocError> {
    let mut out = String::new(alloc);
    print_reply(reply, &mut out)?;
    wants(rt, text, out.as_str() == text);
    Ok(())
}

/// The replies have these texts.
fn are_printed(rt: &impl Abort, alloc: Global, rows: &[Row]) -> Result<(), AllocError> {
    for (reply, text) in rows {
        is_printed(rt, alloc, reply, text)?;
    }
    Ok(())
}

/// What calls of files, pipes and sockets hand back.
fn read_and_listed(rt: &impl Abort, alloc: Global) -> Result<(), AllocError> {
    let head = Head {
        len: 70,
        first: ArrayVec::one(b' '),
    };
    let names = Payload::Names {
        count: 0,
        first: NameList::new(alloc),
    };
    let rows = [
        (Reply::Ok(Payload::None), "ok"),
        (Reply::Ok(Payload::Head(head)), "ok bytes 70 =\\20"),
        (Reply::Ok(Payload::Fd(3)), "ok fd 3"),
        (Reply::Ok(Payload::Size(4096)), "ok size 4096"),
        (
            Reply::Ok(Payload::Stat(DIRECTORY, 0)),
            "ok stat dir uid 0 gid 5 mode 755 size 0",
        ),
        (
            Reply::Ok(Payload::Stat(FILE, 9)),
            "ok stat reg uid 80 gid 0 mode 0 size 9",
        ),
        (Reply::Ok(names), "ok names 0 -"),
    ];
    are_printed(rt, alloc, &rows)
}

/// What calls of modules hand back.
fn loaded(rt: &impl Abort, alloc: Global) -> Result<(), AllocError> {
    let mut modules = ArrayVec::one(BIBA);
    modules.push(BSDEXTENDED);
    let rows = [
        (
            Reply::Ok(Payload::Modules(modules)),
            "ok modules mac_biba:0,mac_bsdextended:-",
        ),
        (Reply::Ok(Payload::Modules(ArrayVec::new())), "ok modules -"),
        (Reply::Ok(Payload::Slot(Some(2))), "ok slot 2"),
        (Reply::Ok(Payload::Slot(None)), "ok slot -"),
    ];
    are_printed(rt, alloc, &rows)
}

/// What calls of labels hand back.
fn shown(rt: &impl Abort, alloc: Global) -> Result<(), AllocError> {
    let parts = [
        LabelPart {
            module: Module::Mls,
            value: LabelValue::Range(RangeLabel::ranged(Elem::Low, Elem::Low, Elem::High)),
        },
        LabelPart {
            module: Module::Lomac,
            value: LabelValue::Range(RangeLabel::effective(Elem::High)),
        },
        LabelPart {
            module: Module::Partition,
            value: LabelValue::Number(0),
        },
    ];
    let rows = [
        (
            Reply::Ok(Payload::label(alloc, &parts)?),
            "ok label mls/low(low-high),lomac/high,partition/none",
        ),
        (Reply::Ok(Payload::label(alloc, &[])?), "ok label -"),
    ];
    are_printed(rt, alloc, &rows)
}

/// What calls of rules hand back.
fn listed_and_added(rt: &impl Abort, alloc: Global) -> Result<(), AllocError> {
    let (two, none) = (two_rules(alloc)?, RuleList::new(alloc)?);
    let rows = [
        (
            Reply::Ok(Payload::Rules(two)),
            "ok rules 2 ; 3 subject uid 5 object mode r ; 249 subject object mode n",
        ),
        (Reply::Ok(Payload::Rules(none)), "ok rules 0"),
        (Reply::Ok(Payload::Rule(0)), "ok rule 0"),
    ];
    are_printed(rt, alloc, &rows)
}

/// Calls that are denied by a policy, by none, and refused by the framework.
fn denied(rt: &impl Abort, alloc: Global) -> Result<(), AllocError> {
    let by_biba = Reply::Denied {
        errno: Errno::Eacces,
        op: CheckOp::VnodeOpenRead,
        item: 2,
        by: Some(Module::Biba),
    };
    let by_none = Reply::Denied {
        errno: Errno::Eperm,
        op: CheckOp::Priv,
        item: 1,
        by: None,
    };
    let by_portacl = Reply::Denied {
        errno: Errno::Eperm,
        op: CheckOp::SocketBind,
        item: 1,
        by: Some(Module::Portacl),
    };
    let rows = [
        (by_biba, "no EACCES vnode_open_read mac_biba 2"),
        (by_portacl, "no EPERM socket_bind mac_portacl 1"),
        (by_none, "no EPERM priv - 1"),
        (Reply::Refused(Errno::Enotdir), "no ENOTDIR - -"),
    ];
    are_printed(rt, alloc, &rows)
}

#[test]
fn replies_and_their_texts(rt: HostRuntime) -> Result<(), AllocError> {
    read_and_listed(&rt, rt.alloc())?;
    shown(&rt, rt.alloc())?;
    loaded(&rt, rt.alloc())?;
    listed_and_added(&rt, rt.alloc())?;
    denied(&rt, rt.alloc())
}
