//! LOMAC by itself.

use crate::asked::Level::{self, Equal, Grade, High, In, Low};
use crate::asked::{Row, answers, element, labelled, object, subject, wants};
use mf_elem::{Elem, Request};
use mf_errno::Errno::{self, Eacces, Eperm, Success};
use mf_item::CheckOp::{
    self, CredRelabel, KldLoad, ProcDebug, ProcSched, ProcSignal, ProcVisible, SocketDeliver,
    SocketVisible, VnodeOpenRead, VnodeOpenWrite, VnodeRelabel,
};
use mf_item::{Item, Kind};
use mf_lomac::Lomac;
use mf_policy::{Policy, lower_by, lowers};

/// It reads everything and writes down.
const RULES: &[Row] = &[
    (VnodeOpenRead, Grade(10), Grade(10), Success),
    (VnodeOpenWrite, Grade(10), Grade(10), Success),
    (VnodeOpenRead, Grade(10), Grade(5), Success),
    (VnodeOpenWrite, Grade(10), Grade(5), Success),
    (VnodeOpenRead, Grade(5), Grade(10), Success),
    (VnodeOpenWrite, Grade(5), Grade(10), Eacces),
    (VnodeOpenRead, In(5, 1), In(9, 2), Success),
    (VnodeOpenWrite, In(5, 1), In(9, 2), Eacces),
    (ProcSignal, Low, High, Eacces),
    (ProcDebug, High, Low, Success),
    (ProcSched, Grade(5), Grade(9), Eacces),
    (ProcVisible, Low, High, Success),
    (SocketVisible, Low, High, Success),
    (SocketDeliver, High, Low, Eacces),
    (SocketDeliver, High, Equal, Success),
    (KldLoad, Low, High, Success),
];

/// The answer to a relabel, of the subject's own credential or of a file with the old element.
fn relabel(op: CheckOp, of_subject: Elem, old: Elem, asked: Option<Elem>) -> Errno {
    let mut request = Request::none();
    request.lomac = asked;
    let subject = subject(labelled(of_subject));
    let object = object(Kind::Vnode, labelled(old));
    let item = Item::new(op, &subject, Some(&object), Some(&request), None, None);
    Lomac::new().check(0, &item)
}

/// Relabels, by the elements of subject and object and what is asked, with their answers: it gives what it dominates.
const RELABELS: &[(CheckOp, Level, Level, Option<Level>, Errno)] = &[
    (CredRelabel, Grade(9), Low, Some(Grade(5)), Success),
    (CredRelabel, Grade(5), Low, Some(Grade(9)), Eperm),
    (CredRelabel, Grade(9), Low, Some(Equal), Eperm),
    (CredRelabel, Equal, Low, Some(Equal), Success),
    (CredRelabel, Equal, Low, Some(Grade(9)), Success),
    (CredRelabel, Grade(5), Low, None, Success),
    (VnodeRelabel, Grade(5), Grade(9), Some(Grade(5)), Eperm),
    (VnodeRelabel, Grade(5), Grade(9), None, Eperm),
    (VnodeRelabel, Grade(9), Grade(5), Some(Grade(9)), Success),
    (VnodeRelabel, Grade(9), Grade(5), Some(Equal), Eperm),
    (VnodeRelabel, Grade(9), Grade(5), None, Success),
];

/// What is asked.
fn element_of(asked: &Option<Level>) -> Option<Elem> {
    match asked {
        Some(level) => Some(element(level)),
        None => None,
    }
}

fn gives_what_it_dominates() -> bool {
    let mut holds = true;
    for (op, subject, old, asked, errno) in RELABELS {
        let found = relabel(*op, element(subject), element(old), element_of(asked));
        holds &= found == *errno;
    }
    holds
}

#[test]
fn reads_everything_and_writes_down(rt: HostRuntime) {
    wants(&rt, "rules", answers(&Lomac::new(), RULES));
    wants(&rt, "relabels", gives_what_it_dominates());
}

/// What remains of a subject's element after it has observed an object of the second.
const REMAINS: &[(Level, Level, Level)] = &[
    (Low, Low, Low),
    (Low, Grade(5), Low),
    (Low, High, Low),
    (Grade(5), Low, Low),
    (Grade(5), Grade(5), Grade(5)),
    (Grade(5), Grade(9), Grade(5)),
    (Grade(5), High, Grade(5)),
    (Grade(9), Low, Low),
    (Grade(9), Grade(5), Grade(5)),
    (High, Low, Low),
    (High, Grade(9), Grade(9)),
    (High, High, High),
    (Equal, Low, Equal),
    (Equal, Grade(5), Equal),
    (Equal, Equal, Equal),
    (Low, Equal, Low),
    (Grade(9), Equal, Grade(9)),
    (High, Equal, High),
];

/// Whether that remains, and the answer says whether it is another.
fn remains(subject: &Level, object: &Level, wanted: &Level) -> bool {
    let [own, _, _, _] = labelled(element(subject));
    let [other, _, _, _] = labelled(element(object));
    let [left, _, _, _] = labelled(element(wanted));
    let mut value = own;
    let is_lowered = lower_by(&mut value, &other);
    value == left && is_lowered == (own != left)
}

#[test]
fn what_remains_of_an_element(rt: HostRuntime) {
    for (subject, object, wanted) in REMAINS {
        wants(&rt, "what remains", remains(subject, object, wanted));
    }
}

/// Operations, and whether each lowers who asks for it.
const LOWERS: &[(CheckOp, bool)] = &[
    (CheckOp::VnodeLookup, true),
    (CheckOp::VnodeReaddir, true),
    (CheckOp::VnodeOpenRead, true),
    (CheckOp::VnodeRead, true),
    (CheckOp::VnodeExec, true),
    (CheckOp::VnodeStat, true),
    (CheckOp::PipeRead, true),
    (CheckOp::PipeStat, true),
    (CheckOp::SocketReceive, true),
    (CheckOp::ProcDebug, true),
    (CheckOp::VnodeOpenWrite, false),
    (CheckOp::VnodeCreate, false),
    (CheckOp::VnodeUnlink, false),
    (CheckOp::VnodeRelabel, false),
    (CheckOp::PipeWrite, false),
    (CheckOp::SocketDeliver, false),
    (CheckOp::SocketVisible, false),
    (CheckOp::ProcVisible, false),
    (CheckOp::ProcSignal, false),
    (CheckOp::Priv, false),
];

#[test]
fn who_learns_is_lowered(rt: HostRuntime) {
    for (op, wanted) in LOWERS {
        wants(&rt, op.name(), lowers(*op) == *wanted);
    }
}
