//! What the listed policies are asked together.

use crate::asked::{object, subject};
use mf_elem::{LabelValue, SLOTS};
use mf_errno::Priv;
use mf_item::{CheckOp, Item, Kind, ObjectView, SubjectView};
use mf_list::{Answer, Listed};
use mf_policy::Policy;

/// The values of a label.
pub type Values = [LabelValue; SLOTS];

/// What is asked.
pub enum Question {
    /// Whether root with the first label may do so to an object of a kind with the second.
    About(CheckOp, Kind, &'static Values, &'static Values),
    /// Whether a user of that uid has a privilege.
    Privilege(u32),
    /// Whether a user of uid 1 in partition 1 sees a process of that real uid and partition.
    Sight(u32, u32),
    /// Whether a user of that uid may bind a socket to TCP port 80.
    Bind(u32),
}

/// Partition 1 in each slot.
const ONES: &Values = &[LabelValue::Number(1); SLOTS];

/// No value in any slot.
const UNSET: &Values = &[LabelValue::Unset; SLOTS];

/// A user of this uid with that label.
fn user(uid: u32, label: &Values) -> SubjectView {
    let mut user = subject(*label);
    user.cred.uid = uid;
    user.cred.ruid = uid;
    user
}

/// The answer to a user who does so to an object, or binds it to a port.
fn ask<'v, P: Policy>(
    list: &Listed<'_, P>,
    op: CheckOp,
    user: &'v SubjectView,
    object: &'v ObjectView,
    port: Option<(bool, u16)>,
) -> Answer {
    list.ask(&Item::new(op, user, Some(object), None, None, port))
}

/// The answer to a user who asks for a privilege.
fn ask_privilege<P: Policy>(list: &Listed<'_, P>, user: &SubjectView) -> Answer {
    let privilege = Some(Priv::SchedRtprio);
    list.ask(&Item::new(CheckOp::Priv, user, None, None, privilege, None))
}

/// A process with that real uid and partition.
fn process(uid: u32, partition: u32) -> ObjectView {
    let mut process = object(Kind::Process, [LabelValue::Number(partition); SLOTS]);
    process.file.uid = uid;
    process
}

/// The answer to a question.
pub fn answer_to<P: Policy>(list: &Listed<'_, P>, question: &Question) -> Answer {
    match question {
        Question::About(op, kind, label, of_object) => {
            let (user, object) = (user(0, label), object(*kind, **of_object));
            ask(list, *op, &user, &object, None)
        }
        Question::Privilege(uid) => ask_privilege(list, &user(*uid, UNSET)),
        Question::Sight(uid, partition) => {
            let (user, process) = (user(1, ONES), process(*uid, *partition));
            ask(list, CheckOp::ProcVisible, &user, &process, None)
        }
        Question::Bind(uid) => {
            let (user, socket) = (user(*uid, UNSET), object(Kind::Socket, *UNSET));
            ask(list, CheckOp::SocketBind, &user, &socket, Some((true, 80)))
        }
    }
}
