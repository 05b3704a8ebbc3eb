//! A walk along the checks of a call: each is answered as it is asked.
ghost use Rattle.std.specs.Prelude.{◌≡◌, ◌<◌, IsSome};
ghost use Rattle.mf_list.specs.Asked.{answer_to};
ghost use Rattle.mf_objects.specs.declared.id.Id.{Id};
ghost use Rattle.mf_objects.specs.Live.{live_at};
ghost use Rattle.mf_plan.specs.Lowering.{with_slot};
ghost use Rattle.mf_plan.specs.Outline.{is_relabel, item_asking, request_with, subject_in};
ghost use Rattle.mf_audit.specs.Asking as spec;
ghost use Rattle.mf_audit.specs.Slotted.{AreSlotted};

use crate::answering::{Decision, answered};
use crate::kernel::Kernel;
use mf_answers::lowered_by;
use mf_cred::Duplicate;
use mf_elem::{LabelValue, Request};
use mf_errno::{Errno, Module, Priv};
use mf_item::{CheckOp, Item, ObjectView, SubjectView};
use mf_parties::{Parties, PartyId};
use mf_policy::SpecList;

/// A denial: the errno, the operation of the check, its number from 1, and the policy that decided it.
#[derive(Clone, Copy)]
pub struct Denied {
    pub errno: Errno,
    pub op: CheckOp,
    pub item: u8,
    pub by: Option<Module>,
}

/// How far the checks of a call are: how many were asked, what the caller has in the slot of mac_lomac by those that passed, and
/// the first denial.
#[derive(Clone, Copy)]
pub struct Walk {
    pub asked: u8,
    pub value: LabelValue,
    pub denied: Option<Denied>,
}

/// A check of a call.
#[derive(Clone, Copy)]
pub enum Check {
    /// Of what the caller does to another party.
    On(CheckOp, PartyId),
    /// Of the caller alone.
    Alone(CheckOp),
    /// Of a privilege of the caller's.
    Privilege(Priv),
    /// Of what a socket of the caller's does to another: the socket is the subject, with the caller's credential.
    BySocket(PartyId, CheckOp, PartyId),
    /// Of a binding of a socket of the caller's to a port, of TCP or else of UDP.
    Binding(bool, u16, PartyId),
}

/// What a check asks of its subject.
#[derive(Clone, Copy)]
pub struct Asked {
    op: CheckOp,
    object: Option<ObjectView>,
    request: Option<Request>,
    privilege: Option<Priv>,
    port: Option<(bool, u16)>,
}

impl Walk {
    /// The walk of a call of this process, before its first check.
    pub(crate) fn start(kernel: &Kernel, me: PartyId) -> Walk
        ensures { result ≡ spec.start kernel.now me }
    {
        let value = match kernel.listed.lomac_slot() {
            Some(slot) => kernel.parties.value(me, slot),
            None => LabelValue::Unset,
        };
        Walk {
            asked: 0,
            value,
            denied: None,
        }
    }

    /// Asks one more check, with what is asked of a label.
    pub(crate) fn ask(
        &mut self,
        kernel: &Kernel,
        me: PartyId,
        check: &Check,
        request: Option<Request>,
    )
        requires caller { IsSome (live_at kernel.now.objects me) }
        requires there { spec.IsThere kernel.now.objects check.now }
        requires few { self.old.asked < 255 }
        ensures { self.new ≡ spec.asking kernel.now.specs me self.old
            (item_asking kernel.now.objects request (spec.check_of me check.now)) }
    {
        let subject = subject_of(&kernel.parties, me, check);
        let asked = asked_of(&kernel.parties, check, request);
        self.count(&kernel.listed, me, &subject, &asked);
    }

    /// One more check. It counts where none before it was denied.
    fn count(&mut self, listed: &SpecList, me: PartyId, subject: &SubjectView, asked: &Asked)
        requires slots { AreSlotted listed.now }
        requires few { self.old.asked < 255 }
        ensures { self.new
            ≡ spec.asking listed.now me self.old (spec.item_with subject.now asked.now) }
    {
        let answer = self.answer(listed, me, subject, asked);
        self.asked += 1;
        if self.denied.is_none() {
            match answer.errno {
                Errno::Success => self.value = self.lowered(listed, subject, asked),
                errno => {
                    self.denied = Some(Denied {
                        errno,
                        op: asked.op,
                        item: self.asked,
                        by: answer.by,
                    });
                }
            }
        }
    }

    /// The answer to the check while the caller has the walk's value in the slot of mac_lomac.
    fn answer(
        &self,
        listed: &SpecList,
        me: PartyId,
        subject: &SubjectView,
        asked: &Asked,
    ) -> Decision
        requires { AreSlotted listed.now }
        ensures errno { result.errno ≡ (answer_to listed.now
            (spec.seen_now listed.now me self.now (spec.item_with subject.now asked.now))).errno }
        ensures by { result.by ≡ (answer_to listed.now
            (spec.seen_now listed.now me self.now (spec.item_with subject.now asked.now))).by }
    {
        match listed.lomac_slot() {
            Some(slot) if subject.id == me.number() => {
                let subject = with_value(subject, slot, &self.value);
                answered(listed, &asked.item(&subject))
            }
            _ => answered(listed, &asked.item(subject)),
        }
    }

    /// What the caller has there once the check has passed.
    fn lowered(&self, listed: &SpecList, subject: &SubjectView, asked: &Asked) -> LabelValue
        ensures { result
            ≡ spec.lowered_now listed.now self.now (spec.item_with subject.now asked.now) }
    {
        match listed.lomac_slot() {
            Some(slot) => lowered_by(slot, &self.value, &asked.item(subject)),
            None => self.value,
        }
    }
}

impl Asked {
    /// The check of this subject.
    fn item<'a>(&'a self, subject: &'a SubjectView) -> Item<'a>
        ensures { result ≡ spec.item_with subject.now self.now }
    {
        let (object, request) = (self.object.as_ref(), self.request.as_ref());
        Item::new(self.op, subject, object, request, self.privilege, self.port)
    }
}

/// The subject with this value in a slot of its label.
fn with_value(subject: &SubjectView, slot: u8, value: &LabelValue) -> SubjectView
    ensures { result ≡ with_slot slot value.now subject.now }
{
    let place = slot as usize;
    let mut seen = subject.copy();
    if place < seen.label.len() {
        seen.label[place] = *value;
    }
    seen
}

/// The subject of a check that this process asks.
fn subject_of(parties: &Parties, me: PartyId, check: &Check) -> SubjectView
    requires caller { IsSome (live_at parties.now me) }
    requires there { spec.IsThere parties.now check.now }
    ensures { result ≡ subject_in parties.now (spec.check_of me check.now) }
{
    match check {
        Check::BySocket(socket, ..) => parties.subject(me, *socket),
        Check::On(..) | Check::Alone(_) | Check::Privilege(_) | Check::Binding(..) => {
            parties.subject(me, me)
        }
    }
}

/// What a check asks of it, with what is asked of a label.
fn asked_of(parties: &Parties, check: &Check, request: Option<Request>) -> Asked
    requires { spec.IsThere parties.now check.now }
    ensures { (me : Id) → result ≡ spec.parts_of parties.now request (spec.check_of me check.now) }
{
    match check {
        Check::On(op, id) | Check::BySocket(_, op, id) => Asked {
            op: *op,
            object: Some(parties.object(*id)),
            request: request_with(*op, request),
            privilege: None,
            port: None,
        },
        Check::Alone(op) => Asked {
            op: *op,
            object: None,
            request: request_with(*op, request),
            privilege: None,
            port: None,
        },
        Check::Privilege(privilege) => Asked {
            op: CheckOp::Priv,
            object: None,
            request: request_with(CheckOp::Priv, request),
            privilege: Some(*privilege),
            port: None,
        },
        Check::Binding(tcp, port, id) => Asked {
            op: CheckOp::SocketBind,
            object: Some(parties.object(*id)),
            request: request_with(CheckOp::SocketBind, request),
            privilege: None,
            port: Some((*tcp, *port)),
        },
    }
}

/// What is asked of a label, where the operation changes one.
fn request_with(op: CheckOp, request: Option<Request>) -> Option<Request>
    ensures { result ≡ request_with request op }
{
    if is_relabel(op) { request } else { None }
}

/// Whether the operation changes a label.
fn is_relabel(op: CheckOp) -> bool
    ensures { result ≡ is_relabel op }
{
    matches!(
        op,
        CheckOp::VnodeRelabel | CheckOp::PipeRelabel | CheckOp::SocketRelabel | CheckOp::CredRelabel
    )
}
