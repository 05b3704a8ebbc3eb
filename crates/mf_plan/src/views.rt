//! Checks and live entities as policies see them.
ghost use Rattle.std.specs.Prelude.{◌≡◌, ◌↔◌, ◌≤◌, ◌<◌, ◌+◌, [], ◌∷◌, ◌++◌, length, map, option_map, take, IfSome, IsSome, IsTrue, Some, None, slice_index_or};
ghost use Rattle.mf_objects.specs.Live.{live_at};
ghost use Rattle.mf_objects.specs.Lives.{view_at};
ghost use Rattle.mf_plan.specs.Outline as outline;
ghost use Rattle.mf_plan.specs.Items.{HaveSubjects, item_with, items_with, nobody};
ghost use Rattle.mf_plan.specs.Viewing as viewing;

use crate::outline::Check;
use crate::plan::{MOST_CHECKS, MOST_SUBJECTS};
use mf_cred::ArrayVec;
use mf_elem::Request;
use mf_errno::Priv;
use mf_item::{CheckOp, Item, ObjectView, SubjectView};
use mf_objects::{Id, Objects};

/// The subjects of a plan's checks, with room for one that a plan before had.
pub(crate) type Subjects = ArrayVec<SubjectView, MOST_SUBJECTS>;

/// A check of a plan: the place of its subject among those of the plan, its object, what a relabel asks for, the privilege that is asked
/// for, and the port that a socket is bound to.
#[derive(Clone, Copy)]
pub struct CheckView {
    pub op: CheckOp,
    pub subject: usize,
    pub object: Option<ObjectView>,
    pub request: Option<Request>,
    pub privilege: Option<Priv>,
    pub port: Option<(bool, u16)>,
}

impl CheckView {
    /// A view that no check has been given yet.
    pub(crate) fn none() -> CheckView {
        CheckView {
            op: CheckOp::VnodeLookup,
            subject: 0,
            object: None,
            request: None,
            privilege: None,
            port: None,
        }
    }

    /// The check as policies see it, with its subject.
    pub(crate) fn item<'a>(&'a self, subject: &'a SubjectView) -> Item<'a>
        ensures { result
            ≡ record {
              op = self.now.op;
              subject = subject.now;
              object = self.now.object;
              request = self.now.request;
              privilege = self.now.privilege;
              port = self.now.port;
            } }
    {
        Item::new(
            self.op,
            subject,
            self.object.as_ref(),
            self.request.as_ref(),
            self.privilege,
            self.port,
        )
    }
}

/// The subject of a check.
fn subject_in(objects: &Objects, check: Check) -> SubjectView
    requires { outline.IsLiveCheck objects.now check }
    ensures { result ≡ outline.subject_in objects.now check }
{
    SubjectView {
        id: check.subject.number(),
        cred: objects.cred(check.caller),
        label: objects.label(check.subject),
    }
}

/// Whether the view is that of the check's subject. Nothing is copied.
#[inline(always)]
fn is_subject(objects: &Objects, check: Check, subject: &SubjectView) -> bool
    requires { outline.IsLiveCheck objects.now check }
    ensures { IsTrue result ↔ (subject.now ≡ outline.subject_in objects.now check) }
{
    subject.id == check.subject.number()
        && objects.has_cred(check.caller, &subject.cred)
        && objects.has_label(check.subject, &subject.label)
}

/// The object of a check, as policies see it.
fn object_in(objects: &Objects, object: Option<Id>) -> Option<ObjectView>
    requires { IfSome object (λ id. IsSome (live_at objects.now id)) }
    ensures { result ≡ option_map (view_at objects.now) object }
{
    match object {
        None => None,
        Some(id) => Some(ObjectView {
            id: id.number(),
            kind: objects.kind(id),
            file: objects.file(id),
            label: objects.label(id),
        }),
    }
}

/// Whether the view is that of the check's object.
fn is_object(objects: &Objects, id: Option<Id>, object: &Option<ObjectView>) -> bool
    requires { IfSome id (λ id. IsSome (live_at objects.now id)) }
    ensures { IsTrue result ↔ (object.now ≡ option_map (view_at objects.now) id) }
{
    match (id, object) {
        (None, None) => true,
        (Some(id), Some(object)) => objects.has_view(id, object),
        _ => false,
    }
}

pub(crate) fn same_privilege(privilege: Option<Priv>, other: Option<Priv>) -> bool
    ensures { IsTrue result ↔ (privilege ≡ other) }
{
    privilege == other
}

pub(crate) fn same_port(port: Option<(bool, u16)>, other: Option<(bool, u16)>) -> bool
    ensures { IsTrue result ↔ (port ≡ other) }
{
    port == other
}

/// Whether the operation changes a label.
fn is_relabel(op: CheckOp) -> bool
    ensures { result ≡ outline.is_relabel op }
{
    matches!(
        op,
        CheckOp::VnodeRelabel | CheckOp::PipeRelabel | CheckOp::SocketRelabel | CheckOp::CredRelabel
    )
}

/// The request that goes with a check of that operation.
fn request_with(asked: &Option<Request>, op: CheckOp) -> Option<Request>
    ensures { result ≡ outline.request_with asked.now op }
{
    if is_relabel(op) { *asked } else { None }
}

/// Whether that request is the one that goes with a check of that operation. Nothing is copied.
fn is_request(asked: &Option<Request>, op: CheckOp, request: &Option<Request>) -> bool
    ensures { IsTrue result ↔ (request.now ≡ outline.request_with asked.now op) }
{
    match (asked, request) {
        (None, None) => true,
        (Some(_), None) => !is_relabel(op),
        (Some(asked), Some(request)) => is_relabel(op) && request.same(asked),
        (None, Some(_)) => false,
    }
}

/// Whether the view is that of the check, but for its subject.
fn is_asked(objects: &Objects, asked: &Option<Request>, check: Check, seen: &CheckView) -> bool
    requires { outline.IsLiveCheck objects.now check }
    ensures { IsTrue result ↔ viewing.IsViewOf objects.now asked.now check seen.now }
{
    seen.op == check.op
        && is_object(objects, check.object, &seen.object)
        && is_request(asked, check.op, &seen.request)
        && same_privilege(seen.privilege, check.privilege)
        && same_port(seen.port, check.port)
}

/// Whether the check has the subject of the one before.
fn goes_on(last: Option<Check>, check: Check) -> bool
    ensures { IsTrue result ↔ viewing.GoesOn last check }
{
    match last {
        None => false,
        Some(last) => check.has_subject_of(last),
    }
}

/// Keeps the only subject where it is still that of the first check, which is returned then, and else none.
fn keep_first(objects: &Objects, checks: &[Check], subjects: &mut Subjects) -> Option<Check>
    requires { outline.AreLive objects.now checks.now }
    ensures last { viewing.EndsWith objects.now subjects.new result }
    ensures few { length subjects.new ≤ 1 }
{
    match checks.first() {
        Some(check) if is_alone(objects, *check, subjects.as_slice()) => Some(*check),
        _ => {
            subjects.clear();
            None
        }
    }
}

/// Whether the check's subject is the only one.
fn is_alone(objects: &Objects, check: Check, subjects: &[SubjectView]) -> bool
    requires { outline.IsLiveCheck objects.now check }
    ensures one { IsTrue result → length subjects.now ≡ 1 }
    ensures subject { IsTrue result
        → slice_index_or subjects.now 0 nobody ≡ outline.subject_in objects.now check }
{
    subjects.len() == 1 && is_subject(objects, check, &subjects[0])
}

/// The place of the check's subject, which is looked up and kept where it isn't that of the check before.
fn place_of_subject(
    objects: &Objects,
    last: Option<Check>,
    check: Check,
    subjects: &mut Subjects,
) -> usize
    requires live { outline.IsLiveCheck objects.now check }
    requires few { length subjects.old < MOST_SUBJECTS }
    requires last { viewing.EndsWith objects.now subjects.old last }
    ensures place { slice_index_or subjects.new result nobody
        ≡ outline.subject_in objects.now check }
    ensures within { result < length subjects.new }
    ensures last { viewing.EndsWith objects.now subjects.new (Some check) }
    ensures grows { viewing.GrowsTo subjects.old subjects.new }
    ensures few { length subjects.new ≤ length subjects.old + 1 }
{
    if !goes_on(last, check) {
        add_subject(objects, check, subjects);
    }
    subjects.len() - 1
}

/// Adds the check's subject. It stands apart, as `renew_object` does: a function clears the room for what it copies, even where
/// it copies nothing.
#[inline(never)]
fn add_subject(objects: &Objects, check: Check, subjects: &mut Subjects)
    requires live { outline.IsLiveCheck objects.now check }
    requires few { length subjects.old < MOST_SUBJECTS }
    ensures { subjects.new ≡ subjects.old ++ outline.subject_in objects.now check ∷ [] }
{
    subjects.push(subject_in(objects, check));
}

/// Makes the view that of the entity.
#[inline(never)]
fn renew_object(objects: &Objects, id: Option<Id>, seen: &mut Option<ObjectView>)
    requires { IfSome id (λ id. IsSome (live_at objects.now id)) }
    ensures { seen.new ≡ option_map (view_at objects.now) id }
{
    let Some(id) = id else {
        *seen = None;
        return;
    };
    match seen {
        Some(view) => renew_view(objects, id, view),
        None => *seen = object_in(objects, Some(id)),
    }
}

/// Makes the view that of the entity, where it lies.
fn renew_view(objects: &Objects, id: Id, seen: &mut ObjectView)
    requires { IsSome (live_at objects.now id) }
    ensures { seen.new ≡ view_at objects.now id }
{
    seen.id = id.number();
    seen.kind = objects.kind(id);
    seen.file = objects.file(id);
    objects.fill_label(id, &mut seen.label);
}

/// Makes the request the one that goes with a check of that operation.
#[inline(never)]
fn renew_request(asked: &Option<Request>, op: CheckOp, seen: &mut Option<Request>)
    ensures { seen.new ≡ outline.request_with asked.now op }
{
    *seen = request_with(asked, op);
}

/// Makes the view that of the check. An object or a request that it shows as it is isn't copied again.
fn look_again(
    objects: &Objects,
    asked: &Option<Request>,
    check: Check,
    subject: usize,
    seen: &mut CheckView,
)
    requires { outline.IsLiveCheck objects.now check }
    ensures asked { viewing.IsViewOf objects.now asked.now check seen.new }
    ensures subject { seen.new.subject ≡ subject }
{
    seen.op = check.op;
    seen.subject = subject;
    seen.privilege = check.privilege;
    seen.port = check.port;
    if !is_object(objects, check.object, &seen.object) {
        renew_object(objects, check.object, &mut seen.object);
    }
    if !is_request(asked, check.op, &seen.request) {
        renew_request(asked, check.op, &mut seen.request);
    }
}

/// Makes the first views those of the checks. What they showed before is kept where it still holds, since calls in a row
/// mostly look at the same.
#[tactic(auto, unfolding(crate::specs::Outline::item_asking))]
pub(crate) fn fill_views(
    objects: &Objects,
    asked: &Option<Request>,
    checks: &[Check],
    subjects: &mut Subjects,
    seen: &mut [CheckView],
)
    requires few { length checks.now ≤ MOST_CHECKS }
    requires room { length checks.now ≤ length seen.old }
    requires live { outline.AreLive objects.now checks.now }
    ensures items { items_with subjects.new (take (length checks.now) seen.new)
        ≡ map (outline.item_asking objects.now asked.now) checks.now }
    ensures places { HaveSubjects subjects.new (take (length checks.now) seen.new) }
    ensures few { length subjects.new ≤ MOST_CHECKS + 1 }
{
    let mut last = keep_first(objects, checks, subjects);
    for (place, check) in checks.iter().enumerate() {
        let subject = place_of_subject(objects, last, *check, subjects);
        look_again(objects, asked, *check, subject, &mut seen[place]);
        last = Some(*check);
    }
}

/// Whether the subject at this place is that of the check. The one before was found to have that at `before`, so a check
/// that goes on with it isn't compared again.
fn is_subject_at(
    objects: &Objects,
    last: Option<Check>,
    before: usize,
    check: Check,
    subjects: &[SubjectView],
    place: usize,
) -> bool
    requires live { outline.IsLiveCheck objects.now check }
    requires place { place < length subjects.now }
    requires last { viewing.IsFoundAt objects.now subjects.now last before }
    ensures { IsTrue result
        ↔ (slice_index_or subjects.now place nobody ≡ outline.subject_in objects.now check) }
{
    place == before && goes_on(last, check) || is_subject(objects, check, &subjects[place])
}

/// Whether policies see the check so, where the subject of the check before is at `before`.
#[tactic(auto, unfolding(crate::specs::Outline::item_asking))]
fn is_view(
    objects: &Objects,
    asked: &Option<Request>,
    last: Option<Check>,
    before: usize,
    check: Check,
    subjects: &[SubjectView],
    seen: &CheckView,
) -> bool
    requires live { outline.IsLiveCheck objects.now check }
    requires place { seen.now.subject < length subjects.now }
    requires last { viewing.IsFoundAt objects.now subjects.now last before }
    ensures is { IsTrue result
        ↔ (item_with subjects.now seen.now ≡ outline.item_asking objects.now asked.now check) }
    ensures found { IsTrue result
        → viewing.IsFoundAt objects.now subjects.now (Some check) seen.now.subject }
{
    is_asked(objects, asked, check, seen)
        && is_subject_at(objects, last, before, check, subjects, seen.subject)
}

/// Whether policies see these checks so.
#[tactic(auto, unfolding(crate::specs::Outline::item_asking))]
pub(crate) fn are_views(
    objects: &Objects,
    asked: &Option<Request>,
    checks: &[Check],
    subjects: &[SubjectView],
    seen: &[CheckView],
) -> bool
    requires live { outline.AreLive objects.now checks.now }
    requires places { HaveSubjects subjects.now seen.now }
    ensures { IsTrue result ↔ (items_with subjects.now seen.now
        ≡ map (outline.item_asking objects.now asked.now) checks.now) }
{
    if seen.len() != checks.len() {
        return false;
    }
    let mut last = None;
    let mut before = 0;
    for (i, check) in checks.iter().enumerate() {
        if !is_view(objects, asked, last, before, *check, subjects, &seen[i]) {
            return false;
        }
        last = Some(*check);
        before = seen[i].subject;
    }
    true
}
