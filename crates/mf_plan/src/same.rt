//! Whether two plans show policies the same checks.
ghost use Rattle.std.specs.Prelude.{◌≡◌, ◌↔◌, ◌<◌, length, IsTrue};
ghost use Rattle.mf_plan.specs.Items.{HaveSubjects, item_with, items_with};

use crate::views::{CheckView, same_port, same_privilege};
use mf_elem::Request;
use mf_item::{ObjectView, SubjectView};

fn same_object(object: &Option<ObjectView>, other: &Option<ObjectView>) -> bool
    ensures { IsTrue result ↔ (object.now ≡ other.now) }
{
    match (object, other) {
        (None, None) => true,
        (Some(object), Some(other)) => object.same(other),
        _ => false,
    }
}

fn same_request(request: &Option<Request>, other: &Option<Request>) -> bool
    ensures { IsTrue result ↔ (request.now ≡ other.now) }
{
    match (request, other) {
        (None, None) => true,
        (Some(request), Some(other)) => request.same(other),
        _ => false,
    }
}

/// Whether policies see the two as one check.
fn is_same(
    subjects: &[SubjectView],
    check: &CheckView,
    theirs: &[SubjectView],
    other: &CheckView,
) -> bool
    requires place { check.now.subject < length subjects.now }
    requires their_place { other.now.subject < length theirs.now }
    ensures { IsTrue result
        ↔ (item_with subjects.now check.now ≡ item_with theirs.now other.now) }
{
    check.op == other.op
        && subjects[check.subject].same(&theirs[other.subject])
        && same_object(&check.object, &other.object)
        && same_request(&check.request, &other.request)
        && same_privilege(check.privilege, other.privilege)
        && same_port(check.port, other.port)
}

/// Whether policies see the same checks.
pub(crate) fn same_views(
    subjects: &[SubjectView],
    seen: &[CheckView],
    theirs: &[SubjectView],
    others: &[CheckView],
) -> bool
    requires places { HaveSubjects subjects.now seen.now }
    requires their_places { HaveSubjects theirs.now others.now }
    ensures { IsTrue result
        ↔ (items_with subjects.now seen.now ≡ items_with theirs.now others.now) }
{
    if seen.len() != others.len() {
        return false;
    }
    for (i, check) in seen.iter().enumerate() {
        if !is_same(subjects, check, theirs, &others[i]) {
            return false;
        }
    }
    true
}
