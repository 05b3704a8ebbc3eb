//! Subjects and objects as policies see them: copies of what they are at the time of the check.
ghost use Rattle.std.specs.Prelude.{◌≡◌, ◌↔◌, IsTrue};
ghost use Rattle.mf_item.specs.NoSubject.{no_subject};

use mf_cred::{Cred, Duplicate, FileView};
use mf_elem::{LabelValue, SLOTS};

/// The kinds of live entities.
#[derive(Clone, Copy, Debug, PartialEq, Eq)]
pub enum Kind {
    Process,
    Vnode,
    Pipe,
    Socket,
}

/// A label: the values of its slots.
pub type Labels = [LabelValue; SLOTS];

/// The subject. For `CheckOp::SocketDeliver` it has the caller's credential, with the id and the label of the sending
/// socket.
#[derive(Drop)]
pub struct SubjectView {
    pub id: u32,
    pub cred: Cred,
    pub label: [LabelValue; SLOTS],
}

/// The object. As attributes a process has its real uid and its first group; those of a pipe or a socket are all zero, and not
/// those of a directory.
#[derive(Clone, Copy, Debug, PartialEq, Eq)]
pub struct ObjectView {
    pub id: u32,
    pub kind: Kind,
    pub file: FileView,
    pub label: [LabelValue; SLOTS],
}

impl SubjectView {
    /// Whether the two are one view.
    pub fn same(&self, other: &SubjectView) -> bool
        ensures { IsTrue result ↔ (self.now ≡ other.now) }
    {
        self.id == other.id && self.cred.same(&other.cred) && same_labels(&self.label, &other.label)
    }
}

impl Default for SubjectView {
    ghost is_default = { λ view. view ≡ no_subject };

    fn default() -> SubjectView {
        SubjectView {
            id: 0,
            cred: Default::default(),
            label: [LabelValue::Unset; SLOTS],
        }
    }
}

impl Duplicate for SubjectView {
    fn copy(&self) -> SubjectView {
        SubjectView {
            id: self.id,
            cred: self.cred.copy(),
            label: self.label,
        }
    }
}

impl ObjectView {
    /// Whether the two are one view.
    pub fn same(&self, other: &ObjectView) -> bool
        ensures { IsTrue result ↔ (self.now ≡ other.now) }
    {
        self.id == other.id
            && self.kind == other.kind
            && self.file == other.file
            && same_labels(&self.label, &other.label)
    }
}

fn same_labels(label: &[LabelValue; SLOTS], other: &[LabelValue; SLOTS]) -> bool
    ensures { IsTrue result ↔ (label.now ≡ other.now) }
{
    let [first, second, third, fourth] = label;
    let [their_first, their_second, their_third, their_fourth] = other;
    first.same(their_first)
        && second.same(their_second)
        && third.same(their_third)
        && fourth.same(their_fourth)
}
