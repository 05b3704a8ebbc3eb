//! Outlines of plans: the checks of a call with ids in the place of views.
ghost use Rattle.std.specs.Prelude.{◌≡◌, ◌↔◌, ◌<◌, ◌+◌, [], ◌∷◌, ◌++◌, length, IsSome, IsTrue, None};
ghost use Rattle.mf_errno.specs.declared.errno.Errno.TheVariants.{Esrch};
ghost use Rattle.mf_item.specs.declared.operation.CheckOp.TheVariants as op;
ghost use Rattle.mf_objects.specs.Live.{live_at};
ghost use Rattle.mf_plan.specs.Outline as spec;
ghost use Rattle.mf_plan.specs.Checks as check;
ghost use Rattle.mf_plan.specs.declared.plan.Tail.TheVariants.{Refuse};

use crate::found::Found;
use crate::plan::{MOST_CHECKS, Tail};
use mf_cred::ArrayVec;
use mf_errno::{Errno, Priv};
use mf_item::CheckOp;
use mf_objects::{Id, Objects};

/// A check that names what it is about, and copies no view of it.
#[derive(Clone, Copy)]
pub struct Check {
    pub op: CheckOp,
    /// The process that calls, whose credential counts.
    pub caller: Id,
    /// That process, or the socket that sends.
    pub subject: Id,
    pub object: Option<Id>,
    pub privilege: Option<Priv>,
    /// The port that a socket is bound to: of TCP, or else of UDP.
    pub port: Option<(bool, u16)>,
}

impl Check {
    /// Whether the two have one subject.
    pub(crate) fn has_subject_of(self, other: Check) -> bool
        ensures { IsTrue result ↔ ((self.caller ≡ other.caller) × (self.subject ≡ other.subject)) }
    {
        self.caller == other.caller && self.subject == other.subject
    }
}

impl Default for Check {
    fn default() -> Check {
        let nobody = Id::default();
        Check {
            op: CheckOp::VnodeLookup,
            caller: nobody,
            subject: nobody,
            object: None,
            privilege: None,
            port: None,
        }
    }
}

/// Checks in the order in which they are asked.
pub(crate) type Checks = ArrayVec<Check, MOST_CHECKS>;

/// The checks of a call, in the order in which they are asked, and its end: a plan without its views. What was found on
/// the way goes with it, for a call that is done.
#[derive(Drop)]
pub struct Outline {
    pub found: Found,
    pub checks: ArrayVec<Check, MOST_CHECKS>,
    pub tail: Tail,
}

impl Outline {
    /// The outline of a call that nobody makes.
    pub fn new() -> Outline
        ensures found { result.found ≡ record { caller = None; target = None; request = None } }
        ensures checks { result.checks ≡ [] }
        ensures tail { result.tail ≡ Refuse Esrch }
    {
        Outline {
            found: Found {
                caller: None,
                target: None,
                request: None,
            },
            checks: ArrayVec::new(),
            tail: Tail::Refuse(Errno::Esrch),
        }
    }

    /// Becomes that of a call of this process, as nothing is found of it yet.
    pub(crate) fn begin(&mut self, caller: Option<Id>)
        ensures found { self.new.found
            ≡ record { caller = caller; target = None; request = None } }
        ensures checks { self.new.checks ≡ [] }
        ensures tail { self.new.tail ≡ Refuse Esrch }
    {
        self.found.caller = caller;
        self.found.target = None;
        self.checks.clear();
        self.refuse(Errno::Esrch);
    }

    /// Becomes that of a call which the framework refuses, and which asks nothing of a label then.
    pub(crate) fn refuse(&mut self, errno: Errno)
        ensures found { self.new.found ≡ record self.old.found { request = None } }
        ensures checks { self.new.checks ≡ self.old.checks }
        ensures tail { self.new.tail ≡ Refuse errno }
    {
        if self.found.request.is_some() {
            self.found.request = None;
        }
        self.tail = Tail::Refuse(errno);
    }
}

/// Adds the check of what the caller does to the entity.
pub(crate) fn ask(_objects: &Objects, caller: Id, op: CheckOp, id: Id, checks: &mut Checks)
    requires live { IsSome (live_at _objects.now id) }
    requires few { length checks.old < MOST_CHECKS }
    requires asking { spec.IsAsking _objects.now caller checks.old }
    ensures checks { checks.new ≡ checks.old ++ check.on caller op id ∷ [] }
    ensures count { length checks.new ≡ length checks.old + 1 }
    ensures asking { spec.IsAsking _objects.now caller checks.new }
{
    checks.push(Check {
        op,
        caller,
        subject: caller,
        object: Some(id),
        privilege: None,
        port: None,
    });
}

/// Adds the check of a binding of the socket to the port: of TCP, or else of UDP.
pub(crate) fn ask_binding(
    _objects: &Objects,
    caller: Id,
    tcp: bool,
    port: u16,
    id: Id,
    checks: &mut Checks,
)
    requires live { IsSome (live_at _objects.now id) }
    requires few { length checks.old < MOST_CHECKS }
    requires asking { spec.IsAsking _objects.now caller checks.old }
    ensures checks { checks.new ≡ checks.old ++ check.binding caller tcp port id ∷ [] }
    ensures asking { spec.IsAsking _objects.now caller checks.new }
{
    checks.push(Check {
        op: CheckOp::SocketBind,
        caller,
        subject: caller,
        object: Some(id),
        privilege: None,
        port: Some((tcp, port)),
    });
}

/// Adds the check of what the socket delivers to another for the caller.
pub(crate) fn ask_delivery(_objects: &Objects, caller: Id, from: Id, to: Id, checks: &mut Checks)
    requires from { IsSome (live_at _objects.now from) }
    requires to { IsSome (live_at _objects.now to) }
    requires few { length checks.old < MOST_CHECKS }
    requires asking { spec.IsAsking _objects.now caller checks.old }
    ensures checks { checks.new
        ≡ checks.old ++ check.by_socket caller from op.SocketDeliver to ∷ [] }
    ensures asking { spec.IsAsking _objects.now caller checks.new }
{
    checks.push(Check {
        op: CheckOp::SocketDeliver,
        caller,
        subject: from,
        object: Some(to),
        privilege: None,
        port: None,
    });
}

/// Adds the check of a privilege of the caller.
pub(crate) fn ask_privilege(_objects: &Objects, caller: Id, privilege: Priv, checks: &mut Checks)
    requires few { length checks.old < MOST_CHECKS }
    requires asking { spec.IsAsking _objects.now caller checks.old }
    ensures checks { checks.new ≡ checks.old ++ check.for_privilege caller privilege ∷ [] }
    ensures asking { spec.IsAsking _objects.now caller checks.new }
{
    checks.push(Check {
        op: CheckOp::Priv,
        caller,
        subject: caller,
        object: None,
        privilege: Some(privilege),
        port: None,
    });
}

/// Adds the check of what the caller does to no entity: it loads or unloads a module, or changes its own label.
pub(crate) fn ask_alone(_objects: &Objects, caller: Id, op: CheckOp, checks: &mut Checks)
    requires few { length checks.old < MOST_CHECKS }
    requires asking { spec.IsAsking _objects.now caller checks.old }
    ensures checks { checks.new ≡ checks.old ++ check.by_itself caller op ∷ [] }
    ensures asking { spec.IsAsking _objects.now caller checks.new }
{
    checks.push(Check {
        op,
        caller,
        subject: caller,
        object: None,
        privilege: None,
        port: None,
    });
}
