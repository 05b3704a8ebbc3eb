//! A call of a line: whether this is its reply, and what it makes of the kernel.
ghost use Rattle.std.specs.Prelude.{◌≡◌, ◌<◌, IfOk, IfSome, OnOk, Some};
ghost use Rattle.mf_objects.specs.declared.limits.TheConstants.{ID_LIMIT};
ghost use Rattle.mf_objects.specs.Live.{is_process};
ghost use Rattle.mf_objects.specs.Lives.{IsLive};
ghost use Rattle.mf_calls.specs.Tasks.{is_change};
ghost use Rattle.mf_calls.specs.WellFormed.{IsFormedLine};
ghost use Rattle.mf_plan.specs.Names.{caller_name};
ghost use Rattle.mf_plan.specs.Plan.{row_for};
ghost use Rattle.mf_plan.specs.Views.{process_named};
ghost use Rattle.mf_audit.specs.Asking.{start};
ghost use Rattle.mf_audit.specs.Ends.{Goes};
ghost use Rattle.mf_audit.specs.Taking as spec;

use crate::done::Done;
use crate::kernel::Kernel;
use crate::replies::{is_refusal, is_reply};
use crate::rows::row;
use crate::walk::Walk;
use mf_calls::{Call, Line};
use mf_elem::LabelValue;
use mf_errno::Errno;
use mf_item::Kind;
use mf_parties::PartyId;
use mf_plan::Reply;
use std::alloc::{AllocError, Global};

/// A call whose checks were gone through, and how it ends where none of them is denied.
#[derive(Drop)]
pub struct Attempt<'c> {
    walk: Walk,
    end: Result<Done<'c>, Errno>,
}

impl Kernel {
    /// Does the call of a line of the task, and answers whether this is its reply. After false nothing is known of the kernel.
    pub(crate) fn go_on(
        &mut self,
        alloc: Global,
        task: &str,
        line: &Line,
        given: &Reply,
    ) -> Result<bool, AllocError>
        requires line { IsFormedLine line.now }
        requires next { self.old.objects.next < ID_LIMIT }
        ensures { IfOk result (spec.Replies self.old task.now line.now.child line.now.call given.now
            self.new) }
    {
        match self.caller(task, line) {
            Some(me) => self.go_on_by(alloc, task, me, line, given),
            None => Ok(is_refusal(given, Errno::Esrch)),
        }
    }

    /// The process that makes the call of a line of the task.
    fn caller(&self, task: &str, line: &Line) -> Option<PartyId>
        ensures value { result ≡ process_named self.now.objects
            (caller_name task.now line.now.child) }
        ensures live { IfSome result (λ me. IsLive is_process self.now.objects me) }
    {
        match line.child_name() {
            None => self.parties.named(Kind::Process, task),
            Some(child) => self.parties.child_named(task, child),
        }
    }

    /// Goes on by the call of this process of the task.
    fn go_on_by(
        &mut self,
        alloc: Global,
        task: &str,
        me: PartyId,
        line: &Line,
        given: &Reply,
    ) -> Result<bool, AllocError>
        requires line { IsFormedLine line.now }
        requires caller { process_named self.old.objects (caller_name task.now line.now.child)
            ≡ Some me }
        requires live { IsLive is_process self.old.objects me }
        requires next { self.old.objects.next < ID_LIMIT }
        ensures { IfOk result (spec.Replies self.old task.now line.now.child line.now.call given.now
            self.new) }
    {
        let mut walk = Walk::start(self, me);
        let end = row(self, &mut walk, task, me, &line.call);
        self.conclude(alloc, task, me, line, given, &Attempt { walk, end })
    }

    /// Compares the reply with the attempt, and makes what that changes. The attempt is lent, so that it isn't freed at each way out.
    fn conclude(
        &mut self,
        alloc: Global,
        task: &str,
        me: PartyId,
        line: &Line,
        given: &Reply,
        attempt: &Attempt<'_>,
    ) -> Result<bool, AllocError>
        requires caller { process_named self.old.objects (caller_name task.now line.now.child)
            ≡ Some me }
        requires live { IsLive is_process self.old.objects me }
        requires next { self.old.objects.next < ID_LIMIT }
        requires goes { Goes self.old task.now me (row_for self.old task.now line.now.call me)
            (start self.old me) attempt.now.walk attempt.now.end }
        ensures { IfOk result (spec.Replies self.old task.now line.now.child line.now.call given.now
            self.new) }
    {
        if !is_reply(alloc, self, &attempt.walk, &attempt.end, given)? {
            return Ok(false);
        }
        self.lower(me, &line.call, &attempt.walk.value);
        self.end(alloc, task, me, &attempt.walk, &attempt.end)?;
        Ok(true)
    }

    /// What the checks of a call make of its caller. A change of the policies lowers nobody.
    fn lower(&mut self, me: PartyId, call: &Call, value: &LabelValue)
        ensures { self.new ≡ spec.lowered (is_change call.now) value.now self.old me }
    {
        if !call.is_change() {
            self.observe(me, value);
        }
    }

    /// What the call changes, where no check of it was denied, and it isn't refused.
    fn end(
        &mut self,
        alloc: Global,
        task: &str,
        me: PartyId,
        walk: &Walk,
        end: &Result<Done<'_>, Errno>,
    ) -> Result<(), AllocError>
        requires live { IsLive is_process self.old.objects me }
        requires sound { spec.IsSoundEffect self.old end.now }
        requires next { self.old.objects.next < ID_LIMIT }
        ensures { OnOk result (self.new ≡ spec.ended self.old task.now me walk.now.denied end.now) }
    {
        match walk.denied {
            Some(_) => Ok(()),
            None => match end {
                Ok(done) => self.apply(alloc, task, me, &done.effect),
                Err(_) => Ok(()),
            },
        }
    }
}
