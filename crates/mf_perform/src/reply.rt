//! The replies to calls that aren't done.
ghost use Rattle.std.specs.Prelude.{◌≡◌, IfSome, false};
ghost use Rattle.mf_plan.specs.declared.reply.Payload.{Payload};
ghost use Rattle.mf_perform.specs.Reply as spec;
ghost use Rattle.mf_perform.specs.Refused.{refused_or, is_ok};

use crate::verdict::{Denial, Verdict};
use mf_item::CheckOp;
use mf_plan::{Plan, Reply, Tail};

/// The reply to a call that isn't done, by its plan and the policies' verdict: the denial, or else
/// the framework's own refusal. None where the call is to be done.
pub fn refusal_of(plan: &Plan, verdict: &Verdict) -> Option<Reply>
    ensures reply { (payload : Payload)
        → spec.reply_to plan.now verdict.now.denied payload ≡ refused_or result payload }
    ensures refused { IfSome result (λ reply. is_ok reply ≡ false) }
{
    match verdict.denied {
        Some(denial) => Some(denied(plan, denial)),
        None => match plan.tail() {
            Tail::Do => None,
            Tail::Refuse(errno) => Some(Reply::Refused(errno)),
        },
    }
}

fn denied(plan: &Plan, denial: Denial) -> Reply
    ensures reply { (payload : Payload) → result ≡ spec.reply_to plan.now (Some denial) payload }
    ensures refused { is_ok result ≡ false }
{
    Reply::Denied {
        errno: denial.errno,
        op: op_at(plan, denial.item),
        item: denial.item,
        by: denial.by,
    }
}

/// The operation of the check of that number, from 1; vnode_lookup where the plan has no such check.
fn op_at(plan: &Plan, number: u8) -> CheckOp
    ensures { result ≡ spec.op_at plan.now.items number }
{
    let place = usize::from(number).saturating_sub(1);
    if place < plan.len() {
        plan.item(place).op()
    } else {
        CheckOp::VnodeLookup
    }
}
