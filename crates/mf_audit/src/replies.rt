//! Whether a reply of a history is the one that the framework gives. None is made: the given one is compared with what it has to be.
ghost use Rattle.std.specs.Prelude.{◌≡◌, ◌↔◌, IfOk, IsTrue};
ghost use Rattle.mf_plan.specs.declared.reply.Reply.TheVariants as replies;
ghost use Rattle.mf_audit.specs.Ended as spec;

use crate::done::{Done, Shown};
use crate::kernel::Kernel;
use crate::payloads::is_shown;
use crate::walk::{Denied, Walk};
use mf_errno::{Errno, Module};
use mf_item::CheckOp;
use mf_plan::Reply;
use std::alloc::{AllocError, Global};

/// Whether the reply is that to a call whose checks were gone through so and which ends so: a denial first, then the framework's
/// refusal, and else what is handed back.
pub(crate) fn is_reply(
    alloc: Global,
    kernel: &Kernel,
    walk: &Walk,
    end: &Result<Done, Errno>,
    given: &Reply,
) -> Result<bool, AllocError>
    ensures { IfOk result
        (λ is. IsTrue is ↔ (given.now ≡ spec.ended_so kernel.now walk.now end.now)) }
{
    let shown = match end {
        Ok(done) => Ok(done.shown),
        Err(errno) => Err(*errno),
    };
    match walk.denied {
        Some(denied) => Ok(is_denial(given, &denied)),
        None => is_undenied(alloc, kernel, shown, given),
    }
}

/// Whether the call was denied so.
fn is_denial(given: &Reply, denied: &Denied) -> bool
    ensures { IsTrue result ↔ (given.now
        ≡ replies.Denied denied.now.errno denied.now.op denied.now.item denied.now.by) }
{
    match given {
        Reply::Denied {
            errno,
            op,
            item,
            by,
        } => {
            same_errno(*errno, denied.errno)
                && same_operation(*op, denied.op)
                && *item == denied.item
                && same_decider(*by, denied.by)
        }
        Reply::Ok(_) | Reply::Refused(_) => false,
    }
}

/// Whether the reply is that to a call that no policy denied.
fn is_undenied(
    alloc: Global,
    kernel: &Kernel,
    end: Result<Shown, Errno>,
    given: &Reply,
) -> Result<bool, AllocError>
    ensures { IfOk result
        (λ is. IsTrue is ↔ (given.now ≡ spec.undenied_reply kernel.now end)) }
{
    match end {
        Ok(shown) => match given {
            Reply::Ok(payload) => is_shown(alloc, kernel, shown, payload),
            Reply::Denied { .. } | Reply::Refused(_) => Ok(false),
        },
        Err(errno) => Ok(is_refusal(given, errno)),
    }
}

/// Whether the framework refused the call so.
pub(crate) fn is_refusal(given: &Reply, errno: Errno) -> bool
    ensures { IsTrue result ↔ (given.now ≡ replies.Refused errno) }
{
    match given {
        Reply::Refused(given) => same_errno(*given, errno),
        Reply::Ok(_) | Reply::Denied { .. } => false,
    }
}

fn same_errno(errno: Errno, other: Errno) -> bool
    ensures { IsTrue result ↔ (errno ≡ other) }
{
    errno == other
}

fn same_operation(op: CheckOp, other: CheckOp) -> bool
    ensures { IsTrue result ↔ (op ≡ other) }
{
    op == other
}

fn same_decider(by: Option<Module>, other: Option<Module>) -> bool
    ensures { IsTrue result ↔ (by ≡ other) }
{
    by == other
}
