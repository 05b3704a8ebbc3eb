//! Two tasks on one kernel, in one thread: between the first one's walk and commit the second changes what its plan holds.
ghost use Rattle.std.specs.Prelude.{◌≡◌, ◌+◌, false, true, All, length, map};
ghost use Rattle.mf_policy.specs.Modules.{module_of};
ghost use Rattle.mf_list.specs.Fresh.{IsFresh};
ghost use Rattle.mf_calls.specs.WellFormed.{IsWellFormed};
ghost use Rattle.mf_perform.specs.Verdict.{verdict_of};
ghost use Rattle.mf_core.specs.AllModules.{AreAllModules};
ghost use Rattle.mf_share.specs.Passes.{AreOneEach, ticket_for};
ghost use Rattle.mf_top.specs.Passes.{IsSameTicket};

use crate::tests::history_text;
use mf_calls::Script;
use mf_core::{Commit, Turn};
use mf_list::Listed;
use mf_perform::Verdict;
use mf_policy::Policy;
use mf_share::{Job, Kernel, NewRegister, NumberedPlan, Pass, Ticket};
use std::alloc::{AllocError, Global};
use std::process::Abort;
use std::sync::Wait;
use std::sync::ledger::{Blank, Ledger};

/// Two tasks, of which the second relabels the file that the first reads.
pub const RELABELLED: &str = "boot mac_biba
file /f reg uid 0 gid 0 mode 644 label biba/high text hi
task a uid 0 gid 0 label biba/high
read /f
end
task b uid 0 gid 0 label biba/high
setfmac biba/low /f
end
";

pub const DENIED_BY_THE_NEW_LABEL: &str = "boot mac_biba 0
enter a
enter b
done b 1 ok
leave b
done a 1 no EACCES vnode_open_read mac_biba 2
leave a
";

/// Two tasks, of which the second sinks, by what it reads, to where the first may debug it.
pub const SUNK: &str = "boot mac_lomac
file /f reg uid 0 gid 0 mode 644 label lomac/5 text hi
task a uid 0 gid 0 label lomac/7
debug b
end
task b uid 0 gid 0 label lomac/9
read /f
end
";

pub const ALLOWED_BY_THE_LOWER_LABEL: &str = "boot mac_lomac 0
enter a
enter b
done b 1 ok bytes 2 =hi
leave b
done a 1 ok
leave a
";

/// Two tasks, of which the second takes away the file that the first opens.
pub const UNLINKED: &str = "file /f reg uid 0 gid 0 mode 644 label - text hi
task a uid 0 gid 0 label -
open /f r
end
task b uid 0 gid 0 label -
unlink /f
end
";

pub const NO_FILE_IS_OPENED: &str = "enter a
enter b
done b 1 ok
leave b
done a 1 no ENOENT - -
leave a
";

/// The history of the two tasks: after the second one's call the view of the object in the first one's plan is out of date.
pub fn changed_during_a_call<P: Policy, J: Job, B: Ledger, R: Wait + Abort>(
    rt: &R,
    alloc: Global,
    script: &Script,
    modules: Vec<P>,
    lines: Blank,
    busy: Blank,
    register: NewRegister,
) -> Result<String, AllocError>
    requires formed { IsWellFormed script.now }
    requires modules { AreAllModules (map (λ p. module_of (P.spec p)) modules.items) }
    requires fresh { All (λ p. IsFresh (P.spec p)) modules.items }
    requires job { script.now ≡ J.script }
    requires lines_name { lines.name ≡ J.name }
    requires lines_parts { (lines.parts ≡ J.parts) × (lines.parts ≡ length script.now.tasks + 1) }
    requires busy_name { busy.name ≡ B.name }
    requires busy_parts { (busy.parts ≡ B.parts) × (busy.parts ≡ length script.now.tasks + 1) }
    requires register_name { register ≡ J.register }
{
    let (kernel, mut passes) = Kernel::<P, J, B>::open(
        alloc, script, modules, lines, busy, register,
    )?;
    let are_done = calls_that_meet(rt, alloc, &kernel, &mut passes);
    let tracked = kernel.close(passes);
    assert!(rt; are_done);
    history_text(alloc, script, tracked.core())
}

/// Between the first task's walk and commit the second does its call: whether both are done. A kernel is wide, so it is lent to
/// what has many exits.
fn calls_that_meet<P: Policy, J: Job, B: Ledger, R: Wait + Abort>(
    rt: &R,
    alloc: Global,
    kernel: &Kernel<P, J, B>,
    passes: &mut Vec<Pass<J, B>>,
) -> bool
    requires { AreOneEach J.script passes.old.items }
    ensures { AreOneEach J.script passes.new.items }
{
    assert!(rt; passes.len() == 2);
    let policies = kernel.policies(rt);
    let list = &Listed::new(kernel.fixed(), policies.list());
    let mut first = enter(rt, kernel, &mut passes[0]);
    let mut second = enter(rt, kernel, &mut passes[1]);
    let mut early = NumberedPlan::new();
    kernel.plan(rt, &first, &mut early);
    let early_verdict = Kernel::walk(list, &first, &early);
    let changed = commit_after_no_plan(rt, alloc, kernel, &mut second, list);
    kernel.leave(rt, second, &mut passes[1]);
    let called = commit_twice(rt, alloc, kernel, &mut first, list, &early, &early_verdict);
    kernel.leave(rt, first, &mut passes[0]);
    matches!(changed, Ok(Commit::Done)) && matches!(called, Ok(Commit::Done))
}

/// Enters for the pass, whose next line must be an entry.
fn enter<P: Policy, J: Job, B: Ledger, R: Wait + Abort>(
    rt: &R,
    kernel: &Kernel<P, J, B>,
    pass: &mut Pass<J, B>,
) -> Ticket<J, B>
    requires { pass.old.out ≡ false }
    ensures ticket { result ≡ ticket_for pass.old }
    ensures pass { pass.new ≡ record pass.old { out = true } }
{
    assert!(rt; kernel.turn(pass) == Turn::Entry);
    kernel.enter(rt, pass)
}

/// Plans the ticket's call, asks the policies, and commits it.
fn commit_new_plan<P: Policy, J: Job, B: Ledger, R: Wait>(
    rt: &R,
    alloc: Global,
    kernel: &Kernel<P, J, B>,
    ticket: &mut Ticket<J, B>,
    list: &Listed<'_, P>,
) -> Result<Commit, AllocError>
    requires { ticket.old.committed ≡ false }
    ensures { IsSameTicket ticket.old ticket.new }
{
    let mut plan = NumberedPlan::new();
    kernel.plan(rt, ticket, &mut plan);
    let verdict = Kernel::walk(list, ticket, &plan);
    kernel.commit(rt, alloc, ticket, list, &plan, &verdict)
}

/// Commits a plan that asks nothing, in place of the one that was just made, and then a new one.
fn commit_after_no_plan<P: Policy, J: Job, B: Ledger, R: Wait>(
    rt: &R,
    alloc: Global,
    kernel: &Kernel<P, J, B>,
    ticket: &mut Ticket<J, B>,
    list: &Listed<'_, P>,
) -> Result<Commit, AllocError>
    requires { ticket.old.committed ≡ false }
    ensures { IsSameTicket ticket.old ticket.new }
{
    kernel.plan(rt, ticket, &mut NumberedPlan::new());
    let none = NumberedPlan::new();
    let verdict = Kernel::walk(list, ticket, &none);
    commit_twice(rt, alloc, kernel, ticket, list, &none, &verdict)
}

/// Commits a plan that isn't the call's, or no longer, and then a new one.
fn commit_twice<P: Policy, J: Job, B: Ledger, R: Wait>(
    rt: &R,
    alloc: Global,
    kernel: &Kernel<P, J, B>,
    ticket: &mut Ticket<J, B>,
    list: &Listed<'_, P>,
    early: &NumberedPlan<J>,
    early_verdict: &Verdict,
) -> Result<Commit, AllocError>
    requires undone { ticket.old.committed ≡ false }
    requires verdict { early_verdict.now ≡ verdict_of list.now early.now }
    ensures { IsSameTicket ticket.old ticket.new }
{
    match kernel.commit(rt, alloc, ticket, list, early, early_verdict) {
        Ok(Commit::Stale) => commit_new_plan(rt, alloc, kernel, ticket, list),
        Ok(Commit::Done) => Err(AllocError),
        Err(error) => Err(error),
    }
}
