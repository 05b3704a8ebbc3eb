//! Biba by itself.

use crate::asked::Level::{Equal, Grade, High, In};
use crate::asked::{Row, answer, answers, grade, has_settings, holds, wants};
use mf_biba::Biba;
use mf_errno::Errno::{self, Eacces, Enoent, Eperm, Esrch, Success};
use mf_item::CheckOp::{self, KldLoad, VnodeOpenRead, VnodeOpenWrite};
use mf_policy::{Change, Changed, Policy, Spec};
use std::alloc::{AllocError, Global};

/// The four rules that mac_biba(4) gives, in its order. A subject with `equal` is exempt. FreeBSD's Biba lets only a
/// privileged subject load a module too, by its privilege check; here it is the check `kld_load`.
const RULES: &[Row] = &[
    (VnodeOpenRead, Grade(10), Grade(10), Success),
    (VnodeOpenWrite, Grade(10), Grade(10), Success),
    (VnodeOpenRead, Grade(10), Grade(5), Eacces),
    (VnodeOpenWrite, Grade(10), Grade(5), Success),
    (VnodeOpenRead, Grade(5), Grade(10), Success),
    (VnodeOpenWrite, Grade(5), Grade(10), Eacces),
    (VnodeOpenRead, In(5, 1), In(9, 2), Eacces),
    (VnodeOpenWrite, In(5, 1), In(9, 2), Eacces),
    (VnodeOpenWrite, Equal, High, Success),
    (KldLoad, Equal, High, Success),
    (KldLoad, Grade(10), High, Eperm),
];

/// Transfers of bytes through an open file of a grade, by a subject of grade 5, with the answers where revocation is on.
const TRANSFERS: &[(CheckOp, u16, Errno)] = &[
    (CheckOp::VnodeRead, 3, Eacces),
    (CheckOp::VnodeRead, 5, Success),
    (CheckOp::VnodeRead, 9, Success),
    (CheckOp::VnodeWrite, 3, Success),
    (CheckOp::VnodeWrite, 5, Success),
    (CheckOp::VnodeWrite, 9, Eacces),
];

/// Whether the policy tests transfers so: with revocation off, every transfer passes.
fn tests_transfers(policy: &Biba, revocation: bool) -> bool {
    let mut holds = true;
    for (op, object, errno) in TRANSFERS {
        let wanted = if revocation { *errno } else { Success };
        holds &= answer(policy, *op, grade(5), grade(*object)) == wanted;
    }
    holds
}

/// Whether the policy has revocation so, by its spec.
fn is_set(policy: &Biba, revocation: bool) -> bool {
    policy.same(&Spec::Biba { revocation })
}

/// Whether the policy has revocation so, by its spec and by its answers.
fn has_revocation(policy: &Biba, revocation: bool) -> bool {
    is_set(policy, revocation)
        && !is_set(policy, !revocation)
        && tests_transfers(policy, revocation)
}

/// Revocation is off at first, is turned on, and is put back.
fn turns_on_and_off(alloc: Global, policy: &mut Biba) -> bool {
    let was_off = has_revocation(policy, false);
    let wanted = Changed {
        errno: Success,
        number: None,
    };
    let is_changed = policy.change(alloc, &Change::Revocation(true)) == Ok(wanted);
    let is_on = has_revocation(policy, true);
    policy.reset();
    was_off && is_changed && is_on && has_revocation(policy, false)
}

/// Whether a policy with Biba's setting answers as Biba.
fn is_biba<P: Policy>(alloc: Global, policy: &mut P) -> bool {
    let has_settings = has_settings(alloc, policy, (Enoent, Success));
    has_settings && answer(policy, CheckOp::ProcSignal, grade(5), grade(3)) == Esrch
}

fn a_box_answers_as_the_policy_in_it(alloc: Global) -> Result<bool, AllocError> {
    let mut policy: Box<dyn Policy + Send + Sync> = Box::new(alloc, Biba::new())?;
    Ok(is_biba(alloc, &mut policy))
}

#[test]
fn rules_of_mac_biba_4(rt: HostRuntime) {
    wants(&rt, "rules of mac_biba(4)", answers(&Biba::new(), RULES));
    let turns = turns_on_and_off(rt.alloc(), &mut Biba::new());
    wants(&rt, "revocation", turns);
    let is_boxed = a_box_answers_as_the_policy_in_it(rt.alloc());
    wants(&rt, "a box", holds(is_boxed));
}
