//! Answers of several policies, and what they are together.

use crate::asked::wants;
use mf_compose::{decider, fold, granted};
use mf_errno::Errno;

/// Answers in walk order, their composition, and the place of the policy that decides.
const ANSWERS: &[(&[Errno], Errno, Option<usize>)] = &[
    (&[], Errno::Success, None),
    (&[Errno::Success, Errno::Success], Errno::Success, None),
    (&[Errno::Eacces, Errno::Esrch], Errno::Esrch, Some(1)),
    (&[Errno::Eacces, Errno::Eacces], Errno::Eacces, Some(0)),
    (
        &[Errno::Eperm, Errno::Einval, Errno::Edeadlk],
        Errno::Edeadlk,
        Some(2),
    ),
    (
        &[Errno::Success, Errno::Enoent, Errno::Eacces],
        Errno::Enoent,
        Some(1),
    ),
    (&[Errno::Eperm, Errno::Ebusy], Errno::Eperm, Some(0)),
    (&[Errno::Enomem, Errno::Ebusy], Errno::Ebusy, Some(1)),
    (
        &[Errno::Enomem, Errno::Ebusy, Errno::Enomem],
        Errno::Enomem,
        Some(0),
    ),
];

fn precedence_against_walk_order() -> bool {
    let mut holds = true;
    for (answers, errno, place) in ANSWERS {
        holds &= fold(answers) == *errno && decider(answers) == *place;
    }
    holds
}

#[test]
fn answers_of_several_policies(rt: HostRuntime) {
    wants(
        &rt,
        "precedence against walk order",
        precedence_against_walk_order(),
    );
    let is_granted = granted(&[false, true]) && !granted(&[]);
    wants(&rt, "one grant is enough", is_granted);
}
