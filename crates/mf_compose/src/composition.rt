//! The composition of the policies' answers, and the policy that decides it.
ghost use Rattle.std.specs.Prelude.{◌≡◌, position};
ghost use Rattle.mf_errno.specs.Same as errors;
ghost use Rattle.mf_compose.specs.Composition as spec;

use mf_errno::{Errno, select};

/// The one answer that several policies give together, composed as by the kernel's `mac_error_select`; success where no
/// policy answers.
#[tactic(auto, using(crate::proofs::Composed::composition_more, crate::proofs::Composed::composition_of_none))]
pub fn fold(answers: &[Errno]) -> Errno
    ensures { result ≡ spec.composition answers.now }
{
    let mut selected = Errno::Success;
    for answer in answers {
        selected = select(*answer, selected);
    }
    selected
}

/// The place, from 0, of the policy that decides: the first one in walk order whose answer is the composition. None
/// where that is success.
#[tactic(auto, using(crate::proofs::Composed::decider_by_place))]
pub fn decider(answers: &[Errno]) -> Option<usize>
    ensures { result ≡ spec.decider answers.now }
{
    match fold(answers) {
        Errno::Success => None,
        selected => first_place(answers, selected),
    }
}

fn first_place(answers: &[Errno], errno: Errno) -> Option<usize>
    ensures { result ≡ position (errors.is_same errno) answers.now }
{
    answers.iter().position(|answer| is_same(errno, *answer))
}

fn is_same(errno: Errno, other: Errno) -> bool
    ensures { result ≡ errors.is_same errno other }
{
    errno == other
}
