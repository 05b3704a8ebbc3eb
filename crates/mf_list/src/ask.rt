//! What the listed policies answer together.
ghost use Rattle.std.specs.Prelude.{◌≡◌, length, map, option_and_then, take};
ghost use Rattle.std.specs.List.{list_any};
ghost use Rattle.mf_compose.specs.Composition.{composition, decider};
ghost use Rattle.mf_list.specs.Asked as spec;

use crate::listed::Listed;
use mf_compose::{decider, fold, granted};
use mf_errno::{Errno, Module};
use mf_item::{CheckOp, Item};
use mf_policy::{MOST_LISTED, Policy};

/// What the policies answer together: the composed errno, and the policy that decides it. No policy decides a success,
/// nor a check of a privilege.
#[derive(Clone, Copy, PartialEq, Eq)]
pub struct Answer {
    pub errno: Errno,
    pub by: Option<Module>,
}

impl<'a, P: Policy> Listed<'a, P> {
    /// The composition of all policies' answers, composed as by the kernel's `mac_error_select`, and the policy that
    /// decides it: the first one in walk order whose answer is the composition. Every policy is asked, also after a
    /// denial. For a privilege all policies must answer success, and the subject must be root or be granted it by a
    /// policy; a refusal is always EPERM, whatever the policies answered.
    pub fn ask(&self, item: &Item) -> Answer
        ensures { result ≡ spec.answer_to self.now item.now }
    {
        let room = answers(self, item);
        let answers = &room[..self.len()];
        match item.op() {
            CheckOp::Priv => privilege_answer(fold(answers), has_privilege(self, item)),
            _ => composed(self, answers),
        }
    }
}

/// The composition of the policies' answers, and the policy that decides it. Most checks pass, and are decided by none.
#[tactic(auto, unfolding(mf_compose::specs::Composition::decider))]
fn composed<P: Policy>(listed: &Listed<'_, P>, answers: &[Errno]) -> Answer
    ensures { result ≡ record {
      errno = composition answers.now;
      by = option_and_then (spec.module_at listed.now) (decider answers.now);
    } }
{
    match fold(answers) {
        Errno::Success => Answer {
            errno: Errno::Success,
            by: None,
        },
        errno => Answer {
            errno,
            by: module_at(listed, decider(answers)),
        },
    }
}

/// The answer about a privilege, after the policies' answers.
fn privilege_answer(composition: Errno, has_privilege: bool) -> Answer
    ensures { result ≡ spec.privilege_answer composition has_privilege }
{
    let errno = match composition {
        Errno::Success if has_privilege => Errno::Success,
        _ => Errno::Eperm,
    };
    Answer { errno, by: None }
}

/// Whether the subject has the privilege that the item asks for.
fn has_privilege<P: Policy>(listed: &Listed<'_, P>, item: &Item) -> bool
    ensures { result ≡ spec.has_privilege listed.now item.now }
{
    item.subject().cred.is_root() || is_granted(listed, item)
}

/// Whether some policy grants the privilege that the item asks for.
fn is_granted<P: Policy>(listed: &Listed<'_, P>, item: &Item) -> bool
    ensures { result ≡ list_any
        (spec.grant_of item.now.privilege item.now.subject.cred) listed.now }
{
    let room = grants(listed, item);
    granted(&room[..listed.len()])
}

/// The module of the policy in that place.
fn module_at<P: Policy>(listed: &Listed<'_, P>, place: Option<usize>) -> Option<Module>
    ensures { result ≡ option_and_then (spec.module_at listed.now) place }
{
    let place = place?;
    if place < listed.len() {
        Some(listed.policy(place).registration().module)
    } else {
        None
    }
}

/// The answers of the policies in walk order. The rest of the array is success.
fn answers<P: Policy>(listed: &Listed<'_, P>, item: &Item) -> [Errno; MOST_LISTED]
    ensures { take (length listed.now) result ≡ spec.answers listed.now item.now }
{
    let mut answers = [Errno::Success; MOST_LISTED];
    for place in 0..listed.len() {
        answers[place] = listed.policy(place).check(item);
    }
    answers
}

/// Which policies grant the privilege, in walk order. The rest of the array is false.
fn grants<P: Policy>(listed: &Listed<'_, P>, item: &Item) -> [bool; MOST_LISTED]
    ensures { take (length listed.now) result
        ≡ map (spec.grant_of item.now.privilege item.now.subject.cred) listed.now }
{
    let mut grants = [false; MOST_LISTED];
    for place in 0..listed.len() {
        grants[place] = listed.policy(place).grants(item);
    }
    grants
}
