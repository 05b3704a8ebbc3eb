//! What the listed policies answer together.
ghost use Rattle.std.specs.Prelude.{◌≡◌, ◌<◌, find, length, option_and_then, option_map, slice_index_or};
ghost use Rattle.std.specs.List.{list_any};
ghost use Rattle.mf_compose.specs.Composition.{composition, decider};
ghost use Rattle.mf_errno.specs.Same.{is_same};
ghost use Rattle.mf_list.specs.Asked as spec;
ghost use Rattle.mf_policy.specs.Registration.{Entry};
ghost use Rattle.mf_audit.specs.Slotted.{AreSlotted};

use mf_answers::{answer, grants};
use mf_errno::{Errno, Module, select};
use mf_item::{CheckOp, Item};
use mf_policy::SpecList;

/// The composed errno, and the policy that decides it.
#[derive(Clone, Copy)]
pub(crate) struct Decision {
    pub(crate) errno: Errno,
    pub(crate) by: Option<Module>,
}

/// The answer of the listed policies to a check. For a privilege all must answer success, and the subject must be root or be
/// granted it; no policy decides a refusal of it.
pub(crate) fn answered(listed: &SpecList, item: &Item) -> Decision
    requires { AreSlotted listed.now }
    ensures errno { result.errno ≡ (spec.answer_to listed.now item.now).errno }
    ensures by { result.by ≡ (spec.answer_to listed.now item.now).by }
{
    let errno = composed(listed, item);
    match item.op() {
        CheckOp::Priv => Decision {
            errno: privilege_errno(errno, has_privilege(listed, item)),
            by: None,
        },
        _ => Decision {
            errno,
            by: decider_of(listed, item, errno),
        },
    }
}

/// The composition of the policies' answers.
fn composed(listed: &SpecList, item: &Item) -> Errno
    requires { AreSlotted listed.now }
    ensures { result ≡ composition (spec.answers listed.now item.now) }
{
    let mut selected = Errno::Success;
    for place in 0..listed.len() {
        selected = select(answer_at(listed, place, item), selected);
    }
    selected
}

/// What the policy at that place answers.
fn answer_at(listed: &SpecList, place: usize, item: &Item) -> Errno
    requires slots { AreSlotted listed.now }
    requires place { place < length listed.now }
    ensures { (other : Entry) → result
        ≡ spec.answer_of item.now (slice_index_or listed.now place other) }
{
    let slot = listed.registration(place).slot.unwrap_or(0);
    answer(listed.spec(place), slot, item)
}

/// The first policy whose answer is the composition; none where that is success.
fn decider_of(listed: &SpecList, item: &Item, errno: Errno) -> Option<Module>
    requires slots { AreSlotted listed.now }
    requires composed { errno ≡ composition (spec.answers listed.now item.now) }
    ensures { result ≡ option_and_then (spec.module_at listed.now)
        (decider (spec.answers listed.now item.now)) }
{
    if is_same(Errno::Success, errno) {
        None
    } else {
        first_with(listed, item, errno)
    }
}

/// The first policy with that answer.
fn first_with(listed: &SpecList, item: &Item, errno: Errno) -> Option<Module>
    requires { AreSlotted listed.now }
    ensures { result ≡ option_map (λ entry. entry.0.«module»)
        (find (λ entry. is_same errno (spec.answer_of item.now entry)) listed.now) }
{
    for place in 0..listed.len() {
        if is_same(errno, answer_at(listed, place, item)) {
            return Some(listed.registration(place).module);
        }
    }
    None
}

fn is_same(errno: Errno, other: Errno) -> bool
    ensures { result ≡ is_same errno other }
{
    errno == other
}

/// The errno of a check of a privilege.
fn privilege_errno(composed: Errno, has_privilege: bool) -> Errno
    ensures { result ≡ (spec.privilege_answer composed has_privilege).errno }
{
    match composed {
        Errno::Success if has_privilege => Errno::Success,
        _ => Errno::Eperm,
    }
}

/// Whether the subject has the privilege that is asked for.
fn has_privilege(listed: &SpecList, item: &Item) -> bool
    ensures { result ≡ spec.has_privilege listed.now item.now }
{
    item.subject().cred.is_root() || is_granted(listed, item)
}

/// Whether some policy grants it.
fn is_granted(listed: &SpecList, item: &Item) -> bool
    ensures { result ≡ list_any
        (spec.grant_of item.now.privilege item.now.subject.cred) listed.now }
{
    for place in 0..listed.len() {
        if grants_at(listed, place, item) {
            return true;
        }
    }
    false
}

/// Whether the policy at that place grants it; none grants a privilege that isn't asked for.
fn grants_at(listed: &SpecList, place: usize, item: &Item) -> bool
    requires { place < length listed.now }
    ensures { (other : Entry) → result
        ≡ spec.grant_of item.now.privilege item.now.subject.cred
        (slice_index_or listed.now place other) }
{
    match item.privilege() {
        Some(privilege) => grants(listed.spec(place), &item.subject().cred, privilege),
        None => false,
    }
}
