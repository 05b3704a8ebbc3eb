//! Whether the listed policies let a check pass.
ghost use Rattle.std.specs.Prelude.{◌≡◌, ◌<◌, length, slice_index_or};
ghost use Rattle.std.specs.List.{list_all};
ghost use Rattle.mf_policy.specs.Registration.{Entry};
ghost use Rattle.mf_errno.specs.Same.{is_same};
ghost use Rattle.mf_errno.specs.declared.errno.Errno.TheVariants.{Success};
ghost use Rattle.mf_matrix.specs.Matrix as spec;
ghost use Rattle.mf_matrix.specs.Passing.{lets_pass};
ghost use Rattle.mf_matrix.specs.Slotted.{AreSlotted};

use crate::letters::Letter;
use mf_answers::answer;
use mf_errno::Errno;
use mf_item::{Item, ObjectView, SubjectView};
use mf_policy::SpecList;

/// Whether the check of a letter passes; where there is no letter, nothing does.
#[tactic(auto, using(crate::proofs::Composed::all_let_pass))]
pub(crate) fn passes<'a>(
    listed: &SpecList,
    subject: &'a SubjectView,
    object: &'a ObjectView,
    letter: Option<Letter>,
) -> bool
    requires { AreSlotted listed.now }
    ensures { result ≡ spec.passes listed.now subject.now object.now letter }
{
    match letter {
        Some(letter) => {
            let item = Item::new(letter.op, subject, Some(object), None, None, None);
            all_let_pass(listed, &item)
        }
        None => false,
    }
}

/// Whether each policy lets the check pass. One that doesn't is enough, whatever the others answer.
fn all_let_pass(listed: &SpecList, item: &Item) -> bool
    requires { AreSlotted listed.now }
    ensures { result ≡ list_all (lets_pass item.now) listed.now }
{
    for place in 0..listed.len() {
        if !lets_pass(listed, place, item) {
            return false;
        }
    }
    true
}

/// Whether the policy at that place lets the check pass.
fn lets_pass(listed: &SpecList, place: usize, item: &Item) -> bool
    requires slots { AreSlotted listed.now }
    requires place { place < length listed.now }
    ensures { (other : Entry) → result
        ≡ lets_pass item.now (slice_index_or listed.now place other) }
{
    let slot = listed.registration(place).slot.unwrap_or(0);
    is_success(answer(listed.spec(place), slot, item))
}

fn is_success(answer: Errno) -> bool
    ensures { result ≡ is_same Success answer }
{
    Errno::Success == answer
}
