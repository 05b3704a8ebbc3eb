//! The rows of the matrix.
ghost use Rattle.std.specs.Prelude.{◌≡◌, map, IfOk};
ghost use Rattle.mf_matrix.specs.Matrix as spec;
ghost use Rattle.mf_matrix.specs.Slotted.{AreSlotted};

use crate::letters::letters_for;
use crate::pairs::{Pair, pairs_of};
use crate::parties::parties_of;
use crate::passing::passes;
use mf_names::Listing;
use mf_objects::Id;
use mf_plan::State;
use mf_policy::SpecList;
use rayon::prelude::*;
use std::alloc::{AllocError, Global};
use std::thread::Threads;

/// What a process may do to an entity: for each letter of its kind whether it passes, in the order of the letters. The fourth is
/// false where there are three.
#[derive(Clone, Copy)]
pub struct Row {
    pub subject: Id,
    pub object: Id,
    pub passed: [bool; 4],
}

/// For each live process by rising id a row for each live entity by rising id, itself too.
pub type Matrix = Listing<Row>;

/// The matrix of a state. As many threads share the work as there are processors.
pub fn matrix_of<R: Threads + Sync>(
    rt: &R,
    alloc: Global,
    state: &State,
) -> Result<Matrix, AllocError>
    requires slots { AreSlotted state.now.specs }
    ensures { IfOk result (λ matrix. matrix ≡ spec.matrix_in state.now) }
{
    let parties = parties_of(alloc, &state.objects)?;
    let pairs = pairs_of(alloc, &parties)?;
    let rows = rows_of(rt, alloc, &state.specs, &pairs)?;
    Ok(Listing::from_vec(rows))
}

/// The row of each pair.
pub(crate) fn rows_of<R: Threads + Sync>(
    rt: &R,
    alloc: Global,
    listed: &SpecList,
    pairs: &[Pair],
) -> Result<Vec<Row>, AllocError>
    requires slots { AreSlotted listed.now }
    ensures { IfOk result (λ rows. rows.items ≡ map (spec.row_of listed.now) pairs.now) }
{
    pairs
        .par_iter()
        .map(
            |pair: &Pair| -> Row
                requires { AreSlotted listed.now }
                ensures { result ≡ spec.row_of listed.entry.now pair.now }
            { row_of(listed, pair) },
        )
        .collect(rt, alloc)
}

fn row_of(listed: &SpecList, pair: &Pair) -> Row
    requires { AreSlotted listed.now }
    ensures { result ≡ spec.row_of listed.now pair.now }
{
    let subject = &pair.subject.subject;
    let object = &pair.object.object;
    let [first, second, third, fourth] = letters_for(object);
    Row {
        subject: pair.subject.id,
        object: pair.object.id,
        passed: [
            passes(listed, subject, object, first),
            passes(listed, subject, object, second),
            passes(listed, subject, object, third),
            passes(listed, subject, object, fourth),
        ],
    }
}
