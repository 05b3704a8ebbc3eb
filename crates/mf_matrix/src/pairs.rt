//! The pairs of the matrix.
ghost use Rattle.std.specs.Prelude.{◌≡◌, ◌++◌, map, IfOk, OnOk};
ghost use Rattle.mf_matrix.specs.Matrix as spec;

use crate::parties::Party;
use std::alloc::{AllocError, Global};
use std::marker::Model;

/// Who does something, and to whom.
#[derive(Drop)]
pub struct Pair<'a> {
    pub(crate) subject: &'a Party,
    pub(crate) object: &'a Party,
}

impl<'a> Model for Pair<'a> {
    ghost use Rattle.mf_matrix.specs.Matrix as spec;

    ghost Value = { spec.Pair };

    ghost view = { λ p. record { subject = p.subject.now; object = p.object.now } };
}

/// Each process with each party.
pub(crate) fn pairs_of<'a>(alloc: Global, parties: &'a [Party]) -> Result<Vec<Pair<'a>>, AllocError>
    ensures { IfOk result (λ pairs. pairs.items ≡ spec.pairs_of parties.now) }
{
    let mut pairs = Vec::new(alloc);
    for subject in parties {
        if subject.is_process() {
            push_pairs(subject, parties, &mut pairs)?;
        }
    }
    Ok(pairs)
}

/// The subject with each party.
fn push_pairs<'a>(
    subject: &'a Party,
    parties: &'a [Party],
    pairs: &mut Vec<Pair<'a>>,
) -> Result<(), AllocError>
    ensures { OnOk result (pairs.new.items
        ≡ pairs.old.items ++ map (spec.pair subject.now) parties.now) }
{
    for object in parties {
        pairs.push(Pair { subject, object })?;
    }
    Ok(())
}
