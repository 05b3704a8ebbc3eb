//! Sets of elements, kept in the order in which they are listed.
ghost use Rattle.std.specs.Prelude.{◌≡◌, [], IfOk};
ghost use Rattle.mf_flow.specs.Listed.{has_bit, listed};

use crate::bits::Bits;
use crate::known::Known;
use mf_elem::Elem;
use std::alloc::{AllocError, Global};
use std::marker::Model;

/// A set of elements. Contracts see them in order: low, the grades by grade and by their compartments, high.
#[derive(Drop)]
pub struct ElemSet {
    items: Vec<Elem>,
}

impl Model for ElemSet {
    ghost use Rattle.std.specs.Prelude.{List};
    ghost use Rattle.mf_elem.specs.declared.elem.Elem.{Elem};

    ghost Value = { List Elem };

    ghost view = { λ a. a.items.items };
}

impl ElemSet {
    /// No elements.
    pub fn new(alloc: Global) -> Self
        ensures { result ≡ [] }
    {
        ElemSet {
            items: Vec::new(alloc),
        }
    }

    /// The elements whose numbers are in the set.
    pub fn listed(alloc: Global, known: &Known, numbers: &Bits) -> Result<Self, AllocError>
        ensures { IfOk result (λ set. set ≡ listed (has_bit numbers.now) known.now) }
    {
        let mut items = Vec::new(alloc);
        for entry in known.as_slice() {
            if numbers.has(entry.number) {
                items.push(entry.element)?;
            }
        }
        Ok(ElemSet { items })
    }

    /// The elements in order.
    pub fn as_slice(&self) -> &[Elem]
        ensures { result.now ≡ self.now }
    {
        self.items.as_slice()
    }
}
