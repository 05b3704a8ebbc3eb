//! Chains, and the table of those that are kept.
ghost use Rattle.std.specs.Prelude.{◌≡◌};
ghost use Rattle.mf_chains.specs.declared.chain.ChainFault.TheVariants.{Memory};

use mf_elem::Elem;
use mf_errno::Module;
use mf_names::{Listing, Name};
use mf_objects::Id;
use std::alloc::AllocError;

/// A step of a chain: the party that an element came to, and when. Events count from 1, and 0 is the opening. The items of an
/// event are its checks, from 1 on; 0 stands for what comes behind them all, where the party before made this one.
#[derive(Clone, Copy, PartialEq, Eq)]
pub struct Step {
    pub party: Id,
    pub event: u32,
    pub item: u8,
}

/// Steps, the oldest first.
pub type StepList = Listing<Step>;

/// How an element came to a party: the party whose own element it was, set in that event, and the steps from it on.
#[derive(Drop)]
pub struct Chain {
    pub origin: Id,
    pub event: u32,
    pub steps: StepList,
}

/// An element of a live entity's sources by a policy, and the chain by which it came.
#[derive(Drop)]
pub struct ChainRow {
    pub module: Module,
    pub id: Id,
    /// The kind of the entity, a colon, and its name or its path.
    pub title: Name,
    pub elem: Elem,
    pub chain: Chain,
}

/// A row for each element of each row of the table of sources, in its order.
pub type ChainTable = Listing<ChainRow>;

/// Why there is no table of chains.
#[derive(Drop)]
pub enum ChainFault {
    /// More elements come into sets than `CHAIN_LIMIT`, or the rows have more steps.
    TooMany,
    /// Memory ran out.
    Memory,
}

impl From<AllocError> for ChainFault {
    ghost from_gives = { λ _ fault. fault ≡ Memory };

    fn from(_error: AllocError) -> Self {
        ChainFault::Memory
    }
}
