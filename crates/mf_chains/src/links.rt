//! Chains by links, of which each names the one before it.
ghost use Rattle.std.specs.Prelude.{◌≡◌, ◌<◌, [], ◌∷◌, ◌++◌, length, reverse, slice_index_or, IfOk, OnOk, OnErr};
ghost use Rattle.mf_chains.specs.Chains.{from_origin, with_step};
ghost use Rattle.mf_chains.specs.Links.{AreLinked, chains_of, no_chain};

use crate::chain::{Chain, Step};
use mf_names::Listing;
use std::alloc::{AllocError, Global};
use std::marker::Model;

/// The newest step of a chain, and the place of the link to the rest of it. Where there is none, the step is the origin.
#[derive(Clone, Copy)]
pub struct Link {
    pub before: Option<usize>,
    pub step: Step,
}

/// Links, each behind the one that it names. Contracts see the chain that ends with each.
#[derive(Drop)]
pub struct Links {
    items: Vec<Link>,
}

impl Model for Links {
    ghost use Rattle.std.specs.Prelude.{List};
    ghost use Rattle.mf_chains.specs.declared.chain.Chain.{Chain};
    ghost use Rattle.mf_chains.specs.Links.{AreLinked, chains_of};

    ghost Value = { List Chain };

    ghost view = { λ a. chains_of a.items.items };

    ghost invariant = { λ a. AreLinked 0 a.items.items };
}

impl Links {
    /// No links.
    pub fn new(alloc: Global) -> Self
        ensures { result ≡ [] }
    {
        Links {
            items: Vec::new(alloc),
        }
    }

    /// The number of links.
    #[tactic(auto, using(crate::proofs::Linking::chains_length))]
    pub fn len(&self) -> usize
        ensures { result ≡ length self.now }
    {
        self.items.len()
    }

    /// Appends the link of the origin of a chain, and returns its place. If memory runs out, nothing changes.
    #[tactic(auto, using(crate::proofs::Linking::chains_length, crate::proofs::Linking::linked_push))]
    pub fn begin(&mut self, origin: Step) -> Result<usize, AllocError>
        ensures place { IfOk result (λ place. place ≡ length self.old) }
        ensures ok { OnOk result (self.new
            ≡ self.old ++ from_origin origin.party origin.event ∷ []) }
        ensures err { OnErr result (self.new ≡ self.old) }
    {
        let place = self.items.len();
        self.items.push(Link {
            before: None,
            step: origin,
        })?;
        Ok(place)
    }

    /// Appends the link of a step behind a chain, and returns its place. If memory runs out, nothing changes.
    #[tactic(auto, using(crate::proofs::Linking::chains_length, crate::proofs::Linking::linked_push))]
    pub fn go_on(&mut self, before: usize, step: Step) -> Result<usize, AllocError>
        requires { before < length self.old }
        ensures place { IfOk result (λ place. place ≡ length self.old) }
        ensures ok { OnOk result (self.new ≡ self.old
            ++ with_step step (slice_index_or self.old before no_chain) ∷ []) }
        ensures err { OnErr result (self.new ≡ self.old) }
    {
        let place = self.items.len();
        self.items.push(Link {
            before: Some(before),
            step,
        })?;
        Ok(place)
    }

    /// The chain that ends with the link at that place.
    pub fn chain(&self, alloc: Global, place: usize) -> Result<Chain, AllocError>
        requires { place < length self.now }
        ensures { IfOk result (λ chain. chain ≡ slice_index_or self.now place no_chain) }
    {
        let (first, mut steps) = steps_back(alloc, self.items.as_slice(), place)?;
        steps.reverse();
        Ok(Chain {
            origin: first.party,
            event: first.event,
            steps: Listing::from_vec(steps),
        })
    }
}

/// The origin of the chain that ends with the link at that place, and the steps from there on, the newest first.
fn steps_back(alloc: Global, links: &[Link], place: usize) -> Result<(Step, Vec<Step>), AllocError>
    requires linked { AreLinked 0 links.now }
    requires place { place < length links.now }
    ensures { IfOk result (λ r.
        record { origin = r.0.party; event = r.0.event; steps = reverse r.1.items }
        ≡ slice_index_or (chains_of links.now) place no_chain) }
{
    let mut steps = Vec::new(alloc);
    let mut at = place;
    while let Some(before) = links[at].before {
        steps.push(links[at].step)?;
        at = before;
    }
    Ok((links[at].step, steps))
}
