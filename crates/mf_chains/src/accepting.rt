//! Whether a chain is one.
ghost use Rattle.std.specs.Prelude.{◌≡◌, ◌↔◌, find, IfOk, IsSome, IsTrue};
ghost use Rattle.std.specs.Option.{option_copied};
ghost use Rattle.mf_errno.specs.Same.{same_module};
ghost use Rattle.mf_objects.specs.Live.{live_at};
ghost use Rattle.mf_calls.specs.WellFormed.{IsWellFormed};
ghost use Rattle.mf_core.specs.LegalHistory.{IsLegal};
ghost use Rattle.mf_chains.specs.Histories.{IsChain};

use crate::chain::Chain;
use crate::pasts::{happenings, no_pasts};
use crate::tracing::leads;
use mf_calls::Script;
use mf_core::History;
use mf_elem::Elem;
use mf_errno::Module;
use mf_flow::sourced;
use mf_objects::{Id, Objects};
use mf_policy::Registration;
use std::alloc::{AllocError, Global};

/// Whether the chain is one by which the element came to the party, by the module's policy: which was booted, and bounds what may
/// move. The party lives at the end of the history.
pub fn accepts(
    alloc: Global,
    script: &Script,
    history: &History,
    module: Module,
    party: Id,
    element: &Elem,
    chain: &Chain,
) -> Result<bool, AllocError>
    requires formed { IsWellFormed script.now }
    requires legal { IsLegal script.now history.now }
    ensures { IfOk result (λ yes. IsTrue yes
        ↔ IsChain script.now history.now «module» party element.now chain.now) }
{
    let booted = sourced(alloc, &history.boots)?;
    match policy_of(&booted, module) {
        None => Ok(false),
        Some(registration) => {
            let mut pasts = no_pasts(alloc, &[*registration])?;
            let run = happenings(alloc, script, history, &mut pasts)?;
            if !lives(&run.state().objects, party) {
                return Ok(false);
            }
            let past = pasts[0].occurrences.as_slice();
            Ok(leads(past, party, element, chain))
        }
    }
}

/// The registration of the module among these.
fn policy_of(booted: &[Registration], wanted: Module) -> Option<&Registration>
    ensures { option_copied result ≡ find (λ r. same_module wanted r.module) booted.now }
{
    booted
        .iter()
        .find(|registration| wanted.is(registration.module))
}

/// Whether the entity lives.
fn lives(objects: &Objects, id: Id) -> bool
    ensures { IsTrue result ↔ IsSome (live_at objects.now id) }
{
    let _live = objects.live();
    match objects.least_from(id.number()) {
        None => false,
        Some(first) => first.number() == id.number(),
    }
}
