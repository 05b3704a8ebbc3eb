//! The table of the chains of a history.
ghost use Rattle.std.specs.Prelude.{◌≡◌, ◌<◌, ◌≤◌, ◌+◌, [], ◌∷◌, ◌++◌, find, length, map, reverse, IfErr, IfOk, OnOk};
ghost use Rattle.std.specs.List.{AllByRecursion, flat_map, sum_by};
ghost use Rattle.std.specs.Option.{option_copied};
ghost use Rattle.mf_errno.specs.Same.{same_module};
ghost use Rattle.mf_elem.specs.declared.label.TheConstants.{SLOTS};
ghost use Rattle.mf_list.specs.Asked.{slot_of};
ghost use Rattle.mf_calls.specs.WellFormed.{IsWellFormed};
ghost use Rattle.mf_core.specs.LegalHistory.{IsLegal};
ghost use Rattle.mf_flow.specs.Table.{table_of};
ghost use Rattle.mf_chains.specs.declared.chain.ChainFault.TheVariants as fault;
ghost use Rattle.mf_chains.specs.Histories.{past_of};
ghost use Rattle.mf_chains.specs.Keepers.{HasLinks, IsKeeper, KeepsAll, rows_by, rows_of};
ghost use Rattle.mf_chains.specs.Kept.{additions};
ghost use Rattle.mf_chains.specs.Marks.{kept_of};
ghost use Rattle.mf_chains.specs.Table as spec;

use crate::chain::{ChainFault, ChainRow, ChainTable};
use crate::keeping::keep_all;
use crate::limits::CHAIN_LIMIT;
use crate::links::Links;
use crate::marks::{Mark, MarkSets};
use crate::pasts::{Past, happenings, no_pasts};
use mf_calls::Script;
use mf_core::History;
use mf_errno::Module;
use mf_flow::{Row, Table, sourced};
use mf_names::{Listing, Name};
use mf_policy::Registration;
use std::alloc::Global;

/// What the parties of a policy hold at the end of a history.
#[derive(Drop)]
pub struct Keeper {
    pub registration: Registration,
    pub links: Links,
    pub sets: MarkSets,
}

/// The chain by which each element of the sources of each live entity came there first. The table is that of the sources.
pub fn chains(
    alloc: Global,
    script: &Script,
    history: &History,
    table: &Table,
) -> Result<ChainTable, ChainFault>
    requires formed { IsWellFormed script.now }
    requires legal { IsLegal script.now history.now }
    requires table { table.now ≡ table_of script.now history.now }
    ensures table { IfOk result (λ table. table ≡ spec.chain_table script.now history.now) }
    ensures few { OnOk result (¬ spec.AreTooMany script.now history.now) }
    ensures fault { IfErr result (λ f. f ≡ fault.TooMany
        → spec.AreTooMany script.now history.now) }
{
    let booted = sourced(alloc, &history.boots)?;
    let keepers = keepers_for(alloc, script, history, &booted)?;
    list_chains(alloc, keepers.as_slice(), table)
}

/// What the parties of each of these policies hold at the end of the history.
fn keepers_for(
    alloc: Global,
    script: &Script,
    history: &History,
    booted: &[Registration],
) -> Result<Listing<Keeper>, ChainFault>
    requires formed { IsWellFormed script.now }
    requires legal { IsLegal script.now history.now }
    requires slots { AllByRecursion (λ r. slot_of r < SLOTS) booted.now }
    ensures registrations { IfOk result (λ keepers. map (λ k. k.registration) keepers
        ≡ booted.now) }
    ensures keepers { IfOk result (λ keepers. AllByRecursion (IsKeeper script.now history.now)
        keepers) }
    ensures few { OnOk result (sum_by (λ r. additions (past_of script.now history.now r))
        booted.now ≤ CHAIN_LIMIT) }
    ensures fault { IfErr result (λ f. f ≡ fault.TooMany
        → CHAIN_LIMIT < sum_by (λ r. additions (past_of script.now history.now r)) booted.now) }
{
    let mut pasts = no_pasts(alloc, booted)?;
    let _run = happenings(alloc, script, history, &mut pasts)?;
    let mut keepers = Listing::new(alloc);
    let mut most = CHAIN_LIMIT as usize;
    for past in &pasts {
        let keeper = keeper_for(alloc, past, most)?;
        most -= keeper.links.len();
        keepers.push(keeper)?;
    }
    Ok(keepers)
}

/// What the parties of a policy hold at the end of the history. Fails where more than `most` elements come into sets.
fn keeper_for(alloc: Global, past: &Past, most: usize) -> Result<Keeper, ChainFault>
    ensures registration { IfOk result (λ k. k.registration ≡ past.now.registration) }
    ensures keeper { IfOk result (KeepsAll (reverse past.now.occurrences)) }
    ensures count { IfOk result (λ k. length k.links
        ≡ additions (reverse past.now.occurrences)) }
    ensures few { IfOk result (λ k. length k.links ≤ most) }
    ensures fault { IfErr result (λ f. f ≡ fault.TooMany
        → most < additions (reverse past.now.occurrences)) }
{
    let mut links = Links::new(alloc);
    let mut sets = MarkSets::new(alloc);
    keep_all(
        alloc,
        past.occurrences.as_slice(),
        most,
        &mut links,
        &mut sets,
    )?;
    Ok(Keeper {
        registration: past.registration,
        links,
        sets,
    })
}

/// The rows for each row of the sources in turn.
fn list_chains(alloc: Global, keepers: &[Keeper], table: &Table) -> Result<ChainTable, ChainFault>
    requires { AllByRecursion HasLinks keepers.now }
    ensures rows { IfOk result (λ rows. rows ≡ flat_map (rows_by keepers.now) table.now) }
    ensures few { OnOk result (spec.steps_in (flat_map (rows_by keepers.now) table.now)
        ≤ CHAIN_LIMIT) }
    ensures fault { IfErr result (λ f. f ≡ fault.TooMany
        → CHAIN_LIMIT < spec.steps_in (flat_map (rows_by keepers.now) table.now)) }
{
    let mut rows = Listing::new(alloc);
    let mut most = CHAIN_LIMIT as usize;
    for row in table.as_slice() {
        push_chains(alloc, keepers, row, &mut most, &mut rows)?;
    }
    Ok(rows)
}

/// Appends the rows for a row of the sources, and takes the number of their steps from the most that there may be.
fn push_chains(
    alloc: Global,
    keepers: &[Keeper],
    row: &Row,
    most: &mut usize,
    rows: &mut ChainTable,
) -> Result<(), ChainFault>
    requires { AllByRecursion HasLinks keepers.now }
    ensures rows { OnOk result (rows.new ≡ rows.old ++ rows_by keepers.now row.now) }
    ensures few { OnOk result (most.new + spec.steps_in (rows_by keepers.now row.now)
        ≡ most.old) }
    ensures fault { IfErr result (λ f. f ≡ fault.TooMany
        → most.old < spec.steps_in (rows_by keepers.now row.now)) }
{
    match keeper_of(keepers, row.module) {
        None => Ok(()),
        Some(keeper) => push_kept(alloc, keeper, row, most, rows),
    }
}

fn keeper_of(keepers: &[Keeper], wanted: Module) -> Option<&Keeper>
    ensures { option_copied result
        ≡ find (λ k. same_module wanted k.registration.module) keepers.now }
{
    keepers
        .iter()
        .find(|keeper| wanted.is(keeper.registration.module))
}

fn push_kept(
    alloc: Global,
    keeper: &Keeper,
    row: &Row,
    most: &mut usize,
    rows: &mut ChainTable,
) -> Result<(), ChainFault>
    requires { HasLinks keeper.now }
    ensures rows { OnOk result (rows.new ≡ rows.old ++ rows_of row.now keeper.now) }
    ensures few { OnOk result (most.new + spec.steps_in (rows_of row.now keeper.now)
        ≡ most.old) }
    ensures fault { IfErr result (λ f. f ≡ fault.TooMany
        → most.old < spec.steps_in (rows_of row.now keeper.now)) }
{
    for mark in keeper.sets.at(row.id.number()) {
        push_chain(alloc, &keeper.links, row, mark, most, rows)?;
    }
    Ok(())
}

fn push_chain(
    alloc: Global,
    links: &Links,
    row: &Row,
    mark: &Mark,
    most: &mut usize,
    rows: &mut ChainTable,
) -> Result<(), ChainFault>
    requires { mark.now.link < length links.now }
    ensures row { OnOk result (rows.new
        ≡ rows.old ++ spec.chain_row row.now (kept_of links.now mark.now) ∷ []) }
    ensures few { OnOk result (most.new + length (kept_of links.now mark.now).chain.steps
        ≡ most.old) }
    ensures fault { IfErr result (λ f. f ≡ fault.TooMany
        → most.old < length (kept_of links.now mark.now).chain.steps) }
{
    let chain = links.chain(alloc, mark.link)?;
    let steps = chain.steps.len();
    if steps > *most {
        return Err(ChainFault::TooMany);
    }
    let title = Name::from_str(alloc, row.title.as_str())?;
    rows.push(ChainRow {
        module: row.module,
        id: row.id,
        title,
        elem: mark.element,
        chain,
    })?;
    *most -= steps;
    Ok(())
}
