//! What is told of a history: its text, that of the sources at its end, and what stands behind them; or a summary.
ghost use Rattle.std.specs.Prelude.{◌≡◌, IfOk, OnOk, string_bytes};
ghost use Rattle.mf_core.specs.CoreView.{all_lines, done_of, open_of};
ghost use Rattle.mf_calls.specs.WellFormed.{IsWellFormed};
ghost use Rattle.mf_core.specs.LegalHistory.{IsLegal};
ghost use Rattle.mf_flow.specs.Table.{table_of};
ghost use Rattle.mf_load.specs.Summary.{load_summary};
ghost use Rattle.mf_steps.specs.StepText.{IsStepRun};
ghost use Rattle.mf_top.specs.declared.command.Order.TheVariants as order;
ghost use Rattle.mf_top.specs.declared.command.Telling.TheVariants as telling;
ghost use Rattle.mf_top.specs.Outcomes.{bytes_of_outcome};
ghost use Rattle.mf_top.specs.Scripts.{IsLoadOf, IsToldBehind, IsToldBy};
ghost use Rattle.mf_top.specs.Tellings.{IsMadeIn, IsToldOf};

use crate::command::Telling;
use crate::refusal::Refusal;
use mf_calls::Script;
use mf_chains::{ChainFault, chains, print_chains};
use mf_core::{Core, History};
use mf_flow::{Table, TrackedCore, print_sources, sources};
use mf_hist::print_history;
use mf_load::{summary_is_settled, summary_text};
use mf_matrix::print_matrix;
use mf_why::add_why;
use std::alloc::{AllocError, Global};
use std::thread::Threads;

/// Room for the line of an event, in bytes, somewhat more than the average: so the text of most runs is never moved.
const ROOM: usize = 24;

/// What is told of a run to its end: no entry is open, and all lines are done.
pub fn tell_run<R: Threads + Sync>(
    rt: &R,
    alloc: Global,
    tracked: &TrackedCore,
    telling: Telling,
) -> Result<String, Refusal>
    requires entries { open_of tracked.now ≡ 0 }
    requires lines { done_of tracked.now ≡ all_lines tracked.now.script }
    ensures { IsToldBy order.Threads telling tracked.now.script (bytes_of_outcome result) }
{
    let core = tracked.core();
    let table = tracked.sources(alloc)?;
    let text = whole_text(alloc, core, &table)?;
    add_further(rt, alloc, core, &table, text, telling)
}

/// What is told of steps that were all taken, of which this is the text.
pub fn tell_steps<R: Threads + Sync>(
    rt: &R,
    alloc: Global,
    core: &Core,
    mut text: String,
    telling: Telling,
) -> Result<String, Refusal>
    requires taken { IsStepRun core.now.script core.now.history (string_bytes text) }
    ensures { IsToldBy order.Steps telling core.now.script (bytes_of_outcome result) }
{
    let table = add_sources(alloc, core, &mut text)?;
    add_further(rt, alloc, core, &table, text, telling)
}

/// The text of steps that were all taken, and of the sources at their end.
pub fn with_sources(alloc: Global, core: &Core, mut text: String) -> Result<String, AllocError>
    requires taken { IsStepRun core.now.script core.now.history (string_bytes text) }
    ensures { IfOk result
        (λ text. IsToldOf order.Steps telling.Sources core.now.script (string_bytes text)) }
{
    add_sources(alloc, core, &mut text)?;
    Ok(text)
}

/// The text of a run to its end, and of its sources, of which this is the table.
fn whole_text(alloc: Global, core: &Core, table: &Table) -> Result<String, AllocError>
    requires table { table.now ≡ table_of core.now.script core.now.history }
    requires entries { open_of core.now ≡ 0 }
    requires lines { done_of core.now ≡ all_lines core.now.script }
    ensures { IfOk result
        (λ text. IsMadeIn order.Threads core.now.script core.now.history (string_bytes text)) }
{
    let history = core.history();
    let room = history.events.as_slice().len().saturating_mul(ROOM);
    let mut text = String::with_capacity(alloc, room)?;
    print_history(core.script(), history, &mut text)?;
    print_sources(table, &mut text)?;
    Ok(text)
}

/// Appends the text of the sources to that of steps that were all taken, and returns their table.
fn add_sources(alloc: Global, core: &Core, text: &mut String) -> Result<Table, AllocError>
    requires taken { IsStepRun core.now.script core.now.history (string_bytes text.old) }
    ensures table { IfOk result (λ table. table ≡ table_of core.now.script core.now.history) }
    ensures made { OnOk result
        (IsMadeIn order.Steps core.now.script core.now.history (string_bytes text.new)) }
{
    let table = sources(alloc, core.script(), core.history())?;
    print_sources(&table, text)?;
    Ok(table)
}

/// The text with what is told of the core's history behind its sources, of which this is the table.
fn add_further<R: Threads + Sync>(
    rt: &R,
    alloc: Global,
    core: &Core,
    table: &Table,
    mut text: String,
    telling: Telling,
) -> Result<String, Refusal>
    requires { table.now ≡ table_of core.now.script core.now.history }
    ensures { IsToldBehind telling core.now.script core.now.history (string_bytes text)
        (bytes_of_outcome result) }
{
    let script = core.script();
    let history = core.history();
    match telling {
        Telling::Sources => {}
        Telling::Matrix => print_matrix(rt, alloc, core.state(), &mut text)?,
        Telling::Chains => return add_chains(alloc, script, history, table, text),
        Telling::Why(extent) => add_why(alloc, script, history, extent, &mut text)?,
    }
    Ok(text)
}

/// The text with that of the chains at the end of the history behind it, unless there are too many. The table is that of the sources.
fn add_chains(
    alloc: Global,
    script: &Script,
    history: &History,
    table: &Table,
    mut text: String,
) -> Result<String, Refusal>
    requires formed { IsWellFormed script.now }
    requires legal { IsLegal script.now history.now }
    requires table { table.now ≡ table_of script.now history.now }
    ensures { IsToldBehind telling.Chains script.now history.now (string_bytes text)
        (bytes_of_outcome result) }
{
    match chains(alloc, script, history, table) {
        Ok(chains) => {
            print_chains(&chains, &mut text)?;
            Ok(text)
        }
        Err(ChainFault::TooMany) => Err(Refusal::TooManyChains(text)),
        Err(ChainFault::Memory) => Err(Refusal::Memory),
    }
}

/// The summary of a load that was run to its end.
pub fn summarize(
    alloc: Global,
    lines: u32,
    tasks: u32,
    tracked: &TrackedCore,
) -> Result<String, AllocError>
    requires load { IsLoadOf lines tasks tracked.now.script }
    requires entries { open_of tracked.now ≡ 0 }
    requires lines { done_of tracked.now ≡ all_lines tracked.now.script }
    ensures { IfOk result (λ text. string_bytes text ≡ load_summary lines tasks) }
{
    summary_is_settled();
    let history = tracked.core().history();
    summary_text(alloc, lines, tasks, history.events.as_slice())
}
