//! A run in which an element comes from a directory through a process to a pipe.
ghost use Rattle.std.specs.Prelude.{IfOk};
ghost use Rattle.mf_calls.specs.WellFormed.{IsWellFormed};
ghost use Rattle.mf_core.specs.LegalHistory.{IsLegal};

use mf_audit::{Audit, audit_history};
use mf_calls::Script;
use mf_chains::{Chain, ChainFault, ChainRow, ChainTable, Step, accepts, chains, print_chains};
use mf_core::{History, Run};
use mf_flow::sources;
use mf_hist::read_history;
use mf_matrix::{Matrix, Row, matrix_of};
use mf_names::{Listing, SCRIPT_LIMIT};
use mf_script::read_script;
use std::alloc::{AllocError, Global};
use std::process::Abort;
use std::test::Fail;
use std::thread::Threads;

/// A process reads what is of higher integrity, and writes to a pipe that it makes.
const HANDED_ON: &str =
    "boot mac_biba\nfile /a reg uid 0 gid 0 mode 644 label biba/high text hi\ntask t uid 0 gid 0 label biba/5\nread /a\npipe p\npwrite p x\nend\n";

/// What comes of it.
const HISTORY: &str =
    "boot mac_biba 0\nenter t\ndone t 1 ok bytes 2 =hi\nleave t\nenter t\ndone t 2 ok\nleave t\nenter t\ndone t 3 ok\nleave t\n";

/// The chain of each element: the first check of the reading looks up a name in the root, which is high too.
const CHAINS: &str =
    "chain biba vnode:/ high 0@0\nchain biba vnode:/a high 1@0\nchain biba proc:t 5 2@0\nchain biba proc:t high 0@0 2@2.1\nchain biba pipe:p 5 3@5\nchain biba pipe:p high 0@0 2@2.1 3@5.0\n";

fn script_of(rt: &impl Abort, alloc: Global, text: &str) -> Result<Script, AllocError>
    ensures { IfOk result (λ script. IsWellFormed script) }
{
    assert!(rt; text.len() <= SCRIPT_LIMIT);
    match read_script(alloc, text.as_bytes()) {
        Ok(script) => Ok(script),
        Err(_) => Err(AllocError),
    }
}

/// The history, which is a legal one of the script.
fn history_of(rt: &impl Abort, alloc: Global, script: &Script) -> Result<History, AllocError>
    requires { IsWellFormed script.now }
    ensures { IfOk result (λ history. IsLegal script.now history) }
{
    assert!(rt; HISTORY.len() <= SCRIPT_LIMIT);
    match read_history(alloc, script, HISTORY.as_bytes()) {
        Ok(history) => audited(alloc, script, history),
        Err(_) => Err(AllocError),
    }
}

/// The history, where it is legal.
fn audited(alloc: Global, script: &Script, history: History) -> Result<History, AllocError>
    requires { IsWellFormed script.now }
    ensures { IfOk result (λ history. IsLegal script.now history) }
{
    match audit_history(alloc, script, &history)? {
        Audit::Legal { .. } => Ok(history),
        Audit::Wrong(_) => Err(AllocError),
    }
}

/// The chains, over the sources.
fn chains_of(alloc: Global, script: &Script, history: &History) -> Result<ChainTable, ChainFault>
    requires formed { IsWellFormed script.now }
    requires legal { IsLegal script.now history.now }
{
    let table = sources(alloc, script, history)?;
    chains(alloc, script, history, &table)
}

/// The lines of the chains.
fn lines_of(alloc: Global, script: &Script, history: &History) -> Result<String, ChainFault>
    requires formed { IsWellFormed script.now }
    requires legal { IsLegal script.now history.now }
{
    let table = chains_of(alloc, script, history)?;
    let mut text = String::new(alloc);
    print_chains(&table, &mut text)?;
    Ok(text)
}

/// Whether these are the lines of the chains.
fn has_lines(alloc: Global, script: &Script, history: &History, lines: &str) -> bool
    requires formed { IsWellFormed script.now }
    requires legal { IsLegal script.now history.now }
{
    match lines_of(alloc, script, history) {
        Ok(text) => text.as_str() == lines,
        Err(_fault) => false,
    }
}

/// Whether the row's chain is accepted where its first step goes through the check of this number.
fn is_accepted(
    alloc: Global,
    script: &Script,
    history: &History,
    row: &ChainRow,
    item: u8,
) -> Result<bool, AllocError>
    requires formed { IsWellFormed script.now }
    requires legal { IsLegal script.now history.now }
{
    let mut steps = Listing::new(alloc);
    for step in row.chain.steps.as_slice() {
        steps.push(Step { item, ..*step })?;
    }
    let chain = Chain {
        origin: row.chain.origin,
        event: row.chain.event,
        steps,
    };
    accepts(
        alloc, script, history, row.module, row.id, &row.elem, &chain,
    )
}

/// The chain by which the process got what is high is accepted, and not through its third check, which moves from the file.
fn is_told_apart(
    rt: &impl Abort,
    alloc: Global,
    script: &Script,
    history: &History,
) -> Result<(), ChainFault>
    requires formed { IsWellFormed script.now }
    requires legal { IsLegal script.now history.now }
{
    let table = chains_of(alloc, script, history)?;
    let Some(row) = table.as_slice().get(3) else {
        return Err(ChainFault::Memory);
    };
    let kept = is_accepted(alloc, script, history, row, 1)?;
    let other = is_accepted(alloc, script, history, row, 3)?;
    assert!(rt; kept && !other);
    Ok(())
}

#[test]
fn each_element_has_the_chain_by_which_it_came(rt: HostRuntime) -> Result<(), Fail> {
    let script = script_of(&rt, rt.alloc(), HANDED_ON)?;
    let history = history_of(&rt, rt.alloc(), &script)?;
    let is_told = has_lines(rt.alloc(), &script, &history, CHAINS);
    assert!(rt; is_told);
    Ok(())
}

#[test]
fn a_step_through_another_check_is_no_step(rt: HostRuntime) -> Result<(), Fail> {
    let script = script_of(&rt, rt.alloc(), HANDED_ON)?;
    let history = history_of(&rt, rt.alloc(), &script)?;
    let told = is_told_apart(&rt, rt.alloc(), &script, &history);
    assert!(rt; told.is_ok());
    Ok(())
}

/// A process of high integrity, and a file of low.
const DENIED: &str =
    "boot mac_biba\nfile /a reg uid 0 gid 0 mode 644 label biba/low text hi\ntask t uid 0 gid 0 label biba/high\nread /a\nend\n";

/// What the process may do to the root, to the file and to itself: of the file it may write alone.
const PASSED: &[[bool; 4]] = &[
    [true, true, true, true],
    [false, true, false, false],
    [true, true, true, true],
];

/// The matrix at the end of boot.
fn matrix_at_boot<R: Threads + Sync>(
    rt: &R,
    alloc: Global,
    script: &Script,
) -> Result<Matrix, AllocError>
    requires { IsWellFormed script.now }
{
    let run = Run::new(alloc, script)?;
    matrix_of(rt, alloc, run.state())
}

fn have_passed(rows: &[Row], wanted: &[[bool; 4]]) -> bool {
    if rows.len() != wanted.len() {
        return false;
    }
    for (row, passed) in rows.iter().zip(wanted) {
        if row.passed != *passed {
            return false;
        }
    }
    true
}

#[test]
fn a_matrix_has_what_passes(rt: HostRuntime) -> Result<(), AllocError> {
    let script = script_of(&rt, rt.alloc(), DENIED)?;
    let matrix = matrix_at_boot(&rt, rt.alloc(), &script)?;
    assert!(rt; have_passed(matrix.as_slice(), PASSED));
    Ok(())
}
