//! Entries that meet, a change that waits, and growths that are refused, over the modules that are built in.
ghost use Rattle.std.specs.Prelude.{◌≡◌, ◌+◌, ◌++◌, ◌∷◌, [], All, IfOk, length, map};
ghost use Rattle.mf_policy.specs.Modules.{module_of};
ghost use Rattle.mf_list.specs.Fresh.{IsFresh};
ghost use Rattle.mf_calls.specs.WellFormed.{IsWellFormed};
ghost use Rattle.mf_core.specs.AllModules.{AreAllModules};

mod growths;
mod kernel;
mod steps;

use mf_biba::Biba;
use mf_bsdextended::Bsdextended;
use mf_calls::Script;
use mf_core::Core;
use mf_hist::print_history;
use mf_lomac::Lomac;
use mf_mls::Mls;
use mf_names::SCRIPT_LIMIT;
use mf_partition::Partition;
use mf_policy::Policy;
use mf_ports::{Portacl, Seeotheruids};
use mf_priority::Priority;
use mf_script::read_script;
use mf_share::{Job, NewRegister};
use std::alloc::{AllocError, Global};
use std::marker::Brand;
use std::process::Abort;
use std::sync::Wait;
use std::sync::ledger::{Blank, Ledger};

/// What is done with a script's tasks.
#[derive(Clone, Copy)]
pub enum Scenario {
    /// The lines of the only task, one after another; each that is refused memory once more.
    Growths,
    /// Between the first task's walk and commit the second does its call.
    ChangedDuringACall,
    /// The second task's change waits for the end of the first one's entry.
    ChangeDuringEntry,
}

/// Wants what is said of this to hold.
pub fn wants(rt: &impl Abort, name: &str, holds: bool) {
    assert!(rt; holds, "{name}");
}

/// The text of the core's history.
pub fn history_text(alloc: Global, script: &Script, core: &Core<'_>) -> Result<String, AllocError> {
    let mut text = String::new(alloc);
    print_history(script, core.history(), &mut text)?;
    Ok(text)
}

/// The history of that over any modules.
fn history_over<P: Policy, J: Job, B: Ledger, R: Wait + Abort>(
    rt: &R,
    alloc: Global,
    script: &Script,
    scenario: Scenario,
    modules: Vec<P>,
    lines: Blank,
    busy: Blank,
    register: NewRegister,
) -> Result<String, AllocError>
    requires formed { IsWellFormed script.now }
    requires modules { AreAllModules (map (λ p. module_of (P.spec p)) modules.items)
        × All (λ p. IsFresh (P.spec p)) modules.items }
    requires job { script.now ≡ J.script }
    requires lines_name { lines.name ≡ J.name }
    requires lines_parts { (lines.parts ≡ J.parts) × (lines.parts ≡ length script.now.tasks + 1) }
    requires busy_name { busy.name ≡ B.name }
    requires busy_parts { (busy.parts ≡ B.parts) × (busy.parts ≡ length script.now.tasks + 1) }
    requires register_name { register ≡ J.register }
{
    match scenario {
        Scenario::Growths => growths::history_over(rt, alloc, script, modules),
        Scenario::ChangedDuringACall => {
            kernel::changed_during_a_call::<P, J, B, R>(
                rt, alloc, script, modules, lines, busy, register,
            )
        }
        Scenario::ChangeDuringEntry => steps::change_during_entry(rt, alloc, script, modules),
    }
}

/// The list as it is, and the policy in a box. Whoever calls it owns nothing meanwhile.
fn boxed<T: Policy, P: Policy>(
    alloc: Global,
    list: Vec<P>,
    policy: T,
) -> Result<(Vec<P>, Box<T>), AllocError>
    ensures list { IfOk result (λ pair. pair.0.items ≡ list.items) }
    ensures policy { IfOk result (λ pair. pair.1.value ≡ policy) }
{
    let policy = Box::new(alloc, policy)?;
    Ok((list, policy))
}

/// The list with one policy more.
fn pushed<P: Policy>(mut list: Vec<P>, policy: P) -> Result<Vec<P>, AllocError>
    ensures { IfOk result (λ longer. longer.items ≡ list.items ++ policy ∷ []) }
{
    list.push(policy)?;
    Ok(list)
}

/// The history over the modules that are built in.
fn over_modules<R: Wait + Abort>(
    rt: &R,
    alloc: Global,
    script: &Script,
    scenario: Scenario,
) -> Result<String, AllocError>
    requires formed { IsWellFormed script.now }
{
    let parts = script.tasks.len() as u64 + 1;
    let list: Vec<Box<dyn Policy + Send + Sync>> = Vec::new(alloc);
    let (list, biba) = boxed(alloc, list, Biba::new())?;
    let list = pushed(list, biba)?;
    let (list, mls) = boxed(alloc, list, Mls::new())?;
    let list = pushed(list, mls)?;
    let (list, lomac) = boxed(alloc, list, Lomac::new())?;
    let list = pushed(list, lomac)?;
    let (list, partition) = boxed(alloc, list, Partition::new())?;
    let list = pushed(list, partition)?;
    let (list, bsdextended) = boxed(alloc, list, Bsdextended::new(alloc)?)?;
    let list = pushed(list, bsdextended)?;
    let (list, priority) = boxed(alloc, list, Priority::new())?;
    let list = pushed(list, priority)?;
    let (list, seeotheruids) = boxed(alloc, list, Seeotheruids::new())?;
    let list = pushed(list, seeotheruids)?;
    let (list, portacl) = boxed(alloc, list, Portacl::new())?;
    let list = pushed(list, portacl)?;
    history_over::<Box<dyn Policy + Send + Sync>, Brand, Brand, R>(
        rt,
        alloc,
        script,
        scenario,
        list,
        Blank::new(parts),
        Blank::new(parts),
        NewRegister::new(),
    )
}

fn read(rt: &impl Abort, alloc: Global, text: &str) -> Result<Script, AllocError>
    ensures { IfOk result (λ script. IsWellFormed script) }
{
    assert!(rt; text.len() <= SCRIPT_LIMIT);
    match read_script(alloc, text.as_bytes()) {
        Ok(script) => Ok(script),
        Err(_) => Err(AllocError),
    }
}

/// The history over the modules that are built in of a script that is read.
fn history_over_modules<R: Wait + Abort>(
    rt: &R,
    alloc: Global,
    script: &str,
    scenario: Scenario,
) -> Result<String, AllocError> {
    let script = read(rt, alloc, script)?;
    over_modules(rt, alloc, &script, scenario)
}

/// What is done with a script's tasks, and the history of that.
type Row = (Scenario, &'static str, &'static str);

const HISTORIES: &[Row] = &[
    (
        Scenario::ChangedDuringACall,
        kernel::RELABELLED,
        kernel::DENIED_BY_THE_NEW_LABEL,
    ),
    (
        Scenario::ChangedDuringACall,
        kernel::SUNK,
        kernel::ALLOWED_BY_THE_LOWER_LABEL,
    ),
    (
        Scenario::ChangedDuringACall,
        kernel::UNLINKED,
        kernel::NO_FILE_IS_OPENED,
    ),
    (
        Scenario::ChangeDuringEntry,
        steps::UNLOADED_DURING_A_READ,
        steps::UNLOADED_AFTER_THE_READ,
    ),
];

/// A script of one task, and the replies to its lines.
const REPLIES: &[(&str, &str)] = &[
    (growths::GROWING, growths::REPLIES),
    (growths::LOWERING, growths::LOWERED),
    (growths::OPENING, growths::OPENED),
];

fn wants_history<R: Wait + Abort>(rt: &R, alloc: Global, row: &Row) -> Result<(), AllocError> {
    let (scenario, script, wanted) = *row;
    let history = history_over_modules(rt, alloc, script, scenario)?;
    wants(rt, script, history.as_str() == wanted);
    Ok(())
}

fn wants_replies<R: Wait + Abort>(
    rt: &R,
    alloc: Global,
    script: &str,
    replies: &str,
) -> Result<(), AllocError> {
    let history = history_over_modules(rt, alloc, script, Scenario::Growths)?;
    let has_replies = growths::has_replies(history.as_str(), replies);
    wants(rt, script, has_replies);
    Ok(())
}

#[test]
fn calls_and_changes_that_meet(rt: HostRuntime) -> Result<(), AllocError> {
    for row in HISTORIES {
        wants_history(&rt, rt.alloc(), row)?;
    }
    Ok(())
}

#[test]
fn a_core_after_refused_growths(rt: HostRuntime) -> Result<(), AllocError> {
    for (script, replies) in REPLIES {
        wants_replies(&rt, rt.alloc(), script, replies)?;
    }
    Ok(())
}
