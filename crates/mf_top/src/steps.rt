//! The steps of a script, one after another.
ghost use Rattle.std.specs.Prelude.{◌≡◌, ◌⊎◌, All, List, ℕ, map, Result};
ghost use Rattle.mf_policy.specs.Modules.{module_of};
ghost use Rattle.mf_list.specs.Fresh.{IsFresh};
ghost use Rattle.mf_calls.specs.WellFormed.{IsWellFormed};
ghost use Rattle.mf_core.specs.AllModules.{AreAllModules};
ghost use Rattle.mf_io.specs.Outside.{seen};
ghost use Rattle.mf_top.specs.declared.refusal.Refusal.{Refusal};
ghost use Rattle.mf_top.specs.declared.refusal.Refusal.TheVariants as refusal;
ghost use Rattle.mf_top.specs.declared.command.Order.TheVariants as order;
ghost use Rattle.mf_top.specs.declared.command.Telling.TheVariants as telling;
ghost use Rattle.mf_top.specs.Answers.{AreStepsFaultless, IsToldOutcome, IsWritten};
ghost use Rattle.mf_top.specs.Outcomes.{bytes_of_outcome};
ghost use Rattle.mf_top.specs.Scripts.{IsToldBy};
ghost use Rattle.mf_top.specs.Tellings.{WroteTold};

use crate::command::Telling;
use crate::refusal::Refusal;
use crate::text::{tell_steps, with_sources};
use crate::{read, write};
use mf_calls::Script;
use mf_io::{Sink, Source};
use mf_policy::Policy;
use mf_steps::Stepped;
use std::alloc::Global;
use std::thread::Threads;

/// Does what the program does with the word `step`: takes the steps of the script that the source holds, one after another,
/// and writes what they print and the sources at their end to the sink. Returns the program's exit status. It starts no
/// thread and never waits. Nothing is written before the last step. `modules` has a policy of each module, once, in its
/// initial state.
pub fn run_steps<S: Source, K: Sink, P: Policy>(
    alloc: Global,
    source: &mut S,
    sink: &mut K,
    modules: Vec<P>,
) -> u8
    requires modules { AreAllModules (map (λ p. module_of (P.spec p)) modules.items) }
    requires fresh { All (λ p. IsFresh (P.spec p)) modules.items }

    // With 0 the source held a script to its end, each of its steps was taken, and the sink took their text and that of the
    // sources at their end, and nothing else. Of their history is said what `macsim` says of a run's, but that it is complete.
    ensures steps { result ≡ 0
        → WroteTold order.Steps telling.Sources (seen S.left S.faults source.old source.new)
        (seen K.taken K.faults sink.old sink.new) }

    // Each status has its cause, and what was taken is its text, or with 5 a beginning of another's.
    ensures cause { (outcome : Result (List ℕ) Refusal)
        × IsToldOutcome order.Steps telling.Sources (seen S.left S.faults source.old source.new)
        outcome
        × IsWritten (seen K.taken K.faults sink.old sink.new) outcome result }

    // A script whose steps are all in turn, over a source and a sink that don't fail, gives 0, or 9 if memory runs out.
    ensures complete { AreStepsFaultless (seen S.left S.faults source.old source.new)
        (seen K.taken K.faults sink.old sink.new)
        → (result ≡ 0) ⊎ (result ≡ 9) }
{
    write::write_outcome(alloc, sink, step_source_alone(alloc, source, modules))
}

/// The text of the steps of what the source holds, and of the sources at their end.
#[tactic(auto, using(crate::proofs::FromSource::told, crate::proofs::FromSource::not_told))]
fn step_source_alone<S: Source, P: Policy>(
    alloc: Global,
    source: &mut S,
    modules: Vec<P>,
) -> Result<String, Refusal>
    requires modules { AreAllModules (map (λ p. module_of (P.spec p)) modules.items) }
    requires fresh { All (λ p. IsFresh (P.spec p)) modules.items }
    ensures { IsToldOutcome order.Steps telling.Sources
        (seen S.left S.faults source.old source.new) (bytes_of_outcome result) }
{
    let script = read::read_source(alloc, source)?;
    let text = step_script_alone(alloc, &script, modules)?;
    Ok(text)
}

/// The text of the steps of the script, and of the sources at their end.
fn step_script_alone<P: Policy>(
    alloc: Global,
    script: &Script,
    modules: Vec<P>,
) -> Result<String, Refusal>
    requires formed { IsWellFormed script.now }
    requires modules { AreAllModules (map (λ p. module_of (P.spec p)) modules.items) }
    requires fresh { All (λ p. IsFresh (P.spec p)) modules.items }
    ensures { IsToldBy order.Steps telling.Sources script.now (bytes_of_outcome result) }
{
    match mf_steps::run_steps(alloc, script, modules)? {
        Stepped::Refused(number) => Err(Refusal::Step(number)),
        Stepped::Taken { text, core } => Ok(with_sources(alloc, &core, text)?),
    }
}

/// What is told of the steps of what the source holds.
#[tactic(auto, using(crate::proofs::FromSource::told, crate::proofs::FromSource::not_told))]
pub fn step_source<S: Source, P: Policy, R: Threads + Sync>(
    rt: &R,
    alloc: Global,
    source: &mut S,
    modules: Vec<P>,
    telling: Telling,
) -> Result<String, Refusal>
    requires modules { AreAllModules (map (λ p. module_of (P.spec p)) modules.items) }
    requires fresh { All (λ p. IsFresh (P.spec p)) modules.items }
    ensures { IsToldOutcome order.Steps telling
        (seen S.left S.faults source.old source.new) (bytes_of_outcome result) }
{
    let script = read::read_source(alloc, source)?;
    let text = step_script(rt, alloc, &script, modules, telling)?;
    Ok(text)
}

/// What is told of the steps of the script.
fn step_script<P: Policy, R: Threads + Sync>(
    rt: &R,
    alloc: Global,
    script: &Script,
    modules: Vec<P>,
    telling: Telling,
) -> Result<String, Refusal>
    requires formed { IsWellFormed script.now }
    requires modules { AreAllModules (map (λ p. module_of (P.spec p)) modules.items) }
    requires fresh { All (λ p. IsFresh (P.spec p)) modules.items }
    ensures { IsToldBy order.Steps telling script.now (bytes_of_outcome result) }
{
    match mf_steps::run_steps(alloc, script, modules)? {
        Stepped::Refused(number) => Err(Refusal::Step(number)),
        Stepped::Taken { text, core } => tell_steps(rt, alloc, &core, text, telling),
    }
}
