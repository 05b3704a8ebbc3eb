//! The program's call.
ghost use Rattle.std.specs.Prelude.{◌≡◌, All, List, ℕ, map, Some, Result, string_bytes};
ghost use Rattle.mf_policy.specs.Modules.{module_of};
ghost use Rattle.mf_list.specs.Fresh.{IsFresh};
ghost use Rattle.mf_core.specs.AllModules.{AreAllModules};
ghost use Rattle.mf_top.specs.declared.refusal.Refusal.{Refusal};
ghost use Rattle.mf_io.specs.Outside.{seen};
ghost use Rattle.mf_top.specs.declared.command.Command.TheVariants as command;
ghost use Rattle.mf_top.specs.declared.command.Order.{Order};
ghost use Rattle.mf_top.specs.declared.command.Order.TheVariants as order;
ghost use Rattle.mf_top.specs.declared.command.Telling.{Telling};
ghost use Rattle.mf_top.specs.declared.command.Telling.TheVariants as telling;
ghost use Rattle.mf_top.specs.Commands.{command_of};
ghost use Rattle.mf_top.specs.Check.{WroteYes};
ghost use Rattle.mf_top.specs.Answers.{WroteHistory, WroteSummary, IsOutcome, IsToldOutcome, IsWritten, IsDone, IsFaultless};
ghost use Rattle.mf_top.specs.Tellings.{WroteTold, WroteTooMany};
ghost use Rattle.mf_top.specs.Outcomes.{bytes_of_outcome};

use crate::check::check_source;
use crate::command::{Command, Order, Telling};
use crate::refusal::Refusal;
use crate::steps::step_source;
use crate::{read, run, write};
use mf_io::{Gate, Sink, Source};
use mf_policy::Policy;
use std::alloc::Global;
use std::mem::forget;
use std::sync::Wait;
use std::thread::Threads;

/// With the word `run` runs the script that the source holds, leaving its steps aside, and writes its history and the
/// sources at its end to the sink; with `step` takes the script's steps one after another, and writes what they print and
/// the sources at their end; behind either, with `matrix`, `chains` or `why` too, writes the matrix of the state at the end,
/// the chains of the sources, or why calls were denied, with `why all` also by which rules others were allowed; with `check`
/// tells whether the source holds a script and the text of a run of it; with `gen N T` runs the generated load, and writes its
/// summary. Returns the program's exit status: 0, the status of a `Refusal`, or 5
/// where a write failed. `words` are those after the program's name. Nothing is written before the run has ended.
/// `modules` has a policy of each module, once, in its initial state. The tasks of a run go on side by side, and call
/// `gate`.
pub fn macsim<S: Source, K: Sink, G: Gate, P: Policy, R: Threads + Wait + Sync>(
    rt: &R,
    alloc: Global,
    words: &[String],
    source: &mut S,
    sink: &mut K,
    gate: &G,
    modules: Vec<P>,
) -> u8
    requires modules { AreAllModules (map (λ p. module_of (P.spec p)) modules.items) }
    requires fresh { All (λ p. IsFresh (P.spec p)) modules.items }

    // With `run` and 0 the source held a script to its end, and the sink took the text of one history that is legal and
    // complete for it, and of its sources, and nothing else. In it each label slot is made and ended at most once, at its
    // end a live entity's slot is unset exactly where it has no mark, and each source of a party stands in the order of its
    // policy. Where source or sink doesn't tell its bytes, there are bytes of which this holds.
    ensures headline { command_of (map string_bytes words.now)
        ≡ Some (command.Tell order.Threads telling.Sources) → result ≡ 0
        → WroteHistory (seen S.left S.faults source.old source.new)
        (seen K.taken K.faults sink.old sink.new) }

    // With `run` or `step`, whatever is to be told, and 0 the source held a script to its end, and the sink took the text of a
    // history of it in that order, of the sources at its end, and of what is told behind them, and nothing else. Of a history
    // by steps, which were all taken, is said what `headline` says of a run's, but that it is complete.
    ensures told { (o : Order) (t : Telling)
        → command_of (map string_bytes words.now) ≡ Some (command.Tell o t) → result ≡ 0
        → WroteTold o t (seen S.left S.faults source.old source.new)
        (seen K.taken K.faults sink.old sink.new) }

    // With `chains` and 11 the source held a script to its end, and the sink took the text of such a history, whose chains are
    // too many, and of its sources, and then the line that says so, and nothing else.
    ensures too_many { (o : Order)
        → command_of (map string_bytes words.now) ≡ Some (command.Tell o telling.Chains)
        → result ≡ 11 → WroteTooMany o (seen S.left S.faults source.old source.new)
        (seen K.taken K.faults sink.old sink.new) }

    // With `check` and 0 the source held, to its end, a script and the text of a run of it, as with `run`, and the sink took
    // `yes`, and nothing else.
    ensures check { command_of (map string_bytes words.now) ≡ Some command.Check → result ≡ 0
        → WroteYes (seen S.left S.faults source.old source.new)
        (seen K.taken K.faults sink.old sink.new) }

    // With `gen N T` and 0 nothing was read, and the sink took the summary of the load, and nothing else.
    ensures load { (lines tasks : ℕ)
        → command_of (map string_bytes words.now) ≡ Some (command.Gen lines tasks) → result ≡ 0
        → WroteSummary lines tasks (seen S.left S.faults source.old source.new)
        (seen K.taken K.faults sink.old sink.new) }

    // Each status has its cause, and what was taken is its text, or with 5 a beginning of another's.
    ensures cause { (outcome : Result (List ℕ) Refusal)
        × IsOutcome (map string_bytes words.now)
        (seen S.left S.faults source.old source.new) outcome
        × IsWritten (seen K.taken K.faults sink.old sink.new) outcome result }

    // The right words, with `run` a script, with `step` one whose steps are all in turn, with `check` a script and the text of
    // a run of it, over a source and a sink that don't fail, give 0, or 9 if memory runs out, or with `chains` 11 if there are
    // too many.
    ensures complete { IsFaultless (map string_bytes words.now)
        (seen S.left S.faults source.old source.new) (seen K.taken K.faults sink.old sink.new)
        → IsDone (command_of (map string_bytes words.now)) result }
{
    let outcome = outcome_of(rt, alloc, words, source, gate, modules);
    write::write_outcome(alloc, sink, outcome)
}

/// The text that the words ask for: what is told of a script, the load's summary, or `yes`; or why there is none.
fn outcome_of<S: Source, G: Gate, P: Policy, R: Threads + Wait + Sync>(
    rt: &R,
    alloc: Global,
    words: &[String],
    source: &mut S,
    gate: &G,
    modules: Vec<P>,
) -> Result<String, Refusal>
    requires modules { AreAllModules (map (λ p. module_of (P.spec p)) modules.items) }
    requires fresh { All (λ p. IsFresh (P.spec p)) modules.items }
    ensures { IsOutcome (map string_bytes words.now)
        (seen S.left S.faults source.old source.new) (bytes_of_outcome result) }
{
    match Command::of_words(words) {
        None => Err(Refusal::Usage),
        Some(Command::Tell(Order::Threads, telling)) => {
            run_source(rt, alloc, source, gate, modules, telling)
        }
        Some(Command::Tell(Order::Steps, telling)) => {
            step_source(rt, alloc, source, modules, telling)
        }
        Some(Command::Check) => check_source(alloc, source),
        Some(Command::Gen(lines, tasks)) => run::run_load(rt, alloc, lines, tasks, gate, modules),
    }
}

/// What is told of a run of what the source holds.
#[tactic(auto, using(crate::proofs::FromSource::told, crate::proofs::FromSource::not_told))]
fn run_source<S: Source, G: Gate, P: Policy, R: Threads + Wait + Sync>(
    rt: &R,
    alloc: Global,
    source: &mut S,
    gate: &G,
    modules: Vec<P>,
    telling: Telling,
) -> Result<String, Refusal>
    requires modules { AreAllModules (map (λ p. module_of (P.spec p)) modules.items) }
    requires fresh { All (λ p. IsFresh (P.spec p)) modules.items }
    ensures { IsToldOutcome order.Threads telling
        (seen S.left S.faults source.old source.new) (bytes_of_outcome result) }
{
    let script = read::read_source(alloc, source)?;
    let told = run::run_script(rt, alloc, &script, gate, modules, telling);
    // Left as it is, as in `run_script`.
    forget(script);
    told
}
