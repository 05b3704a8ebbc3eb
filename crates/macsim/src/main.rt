//! Runs the script on the standard input, by threads or by its steps, or a generated load, and prints the history and its
//! sources, and the matrix, the chains or why calls were denied behind them where these are asked for, or the summary, on the
//! standard output; or tells whether what is there is a script and the text of a run of it.
#![tactic(auto)]

ghost use Rattle.std.specs.Prelude.{◌≡◌, ◌++◌, ◌∷◌, [], List, ℕ, map, Some, Result, IfOk, OnErr, string_bytes};
ghost use Rattle.mf_io.specs.Outside.{seen};
ghost use Rattle.mf_top.specs.declared.refusal.Refusal.{Refusal};
ghost use Rattle.mf_top.specs.declared.command.Command.TheVariants as command;
ghost use Rattle.mf_top.specs.declared.command.Order.{Order};
ghost use Rattle.mf_top.specs.declared.command.Order.TheVariants as order;
ghost use Rattle.mf_top.specs.declared.command.Telling.{Telling};
ghost use Rattle.mf_top.specs.declared.command.Telling.TheVariants as telling;
ghost use Rattle.mf_top.specs.Commands.{command_of};
ghost use Rattle.mf_top.specs.Answers.{WroteHistory, WroteSummary, IsOutcome, IsWritten, IsDone, IsFaultless};
ghost use Rattle.mf_top.specs.Check.{WroteYes};
ghost use Rattle.mf_top.specs.Tellings.{WroteTold, WroteTooMany};

use mf_biba::Biba;
use mf_bsdextended::Bsdextended;
use mf_io::{OpenGate, Sink, Source, StdSink, StdSource};
use mf_lomac::Lomac;
use mf_mls::Mls;
use mf_partition::Partition;
use mf_policy::Policy;
use mf_ports::{Portacl, Seeotheruids};
use mf_priority::Priority;
use mf_top::macsim;
use std::alloc::{AllocError, Global};
use std::process::ExitCode;
use std::sync::Wait;
use std::thread::Threads;
use std::{env, io};

/// The exit status if memory runs out.
const NO_MEMORY: u8 = 9;

/// The words after the program's name. There are none where one of them isn't UTF-8, since the program takes no such word.
fn words_of(rt: &HostRuntime) -> io::Result<Vec<String>> {
    let mut words = Vec::new(rt.alloc());
    match env::args(rt) {
        Ok(args) => {
            for word in args.skip(1) {
                words.push(word)?;
            }
        }
        Err(error) => {
            if error.kind() != io::ErrorKind::InvalidData {
                return Err(error);
            }
        }
    }
    Ok(words)
}

/// The list as it is, and the policy in a box. Whoever calls it owns nothing meanwhile.
fn boxed<T: Policy, P: Policy>(
    alloc: Global,
    list: Vec<P>,
    policy: T,
) -> Result<(Vec<P>, Box<T>), AllocError>
    ensures list { IfOk result (λ pair. pair.0.items ≡ list.items) }
    ensures policy { IfOk result (λ pair. pair.1.value ≡ policy) }
{
    let policy = Box::new(alloc, policy)?;
    Ok((list, policy))
}

/// The list with one policy more.
fn pushed<P: Policy>(mut list: Vec<P>, policy: P) -> Result<Vec<P>, AllocError>
    ensures { IfOk result (λ longer. longer.items ≡ list.items ++ policy ∷ []) }
{
    list.push(policy)?;
    Ok(list)
}

/// Runs the program over the policy modules that are built in, and returns its exit status, of which it promises what
/// `macsim` does. Where memory runs out before that, nothing is read and nothing written.
fn run<S: Source, K: Sink, R: Threads + Wait + Sync>(
    rt: &R,
    alloc: Global,
    words: &[String],
    source: &mut S,
    sink: &mut K,
) -> Result<u8, AllocError>
    ensures headline { IfOk result (λ status.
        command_of (map string_bytes words.now)
        ≡ Some (command.Tell order.Threads telling.Sources) → status ≡ 0
        → WroteHistory (seen S.left S.faults source.old source.new)
        (seen K.taken K.faults sink.old sink.new)) }
    ensures told { IfOk result (λ status. (o : Order) (t : Telling)
        → command_of (map string_bytes words.now) ≡ Some (command.Tell o t) → status ≡ 0
        → WroteTold o t (seen S.left S.faults source.old source.new)
        (seen K.taken K.faults sink.old sink.new)) }
    ensures too_many { IfOk result (λ status. (o : Order)
        → command_of (map string_bytes words.now) ≡ Some (command.Tell o telling.Chains)
        → status ≡ 11 → WroteTooMany o (seen S.left S.faults source.old source.new)
        (seen K.taken K.faults sink.old sink.new)) }
    ensures check { IfOk result (λ status.
        command_of (map string_bytes words.now) ≡ Some command.Check → status ≡ 0
        → WroteYes (seen S.left S.faults source.old source.new)
        (seen K.taken K.faults sink.old sink.new)) }
    ensures load { IfOk result (λ status. (lines tasks : ℕ)
        → command_of (map string_bytes words.now) ≡ Some (command.Gen lines tasks) → status ≡ 0
        → WroteSummary lines tasks (seen S.left S.faults source.old source.new)
        (seen K.taken K.faults sink.old sink.new)) }
    ensures cause { IfOk result (λ status. (outcome : Result (List ℕ) Refusal)
        × IsOutcome (map string_bytes words.now)
        (seen S.left S.faults source.old source.new) outcome
        × IsWritten (seen K.taken K.faults sink.old sink.new) outcome status) }
    ensures complete { IfOk result (λ status. IsFaultless (map string_bytes words.now)
        (seen S.left S.faults source.old source.new) (seen K.taken K.faults sink.old sink.new)
        → IsDone (command_of (map string_bytes words.now)) status) }
    ensures untouched { OnErr result ((source.new ≡ source.old) × (sink.new ≡ sink.old)) }
{
    let list: Vec<Box<dyn Policy + Send + Sync>> = Vec::new(alloc);
    let (list, biba) = boxed(alloc, list, Biba::new())?;
    let list = pushed(list, biba)?;
    let (list, mls) = boxed(alloc, list, Mls::new())?;
    let list = pushed(list, mls)?;
    let (list, lomac) = boxed(alloc, list, Lomac::new())?;
    let list = pushed(list, lomac)?;
    let (list, partition) = boxed(alloc, list, Partition::new())?;
    let list = pushed(list, partition)?;
    let (list, bsdextended) = boxed(alloc, list, Bsdextended::new(alloc)?)?;
    let list = pushed(list, bsdextended)?;
    let (list, priority) = boxed(alloc, list, Priority::new())?;
    let list = pushed(list, priority)?;
    let (list, seeotheruids) = boxed(alloc, list, Seeotheruids::new())?;
    let list = pushed(list, seeotheruids)?;
    let (list, portacl) = boxed(alloc, list, Portacl::new())?;
    let modules = pushed(list, portacl)?;
    Ok(macsim(rt, alloc, words, source, sink, &OpenGate, modules))
}

fn main(rt: HostRuntime) -> ExitCode {
    let Ok(words) = words_of(&rt) else {
        return ExitCode::from(NO_MEMORY);
    };
    let mut source = StdSource::new(rt.stdin());
    let mut sink = StdSink::new(rt.stdout());
    let status = run(&rt, rt.alloc(), words.as_slice(), &mut source, &mut sink);
    ExitCode::from(status.unwrap_or(NO_MEMORY))
}
