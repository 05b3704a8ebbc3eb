//! Which of the program's exit statuses never come where nothing fails.
ghost use Rattle.std.specs.Prelude.{◌≢◌, All, List, ℕ, Result, map, string_bytes};
ghost use Rattle.mf_policy.specs.Modules.{module_of};
ghost use Rattle.mf_list.specs.Fresh.{IsFresh};
ghost use Rattle.mf_core.specs.AllModules.{AreAllModules};
ghost use Rattle.mf_top.specs.declared.refusal.Refusal.{Refusal};
ghost use Rattle.mf_top.specs.Answers.{IsOutcome, IsWritten};
ghost use Rattle.mf_io.specs.Sure.{seen_source, seen_sink};

use crate::top::macsim;
use mf_io::{Gate, SureSink, SureSource};
use mf_policy::Policy;
use std::alloc::Global;
use std::sync::Wait;
use std::thread::Threads;

/// The program over a source and a sink that never fail: it returns neither 4 nor 5.
pub fn macsim_over_sure<G: Gate, P: Policy, R: Threads + Wait + Sync>(
    rt: &R,
    alloc: Global,
    words: &[String],
    source: &mut SureSource,
    sink: &mut SureSink,
    gate: &G,
    modules: Vec<P>,
) -> u8
    requires modules { AreAllModules (map (λ p. module_of (P.spec p)) modules.items) }
    requires fresh { All (λ p. IsFresh (P.spec p)) modules.items }
    ensures cause { (outcome : Result (List ℕ) Refusal)
        × IsOutcome (map string_bytes words.now) (seen_source source.old source.new) outcome
        × IsWritten (seen_sink sink.old sink.new) outcome result }
    ensures no_read_fault { result ≢ 4 }
    ensures no_write_fault { result ≢ 5 }
{
    macsim(rt, alloc, words, source, sink, gate, modules)
}
