//! Runs over a source and a sink that never fail, and over a reader and a writer.
ghost use Rattle.std.specs.Prelude.{All, map};
ghost use Rattle.mf_policy.specs.Modules.{module_of};
ghost use Rattle.mf_list.specs.Fresh.{IsFresh};
ghost use Rattle.mf_core.specs.AllModules.{AreAllModules};

use crate::tests::{DENIAL, DENIED, boxed, pushed, run_with, wants_that, words_of};
use mf_biba::Biba;
use mf_bsdextended::Bsdextended;
use mf_io::{KnownSink, OpenGate, StdSource, SureSink, SureSource};
use mf_lomac::Lomac;
use mf_mls::Mls;
use mf_partition::Partition;
use mf_policy::Policy;
use mf_ports::{Portacl, Seeotheruids};
use mf_priority::Priority;
use mf_top::law::macsim_over_sure;
use std::alloc::{AllocError, Global};
use std::sync::Wait;
use std::thread::Threads;

/// Runs the program with these words over any modules.
fn over_sure<P: Policy, R: Threads + Wait + Sync>(
    rt: &R,
    alloc: Global,
    words: &[String],
    source: &mut SureSource,
    sink: &mut SureSink,
    modules: Vec<P>,
) -> u8
    requires modules { AreAllModules (map (λ p. module_of (P.spec p)) modules.items)
        × All (λ p. IsFresh (P.spec p)) modules.items }
{
    macsim_over_sure(rt, alloc, words, source, sink, &OpenGate, modules)
}

/// Runs the program with these words over the modules that are built in.
fn run_over_sure<R: Threads + Wait + Sync>(
    rt: &R,
    alloc: Global,
    words: &[String],
    source: &mut SureSource,
    sink: &mut SureSink,
) -> Result<u8, AllocError> {
    let list: Vec<Box<dyn Policy + Send + Sync>> = Vec::new(alloc);
    let (list, biba) = boxed(alloc, list, Biba::new())?;
    let list = pushed(list, biba)?;
    let (list, mls) = boxed(alloc, list, Mls::new())?;
    let list = pushed(list, mls)?;
    let (list, lomac) = boxed(alloc, list, Lomac::new())?;
    let list = pushed(list, lomac)?;
    let (list, partition) = boxed(alloc, list, Partition::new())?;
    let list = pushed(list, partition)?;
    let (list, bsdextended) = boxed(alloc, list, Bsdextended::new(alloc)?)?;
    let list = pushed(list, bsdextended)?;
    let (list, priority) = boxed(alloc, list, Priority::new())?;
    let list = pushed(list, priority)?;
    let (list, seeotheruids) = boxed(alloc, list, Seeotheruids::new())?;
    let list = pushed(list, seeotheruids)?;
    let (list, portacl) = boxed(alloc, list, Portacl::new())?;
    let list = pushed(list, portacl)?;
    Ok(over_sure(rt, alloc, words, source, sink, list))
}

#[test]
fn over_memory_that_never_fails(rt: HostRuntime) -> Result<(), AllocError> {
    let words = words_of(rt.alloc(), &["run"])?;
    let mut source = SureSource::new(DENIAL.as_bytes().to_vec(rt.alloc())?);
    let mut sink = SureSink::new(rt.alloc(), 40)?;
    let status = run_over_sure(&rt, rt.alloc(), words.as_slice(), &mut source, &mut sink)?;
    wants_that(&rt, "exit status", status == 0);
    Ok(())
}

#[test]
fn over_a_reader_and_a_writer(rt: HostRuntime) -> Result<(), AllocError> {
    let mut written = Vec::new(rt.alloc());
    let mut source = StdSource::new(DENIAL.as_bytes());
    let mut sink = KnownSink::new(&mut written);
    let status = run_with(&rt, rt.alloc(), &["run"], &mut source, &mut sink, &OpenGate)?;
    let is_written = written.as_slice() == DENIED.as_bytes();
    wants_that(&rt, "a writer", status == 0 && is_written);
    Ok(())
}
