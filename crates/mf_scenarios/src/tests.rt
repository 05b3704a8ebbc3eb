//! Runs of the program over the modules that are built in.
ghost use Rattle.std.specs.Prelude.{◌≡◌, ◌<◌, ◌++◌, ◌∷◌, [], All, IfOk, map};
ghost use Rattle.mf_policy.specs.Modules.{module_of};
ghost use Rattle.mf_list.specs.Fresh.{IsFresh};
ghost use Rattle.mf_core.specs.AllModules.{AreAllModules};

mod cases;
mod descriptors;
mod failures;
mod gates;
mod grants;
mod labels;
mod limits;
mod load;
mod modules;
mod refused_steps;
mod relabels;
mod rows;
mod rules;
mod sinking;
mod sources;
mod stepping;
mod streams;
mod sysctls;
mod tasks;
mod transcript;
mod transfers;
mod watermark;

use mf_biba::Biba;
use mf_bsdextended::Bsdextended;
use mf_io::{Gate, MemSink, MemSource, Sink, Source};
use mf_lomac::Lomac;
use mf_mls::Mls;
use mf_partition::Partition;
use mf_policy::Policy;
use mf_ports::{Portacl, Seeotheruids};
use mf_priority::Priority;
use mf_top::{macsim, run_steps};
use std::alloc::{AllocError, Global};
use std::process::Abort;
use std::sync::Wait;
use std::thread::Threads;

const DENIAL: &str =
    "boot mac_biba\nfile /a reg uid 0 gid 0 mode 644 label biba/low text hi\ntask t uid 0 gid 0 label biba/high\nread /a\nend\n";

const DENIED: &str =
    "boot mac_biba 0\nenter t\ndone t 1 no EACCES vnode_open_read mac_biba 2\nleave t\nsource biba vnode:/ high\nsource biba vnode:/a low\nsource biba proc:t high\n";

/// Runs the program with these words over any modules, or takes the steps where there are none.
fn over<S: Source, K: Sink, G: Gate, P: Policy, R: Threads + Wait + Sync>(
    rt: &R,
    alloc: Global,
    words: Option<&[String]>,
    source: &mut S,
    sink: &mut K,
    gate: &G,
    modules: Vec<P>,
) -> u8
    requires modules { AreAllModules (map (λ p. module_of (P.spec p)) modules.items)
        × All (λ p. IsFresh (P.spec p)) modules.items }
{
    match words {
        Some(words) => macsim(rt, alloc, words, source, sink, gate, modules),
        None => run_steps(alloc, source, sink, modules),
    }
}

/// The list as it is, and the policy in a box. Whoever calls it owns nothing meanwhile.
fn boxed<T: Policy, P: Policy>(
    alloc: Global,
    list: Vec<P>,
    policy: T,
) -> Result<(Vec<P>, Box<T>), AllocError>
    ensures list { IfOk result (λ pair. pair.0.items ≡ list.items) }
    ensures policy { IfOk result (λ pair. pair.1.value ≡ policy) }
{
    let policy = Box::new(alloc, policy)?;
    Ok((list, policy))
}

/// The list with one policy more.
fn pushed<P: Policy>(mut list: Vec<P>, policy: P) -> Result<Vec<P>, AllocError>
    ensures { IfOk result (λ longer. longer.items ≡ list.items ++ policy ∷ []) }
{
    list.push(policy)?;
    Ok(list)
}

/// Runs the program with these words over the modules that are built in, or takes the steps where there are none.
fn run_over<S: Source, K: Sink, G: Gate, R: Threads + Wait + Sync>(
    rt: &R,
    alloc: Global,
    words: Option<&[String]>,
    source: &mut S,
    sink: &mut K,
    gate: &G,
) -> Result<u8, AllocError> {
    let list: Vec<Box<dyn Policy + Send + Sync>> = Vec::new(alloc);
    let (list, biba) = boxed(alloc, list, Biba::new())?;
    let list = pushed(list, biba)?;
    let (list, mls) = boxed(alloc, list, Mls::new())?;
    let list = pushed(list, mls)?;
    let (list, lomac) = boxed(alloc, list, Lomac::new())?;
    let list = pushed(list, lomac)?;
    let (list, partition) = boxed(alloc, list, Partition::new())?;
    let list = pushed(list, partition)?;
    let (list, bsdextended) = boxed(alloc, list, Bsdextended::new(alloc)?)?;
    let list = pushed(list, bsdextended)?;
    let (list, priority) = boxed(alloc, list, Priority::new())?;
    let list = pushed(list, priority)?;
    let (list, seeotheruids) = boxed(alloc, list, Seeotheruids::new())?;
    let list = pushed(list, seeotheruids)?;
    let (list, portacl) = boxed(alloc, list, Portacl::new())?;
    let list = pushed(list, portacl)?;
    Ok(over(rt, alloc, words, source, sink, gate, list))
}

fn words_of(alloc: Global, given: &[&str]) -> Result<Vec<String>, AllocError> {
    let mut words = Vec::new(alloc);
    for word in given {
        words.push(String::from_str(alloc, word)?)?;
    }
    Ok(words)
}

/// Runs the program with these words over the policy modules that are built in, and returns its exit status.
fn run_with<S: Source, K: Sink, G: Gate, R: Threads + Wait + Sync>(
    rt: &R,
    alloc: Global,
    words: &[&str],
    source: &mut S,
    sink: &mut K,
    gate: &G,
) -> Result<u8, AllocError> {
    let words = words_of(alloc, words)?;
    run_over(rt, alloc, Some(words.as_slice()), source, sink, gate)
}

/// Wants what is said of this to hold.
fn wants_that<R: Abort>(rt: &R, name: &str, holds: bool) {
    assert!(rt; holds, "{name}");
}

/// A source of the script, which gives at most so many bytes a call and fails at these calls.
fn source_of(
    alloc: Global,
    script: &str,
    most: usize,
    fails: &[u64],
) -> Result<MemSource, AllocError>
    requires { 0 < most }
{
    let bytes = script.as_bytes().to_vec(alloc)?;
    Ok(MemSource::new(bytes, most, fails.to_vec(alloc)?))
}

/// What the program writes over the source and into this empty sink, with exit status 0.
fn text_in<S: Source, G: Gate, R: Abort + Threads + Wait + Sync>(
    rt: &R,
    alloc: Global,
    words: &[&str],
    source: &mut S,
    sink: &mut MemSink,
    gate: &G,
) -> Result<String, AllocError> {
    let status = run_with(rt, alloc, words, source, sink, gate)?;
    wants_that(rt, "exit status", status == 0);
    String::from_utf8_lossy(alloc, sink.taken())
}

/// The same into a sink that takes at most so many bytes a call.
fn written_over<S: Source, G: Gate, R: Abort + Threads + Wait + Sync>(
    rt: &R,
    alloc: Global,
    words: &[&str],
    source: &mut S,
    most: usize,
    gate: &G,
) -> Result<String, AllocError>
    requires { 0 < most }
{
    let mut sink = MemSink::new(alloc, 100_000, most, Vec::new(alloc))?;
    text_in(rt, alloc, words, source, &mut sink, gate)
}

/// What the program writes of the script with this gate and exit status 0, where it is called with this word. It reads at most 64
/// bytes a call, and writes at most 10.
fn text_of<G: Gate, R: Abort + Threads + Wait + Sync>(
    rt: &R,
    alloc: Global,
    word: &str,
    script: &str,
    gate: &G,
) -> Result<String, AllocError> {
    let source = &mut source_of(alloc, script, 64, &[])?;
    written_over(rt, alloc, &[word], source, 10, gate)
}

/// The text of a run of the script with this gate, whose exit status is 0.
fn text_of_run<G: Gate, R: Abort + Threads + Wait + Sync>(
    rt: &R,
    alloc: Global,
    script: &str,
    gate: &G,
) -> Result<String, AllocError> {
    text_of(rt, alloc, "run", script, gate)
}

/// The summary of a generated load of these words with this gate, whose exit status is 0. Each read of the source would fail.
fn summary_of<G: Gate, R: Abort + Threads + Wait + Sync>(
    rt: &R,
    alloc: Global,
    words: &[&str],
    gate: &G,
) -> Result<String, AllocError> {
    let source = &mut source_of(alloc, "", 1, &[1])?;
    written_over(rt, alloc, words, source, 7, gate)
}
