//! Words, scripts and faults, and what the program makes of them.

use crate::tests::{DENIAL, DENIED, run_over, run_with, source_of, wants_that};
use mf_io::{MemSink, MemSource, OpenGate};
use std::alloc::{AllocError, Global};
use std::process::Abort;
use std::sync::Wait;
use std::thread::Threads;

/// A run of the program, and what it must give.
#[derive(Clone, Copy)]
pub struct Case {
    pub name: &'static str,
    pub words: &'static [&'static str],
    pub script: &'static str,
    pub source_fails: &'static [u64],
    pub sink_fails: &'static [u64],
    pub status: u8,
    pub text: &'static str,
}

/// A script with one denial.
pub const PLAIN: Case = Case {
    name: "the plainest denial",
    words: &["run"],
    script: DENIAL,
    source_fails: &[],
    sink_fails: &[],
    status: 0,
    text: DENIED,
};

const RUNS: &[Case] = &[
    PLAIN,
    Case {
        name: "the matrix behind the plainest denial",
        words: &["run", "matrix"],
        text: "boot mac_biba 0\nenter t\ndone t 1 no EACCES vnode_open_read mac_biba 2\nleave t\nsource biba vnode:/ high\nsource biba vnode:/a low\nsource biba proc:t high\nmatrix proc:t vnode:/ rwxs\nmatrix proc:t vnode:/a -w--\nmatrix proc:t proc:t vgdc\n",
        ..PLAIN
    },
    Case {
        name: "the chains behind a read and a write to a pipe",
        words: &["run", "chains"],
        script: "boot mac_biba\nfile /a reg uid 0 gid 0 mode 644 label biba/high text hi\ntask t uid 0 gid 0 label biba/5\nread /a\npipe p\npwrite p x\nend\n",
        text: "boot mac_biba 0\nenter t\ndone t 1 ok bytes 2 =hi\nleave t\nenter t\ndone t 2 ok\nleave t\nenter t\ndone t 3 ok\nleave t\nsource biba vnode:/ high\nsource biba vnode:/a high\nsource biba proc:t 5,high\nsource biba pipe:p 5,high\nchain biba vnode:/ high 0@0\nchain biba vnode:/a high 1@0\nchain biba proc:t 5 2@0\nchain biba proc:t high 0@0 2@2.1\nchain biba pipe:p 5 3@5\nchain biba pipe:p high 0@0 2@2.1 3@5.0\n",
        ..PLAIN
    },
    Case {
        name: "a matrix without the word run",
        words: &["matrix"],
        script: "task t uid 0 gid 0 label -\nend\n",
        text: "matrix proc:t vnode:/ rwxs\nmatrix proc:t proc:t vgdc\n",
        ..PLAIN
    },
    Case {
        name: "chains without the word run",
        words: &["chains"],
        script: "boot mac_biba\ntask t uid 0 gid 0 label -\nend\n",
        text: "boot mac_biba 0\nsource biba vnode:/ high\nsource biba proc:t high\nchain biba vnode:/ high 0@0\nchain biba proc:t high 1@0\n",
        ..PLAIN
    },
    Case {
        name: "why the plainest denial came",
        words: &["run", "why"],
        text: "boot mac_biba 0\nenter t\ndone t 1 no EACCES vnode_open_read mac_biba 2\nleave t\nsource biba vnode:/ high\nsource biba vnode:/a low\nsource biba proc:t high\ndenied t 1 2 vnode_open_read proc:t vnode:/a\nwhy t 1 mac_biba decides EACCES observe subject high object low\n",
        ..PLAIN
    },
    Case {
        name: "why calls were denied behind a lowering, and what the framework refused",
        words: &["run", "why"],
        script: "boot mac_lomac\nfile /lo reg uid 0 gid 0 mode 644 label lomac/5 text hi\ntask t uid 1 gid 0 label lomac/9\nread /lo\nwrite / x\ncreate /n\npriv SCHED_RTPRIO\nend\n",
        text: "boot mac_lomac 0\nenter t\ndone t 1 ok bytes 2 =hi\nleave t\nenter t\ndone t 2 no EISDIR - -\nleave t\nenter t\ndone t 3 no EACCES vnode_create mac_lomac 2\nleave t\nenter t\ndone t 4 no EPERM priv - 1\nleave t\nsource lomac vnode:/ high\nsource lomac vnode:/lo 5\nsource lomac proc:t 5,9,high\nlowered t 1 2 proc:t 9 5 vnode:/lo\ndenied t 3 2 vnode_create proc:t vnode:/\nwhy t 3 mac_lomac decides EACCES modify subject 5 object high\ndenied t 4 1 priv proc:t -\nwhy t 4 - decides EPERM privilege SCHED_RTPRIO uid 1\n",
        ..PLAIN
    },
    Case {
        name: "by which rules calls were allowed and denied",
        words: &["run", "why", "all"],
        script: "boot mac_bsdextended\nboot mac_portacl\nfile /f reg uid 1 gid 1 mode 644 label - text hi\ntask t uid 0 gid 0 label -\nugidfw add subject uid 0 object uid 1 mode r\nsysctl security.mac.portacl.rules=uid:0:tcp:80\nsysctl security.mac.portacl.suser_exempt=0\nsocket s\nread /f\nwrite /f x\nbind s tcp 80\nbind s udp 80\nend\n",
        text: "boot mac_bsdextended -\nboot mac_portacl -\nchanged t 1 ok rule 0\nchanged t 2 ok\nchanged t 3 ok\nenter t\ndone t 4 ok\nleave t\nenter t\ndone t 5 ok bytes 2 =hi\nleave t\nenter t\ndone t 6 no EACCES vnode_open_write mac_bsdextended 2\nleave t\nenter t\ndone t 7 ok\nleave t\nenter t\ndone t 8 no EPERM socket_bind mac_portacl 1\nleave t\nlet t 5 2 mac_bsdextended rule 0 wants r gives r\nlet t 5 3 mac_bsdextended rule 0 wants n gives r\ndenied t 6 2 vnode_open_write proc:t vnode:/f\nwhy t 6 mac_bsdextended decides EACCES rule 0 wants w gives r\nlet t 7 1 mac_portacl place 1 uid 0 tcp 80\ndenied t 8 1 socket_bind proc:t socket:s\nwhy t 8 mac_portacl decides EPERM port udp 80 uid 0\n",
        ..PLAIN
    },
    Case {
        name: "the text of a run is judged",
        words: &["check"],
        script: "script 45\nboot mac_biba\ntask t uid 0 gid 0 label -\nend\nboot mac_biba 0\nsource biba vnode:/ high\nsource biba proc:t high\n",
        text: "yes\n",
        ..PLAIN
    },
    Case {
        name: "an empty task",
        script: "boot mac_biba\ntask t uid 0 gid 0 label -\nend\n",
        text: "boot mac_biba 0\nsource biba vnode:/ high\nsource biba proc:t high\n",
        ..PLAIN
    },
    Case {
        name: "steps, which a run leaves aside",
        script: "boot mac_biba\ntask t uid 0 gid 0 label -\nend\nsteps\nenter u\nend\n",
        text: "boot mac_biba 0\nsource biba vnode:/ high\nsource biba proc:t high\n",
        ..PLAIN
    },
    Case {
        name: "an empty task and no policy",
        script: "task t uid 0 gid 0 label -\nend\n",
        text: "",
        ..PLAIN
    },
    Case {
        name: "a read up is denied by mac_mls, and a write up by none",
        script: "boot mac_biba\nboot mac_mls\nfile /m reg uid 0 gid 0 mode 644 label mls/5 text x\ntask t uid 0 gid 0 label mls/3\nread /m\nwrite /m y\nend\n",
        text: "boot mac_biba 0\nboot mac_mls 1\nenter t\ndone t 1 no EACCES vnode_open_read mac_mls 2\nleave t\nenter t\ndone t 2 ok\nleave t\nsource biba vnode:/ high\nsource biba vnode:/m high\nsource biba proc:t high\nsource mls vnode:/ low\nsource mls vnode:/m low,3,5\nsource mls proc:t low,3\n",
        ..PLAIN
    },
    Case {
        name: "where both deny, the one that was booted last decides",
        script: "boot mac_mls\nboot mac_biba\nfile /m reg uid 0 gid 0 mode 644 label biba/low,mls/high\ntask t uid 0 gid 0 label -\nread /m\nend\n",
        text: "boot mac_mls 0\nboot mac_biba 1\nenter t\ndone t 1 no EACCES vnode_open_read mac_biba 2\nleave t\nsource biba vnode:/ high\nsource biba vnode:/m low\nsource biba proc:t high\nsource mls vnode:/ low\nsource mls vnode:/m high\nsource mls proc:t low\n",
        ..PLAIN
    },
    Case {
        name: "all modules are booted",
        script: "boot mac_biba\nboot mac_mls\nboot mac_lomac\nboot mac_partition\nboot mac_bsdextended\nboot mac_priority\nboot mac_seeotheruids\nboot mac_portacl\ntask t uid 0 gid 0 label -\nkldstat\nend\n",
        text: "boot mac_biba 0\nboot mac_mls 1\nboot mac_lomac 2\nboot mac_partition 3\nboot mac_bsdextended -\nboot mac_priority -\nboot mac_seeotheruids -\nboot mac_portacl -\nenter t\ndone t 1 ok modules mac_lomac:2,mac_mls:1,mac_biba:0,mac_portacl:-,mac_seeotheruids:-,mac_priority:-,mac_bsdextended:-,mac_partition:3\nleave t\nsource biba vnode:/ high\nsource biba proc:t high\nsource mls vnode:/ low\nsource mls proc:t low\nsource lomac vnode:/ high\nsource lomac proc:t high\n",
        ..PLAIN
    },
];

const REFUSALS: &[Case] = &[
    Case {
        name: "a failing sink",
        sink_fails: &[3],
        status: 5,
        text: "boot mac_biba 0\nente",
        ..PLAIN
    },
    Case {
        name: "a failing source",
        source_fails: &[1],
        status: 4,
        text: "macsim: read fault\n",
        ..PLAIN
    },
    Case {
        name: "a source that fails at its end",
        source_fails: &[3],
        status: 4,
        text: "macsim: read fault\n",
        ..PLAIN
    },
    Case {
        name: "no module of that name",
        script: "boot mac_foo\n",
        status: 3,
        text: "macsim: script line 1 fault 12 BootRefused ENOENT\n",
        ..PLAIN
    },
    Case {
        name: "a module that is booted twice",
        script: "boot mac_biba\nboot mac_biba\n",
        status: 3,
        text: "macsim: script line 2 fault 12 BootRefused EEXIST\n",
        ..PLAIN
    },
    Case {
        name: "more boot lines than policies can be listed, of which the last is of no module",
        script: "boot mac_biba\nboot mac_mls\nboot mac_lomac\nboot mac_partition\nboot mac_bsdextended\nboot mac_priority\nboot mac_seeotheruids\nboot mac_portacl\nboot mac_foo\n",
        status: 3,
        text: "macsim: script line 9 fault 11 TooMany\n",
        ..PLAIN
    },
    Case {
        name: "a tunable's value that is none",
        script: "boot mac_biba\ntunable security.mac.biba.revocation_enabled=2\n",
        status: 3,
        text: "macsim: script line 2 fault 12 BootRefused EINVAL\n",
        ..PLAIN
    },
    Case {
        name: "a tunable of a module that isn't booted",
        script: "boot mac_mls\ntunable security.mac.biba.revocation_enabled=2\n",
        status: 3,
        text: "macsim: script line 2 fault 12 BootRefused ENOENT\n",
        ..PLAIN
    },
    Case {
        name: "a tunable that is set twice",
        script: "boot mac_biba\ntunable security.mac.biba.revocation_enabled=0\ntunable security.mac.biba.revocation_enabled=1\n",
        status: 3,
        text: "macsim: script line 3 fault 9 Duplicate\n",
        ..PLAIN
    },
    Case {
        name: "a task without its end",
        script: "task t uid 0 gid 0 label -\nread /a\n",
        status: 3,
        text: "macsim: script line 3 fault 10 NoEnd\n",
        ..PLAIN
    },
    Case {
        name: "a grade past the greatest",
        script: "boot mac_biba\ntask t uid 0 gid 0 label biba/65536\nend\n",
        status: 3,
        text: "macsim: script line 2 fault 6 BadLabel\n",
        ..PLAIN
    },
    Case {
        name: "a text that is of no run: a source of the task is lacking",
        words: &["check"],
        script: "script 45\nboot mac_biba\ntask t uid 0 gid 0 label -\nend\nboot mac_biba 0\nsource biba vnode:/ high\n",
        status: 8,
        text: "no 3\n",
        ..PLAIN
    },
    Case {
        name: "a text to be judged without its script",
        words: &["check"],
        status: 10,
        text: "macsim: check header\n",
        ..PLAIN
    },
    Case {
        name: "a faulty step",
        script: "steps\nenter\nend\n",
        status: 3,
        text: "macsim: script line 2 fault 3 Missing\n",
        ..PLAIN
    },
];

/// Words that the program doesn't take.
const OTHER_WORDS: &[&[&str]] = &[
    &[],
    &["walk"],
    &["steps"],
    &["step", "1"],
    &["run", "1"],
    &["run", "1", "1"],
    &["run", "step"],
    &["run", "matrix", "chains"],
    &["matrix", "chains"],
    &["why"],
    &["run", "all"],
    &["run", "why", "1"],
    &["run", "chains", "all"],
    &["matrix", "why"],
    &["check", "matrix"],
    &["gen"],
    &["gen", "1"],
    &["gen", "0", "1"],
    &["gen", "4097", "1"],
    &["gen", "1", "0"],
    &["gen", "1", "17"],
    &["gen", "x", "1"],
    &["gen", "1", "1", "1"],
];

/// Runs the program with these words, or takes the steps where there are none, over this source and this sink.
fn status_of<R: Abort + Threads + Wait + Sync>(
    rt: &R,
    alloc: Global,
    words: Option<&[&str]>,
    source: &mut MemSource,
    sink: &mut MemSink,
) -> Result<u8, AllocError> {
    match words {
        Some(words) => run_with(rt, alloc, words, source, sink, &OpenGate),
        None => run_over(rt, alloc, None, source, sink, &OpenGate),
    }
}

/// Whether the case's status and text come of the case's source and this sink.
fn comes_out<R: Abort + Threads + Wait + Sync>(
    rt: &R,
    alloc: Global,
    words: Option<&[&str]>,
    case: &Case,
    sink: &mut MemSink,
) -> Result<bool, AllocError> {
    let source = &mut source_of(alloc, case.script, 64, case.source_fails)?;
    let status = status_of(rt, alloc, words, source, sink)?;
    Ok(status == case.status && sink.taken() == case.text.as_bytes())
}

/// The sink of the case, which takes at most 10 bytes a call.
fn sink_of(alloc: Global, case: &Case) -> Result<MemSink, AllocError> {
    MemSink::new(alloc, 10_000, 10, case.sink_fails.to_vec(alloc)?)
}

/// Runs the program with these words, or takes the steps where there are none, over a source that gives at most 64 bytes a
/// call and a sink that takes at most 10, and wants the case's status and text.
pub fn wants_case<R: Abort + Threads + Wait + Sync>(
    rt: &R,
    alloc: Global,
    words: Option<&[&str]>,
    case: &Case,
) -> Result<(), AllocError> {
    let sink = &mut sink_of(alloc, case)?;
    let holds = comes_out(rt, alloc, words, case, sink)?;
    wants_that(rt, case.name, holds);
    Ok(())
}

/// Runs each case of a table.
pub fn run_cases<R: Abort + Threads + Wait + Sync>(
    rt: &R,
    alloc: Global,
    table: &[Case],
) -> Result<(), AllocError> {
    for case in table {
        wants_case(rt, alloc, Some(case.words), case)?;
    }
    Ok(())
}

#[test]
fn runs(rt: HostRuntime) -> Result<(), AllocError> {
    run_cases(&rt, rt.alloc(), RUNS)
}

#[test]
fn refusals(rt: HostRuntime) -> Result<(), AllocError> {
    run_cases(&rt, rt.alloc(), REFUSALS)
}

/// Wants the program not to take these words, and not to read.
fn wants_usage<R: Abort + Threads + Wait + Sync>(
    rt: &R,
    alloc: Global,
    words: &'static [&'static str],
) -> Result<(), AllocError> {
    let case = Case {
        name: "words that are not taken",
        words,
        source_fails: &[1],
        status: 2,
        text: "macsim: usage: run | step | gen N T\n",
        ..PLAIN
    };
    wants_case(rt, alloc, Some(words), &case)
}

#[test]
fn words_that_are_not_taken(rt: HostRuntime) -> Result<(), AllocError> {
    for words in OTHER_WORDS {
        wants_usage(&rt, rt.alloc(), words)?;
    }
    Ok(())
}

/// Wants the script that the source gives to be too long.
fn wants_too_long<R: Abort + Threads + Wait + Sync>(
    rt: &R,
    alloc: Global,
    source: &mut MemSource,
) -> Result<(), AllocError> {
    let sink = &mut MemSink::new(alloc, 100, 100, Vec::new(alloc))?;
    let status = run_with(rt, alloc, &["run"], source, sink, &OpenGate)?;
    let is_told = sink.taken() == b"macsim: too long\n".as_slice();
    wants_that(rt, "too long", status == 6 && is_told);
    Ok(())
}

#[test]
fn one_byte_too_long(rt: HostRuntime) -> Result<(), AllocError> {
    let bytes = vec![in rt.alloc(); b'#'; 1_048_577]?;
    let mut source = MemSource::new(bytes, 65_536, Vec::new(rt.alloc()));
    wants_too_long(&rt, rt.alloc(), &mut source)
}
