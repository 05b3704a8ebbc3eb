//! Scripts with texts, and what `check` tells of them.

mod answers;

use mf_io::{MemSink, MemSource};
use mf_top::run_check;
use std::alloc::{AllocError, Global};
use std::process::Abort;

/// A text that is judged for a script, and what must be told.
#[derive(Clone, Copy)]
struct Row {
    name: &'static str,
    script: &'static str,
    text: &'static str,
    status: u8,
    told: &'static str,
}

/// A script with one denial, and its text.
const DENIED: Row = Row {
    name: "the plainest denial",
    script: "boot mac_biba\nfile /a reg uid 0 gid 0 mode 644 label biba/low text hi\ntask t uid 0 gid 0 label biba/high\nread /a\nend\n",
    text: "boot mac_biba 0\nenter t\ndone t 1 no EACCES vnode_open_read mac_biba 2\nleave t\nsource biba vnode:/ high\nsource biba vnode:/a low\nsource biba proc:t high\n",
    status: 0,
    told: "yes\n",
};

/// A script of two tasks, of which one changes the policies, and a text of it.
const LOADED: Row = Row {
    name: "a module is loaded between two calls",
    script: "file /f reg uid 0 gid 0 mode 644 label - text hi\ntask a uid 0 gid 0 label -\nread /f\nkldstat\nend\ntask b uid 0 gid 0 label -\nkldload mac_partition\nend\n",
    text: "enter a\ndone a 1 ok bytes 2 =hi\nleave a\nchanged b 1 ok slot 0\nenter a\ndone a 2 ok modules mac_partition:0\nleave a\n",
    status: 0,
    told: "yes\n",
};

/// A script whose task ends itself.
const ENDED: Row = Row {
    name: "a process ends",
    script: "boot mac_biba\ntask t uid 0 gid 0 label -\nexit\nend\n",
    text: "boot mac_biba 0\nenter t\ndone t 1 ok\nleave t\nsource biba vnode:/ high\n",
    status: 0,
    told: "yes\n",
};

const ROWS: &[Row] = &[
    DENIED,
    LOADED,
    ENDED,
    Row {
        name: "nothing happens",
        script: "",
        text: "",
        ..DENIED
    },
    Row {
        name: "the other order",
        text: "changed b 1 ok slot 0\nenter a\ndone a 1 ok bytes 2 =hi\nleave a\nenter a\ndone a 2 ok modules mac_partition:0\nleave a\n",
        ..LOADED
    },
    Row {
        name: "another reply",
        text: "boot mac_biba 0\nenter t\ndone t 1 ok bytes 2 =hi\nleave t\nsource biba vnode:/ high\nsource biba vnode:/a low\nsource biba proc:t high\n",
        status: 8,
        told: "no 3\n",
        ..DENIED
    },
    Row {
        name: "another decider",
        text: "boot mac_biba 0\nenter t\ndone t 1 no EACCES vnode_open_read mac_mls 2\nleave t\nsource biba vnode:/ high\nsource biba vnode:/a low\nsource biba proc:t high\n",
        status: 8,
        told: "no 3\n",
        ..DENIED
    },
    Row {
        name: "another check",
        text: "boot mac_biba 0\nenter t\ndone t 1 no EACCES vnode_open_read mac_biba 1\nleave t\n",
        status: 8,
        told: "no 3\n",
        ..DENIED
    },
    Row {
        name: "another line",
        text: "boot mac_biba 0\nenter t\ndone t 2 no EACCES vnode_open_read mac_biba 2\nleave t\n",
        status: 8,
        told: "no 3\n",
        ..DENIED
    },
    Row {
        name: "what is read is another",
        text: "enter a\ndone a 1 ok bytes 2 =ho\nleave a\nchanged b 1 ok slot 0\nenter a\ndone a 2 ok modules mac_partition:0\nleave a\n",
        status: 8,
        told: "no 2\n",
        ..LOADED
    },
    Row {
        name: "a change while an entry is open",
        text: "enter a\nchanged b 1 ok slot 0\ndone a 1 ok bytes 2 =hi\nleave a\nenter a\ndone a 2 ok modules mac_partition:0\nleave a\n",
        status: 8,
        told: "no 2\n",
        ..LOADED
    },
    Row {
        name: "a task leaves where it isn't",
        text: "leave a\n",
        status: 8,
        told: "no 1\n",
        ..LOADED
    },
    Row {
        name: "a call is done twice",
        text: "enter a\ndone a 1 ok bytes 2 =hi\ndone a 1 ok bytes 2 =hi\n",
        status: 8,
        told: "no 3\n",
        ..LOADED
    },
    Row {
        name: "a task that isn't there",
        text: "boot mac_biba 0\nenter u\n",
        status: 8,
        told: "no 2\n",
        ..DENIED
    },
    Row {
        name: "a text that is cut",
        text: "boot mac_biba 0\nenter t\n",
        status: 8,
        told: "no 3\n",
        ..DENIED
    },
    Row {
        name: "its boot lines alone",
        text: "boot mac_biba 0\n",
        status: 8,
        told: "no 2\n",
        ..DENIED
    },
    Row {
        name: "no text",
        text: "",
        status: 8,
        told: "no 1\n",
        ..DENIED
    },
    Row {
        name: "no boot line",
        text: "enter t\ndone t 1 no EACCES vnode_open_read mac_biba 2\nleave t\n",
        status: 8,
        told: "no 1\n",
        ..DENIED
    },
    Row {
        name: "a boot line too many",
        text: "boot mac_biba 0\nboot mac_mls 1\nenter t\n",
        status: 8,
        told: "no 2\n",
        ..DENIED
    },
    Row {
        name: "a slot that is another",
        text: "boot mac_biba 1\nenter t\n",
        status: 8,
        told: "no 1\n",
        ..DENIED
    },
    Row {
        name: "a line that is none",
        text: "boot mac_biba 0\nfoo\nenter t\n",
        status: 8,
        told: "no 2\n",
        ..DENIED
    },
    Row {
        name: "a line out of turn before one that is none",
        text: "boot mac_biba 0\nleave t\nfoo\n",
        status: 8,
        told: "no 2\n",
        ..DENIED
    },
    Row {
        name: "a task leaves with its call undone, which is legal and never complete",
        text: "boot mac_biba 0\nenter t\nleave t\nsource biba vnode:/ high\nsource biba proc:t high\n",
        status: 8,
        told: "no 4\n",
        ..ENDED
    },
    Row {
        name: "other sources",
        text: "boot mac_biba 0\nenter t\ndone t 1 no EACCES vnode_open_read mac_biba 2\nleave t\nsource biba vnode:/ high\nsource biba vnode:/a high\nsource biba proc:t high\n",
        status: 8,
        told: "no 6\n",
        ..DENIED
    },
    Row {
        name: "no sources",
        text: "boot mac_biba 0\nenter t\ndone t 1 ok\nleave t\n",
        status: 8,
        told: "no 5\n",
        ..ENDED
    },
    Row {
        name: "a line of sources without its newline",
        text: "boot mac_biba 0\nenter t\ndone t 1 ok\nleave t\nsource biba vnode:/ high",
        status: 8,
        told: "no 5\n",
        ..ENDED
    },
    Row {
        name: "an empty line behind the sources",
        text: "boot mac_biba 0\nenter t\ndone t 1 ok\nleave t\nsource biba vnode:/ high\n\n",
        status: 8,
        told: "no 6\n",
        ..ENDED
    },
    Row {
        name: "a line of the history behind the sources",
        text: "boot mac_biba 0\nenter t\ndone t 1 ok\nleave t\nsource biba vnode:/ high\nenter t\n",
        status: 8,
        told: "no 6\n",
        ..ENDED
    },
    Row {
        name: "no script",
        script: "boot mac_biba\ntask t uid 0 gid 0 label -\nexit\n",
        status: 3,
        told: "macsim: script line 4 fault 10 NoEnd\n",
        ..ENDED
    },
];

/// Inputs whose header is none, or next to that.
const HEADERS: &[(&str, u8, &str)] = &[
    ("", 10, "macsim: check header\n"),
    ("\n", 10, "macsim: check header\n"),
    ("script\n", 10, "macsim: check header\n"),
    ("script 0", 10, "macsim: check header\n"),
    ("script  0\n", 10, "macsim: check header\n"),
    ("script 00\n", 10, "macsim: check header\n"),
    ("script 01\n\n", 10, "macsim: check header\n"),
    ("script x\n", 10, "macsim: check header\n"),
    ("script 0 \n", 10, "macsim: check header\n"),
    ("script 9\n12345678", 10, "macsim: check header\n"),
    ("script 1048577\n", 10, "macsim: check header\n"),
    (
        "script 18446744073709551616\n",
        10,
        "macsim: check header\n",
    ),
    ("Script 0\n", 10, "macsim: check header\n"),
    ("script 0\n", 0, "yes\n"),
    ("script 1\n\n", 0, "yes\n"),
    ("script 0\nfoo\n", 8, "no 1\n"),
    (
        "script 9\n123456789",
        3,
        "macsim: script line 1 fault 2 UnknownWord\n",
    ),
];

/// The input of a row.
fn input_of(alloc: Global, row: &Row) -> Result<String, AllocError> {
    let length = row.script.len();
    let mut input = format!(in alloc; "script {length}\n")?;
    input.push_str(row.script)?;
    input.push_str(row.text)?;
    Ok(input)
}

fn source_of(alloc: Global, input: &str) -> Result<MemSource, AllocError> {
    let bytes = input.as_bytes().to_vec(alloc)?;
    Ok(MemSource::new(bytes, 65_536, Vec::new(alloc)))
}

/// Whether the check of the input ends with this status, and tells this.
fn is_told(alloc: Global, input: &str, status: u8, told: &str) -> Result<bool, AllocError> {
    let mut source = source_of(alloc, input)?;
    let mut sink = MemSink::new(alloc, 1_000, 1_000, Vec::new(alloc))?;
    let ended = run_check(alloc, &mut source, &mut sink);
    Ok(ended == status && sink.taken() == told.as_bytes())
}

/// Wants what is said of this to hold.
fn wants(rt: &impl Abort, name: &str, holds: bool) {
    assert!(rt; holds, "{name}");
}

/// Wants the row's text to be judged so.
fn is_checked(rt: &impl Abort, alloc: Global, row: &Row) -> Result<(), AllocError> {
    let input = input_of(alloc, row)?;
    let is_told = is_told(alloc, input.as_str(), row.status, row.told)?;
    wants(rt, row.name, is_told);
    Ok(())
}

#[test]
fn texts_are_checked(rt: HostRuntime) -> Result<(), AllocError> {
    for row in ROWS {
        is_checked(&rt, rt.alloc(), row)?;
    }
    Ok(())
}

#[test]
fn headers_are_read(rt: HostRuntime) -> Result<(), AllocError> {
    for (input, status, told) in HEADERS {
        let is_told = is_told(rt.alloc(), input, *status, told)?;
        wants(&rt, input, is_told);
    }
    Ok(())
}
