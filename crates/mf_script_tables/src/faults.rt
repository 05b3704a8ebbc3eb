//! Faults of scripts: the smallest script of each, which of two faults counts, limits, and scripts that end too early.
//! A fault is told as the program tells it: its line, number and name, with the errno where a module can't be booted.

mod tunable;
mod words;

use crate::reading::wants;
use mf_names::SCRIPT_LIMIT;
use mf_script::{ScriptError, read_script};
use std::alloc::{AllocError, Global};
use std::process::Abort;

/// A script, and its fault.
type Row = (&'static str, &'static str);

/// What stands for the fault of a script that has none.
const NONE: &str = "none";

const SMALLEST: &[Row] = &[
    ("\r", "1 1 NotText"),
    ("x", "1 2 UnknownWord"),
    ("boot", "1 3 Missing"),
    ("steps x", "1 4 Extra"),
    ("task t uid x", "1 5 BadNumber"),
    ("task t uid 0 gid 0 label x", "1 6 BadLabel"),
    ("task t uid 0 gid 0 label -\nugidfw add x", "2 7 BadRule"),
    ("file x", "1 8 BadPath"),
    ("file / dir uid 0 gid 0 mode 0 label -", "1 9 Duplicate"),
    ("steps", "2 10 NoEnd"),
    ("boot x", "1 12 BootRefused ENOENT"),
    ("task t uid 0 gid 0 label -\npwrite p \\", "2 13 BadText"),
];

/// Lines are counted, and the first faulty one counts.
const LINES: &[Row] = &[
    ("", NONE),
    ("boot mac_biba\nx", "2 2 UnknownWord"),
    ("boot mac_biba\nx\n", "2 2 UnknownWord"),
    ("# a comment\n\n \t\nx", "4 2 UnknownWord"),
    ("\n# a fault\nboot mac_foo", "3 12 BootRefused ENOENT"),
    (
        "\n#x\nboot mac_biba\n\n#\nboot mac_biba",
        "6 12 BootRefused EEXIST",
    ),
    ("boot mac_biba\nboot x\n\r\nx", "2 12 BootRefused ENOENT"),
    ("x\n# \u{e9}", "1 2 UnknownWord"),
    ("# \u{e9}\nx", "1 1 NotText"),
    ("task t uid x gid 0 label -\nx\nend", "1 5 BadNumber"),
    ("task t uid 0 gid 0 label x\nx\nend", "1 6 BadLabel"),
    (
        "task t uid 0 gid 0 label -\nend\ntask t uid 0 gid 0 label -\nx\nend",
        "3 9 Duplicate",
    ),
    ("task t uid 0 gid 0 label -\nx\nend", "2 2 UnknownWord"),
    ("task t uid 0 gid 0 label -\nx", "2 2 UnknownWord"),
];

/// Scripts that end inside a task or inside the steps.
const ENDS: &[Row] = &[
    ("task t uid 0 gid 0 label -", "2 10 NoEnd"),
    ("task t uid 0 gid 0 label -\n", "2 10 NoEnd"),
    ("task t uid 0 gid 0 label -\nread /a", "3 10 NoEnd"),
    ("task t uid 0 gid 0 label -\nread /a\n\n# end", "5 10 NoEnd"),
    ("task t uid 0 gid 0 label -\nend", NONE),
    ("steps\n", "2 10 NoEnd"),
    ("steps\nenter t", "3 10 NoEnd"),
    ("steps\nenter t\n\n", "4 10 NoEnd"),
    ("steps\nend", NONE),
];

/// Two faults of one line, in the order in which they count.
const ORDER: &[Row] = &[
    // NotText before the words, also where there are none.
    ("x \r", "1 1 NotText"),
    (" \r", "1 1 NotText"),
    ("\u{0}", "1 1 NotText"),
    ("# \u{7f}", "1 1 NotText"),
    ("task t uid 0 gid 0 label -\nend\r", "2 1 NotText"),
    ("steps\nend\n\r", "3 1 NotText"),
    // The words from left to right.
    ("task t.c uid x", "1 8 BadPath"),
    ("task t uid x gid", "1 5 BadNumber"),
    ("file /a x uid x", "1 2 UnknownWord"),
    ("task t uid 0 gid 1 2 label -", "1 2 UnknownWord"),
    // A word before Extra.
    ("task t uid 0 gid x label - x", "1 5 BadNumber"),
    ("task t uid 0 gid 0 label -\nread x x\nend", "2 8 BadPath"),
    (
        "task t uid 0 gid 0 label -\nwrite /a \\ x\nend",
        "2 13 BadText",
    ),
    (
        "file /a dir uid 0 gid 0 mode 0 label - text x x",
        "1 2 UnknownWord",
    ),
    // A word or Extra before what the words ask for.
    ("boot x x", "1 4 Extra"),
    ("boot mac_biba\nboot mac_biba x", "2 4 Extra"),
    ("file / x", "1 2 UnknownWord"),
    ("file / dir uid 0 gid 0 mode 0 label - x", "1 4 Extra"),
    ("file /a/b dir uid 0 gid 0 mode 0 label - x", "1 4 Extra"),
    ("task t uid 0 gid 0 label x x", "1 4 Extra"),
    // Duplicate, then the directory, then the label.
    ("file / reg uid 0 gid 0 mode 0 label x", "1 9 Duplicate"),
    (
        "file /a reg uid 0 gid 0 mode 0 label -\nfile /a dir uid 0 gid 0 mode 0 label x",
        "2 9 Duplicate",
    ),
    (
        "task t uid 0 gid 0 label -\nend\ntask t uid 0 gid 0 label x",
        "3 9 Duplicate",
    ),
    ("file /a/b reg uid 0 gid 0 mode 0 label x", "1 8 BadPath"),
    ("file /a reg uid 0 gid 0 mode 0 label x", "1 6 BadLabel"),
];

/// What is wrong with a short script, if anything is.
fn error_of(rt: &impl Abort, alloc: Global, script: &str) -> Option<ScriptError> {
    assert!(rt; script.len() <= SCRIPT_LIMIT);
    read_script(alloc, script.as_bytes()).err()
}

/// The text of the fault.
fn text_of(alloc: Global, error: &Option<ScriptError>) -> Result<String, AllocError> {
    match error {
        None => String::from_str(alloc, NONE),
        Some(ScriptError::Memory) => Err(AllocError),
        Some(ScriptError::Fault { line, fault, errno }) => {
            let (number, name) = (fault.number(), fault.name());
            match errno {
                None => format!(in alloc; "{line} {number} {name}"),
                Some(errno) => format!(in alloc; "{line} {number} {name} {errno}"),
            }
        }
    }
}

/// The script has this fault.
fn is_faulty(rt: &impl Abort, alloc: Global, script: &str, fault: &str) -> Result<(), AllocError> {
    let found = text_of(alloc, &error_of(rt, alloc, script))?;
    wants(rt, script, found.as_str() == fault);
    Ok(())
}

/// Each line, behind this beginning, makes a script with its fault.
fn are_faulty(
    rt: &impl Abort,
    alloc: Global,
    before: &str,
    rows: &[Row],
) -> Result<(), AllocError> {
    for (line, fault) in rows {
        let script = format!(in alloc; "{before}{line}")?;
        is_faulty(rt, alloc, script.as_str(), fault)?;
    }
    Ok(())
}

#[test]
fn smallest_scripts(rt: HostRuntime) -> Result<(), AllocError> {
    are_faulty(&rt, rt.alloc(), "", SMALLEST)
}

#[test]
fn lines_are_counted(rt: HostRuntime) -> Result<(), AllocError> {
    are_faulty(&rt, rt.alloc(), "", LINES)?;
    are_faulty(&rt, rt.alloc(), "", ENDS)
}

#[test]
fn faults_have_an_order(rt: HostRuntime) -> Result<(), AllocError> {
    are_faulty(&rt, rt.alloc(), "", ORDER)
}

/// Lines as many as there may be, which differ in a number, and what may follow.
struct Limit {
    before: &'static str,
    line: (&'static str, &'static str),
    most: usize,
    behind: &'static [Row],
}

const LIMITS: &[Limit] = &[
    Limit {
        before: "",
        line: ("task t", " uid 0 gid 0 label -\nend\n"),
        most: 16,
        behind: &[
            ("", NONE),
            ("task u uid 0 gid 0 label -", "33 11 TooMany"),
            ("task t0 uid 0 gid 0 label x", "33 11 TooMany"),
            ("task u uid 0 gid 0 label - x", "33 4 Extra"),
            ("task u uid x gid 0 label -", "33 5 BadNumber"),
        ],
    },
    Limit {
        before: "",
        line: ("file /f", " reg uid 0 gid 0 mode 0 label -\n"),
        most: 256,
        behind: &[
            ("", NONE),
            ("file /f0 reg uid 0 gid 0 mode 0 label x", "257 11 TooMany"),
            (
                "file /f0/a reg uid 0 gid 0 mode 0 label -",
                "257 11 TooMany",
            ),
            ("file / dir uid 0 gid 0 mode 0 label - x", "257 4 Extra"),
        ],
    },
    Limit {
        before: "task t uid 0 gid 0 label -\n",
        line: ("stat /", "\n"),
        most: 4_096,
        behind: &[
            ("end", NONE),
            ("", "4098 10 NoEnd"),
            ("exit", "4098 11 TooMany"),
            ("@c exit x", "4098 4 Extra"),
        ],
    },
    Limit {
        before: "task t uid 0 gid 0 label -\n",
        line: ("ugidfw list\n#", "\n"),
        most: 64,
        behind: &[
            ("end", NONE),
            ("@c ugidfw list", "130 11 TooMany"),
            ("ugidfw list x", "130 4 Extra"),
            (
                "end\ntask u uid 0 gid 0 label -\nexit\nugidfw list",
                "133 11 TooMany",
            ),
        ],
    },
    Limit {
        before: "steps\n",
        line: ("plan t", "\n"),
        most: 65_536,
        behind: &[
            ("end", NONE),
            ("plan t", "65538 11 TooMany"),
            ("plan t t", "65538 4 Extra"),
        ],
    },
];

fn most_lines(alloc: Global, limit: &Limit) -> Result<String, AllocError> {
    let mut text = String::from_str(alloc, limit.before)?;
    let (first, last) = limit.line;
    for number in 0..limit.most {
        write!(text, "{first}{number}{last}")?;
    }
    Ok(text)
}

#[test]
fn lines_have_limits(rt: HostRuntime) -> Result<(), AllocError> {
    for limit in LIMITS {
        let most = most_lines(rt.alloc(), limit)?;
        are_faulty(&rt, rt.alloc(), most.as_str(), limit.behind)?;
    }
    Ok(())
}

/// A file line with a text of so many pieces.
fn file_of(alloc: Global, piece: &str, count: usize) -> Result<String, AllocError> {
    let mut text = String::from_str(alloc, "file /a reg uid 0 gid 0 mode 644 label - text ")?;
    for _ in 0..count {
        text.push_str(piece)?;
    }
    Ok(text)
}

/// What may follow a text of as many bytes as there may be.
const BEHIND_MOST: &[Row] = &[("", NONE), ("\\", "1 13 BadText")];

/// What may follow a text of one byte more.
const BEHIND_MORE: &[Row] = &[
    ("", "1 11 TooMany"),
    (" x", "1 4 Extra"),
    ("\\", "1 13 BadText"),
];

/// A text of such pieces, each for a byte, has a limit.
fn has_limit(rt: &impl Abort, alloc: Global, piece: &str) -> Result<(), AllocError> {
    let most = file_of(alloc, piece, 65_536)?;
    are_faulty(rt, alloc, most.as_str(), BEHIND_MOST)?;
    let more = file_of(alloc, piece, 65_537)?;
    are_faulty(rt, alloc, more.as_str(), BEHIND_MORE)
}

#[test]
fn texts_have_a_limit(rt: HostRuntime) -> Result<(), AllocError> {
    has_limit(&rt, rt.alloc(), "a")?;
    has_limit(&rt, rt.alloc(), "\\61")
}

/// Two tasks on a machine with three policies.
const MACHINE: &[&str] = &[
    "boot mac_biba",
    "boot mac_mls",
    "boot mac_bsdextended",
    "file /home dir uid 0 gid 0 mode 755 label -",
    "file /home/alice dir uid 1001 gid 1001 mode 700 label biba/10,mls/5",
    "file /home/alice/n reg uid 1001 gid 1001 mode 600 label biba/10,mls/5 text note",
    "file /tmp dir uid 0 gid 0 mode 1777 label biba/equal,mls/equal",
    "task alice uid 1001 gid 1001 label biba/10(low-10),mls/5(low-5)",
    "readdir /home/alice",
    "read /home/alice/n",
    "write /home/alice/n !",
    "read /home/alice/n",
    "create /tmp/a",
    "create /home/x",
    "setpmac biba/high",
    "see www",
    "end",
    "task www uid 80 gid 80 label biba/low(low-low),mls/low(low-low)",
    "read /home/alice/n",
    "create /tmp/w",
    "write /tmp/w x",
    "read /tmp/w",
    "unlink /tmp/w",
    "kldload mac_partition",
    "end",
];

/// The fault of this script where it is cut after so many lines.
fn fault_of_cut(alloc: Global, lines: usize) -> Result<String, AllocError> {
    if (8..17).contains(&lines) || (18..25).contains(&lines) {
        format!(in alloc; "{} 10 NoEnd", lines.saturating_add(1))
    } else {
        String::from_str(alloc, NONE)
    }
}

/// The script of so many lines has the fault of this script where it is cut after them.
fn is_cut(rt: &impl Abort, alloc: Global, script: &str, lines: usize) -> Result<(), AllocError> {
    let fault = fault_of_cut(alloc, lines)?;
    is_faulty(rt, alloc, script, fault.as_str())
}

#[test]
fn a_machine_is_cut_after_each_line(rt: HostRuntime) -> Result<(), AllocError> {
    let mut cut = String::new(rt.alloc());
    let mut lines: usize = 0;
    for line in MACHINE {
        lines = lines.saturating_add(1);
        cut.push_str(line)?;
        is_cut(&rt, rt.alloc(), cut.as_str(), lines)?;
        cut.push_str("\n")?;
        is_cut(&rt, rt.alloc(), cut.as_str(), lines)?;
    }
    Ok(())
}
