//! Small scripts, and what is read of them.

use mf_calls::{FileLine, Line, Script, Task};
use mf_names::{Path, SCRIPT_LIMIT};
use mf_script::{Call, ScriptError, Step, StepKind, generate, read_script};
use std::alloc::{AllocError, Global};
use std::process::Abort;

/// Every call, in the order in which the grammar names them.
pub const CALLS: &[&str] = &[
    "fork c",
    "exit",
    "see t",
    "signal t.c",
    "debug u",
    "sched u.c",
    "priv SCHED_RTPRIO",
    "getpmac",
    "setpmac any:word",
    "exec /bin/sh",
    "create /a/b/c/d/e/f/g/h",
    "mkdir /a",
    "read /",
    "write /a text",
    "stat /",
    "getfmac /",
    "setfmac biba/5(1-9) /a",
    "readdir /",
    "chmod / 1777",
    "unlink /a",
    "open / r",
    "open /a w",
    "open /a/b rw",
    "fread 0",
    "fwrite 15 \\00\\ff",
    "close 7",
    "pipe p",
    "socket s",
    "pread p",
    "pwrite p \\00\\ff",
    "pstat p",
    "setpipemac biba/low p",
    "send s d x",
    "recv d",
    "seesock s",
    "setsockmac - s",
    "bind s tcp 80",
    "bind s_-9 udp 0",
    "bind s tcp 65535",
    "kldstat",
    "kldload mac_partition",
    "kldunload any:word",
    "sysctl security.mac.bsdextended.firstmatch_enabled=0",
    "ugidfw list",
    "ugidfw add subject not uid 1:5 object ! type d mode rw",
    "ugidfw set 249 subject object mode n",
    "ugidfw remove 0",
];

/// Scripts that are read.
pub const GOOD_SCRIPTS: &[&str] = &[
    "boot mac_biba\ntask t uid 0 gid 0 label -\nend\n",
    "task t uid 0 gid 0 label -\nend",
    "boot mac_mls\nboot mac_biba\nfile /m reg uid 0 gid 0 mode 0 label mls/5 text x\ntask t uid 0 gid 0 label biba/9(1-9),mls/3\nend",
    "\t boot \t mac_biba \ntask a-b_C9 uid 4294967295 gid 0 label biba/high\nend",
    "boot mac_biba\nfile /a reg uid 0 gid 0 mode 0 label biba/5(1-9),biba/5:3+1\ntask t uid 0 gid 0 label biba/10:2+3(5:2-20:2+3+4)\nend",
    "boot mac_biba\nfile /a reg uid 0 gid 0 mode 0 label biba/equal\ntask t uid 0 gid 0 label biba/(5-high)\nend",
    "boot mac_biba\nfile /a reg uid 0 gid 0 mode 7777 label -\nfile /b reg uid 0 gid 0 mode 00000 label - text x\ntask t uid 0 gid 0 label -\nend",
    "",
    "boot mac_mls\n",
    "task t uid 0 gid 0 label -\nend\ntask u uid 0 gid 0 label -\nread /a\nend",
    "task t uid 0 gid 0,1,2,3,4,5,6,7,8,9,10,11,12,13,14,14 label -\nend",
    "boot mac_partition\nboot mac_mls\nboot mac_biba\ntask t uid 0 gid 0 label biba/5,partition/2147483647\nend",
    "boot mac_partition\ntask t uid 0 gid 0 label partition/none\nend",
    "boot mac_lomac\nfile /a dir uid 0 gid 0 mode 0 label lomac/low\nfile /a/b reg uid 0 gid 0 mode 0 label -\ntask t uid 0 gid 0 label lomac/65535\nend\ntask u uid 0 gid 0 label -\nend",
    "boot mac_biba\nboot mac_lomac\ntask t uid 0 gid 0 label lomac/low,biba/5(1-9),lomac/high\nend",
    "boot mac_portacl\nboot mac_seeotheruids\nboot mac_priority\nboot mac_bsdextended\nboot mac_partition\nboot mac_lomac\nboot mac_mls\nboot mac_biba\nsteps\nend",
    "steps\nend",
    "boot mac_biba\nsteps\nenter t\nend\n# the end",
    "boot mac_biba\nboot mac_mls\n#\ntunable security.mac.biba.revocation_enabled=0\n\n#\nfile /a dir uid 0 gid 0 mode 0 label -\nsteps\nend",
    "boot mac_biba\ntunable security.mac.biba.revocation_enabled=1\ntask t uid 0 gid 0 label -\nsysctl security.mac.biba.revocation_enabled=0\nend",
    "file /a dir uid 0 gid 0 mode 0 label -\nsteps\n\n change\tt\n end \n",
    "task t uid 0 gid 0 label -\nend\nsteps\nenter t\nplan t\ndone t\nleave u\nend",
    "file /a dir uid 0 gid 0 mode 7777 label -\nfile /a/b dir uid 0 gid 0 mode 0 label -\nfile /a/b/c reg uid 0 gid 0 mode 0 label - text x",
];

/// Wants what is said of this to hold.
pub fn wants(rt: &impl Abort, name: &str, holds: bool) {
    assert!(rt; holds, "{name}");
}

/// Reads a short script.
pub fn script_of(rt: &impl Abort, alloc: Global, text: &str) -> Result<Script, ScriptError> {
    assert!(rt; text.len() <= SCRIPT_LIMIT);
    read_script(alloc, text.as_bytes())
}

const MAIL: &str = "# a mail

 boot\tmac_biba \nfile /v dir uid 1 gid 2 mode 0755 label -
file /v/m reg uid 1 gid 2 mode 0644 label biba/high text a\\0a#
task www uid 80 gid 007,5,7 label biba/low

\t# not yet
 read /v/m
@c\twrite /... \\41b
\tend";

/// Each mode in which a file is opened, with the tunable on.
const MODES: &str = "boot mac_biba
tunable security.mac.biba.revocation_enabled=1
task t uid 0 gid 0 label -
open /f r
open /f w
open /f rw
fwrite 15 x\\20
end
";

/// Whether the path has as many components.
fn has_depth(path: &Path, depth: usize) -> bool {
    let mut rest = path.components();
    for _ in 0..depth {
        if rest.next().is_none() {
            return false;
        }
    }
    rest.is_empty()
}

fn is_the_mail(files: &[FileLine]) -> bool {
    let [directory, mail] = files else {
        return false;
    };
    let is_inside = directory.file.dir && has_depth(&mail.path, 2);
    is_inside && mail.file.mode == 0o644 && mail.text.as_slice() == b"a\n#".as_slice()
}

fn reads_and_writes(lines: &[Line]) -> bool {
    let [reads, writes] = lines else {
        return false;
    };
    let is_text = match &writes.call {
        Call::Write(_, text) => text.as_slice() == b"Ab".as_slice(),
        _ => false,
    };
    is_text && reads.child.is_none() && writes.child_name() == Some("c")
}

fn is_www(tasks: &[Task]) -> bool {
    let [www] = tasks else {
        return false;
    };
    let is_named = www.name.as_str() == "www";
    let has_groups = www.cred.groups.as_slice() == [7, 5, 7].as_slice();
    is_named && has_groups && reads_and_writes(www.lines.as_slice())
}

/// The two steps begin an entry of a, and plan a call of b.
fn enters_and_plans(steps: &[Step]) -> bool {
    let [enters, plans] = steps else {
        return false;
    };
    let kinds = enters.kind == StepKind::Enter && plans.kind == StepKind::Plan;
    kinds && plans.task.as_str() == "b"
}

/// The lines of the only task.
fn only_lines(script: &Script) -> &[Line] {
    match script.tasks.as_slice() {
        [task] => task.lines.as_slice(),
        _ => &[],
    }
}

/// Whether the line gives this setting this value.
fn sets(line: &Line, setting: &str, wanted: &str) -> bool {
    match &line.call {
        Call::Sysctl(name, value) => name.as_str() == setting && value.as_str() == wanted,
        _ => false,
    }
}

/// Whether two lines give these settings these values.
fn set_two(lines: &[Line], first: (&str, &str), second: (&str, &str)) -> bool {
    match lines {
        [one, other] => sets(one, first.0, first.1) && sets(other, second.0, second.1),
        _ => false,
    }
}

/// Whether the line binds the socket s to this port.
fn binds(line: &Line, is_tcp: bool, wanted: u16) -> bool {
    match &line.call {
        Call::Bind(name, tcp, port) => name.as_str() == "s" && *tcp == is_tcp && *port == wanted,
        _ => false,
    }
}

/// Whether two lines bind the socket s, to a port of TCP and to one of UDP.
fn bind_two(lines: &[Line]) -> bool {
    match lines {
        [one, other] => binds(one, true, 80) && binds(other, false, 65_535),
        _ => false,
    }
}

/// Whether the line opens a file in this mode.
fn opens(line: &Line, read: bool, write: bool) -> bool {
    match &line.call {
        Call::OpenFd(path, reads, writes) => {
            has_depth(path, 1) && *reads == read && *writes == write
        }
        _ => false,
    }
}

/// Whether the lines open a file in each mode, and write through the last descriptor.
fn open_and_write(lines: &[Line]) -> bool {
    let [read, write, both, writes] = lines else {
        return false;
    };
    let is_written = match &writes.call {
        Call::Fwrite(number, text) => *number == 15 && text.as_slice() == b"x ".as_slice(),
        _ => false,
    };
    is_written && opens(read, true, false) && opens(write, false, true) && opens(both, true, true)
}

/// What is read of a script.
#[derive(Clone, Copy)]
enum Read {
    /// Some script.
    Any,
    /// The files and the task of the mail.
    Mail,
    /// Two steps.
    Steps,
    /// Two settings, each parted at its first equals sign.
    Settings,
    /// A port of TCP, and one of UDP.
    Ports,
    /// The tunable, and the modes of four calls.
    Modes,
    /// The two lines of the only task.
    TwoLines,
}

fn is_of(script: &Script, read: Read) -> bool {
    match read {
        Read::Any => true,
        Read::Mail => {
            let has_files = is_the_mail(script.files.as_slice());
            has_files && is_www(script.tasks.as_slice()) && !script.revocation
        }
        Read::Steps => enters_and_plans(script.steps.as_slice()),
        Read::Settings => set_two(only_lines(script), ("a", "b=c"), ("", "")),
        Read::Ports => bind_two(only_lines(script)),
        Read::Modes => script.revocation && open_and_write(only_lines(script)),
        Read::TwoLines => only_lines(script).len() == 2,
    }
}

/// That is read of a short script.
fn is_read(rt: &impl Abort, alloc: Global, text: &str, read: Read) -> Result<(), ScriptError> {
    let script = script_of(rt, alloc, text)?;
    wants(rt, text, is_of(&script, read));
    Ok(())
}

const READ: &[(&str, Read)] = &[
    (MAIL, Read::Mail),
    ("steps\nenter a\nplan b\nend", Read::Steps),
    (
        "task t uid 0 gid 0 label -\nsysctl a=b=c\nsysctl =\nend",
        Read::Settings,
    ),
    (
        "task t uid 0 gid 0 label -\nbind s tcp 080\n@c bind\ts udp 65535\nend",
        Read::Ports,
    ),
    (MODES, Read::Modes),
];

#[test]
fn reads_what_the_lines_say(rt: HostRuntime) -> Result<(), ScriptError> {
    for (text, read) in READ {
        is_read(&rt, rt.alloc(), text, *read)?;
    }
    Ok(())
}

#[test]
fn takes_good_scripts(rt: HostRuntime) -> Result<(), ScriptError> {
    for text in GOOD_SCRIPTS {
        is_read(&rt, rt.alloc(), text, Read::Any)?;
    }
    Ok(())
}

/// The call may be one of the task's and one of its child's.
fn reads_call(rt: &impl Abort, alloc: Global, call: &str) -> Result<(), ScriptError> {
    let text = format!(in alloc; "task t uid 0 gid 0 label -\n{call}\n@c {call}\nend")?;
    is_read(rt, alloc, text.as_str(), Read::TwoLines)
}

#[test]
fn reads_every_call(rt: HostRuntime) -> Result<(), ScriptError> {
    for call in CALLS {
        reads_call(&rt, rt.alloc(), call)?;
    }
    Ok(())
}

#[test]
fn a_load_is_generated(rt: HostRuntime) -> Result<(), AllocError> {
    let script = generate(rt.alloc(), 2, 3)?;
    let counts = (script.files.len(), script.tasks.len(), script.line_count());
    wants(&rt, "a load", counts == (6, 3, 6));
    Ok(())
}
