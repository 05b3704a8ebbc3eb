//! The faults of words: which line may stand where, and what its words may be.

use crate::faults::{NONE, Row, are_faulty};
use std::alloc::AllocError;

/// A boot line for each errno.
const BOOTS: &[Row] = &[
    ("boot mac_foo", "1 12 BootRefused ENOENT"),
    ("boot lomac", "1 12 BootRefused ENOENT"),
    ("boot biba", "1 12 BootRefused ENOENT"),
    ("boot #x", "1 12 BootRefused ENOENT"),
    (
        "boot mac_mls\nboot mac_biba\nboot mac_mls",
        "3 12 BootRefused EEXIST",
    ),
];

/// As many boot lines as there may be.
const MOST_BOOTS: &str = "boot mac_portacl
boot mac_seeotheruids
boot mac_priority
boot mac_bsdextended
boot mac_partition
boot mac_lomac
boot mac_mls
boot mac_biba
";

/// What may follow them. A further boot line is too many before its module is looked for.
const BEHIND_BOOTS: &[Row] = &[
    ("", NONE),
    ("boot mac_foo", "9 11 TooMany"),
    ("boot mac_biba", "9 11 TooMany"),
    ("\n# boot\nboot x", "11 11 TooMany"),
    ("boot", "9 3 Missing"),
    ("boot mac_foo x", "9 4 Extra"),
    ("task t uid 0 gid 0 label -\nend", NONE),
];

/// Which line may stand where.
const PLACES: &[Row] = &[
    ("end", "1 2 UnknownWord"),
    ("read /a", "1 2 UnknownWord"),
    ("@c exit", "1 2 UnknownWord"),
    ("enter t", "1 2 UnknownWord"),
    (
        "file /a dir uid 0 gid 0 mode 0 label -\nboot mac_biba",
        "2 2 UnknownWord",
    ),
    (
        "task t uid 0 gid 0 label -\nend\nboot mac_biba",
        "3 2 UnknownWord",
    ),
    (
        "task t uid 0 gid 0 label -\nend\nfile /a dir uid 0 gid 0 mode 0 label -",
        "3 2 UnknownWord",
    ),
    ("task t uid 0 gid 0 label -\nend\nend", "3 2 UnknownWord"),
    ("task t uid 0 gid 0 label -\nend x", "2 4 Extra"),
    ("task t uid 0 gid 0 label -\nend\nsteps\nend", NONE),
    ("file /a dir uid 0 gid 0 mode 0 label -\nsteps\nend", NONE),
    ("boot mac_biba\nsteps\nend\n# end\n\n", NONE),
    ("steps\nend\nend", "3 2 UnknownWord"),
    ("steps\nend\nsteps", "3 2 UnknownWord"),
    ("steps\nend\nboot mac_biba", "3 2 UnknownWord"),
    ("steps\nend\n\n#\ntask t uid 0", "5 2 UnknownWord"),
    ("steps\nend\nx", "3 2 UnknownWord"),
];

/// File lines.
const FILES: &[Row] = &[
    ("file /a reg uid 0 gid 0 mode 00755 label - text x", NONE),
    ("file /a reg uid 0 gid 0 mode 08 label -", "1 5 BadNumber"),
    (
        "file /a reg uid 0 gid 0 mode 10000 label -",
        "1 5 BadNumber",
    ),
    ("file /a reg gid 0 uid 0 mode 0 label -", "1 2 UnknownWord"),
    ("file /a reg uid 0 gid 0 mode 0 label", "1 3 Missing"),
    (
        "file /a reg uid 0 gid 0 mode 0 label - x",
        "1 2 UnknownWord",
    ),
    ("file /a reg uid 0 gid 0 mode 0 label - text", "1 3 Missing"),
    (
        "file /a reg uid 0 gid 0 mode 0 label - text x text",
        "1 4 Extra",
    ),
    (
        "file /a dir uid 0 gid 0 mode 0 label - text x",
        "1 2 UnknownWord",
    ),
    ("file /a dir uid 0 gid 0 mode 0 label - x", "1 4 Extra"),
    (
        "file /a reg uid 0 gid 0 mode 0 label -\nfile /a/b reg uid 0 gid 0 mode 0 label -",
        "2 8 BadPath",
    ),
    (
        "file /a/b reg uid 0 gid 0 mode 0 label -\nfile /a dir uid 0 gid 0 mode 0 label -",
        "1 8 BadPath",
    ),
    (
        "boot mac_biba\nfile /a reg uid 0 gid 0 mode 0 label biba/5(1-9)",
        "2 6 BadLabel",
    ),
    (
        "boot mac_biba\nfile /a reg uid 0 gid 0 mode 0 label biba/5(1-9),biba/5",
        NONE,
    ),
    (
        "boot mac_biba\nfile /a reg uid 0 gid 0 mode 0 label lomac/5",
        "2 6 BadLabel",
    ),
    (
        "boot mac_partition\nfile /a reg uid 0 gid 0 mode 0 label partition/none",
        "2 6 BadLabel",
    ),
    ("file /a blk uid 0 gid 0 mode 0 label -", "1 2 UnknownWord"),
    (
        "boot mac_mls\nfile /a reg uid 0 gid 0 mode 0 label mls/5(1-9)",
        "2 6 BadLabel",
    ),
];

/// Lines of a file and of a task with a part of mac_lomac, which is booted: an element without compartments.
const LOMAC: &[Row] = &[
    ("file /a reg uid 0 gid 0 mode 0 label lomac/5", NONE),
    (
        "file /a reg uid 0 gid 0 mode 0 label lomac/5:1",
        "2 6 BadLabel",
    ),
    (
        "file /a dir uid 0 gid 0 mode 0 label lomac/(1-2)",
        "2 6 BadLabel",
    ),
    (
        "file /a reg uid 0 gid 0 mode 0 label lomac/",
        "2 6 BadLabel",
    ),
    ("task t uid 0 gid 0 label lomac/5", "3 10 NoEnd"),
    ("task t uid 0 gid 0 label lomac/5:1", "2 6 BadLabel"),
    ("task t uid 0 gid 0 label lomac/(1-2)", "2 6 BadLabel"),
    ("task t uid 0 gid 0 label lomac/5(1-9)", "2 6 BadLabel"),
    ("task t uid 0 gid 0 label lomac/", "2 6 BadLabel"),
    ("task t uid 0 gid 0 label lomac/65536", "2 6 BadLabel"),
    ("task t uid 0 gid 0 label biba/5", "2 6 BadLabel"),
    // The last of two parts counts, and each has to be one.
    ("task t uid 0 gid 0 label lomac/5,lomac/low", "3 10 NoEnd"),
    (
        "task t uid 0 gid 0 label lomac/5:1,lomac/low",
        "2 6 BadLabel",
    ),
];

/// Whole task lines.
const TASK_LINES: &[Row] = &[
    ("task t gid 0 uid 0 label -", "1 2 UnknownWord"),
    (
        "task a23456789b123456789c123456789d123 uid 0 gid 0 label -",
        "1 8 BadPath",
    ),
    (
        "boot mac_mls\ntask t uid 0 gid 0 label mls/(5-10)",
        "2 6 BadLabel",
    ),
    (
        "boot mac_biba\nboot mac_lomac\ntask t uid 0 gid 0 label biba/5,lomac/5\nend\ntask u uid 0 gid 0 label mls/5,lomac/5",
        "5 6 BadLabel",
    ),
];

/// Task lines, with nothing behind the label.
const TASKS: &[Row] = &[
    ("uid 4294967296 gid 0 label -", "2 5 BadNumber"),
    ("uid -1 gid 0 label -", "2 5 BadNumber"),
    ("uid gid 0 label -", "2 5 BadNumber"),
    ("uid 0 gid 1,,2 label -", "2 5 BadNumber"),
    ("uid 0 gid ,1 label -", "2 5 BadNumber"),
    ("uid 0 gid 1, label -", "2 5 BadNumber"),
    (
        "uid 0 gid 0,1,2,3,4,5,6,7,8,9,10,11,12,13,14,15,16 label -",
        "2 5 BadNumber",
    ),
    ("uid 0 gid 0", "2 3 Missing"),
    ("uid 0 gid 0 label biba", "2 6 BadLabel"),
    ("uid 0 gid 0 label biba/65536", "2 6 BadLabel"),
    ("uid 0 gid 0 label biba/(5-10)", "2 6 BadLabel"),
    ("uid 0 gid 0 label biba/11(5-10)", "2 6 BadLabel"),
    ("uid 0 gid 0 label biba/5,mls/5", "2 6 BadLabel"),
    ("uid 0 gid 0 label partition/none", "2 6 BadLabel"),
    ("uid 0 gid 0 label partition/7", "2 6 BadLabel"),
    ("uid 0 gid 0 label lomac/5", "2 6 BadLabel"),
    ("uid 0 gid 0 label foo/5", "2 6 BadLabel"),
    ("uid 0 gid 0 label biba/(5-high)", "3 10 NoEnd"),
];

/// Lines inside a task.
const CALLS: &[Row] = &[
    ("fork", "2 3 Missing"),
    ("fork t.c", "2 8 BadPath"),
    ("exit x", "2 4 Extra"),
    ("see a.b.c", "2 8 BadPath"),
    ("see a.", "2 8 BadPath"),
    ("see .a", "2 8 BadPath"),
    ("signal /a", "2 8 BadPath"),
    ("priv", "2 3 Missing"),
    ("priv PRIV_KLD_LOAD", "2 2 UnknownWord"),
    ("priv sched_rtprio", "2 2 UnknownWord"),
    ("priv SCHED_IDPRIO x", "2 4 Extra"),
    ("priv MAC_PARTITION", "3 10 NoEnd"),
    ("getpmac x", "2 4 Extra"),
    ("getfmac", "2 3 Missing"),
    ("getfmac x", "2 8 BadPath"),
    ("setpmac", "2 3 Missing"),
    ("setfmac biba/5", "2 3 Missing"),
    ("setfmac /a biba/5", "2 8 BadPath"),
    ("setsockmac biba/5 s d", "2 4 Extra"),
    ("bind", "2 3 Missing"),
    ("bind s", "2 3 Missing"),
    ("bind s tcp", "2 3 Missing"),
    ("bind s.c x x", "2 8 BadPath"),
    ("bind s sctp 80", "2 2 UnknownWord"),
    ("bind s TCP 80", "2 2 UnknownWord"),
    ("bind s 80 tcp", "2 2 UnknownWord"),
    ("bind s tcp 65536", "2 5 BadNumber"),
    ("bind s tcp x", "2 5 BadNumber"),
    ("bind s udp -1", "2 5 BadNumber"),
    ("bind s udp 65536 x", "2 5 BadNumber"),
    ("bind s udp 80 x", "2 4 Extra"),
    ("bind s udp 065535", "3 10 NoEnd"),
    ("exec sh", "2 8 BadPath"),
    ("create //", "2 8 BadPath"),
    ("mkdir /a//b", "2 8 BadPath"),
    ("read /a/", "2 8 BadPath"),
    ("read /..", "2 8 BadPath"),
    ("read /...", "3 10 NoEnd"),
    ("read /a /b", "2 4 Extra"),
    ("read /1/2/3/4/5/6/7/8/9", "2 8 BadPath"),
    ("pipe a23456789b123456789c123456789d123", "2 8 BadPath"),
    ("pipe /p", "2 8 BadPath"),
    ("opens /a r", "2 2 UnknownWord"),
    ("open", "2 3 Missing"),
    ("open /a", "2 3 Missing"),
    ("open a wr", "2 8 BadPath"),
    ("open /a wr x", "2 2 UnknownWord"),
    ("open /a R", "2 2 UnknownWord"),
    ("open /a r w", "2 4 Extra"),
    ("open /a rw", "3 10 NoEnd"),
    ("fread", "2 3 Missing"),
    ("fread -1", "2 5 BadNumber"),
    ("fread 16 x", "2 5 BadNumber"),
    ("fread 15 x", "2 4 Extra"),
    ("fread 15", "3 10 NoEnd"),
    ("fwrite 16 \\", "2 5 BadNumber"),
    ("fwrite 15", "2 3 Missing"),
    ("fwrite 15 \\", "2 13 BadText"),
    ("fwrite 015 x", "3 10 NoEnd"),
    ("close x", "2 5 BadNumber"),
    ("close 16", "2 5 BadNumber"),
    ("close 0 0", "2 4 Extra"),
    ("close 0", "3 10 NoEnd"),
    ("write /a", "2 3 Missing"),
    ("write /a x y", "2 4 Extra"),
    ("write /a \\4", "2 13 BadText"),
    ("chmod /a", "2 3 Missing"),
    ("chmod 7 /a", "2 8 BadPath"),
    ("chmod /a 8", "2 5 BadNumber"),
    ("chmod /a 10000", "2 5 BadNumber"),
    ("pwrite p", "2 3 Missing"),
    ("send s x", "2 3 Missing"),
    ("send s d x y", "2 4 Extra"),
    ("kldstat mac_biba", "2 4 Extra"),
    ("kldload", "2 3 Missing"),
    ("Read /a", "2 2 UnknownWord"),
    ("c exit", "2 2 UnknownWord"),
    ("@", "2 8 BadPath"),
    ("@ x", "2 8 BadPath"),
    ("@c", "2 3 Missing"),
    ("@c.d exit", "2 8 BadPath"),
    ("@c @d exit", "2 2 UnknownWord"),
    ("@c end", "2 2 UnknownWord"),
    ("@c exit x", "2 4 Extra"),
    ("boot mac_biba", "2 2 UnknownWord"),
    ("task u uid 0 gid 0 label -", "2 2 UnknownWord"),
    ("steps", "2 2 UnknownWord"),
];

/// Lines of sysctl(8) and ugidfw(8). The words of a rule are the rest of the line, and one fault stands for all of theirs.
const SETTINGS: &[Row] = &[
    ("sysctl", "2 3 Missing"),
    ("sysctl x", "2 3 Missing"),
    ("sysctl x y", "2 3 Missing"),
    ("sysctl =", "3 10 NoEnd"),
    ("sysctl a=b=c", "3 10 NoEnd"),
    ("sysctl = x", "2 4 Extra"),
    ("ugidfw", "2 3 Missing"),
    ("ugidfw x", "2 2 UnknownWord"),
    ("ugidfw list", "3 10 NoEnd"),
    ("ugidfw list x", "2 4 Extra"),
    ("ugidfw add", "2 3 Missing"),
    ("ugidfw add subject object mode rwx", "3 10 NoEnd"),
    ("ugidfw add subject object mode", "2 7 BadRule"),
    ("ugidfw add subject object mode r x", "2 7 BadRule"),
    ("ugidfw add subject uid root object mode r", "2 7 BadRule"),
    ("ugidfw set", "2 3 Missing"),
    ("ugidfw set x", "2 5 BadNumber"),
    ("ugidfw set 250 x", "2 5 BadNumber"),
    ("ugidfw set 249", "2 3 Missing"),
    ("ugidfw set 249 x", "2 7 BadRule"),
    ("ugidfw set 249 subject object mode n", "3 10 NoEnd"),
    ("ugidfw remove", "2 3 Missing"),
    ("ugidfw remove 250 x", "2 5 BadNumber"),
    ("ugidfw remove 0249 x", "2 4 Extra"),
    ("ugidfw remove 0249", "3 10 NoEnd"),
];

/// Lines inside the steps.
const STEPS: &[Row] = &[
    ("plan t", "3 10 NoEnd"),
    ("enter", "2 3 Missing"),
    ("done t u", "2 4 Extra"),
    ("leave t.c", "2 8 BadPath"),
    ("walk t", "2 2 UnknownWord"),
    ("walk t.c", "2 2 UnknownWord"),
    ("read /a", "2 2 UnknownWord"),
    ("steps", "2 2 UnknownWord"),
    ("boot mac_biba", "2 2 UnknownWord"),
    ("end x", "2 4 Extra"),
];

#[test]
fn each_line_has_its_place(rt: HostRuntime) -> Result<(), AllocError> {
    are_faulty(&rt, rt.alloc(), "", PLACES)
}

#[test]
fn lines_of_boots_files_and_tasks(rt: HostRuntime) -> Result<(), AllocError> {
    are_faulty(&rt, rt.alloc(), "", BOOTS)?;
    are_faulty(&rt, rt.alloc(), MOST_BOOTS, BEHIND_BOOTS)?;
    are_faulty(&rt, rt.alloc(), "", FILES)?;
    are_faulty(&rt, rt.alloc(), "boot mac_lomac\n", LOMAC)?;
    are_faulty(&rt, rt.alloc(), "", TASK_LINES)?;
    are_faulty(&rt, rt.alloc(), "boot mac_biba\ntask t ", TASKS)
}

#[test]
fn words_of_lines(rt: HostRuntime) -> Result<(), AllocError> {
    are_faulty(&rt, rt.alloc(), "task t uid 0 gid 0 label -\n", CALLS)?;
    are_faulty(&rt, rt.alloc(), "task t uid 0 gid 0 label -\n", SETTINGS)?;
    are_faulty(&rt, rt.alloc(), "steps\n", STEPS)
}
