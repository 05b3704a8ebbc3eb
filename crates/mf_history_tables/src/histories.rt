//! The lines of a history.

use crate::replies::wants;
use mf_calls::Script;
use mf_core::{Event, EventList, History, KeptReply};
use mf_errno::{Errno, Module};
use mf_hist::{
    HistError, legal_histories_are_readable, print_event, print_history, read_history,
    text_tells_history,
};
use mf_names::{Listing, SCRIPT_LIMIT};
use mf_plan::{Payload, Reply};
use mf_policy::Registration;
use mf_script::read_script;
use std::alloc::{AllocError, Global};
use std::process::Abort;
use std::test::Fail;

/// A script of one task without lines.
const EMPTY_TASK: &str = "task t uid 0 gid 0 label -\nend\n";

fn empty_task(rt: &impl Abort, alloc: Global) -> Result<Script, AllocError> {
    assert!(rt; EMPTY_TASK.len() <= SCRIPT_LIMIT);
    match read_script(alloc, EMPTY_TASK.as_bytes()) {
        Ok(script) => Ok(script),
        Err(_) => Err(AllocError),
    }
}

/// The registration of Biba at boot, and events of the one task.
fn some_history(alloc: Global) -> Result<History, AllocError> {
    let mut boots = Listing::new(alloc);
    boots.push(Registration {
        module: Module::Biba,
        slot: Some(0),
        fixed: true,
    })?;
    let done = KeptReply::new(alloc, Reply::Ok(Payload::None))?;
    let refused = KeptReply::new(alloc, Reply::Refused(Errno::Eexist))?;
    let mut events = EventList::with_room(alloc, 4)?;
    events.push(Event::Enter(0));
    events.push(Event::Done(0, 1, done));
    events.push(Event::Leave(0));
    events.push(Event::Changed(0, 2, refused));
    Ok(History { boots, events })
}

/// The text of that history, and of an event more.
const TEXT: &str =
    "boot mac_biba 0\nenter t\ndone t 1 ok\nleave t\nchanged t 2 no EEXIST - -\nenter t\n";

/// It has this text.
fn is_printed(rt: &impl Abort, alloc: Global, script: &Script) -> Result<(), HistError> {
    let history = some_history(alloc)?;
    let mut out = text_of(alloc, script, &history)?;
    print_event(script, &Event::Enter(0), &mut out)?;
    wants(rt, TEXT, out.as_str() == TEXT);
    Ok(())
}

/// Lines of the one task `t`, from the format of the history's text.
const LINES: &[&str] = &[
    "boot mac_biba 0",
    "boot mac_biba -",
    "boot mac_lomac 1",
    "boot mac_priority 200",
    "boot mac_seeotheruids -",
    "boot mac_portacl -",
    "enter t",
    "leave t",
    "done t 0 ok",
    "changed t 4294967295 ok slot 255",
    "done t 1 ok slot -",
    "done t 1 ok bytes 2 =hi",
    "done t 1 ok bytes 3 =\\00\\ff\\5c",
    "done t 1 ok bytes 0 =",
    "done t 1 ok fd 0",
    "done t 1 ok fd 15",
    "done t 1 ok fd 4294967295",
    "done t 1 ok size 4294967295",
    "done t 1 ok stat dir uid 0 gid 0 mode 177777 size 9",
    "done t 1 ok stat reg uid 4294967295 gid 0 mode 0 size 0",
    "done t 1 ok names 0 -",
    "done t 1 ok names 2 b,a",
    "done t 1 ok names 2 a,a",
    "done t 1 ok names 1 -",
    "done t 1 ok label -",
    "done t 1 ok label biba/10:2+3+6(5:2+3-20:2+3+4+5+6),mls/low,partition/none",
    "done t 1 ok label biba/65535,mls/equal,partition/2147483647",
    "done t 1 ok label mls/(low-high)",
    "done t 1 ok label lomac/high",
    "done t 1 ok label biba/high,mls/low,lomac/5,partition/none",
    "done t 1 ok modules -",
    "done t 1 ok modules mac_biba:0,mac_partition:1",
    "done t 1 ok modules mac_bsdextended:-",
    "done t 1 ok modules mac_seeotheruids:-,mac_portacl:-",
    "done t 1 ok rules 0",
    "done t 1 ok rules 1 ; 0 subject object mode n",
    "done t 1 ok rules 2 ; 7 subject not ! uid 5 gid 1:9 object uid 0 ! suid type rd mode arswx ; 249 subject object mode n",
    "done t 1 ok rule 249",
    "done t 1 ok rule 4294967295",
    "done t 1 no ok - -",
    "done t 1 no ok priv - 0",
    "done t 1 no EACCES vnode_read mac_mls 255",
    "done t 1 no ESRCH proc_visible mac_seeotheruids 1",
    "done t 1 no EPERM socket_bind mac_portacl 1",
    "done t 1 no ENOENT - -",
    "done t 1 no EBADF - -",
    "done t 1 no EMFILE - -",
    "changed t 1 no EBUSY - -",
];

/// Lines that are none.
const NO_LINES: &[&str] = &[
    "",
    " ",
    "foo",
    "enter u",
    "enter t ",
    " enter t",
    "enter  t",
    "enter\tt",
    "enter t\r",
    "enter",
    "done t 01 ok",
    "done t 4294967296 ok",
    "done t 1 ok ",
    "done t 1 ok fd",
    "done t 1 ok fd 00",
    "done t 1 ok fd r",
    "done t 1 ok fd 0 r",
    "done t 1 ok fd 4294967296",
    "done t 1 ok foo 0",
    "done t 1 ok size 01",
    "done t 1 ok bytes 3 =ab",
    "done t 1 ok bytes 2 =\\41b",
    "done t 1 ok bytes 1 =\\0A",
    "done t 1 ok bytes 1 =\\4",
    "done t 1 ok bytes 1 a",
    "done t 1 ok names 2 a",
    "done t 1 ok names 0 a",
    "done t 1 ok names 1 ..",
    "done t 1 ok stat blk uid 0 gid 0 mode 0 size 0",
    "done t 1 ok stat reg gid 0 uid 0 mode 0 size 0",
    "done t 1 ok stat reg uid 0 gid 0 mode 00 size 0",
    "done t 1 ok stat reg uid 0 gid 0 mode 200000 size 0",
    "done t 1 ok slot 256",
    "done t 1 ok label",
    "done t 1 ok label biba/05",
    "done t 1 ok label biba/5,biba/5",
    "done t 1 ok label biba/5:3+2",
    "done t 1 ok label biba/",
    "done t 1 ok label mls/5,biba/5",
    "done t 1 ok label lomac/5:1",
    "done t 1 ok label lomac/(low-high)",
    "done t 1 ok label partition/1,lomac/5",
    "done t 1 ok label lomac/5,lomac/5",
    "done t 1 ok label mls/5 ",
    "done t 1 ok label partition/0",
    "done t 1 ok label partition/2147483648",
    "done t 1 ok label foo/1",
    "done t 1 ok modules mac_foo:0",
    "done t 1 ok modules mac_biba:0,mac_biba:0,mac_biba:0,mac_biba:0,mac_biba:0,mac_biba:0,mac_biba:0,mac_biba:0,mac_biba:0",
    "done t 1 ok rules",
    "done t 1 ok rules -",
    "done t 1 ok rules 1",
    "done t 1 ok rules 0 ;",
    "done t 1 ok rules 00",
    "done t 1 ok rules 2 ; 0 subject object mode n",
    "done t 1 ok rules 2 ; 1 subject object mode n ; 0 subject object mode n",
    "done t 1 ok rules 2 ; 1 subject object mode n ; 1 subject object mode n",
    "done t 1 ok rules 1 ; 250 subject object mode n",
    "done t 1 ok rules 1 ; 01 subject object mode n",
    "done t 1 ok rules 1 1 subject object mode n",
    "done t 1 ok rules 1 ; 1 subject object mode n ;",
    "done t 1 ok rules 1 ; 1 subject object mode rr",
    "done t 1 ok rules 1 ; 1 subject uid 5:5 object mode n",
    "done t 1 ok rule 07",
    "done t 1 ok rule 4294967296",
    "done t 1 no EFOO - -",
    "done t 1 no EACCES - - 1",
    "done t 1 no EACCES vnode_read mac_mls 256",
    "done t 1 no EPERM socket_unbind mac_portacl 1",
    "done t 1 no ESRCH proc_visible mac_seeothergids 1",
    "done t 1 no EACCES vnode_read mac_mls",
    "source biba vnode:/ high",
    "waits t 1",
    "stale t",
];

/// Texts whose boot lines, ends of lines or empty lines are wrong, each with the number of its first line that is none.
const NO_HISTORIES: &[(&str, u32)] = &[
    ("enter t\nboot mac_biba 0\n", 2),
    ("enter t\nleave t", 2),
    ("enter t\n\nleave t\n", 2),
    ("boot mac_biba", 1),
];

/// Reads a short text.
fn read(rt: &impl Abort, alloc: Global, script: &Script, text: &str) -> Result<History, HistError> {
    assert!(rt; text.len() < 4096);
    read_history(alloc, script, text.as_bytes())
}

/// The text of a history.
fn text_of(alloc: Global, script: &Script, history: &History) -> Result<String, HistError> {
    let mut out = String::new(alloc);
    print_history(script, history, &mut out)?;
    Ok(out)
}

/// The text of what is read of a short text.
fn read_and_printed(
    rt: &impl Abort,
    alloc: Global,
    script: &Script,
    text: &str,
) -> Result<String, HistError> {
    let history = read(rt, alloc, script, text)?;
    text_of(alloc, script, &history)
}

/// The line is read, and what is read has the line for its text.
fn is_read_back(
    rt: &impl Abort,
    alloc: Global,
    script: &Script,
    line: &str,
) -> Result<(), HistError> {
    let text = format!(in alloc; "{line}\n")?;
    let out = read_and_printed(rt, alloc, script, text.as_str())?;
    wants(rt, line, out.as_str() == text.as_str());
    Ok(())
}

/// Each line is read back, and so is a text without any.
fn are_read_back(rt: &impl Abort, alloc: Global, script: &Script) -> Result<(), HistError> {
    for line in LINES {
        is_read_back(rt, alloc, script, line)?;
    }
    let none = read_and_printed(rt, alloc, script, "")?;
    wants(rt, "no line", none.as_str().is_empty());
    Ok(())
}

/// The line of that number is the first that is none.
fn is_refused(rt: &impl Abort, alloc: Global, script: &Script, text: &str, number: u32) {
    let error = read(rt, alloc, script, text).err();
    wants(rt, text, error == Some(HistError::Line(number)));
}

/// The line is none.
fn is_no_line(
    rt: &impl Abort,
    alloc: Global,
    script: &Script,
    line: &str,
) -> Result<(), HistError> {
    let text = format!(in alloc; "boot mac_biba 0\nenter t\n{line}\nleave t\n")?;
    is_refused(rt, alloc, script, text.as_str(), 3);
    Ok(())
}

fn others_are_refused(rt: &impl Abort, alloc: Global, script: &Script) -> Result<(), HistError> {
    for line in NO_LINES {
        is_no_line(rt, alloc, script, line)?;
    }
    for (text, number) in NO_HISTORIES {
        is_refused(rt, alloc, script, text, *number);
    }
    Ok(())
}

fn are_told(rt: &impl Abort, alloc: Global, script: &Script) -> Result<(), HistError> {
    is_printed(rt, alloc, script)?;
    are_read_back(rt, alloc, script)?;
    others_are_refused(rt, alloc, script)
}

/// The texts of histories of one script are read back, and no others.
#[test]
fn histories_and_their_texts(rt: HostRuntime) -> Result<(), Fail> {
    let script = empty_task(&rt, rt.alloc())?;
    are_told(&rt, rt.alloc(), &script)?;
    text_tells_history();
    legal_histories_are_readable();
    Ok(())
}
