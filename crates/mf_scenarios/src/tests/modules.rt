//! Modules that come and go while other tasks go on, or load and unload them too.

use crate::tests::{text_of_run, wants_that};
use mf_io::OpenGate;
use std::alloc::{AllocError, Global};

/// How often each other task reads.
const READS: usize = 20;

const FRONT: &str = "boot mac_biba
file /f reg uid 0 gid 0 mode 644 label - text hi
task loader uid 0 gid 0 label biba/high
kldload mac_partition
kldunload mac_partition
kldload mac_partition
kldunload mac_partition
kldload mac_partition
kldunload mac_partition
kldload mac_partition
end
";

/// The loader's replies. No other task changes the list, and each load takes a new slot.
const CHANGES: &str = "changed loader 1 ok slot 1
changed loader 2 ok
changed loader 3 ok slot 2
changed loader 4 ok
changed loader 5 ok slot 3
changed loader 6 ok
changed loader 7 no ENOMEM - -
";

/// The loader and fifteen tasks that read.
fn sixteen_tasks(alloc: Global) -> Result<String, AllocError> {
    let mut script = String::from_str(alloc, FRONT)?;
    for number in 1..16 {
        write!(script, "task t{number} uid 0 gid 0 label biba/high\n")?;
        for _read in 0..READS {
            script.push_str("read /f\n")?;
        }
        script.push_str("end\n")?;
    }
    Ok(script)
}

/// The lines of the text that begin so.
fn lines_from(alloc: Global, text: &str, front: &str) -> Result<String, AllocError> {
    let mut found = String::new(alloc);
    for line in text.lines() {
        if line.starts_with(front) {
            write!(found, "{line}\n")?;
        }
    }
    Ok(found)
}

/// How many lines of the text are of a read that gave the file's two bytes.
fn count_reads(text: &str) -> usize {
    let mut count: usize = 0;
    for line in text.lines() {
        if line.starts_with("done t") && line.ends_with(" ok bytes 2 =hi") {
            count = count.saturating_add(1);
        }
    }
    count
}

#[test]
fn a_module_comes_and_goes(rt: HostRuntime) -> Result<(), AllocError> {
    let script = sixteen_tasks(rt.alloc())?;
    let text = text_of_run(&rt, rt.alloc(), script.as_str(), &OpenGate)?;
    let changes = lines_from(rt.alloc(), text.as_str(), "changed ")?;
    wants_that(&rt, "changes", changes.as_str() == CHANGES);
    wants_that(&rt, "reads", count_reads(text.as_str()) == 15 * READS);
    Ok(())
}

/// A task that loads and unloads.
const LOADS: &str = "kldload mac_partition
kldunload mac_partition
kldload mac_partition
kldunload mac_partition
kldload mac_partition
kldunload mac_partition
kldload mac_partition
kldunload mac_partition
end
";

/// Sixteen tasks that load and unload.
fn sixteen_loaders(alloc: Global) -> Result<String, AllocError> {
    let mut script = String::from_str(alloc, "boot mac_biba\n")?;
    for number in 0..16 {
        write!(
            script,
            "task t{number} uid 0 gid 0 label biba/equal\n{LOADS}"
        )?;
    }
    Ok(script)
}

/// The slots that were given, in the order of the history.
fn slots_given(alloc: Global, text: &str) -> Result<String, AllocError> {
    let mut slots = String::new(alloc);
    for line in text.lines() {
        if let Some((_, slot)) = line.split_once(" ok slot ") {
            write!(slots, "{slot} ")?;
        }
    }
    Ok(slots)
}

/// Whoever comes first, a slot is given once.
#[test]
fn sixteen_tasks_load_and_unload(rt: HostRuntime) -> Result<(), AllocError> {
    let script = sixteen_loaders(rt.alloc())?;
    let text = text_of_run(&rt, rt.alloc(), script.as_str(), &OpenGate)?;
    let slots = slots_given(rt.alloc(), text.as_str())?;
    wants_that(&rt, "slots", slots.as_str() == "1 2 3 ");
    Ok(())
}
