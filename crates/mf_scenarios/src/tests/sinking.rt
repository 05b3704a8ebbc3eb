//! Tasks side by side, each of which mac_lomac lowers by what it reads.

use crate::tests::{text_of_run, wants_that};
use mf_io::OpenGate;
use std::alloc::{AllocError, Global};

const TWO_FILES: &str = "boot mac_lomac
file /lo reg uid 0 gid 0 mode 644 label lomac/5 text hi
file /hi reg uid 0 gid 0 mode 644 label -
";

/// What each of sixteen tasks does, and is answered, in whatever order the events come.
const READS_AND_WRITES: &str = "read /lo
getpmac
write /hi x
end
";

const ANSWERED: &[&str] = &[
    " 1 ok bytes 2 =hi",
    " 2 ok label lomac/5",
    " 3 no EACCES vnode_open_write mac_lomac 2",
];

/// The script of the sixteen tasks.
fn sixteen_tasks(alloc: Global) -> Result<String, AllocError> {
    let mut script = String::from_str(alloc, TWO_FILES)?;
    for number in 0..16 {
        write!(
            script,
            "task t{number} uid 0 gid 0 label -\n{READS_AND_WRITES}"
        )?;
    }
    Ok(script)
}

const SOURCES_OF_FILES: &str =
    "source lomac vnode:/ high\nsource lomac vnode:/lo 5\nsource lomac vnode:/hi high\n";

/// The text of their sources.
fn sources_of_sixteen(alloc: Global) -> Result<String, AllocError> {
    let mut sources = String::from_str(alloc, SOURCES_OF_FILES)?;
    for number in 0..16 {
        write!(sources, "source lomac proc:t{number} 5,high\n")?;
    }
    Ok(sources)
}

/// How many calls are answered so.
fn count_answers(text: &str, answer: &str) -> usize {
    let mut count: usize = 0;
    for line in text.lines() {
        if line.starts_with("done t") && line.ends_with(answer) {
            count = count.saturating_add(1);
        }
    }
    count
}

#[test]
fn sixteen_tasks_sink(rt: HostRuntime) -> Result<(), AllocError> {
    let script = sixteen_tasks(rt.alloc())?;
    let text = text_of_run(&rt, rt.alloc(), script.as_str(), &OpenGate)?;
    let sources = sources_of_sixteen(rt.alloc())?;
    let has_sources = text.as_str().ends_with(sources.as_str());
    wants_that(&rt, "their sources", has_sources);
    for answer in ANSWERED {
        wants_that(&rt, answer, count_answers(text.as_str(), answer) == 16);
    }
    Ok(())
}
