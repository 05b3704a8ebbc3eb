//! Runs whose gate counts the calls, and runs whose tasks wait for each other in it.

use crate::tests::{DENIAL, DENIED, summary_of, text_of_run, wants_that};
use mf_io::Gate;
use std::alloc::AllocError;
use std::process::Abort;
use std::sync::Wait;
use std::sync::atomic::{AtomicU64, Ordering};
use std::thread::Threads;

/// How often each call came for the first line of the first task, and how often any other came.
#[derive(Drop)]
struct Counts {
    between: AtomicU64,
    after: AtomicU64,
    others: AtomicU64,
}

impl Counts {
    fn new() -> Counts {
        Counts {
            between: AtomicU64::new(0),
            after: AtomicU64::new(0),
            others: AtomicU64::new(0),
        }
    }

    /// Counts a call for this line, `own` where it is the first line of the first task.
    fn count(&self, own: &AtomicU64, task: u32, line: u32) {
        let count = if task == 0 && line == 1 {
            own
        } else {
            &self.others
        };
        count.fetch_add(1, Ordering::SeqCst);
    }
}

impl Gate for Counts {
    fn between<R: Threads + Wait + Sync>(&self, _rt: &R, task: u32, line: u32) {
        self.count(&self.between, task, line);
    }

    fn after<R: Threads + Wait + Sync>(&self, _rt: &R, task: u32, line: u32) {
        self.count(&self.after, task, line);
    }
}

/// How many turns a task waits for the other: some seconds on a machine that does nothing else.
const MOST_TURNS: u64 = 1_000_000_000;

/// Wants this count.
pub fn wants_count<R: Abort>(rt: &R, count: &AtomicU64, wanted: u64) {
    wants_that(rt, "a count", count.load(Ordering::SeqCst) == wanted);
}

/// Two tasks that meet between walk and commit; the first one waits there until the second has left.
#[derive(Drop)]
struct Meeting {
    first_is_there: AtomicU64,
    second_is_there: AtomicU64,
    second_has_left: AtomicU64,
    calls_between: AtomicU64,
    waits_that_ran_out: AtomicU64,
}

/// Whether the flag is raised in time.
pub fn is_raised(flag: &AtomicU64) -> bool {
    for _turn in 0..MOST_TURNS {
        if flag.load(Ordering::SeqCst) != 0 {
            return true;
        }
    }
    false
}

impl Meeting {
    fn new() -> Meeting {
        Meeting {
            first_is_there: AtomicU64::new(0),
            second_is_there: AtomicU64::new(0),
            second_has_left: AtomicU64::new(0),
            calls_between: AtomicU64::new(0),
            waits_that_ran_out: AtomicU64::new(0),
        }
    }

    fn await_flag(&self, flag: &AtomicU64) {
        if !is_raised(flag) {
            self.waits_that_ran_out.fetch_add(1, Ordering::SeqCst);
        }
    }

    /// Wants that both tasks came between walk and commit, and that no wait ran out.
    fn wants_both<R: Abort>(&self, rt: &R) {
        wants_count(rt, &self.waits_that_ran_out, 0);
        let calls = self.calls_between.load(Ordering::SeqCst);
        wants_that(rt, "both tasks", calls >= 2);
    }
}

impl Gate for Meeting {
    fn between<R: Threads + Wait + Sync>(&self, _rt: &R, task: u32, _line: u32) {
        self.calls_between.fetch_add(1, Ordering::SeqCst);
        if task == 1 {
            self.second_is_there.store(1, Ordering::SeqCst);
            self.await_flag(&self.first_is_there);
        } else {
            self.first_is_there.store(1, Ordering::SeqCst);
            self.await_flag(&self.second_is_there);
            self.await_flag(&self.second_has_left);
        }
    }

    fn after<R: Threads + Wait + Sync>(&self, _rt: &R, task: u32, _line: u32) {
        if task == 1 {
            self.second_has_left.store(1, Ordering::SeqCst);
        }
    }
}

#[test]
fn each_line_calls_the_gate_once(rt: HostRuntime) -> Result<(), AllocError> {
    let counts = Counts::new();
    let text = text_of_run(&rt, rt.alloc(), DENIAL, &counts)?;
    wants_that(&rt, "one line", text.as_str() == DENIED);
    wants_count(&rt, &counts.between, 1);
    wants_count(&rt, &counts.after, 1);
    wants_count(&rt, &counts.others, 0);
    Ok(())
}

const TWO_READERS: &str = "file /f reg uid 0 gid 0 mode 644 label - text hi
task a uid 0 gid 0 label -
read /f
end
task b uid 0 gid 0 label -
read /f
end
";

#[test]
fn one_task_commits_while_another_is_between(rt: HostRuntime) -> Result<(), AllocError> {
    let meeting = Meeting::new();
    let _text = text_of_run(&rt, rt.alloc(), TWO_READERS, &meeting)?;
    meeting.wants_both(&rt);
    Ok(())
}

#[test]
fn so_do_the_tasks_of_a_load(rt: HostRuntime) -> Result<(), AllocError> {
    let meeting = Meeting::new();
    let text = summary_of(&rt, rt.alloc(), &["gen", "1", "2"], &meeting)?;
    wants_that(&rt, "a load", text.as_str() == "gen 1 2\nok 1\nEACCES 1\n");
    meeting.wants_both(&rt);
    Ok(())
}

const READER_AND_REMOVER: &str = "file /f reg uid 0 gid 0 mode 644 label - text hi
task a uid 0 gid 0 label -
read /f
end
task b uid 0 gid 0 label -
unlink /f
end
";

const REMOVED_BEFORE_THE_COMMIT: &str = "done b 1 ok
leave b
done a 1 no ENOENT - -
leave a
";

/// The first task's plan is out of date when it commits: it plans and walks again, and calls the gate once more.
#[test]
fn a_stale_commit_is_tried_again(rt: HostRuntime) -> Result<(), AllocError> {
    let meeting = Meeting::new();
    let text = text_of_run(&rt, rt.alloc(), READER_AND_REMOVER, &meeting)?;
    let is_removed = text.as_str().ends_with(REMOVED_BEFORE_THE_COMMIT);
    wants_that(&rt, "the file is gone", is_removed);
    wants_count(&rt, &meeting.waits_that_ran_out, 0);
    wants_count(&rt, &meeting.calls_between, 3);
    Ok(())
}
