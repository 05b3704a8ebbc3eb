//! Privileges that mac_priority grants, and a run in which it comes and goes.

use crate::tests::gates::{is_raised, wants_count};
use crate::tests::tasks::wants_replies;
use crate::tests::text_of_run;
use crate::tests::transcript::run_scenarios;
use mf_io::Gate;
use std::alloc::AllocError;
use std::sync::Wait;
use std::sync::atomic::{AtomicU64, Ordering};
use std::thread::Threads;

const GRANTS: &str = "mac_priority(4): a realtime user
boot mac_priority
task t uid 1001 gid 1001,47 label -
= boot mac_priority -
priv SCHED_RTPRIO -> ok
priv SCHED_IDPRIO -> no EPERM priv - 1
priv KLD_LOAD -> no EPERM priv - 1
fork c -> ok
@c priv SCHED_RTPRIO -> ok
end

one grant is enough, whoever is listed beside
boot mac_partition
boot mac_priority
boot mac_bsdextended
task t uid 1001 gid 48 label partition/1
= boot mac_partition 0
= boot mac_priority -
= boot mac_bsdextended -
priv SCHED_RTPRIO -> no EPERM priv - 1
priv SCHED_IDPRIO -> ok
end

root has every privilege
task t uid 0 gid 0 label -
priv KLD_LOAD -> ok
priv KLD_UNLOAD -> ok
priv MAC_PARTITION -> ok
priv SCHED_RTPRIO -> ok
priv SCHED_IDPRIO -> ok
end
";

#[test]
fn grants(rt: HostRuntime) -> Result<(), AllocError> {
    run_scenarios(&rt, rt.alloc(), "run", GRANTS)
}

/// A realtime user asks three times. Root loads the module after the first time, and unloads it after the second.
const COMES_AND_GOES: &str = "boot mac_bsdextended
task u uid 1001 gid 1001,47 label -
priv SCHED_RTPRIO
priv SCHED_RTPRIO
priv SCHED_RTPRIO
end
task root uid 0 gid 0 label -
kldstat
kldload mac_priority
kldstat
kldunload mac_priority
kldstat
end
";

const REPLIES: &str = "done u 1 no EPERM priv - 1
done u 2 ok
done u 3 no EPERM priv - 1
";

/// The order of the two tasks. The changes don't call the gate: root's calls beside them do.
#[derive(Drop)]
struct Turns {
    asked_once: AtomicU64,
    loaded: AtomicU64,
    asked_twice: AtomicU64,
    unloaded: AtomicU64,
    waits_that_ran_out: AtomicU64,
}

impl Turns {
    fn new() -> Turns {
        Turns {
            asked_once: AtomicU64::new(0),
            loaded: AtomicU64::new(0),
            asked_twice: AtomicU64::new(0),
            unloaded: AtomicU64::new(0),
            waits_that_ran_out: AtomicU64::new(0),
        }
    }

    fn await_flag(&self, flag: &AtomicU64) {
        if !is_raised(flag) {
            self.waits_that_ran_out.fetch_add(1, Ordering::SeqCst);
        }
    }

    /// Raises the one flag, and waits for the other.
    fn meet(&self, raised: &AtomicU64, awaited: &AtomicU64) {
        raised.store(1, Ordering::SeqCst);
        self.await_flag(awaited);
    }
}

impl Gate for Turns {
    fn between<R: Threads + Wait + Sync>(&self, _rt: &R, _task: u32, _line: u32) {}

    fn after<R: Threads + Wait + Sync>(&self, _rt: &R, task: u32, line: u32) {
        match (task, line) {
            (0, 1) => self.meet(&self.asked_once, &self.loaded),
            (0, 2) => self.meet(&self.asked_twice, &self.unloaded),
            (1, 1) => self.await_flag(&self.asked_once),
            (1, 3) => self.meet(&self.loaded, &self.asked_twice),
            (1, 5) => self.unloaded.store(1, Ordering::SeqCst),
            _ => {}
        }
    }
}

#[test]
fn a_grant_comes_and_goes_with_its_module(rt: HostRuntime) -> Result<(), AllocError> {
    let turns = Turns::new();
    let text = text_of_run(&rt, rt.alloc(), COMES_AND_GOES, &turns)?;
    wants_count(&rt, &turns.waits_that_ran_out, 0);
    wants_replies(&rt, rt.alloc(), text.as_str(), "u", REPLIES)?;
    Ok(())
}
