//! Two tasks side by side, whose replies are the same in whatever order their events come.

use crate::tests::{text_of_run, wants_that};
use mf_io::OpenGate;
use std::alloc::{AllocError, Global};
use std::process::Abort;

/// Two tasks on a machine with three policies.
pub const SCRIPT: &str = "boot mac_biba
boot mac_mls
boot mac_bsdextended
file /home dir uid 0 gid 0 mode 755 label -
file /home/alice dir uid 1001 gid 1001 mode 700 label biba/10,mls/5
file /home/alice/n reg uid 1001 gid 1001 mode 600 label biba/10,mls/5 text note
file /tmp dir uid 0 gid 0 mode 1777 label biba/equal,mls/equal
task alice uid 1001 gid 1001 label biba/10(low-10),mls/5(low-5)
readdir /home/alice
read /home/alice/n
write /home/alice/n !
read /home/alice/n
create /tmp/a
create /home/x
setpmac biba/high
see www
end
task www uid 80 gid 80 label biba/low(low-low),mls/low(low-low)
read /home/alice/n
create /tmp/w
write /tmp/w x
read /tmp/w
unlink /tmp/w
kldload mac_partition
end
";

const ALICE: &str = "done alice 1 ok names 1 n
done alice 2 ok bytes 4 =note
done alice 3 ok
done alice 4 ok bytes 5 =note!
done alice 5 ok
done alice 6 no EACCES vnode_create mac_mls 3
done alice 7 no EPERM cred_relabel mac_biba 1
done alice 8 no ESRCH proc_visible mac_biba 1
";

const WWW: &str = "done www 1 no EACCES vnode_lookup mac_mls 3
done www 2 ok
done www 3 ok
done www 4 ok bytes 1 =x
done www 5 ok
changed www 6 no EPERM priv - 1
";

/// The replies to the calls of a task.
fn replies_of(alloc: Global, text: &str, task: &str) -> Result<String, AllocError> {
    let done = format!(in alloc; "done {task} ")?;
    let changed = format!(in alloc; "changed {task} ")?;
    let mut replies = String::new(alloc);
    for line in text.lines() {
        if line.starts_with(done.as_str()) || line.starts_with(changed.as_str()) {
            write!(replies, "{line}\n")?;
        }
    }
    Ok(replies)
}

/// Wants these replies to the calls of a task.
pub fn wants_replies<R: Abort>(
    rt: &R,
    alloc: Global,
    text: &str,
    task: &str,
    wanted: &str,
) -> Result<(), AllocError> {
    let replies = replies_of(alloc, text, task)?;
    wants_that(rt, task, replies.as_str() == wanted);
    Ok(())
}

#[test]
fn replies_in_any_order_of_events(rt: HostRuntime) -> Result<(), AllocError> {
    let text = text_of_run(&rt, rt.alloc(), SCRIPT, &OpenGate)?;
    wants_replies(&rt, rt.alloc(), text.as_str(), "alice", ALICE)?;
    wants_replies(&rt, rt.alloc(), text.as_str(), "www", WWW)?;
    Ok(())
}
