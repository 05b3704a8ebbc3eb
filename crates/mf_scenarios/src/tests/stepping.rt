//! The steps of a script, taken one after another.

use crate::tests::cases::{Case, PLAIN, run_cases, wants_case};
use crate::tests::transcript::run_scenarios;
use std::alloc::AllocError;

/// Each step of which is in turn.
pub const STEPPED: Case = Case {
    words: &["step"],
    ..PLAIN
};

const NO_STEPS: Case = Case {
    name: "no steps",
    script: "boot mac_biba\ntask t uid 0 gid 0 label -\nread /\nend\n",
    text: "boot mac_biba 0\nsource biba vnode:/ high\nsource biba proc:t high\n",
    ..STEPPED
};

/// Steps that end before the task does: the pipe is not made.
const READ_ALONE: &str =
    "boot mac_lomac\nfile /lo reg uid 0 gid 0 mode 644 label lomac/5 text hi\ntask t uid 0 gid 0 label lomac/9\nread /lo\npipe p\nend\nsteps\nenter t\nplan t\ndone t\nleave t\nend\n";

/// Scripts, each of whose steps is in turn, and what the program then writes.
const TAKEN: &str = "a change waits while an entry is open
boot mac_partition
file /f reg uid 0 gid 0 mode 644 label - text hi
task a uid 0 gid 0 label -
read /f
end
task b uid 0 gid 0 label -
kldunload mac_partition
end
steps
enter a
change b
plan a
done a
leave a
change b
end
= boot mac_partition 0
= enter a
= waits b 1
= done a 1 ok bytes 2 =hi
= leave a
= changed b 1 ok

a file is relabelled between the walk and the commit
boot mac_biba
file /f reg uid 0 gid 0 mode 644 label biba/high text hi
task a uid 0 gid 0 label biba/high
read /f
end
task b uid 0 gid 0 label biba/high
setfmac biba/low /f
end
steps
enter a
plan a
enter b
plan b
done b
leave b
done a
plan a
done a
leave a
end
= boot mac_biba 0
= enter a
= enter b
= done b 1 ok
= leave b
= stale a
= done a 1 no EACCES vnode_open_read mac_biba 2
= leave a
= source biba vnode:/ high
= source biba vnode:/f low
= source biba proc:a high
= source biba proc:b high

a process sinks between the walk and the commit of the one that debugs it, which is lowered by the second walk alone
boot mac_lomac
file /lo reg uid 0 gid 0 mode 644 label lomac/5 text hi
task a uid 0 gid 0 label -
debug b
getpmac
end
task b uid 0 gid 0 label lomac/9
read /lo
end
steps
enter a
plan a
enter b
plan b
done b
leave b
done a
plan a
done a
leave a
enter a
plan a
done a
leave a
end
= boot mac_lomac 0
= enter a
= enter b
= done b 1 ok bytes 2 =hi
= leave b
= stale a
= done a 1 ok
= leave a
= enter a
= done a 2 ok label lomac/5
= leave a
= source lomac vnode:/ high
= source lomac vnode:/lo 5
= source lomac proc:a 5,9,high
= source lomac proc:b 5,9,high

a stale commit lowers nobody
boot mac_lomac
file /lo reg uid 0 gid 0 mode 644 label lomac/9 text hi
task a uid 0 gid 0 label -
read /lo
end
task b uid 0 gid 0 label lomac/9
setfmac lomac/5 /lo
signal a
end
steps
enter a
plan a
enter b
plan b
done b
leave b
done a
enter b
plan b
done b
end
= boot mac_lomac 0
= enter a
= enter b
= done b 1 ok
= leave b
= stale a
= enter b
= done b 2 no EACCES proc_signal mac_lomac 1
= source lomac vnode:/ high
= source lomac vnode:/lo 5
= source lomac proc:a high
= source lomac proc:b 9,high

a file that is open goes between the walk and the commit
file /f reg uid 0 gid 0 mode 644 label - text hi
task a uid 0 gid 0 label -
open /f r
fread 0
end
task b uid 0 gid 0 label -
unlink /f
end
steps
enter a
plan a
done a
leave a
enter a
plan a
enter b
plan b
done b
leave b
done a
plan a
done a
leave a
end
= enter a
= done a 1 ok fd 0
= leave a
= enter a
= enter b
= done b 1 ok
= leave b
= stale a
= done a 2 no EBADF - -
= leave a

a plan that is made again is the one that counts
file /f reg uid 0 gid 0 mode 644 label - text hi
task a uid 0 gid 0 label -
read /f
end
task b uid 0 gid 0 label -
chmod /f 600
read /f
end
steps
enter a
plan a
enter b
plan b
done b
plan a
leave b
done a
enter b
end
= enter a
= enter b
= done b 1 ok
= leave b
= done a 1 ok bytes 2 =hi
= enter b

a grant by one
task u uid 1001 gid 1001,47 label -
priv SCHED_RTPRIO
priv SCHED_RTPRIO
priv SCHED_RTPRIO
end
task r uid 0 gid 0 label -
kldload mac_priority
kldunload mac_priority
end
steps
enter u
plan u
done u
leave u
change r
enter u
plan u
done u
leave u
change r
enter u
plan u
done u
leave u
end
= enter u
= done u 1 no EPERM priv - 1
= leave u
= changed r 1 ok slot -
= enter u
= done u 2 ok
= leave u
= changed r 2 ok
= enter u
= done u 3 no EPERM priv - 1
= leave u

a port by a rule
boot mac_portacl
task w uid 80 gid 80 label -
socket s
bind s tcp 80
bind s tcp 1024
bind s udp 0
bind s tcp 80
bind s udp 80
end
task r uid 0 gid 0 label -
sysctl security.mac.portacl.rules=uid:80:tcp:80
end
steps
enter w
plan w
done w
leave w
enter w
plan w
done w
leave w
enter w
plan w
done w
leave w
enter w
plan w
done w
leave w
change r
enter w
plan w
done w
leave w
enter w
plan w
done w
leave w
end
= boot mac_portacl -
= enter w
= done w 1 ok
= leave w
= enter w
= done w 2 no EPERM socket_bind mac_portacl 1
= leave w
= enter w
= done w 3 ok
= leave w
= enter w
= done w 4 ok
= leave w
= changed r 1 ok
= enter w
= done w 5 ok
= leave w
= enter w
= done w 6 no EPERM socket_bind mac_portacl 1
= leave w

a process by its primary group
boot mac_seeotheruids
task a uid 1001 gid 1001 label -
see b
see b
end
task b uid 1002 gid 1001 label -
end
task r uid 0 gid 0 label -
see b
sysctl security.mac.seeotheruids.primarygroup_enabled=1
sysctl security.mac.seeotheruids.specificgid=x
end
steps
enter a
plan a
done a
leave a
enter r
plan r
done r
leave r
change r
enter a
plan a
done a
leave a
change r
end
= boot mac_seeotheruids -
= enter a
= done a 1 no ESRCH proc_visible mac_seeotheruids 1
= leave a
= enter r
= done r 1 ok
= leave r
= changed r 2 ok
= enter a
= done a 2 ok
= leave a
= changed r 3 no EINVAL - -
";

/// A script without steps, what is told of steps besides, and a sink that fails.
const CASES: &[Case] = &[
    NO_STEPS,
    Case {
        name: "the matrix where the steps end",
        words: &["step", "matrix"],
        script: READ_ALONE,
        text: "boot mac_lomac 0\nenter t\ndone t 1 ok bytes 2 =hi\nleave t\nsource lomac vnode:/ high\nsource lomac vnode:/lo 5\nsource lomac proc:t 5,9,high\nmatrix proc:t vnode:/ r-xs\nmatrix proc:t vnode:/lo rwxs\nmatrix proc:t proc:t vgdc\n",
        ..STEPPED
    },
    Case {
        name: "the chains where the steps end",
        words: &["step", "chains"],
        script: READ_ALONE,
        text: "boot mac_lomac 0\nenter t\ndone t 1 ok bytes 2 =hi\nleave t\nsource lomac vnode:/ high\nsource lomac vnode:/lo 5\nsource lomac proc:t 5,9,high\nchain lomac vnode:/ high 0@0\nchain lomac vnode:/lo 5 1@0\nchain lomac proc:t 5 1@0 2@2.2\nchain lomac proc:t 9 2@0\nchain lomac proc:t high 0@0 2@2.1\n",
        ..STEPPED
    },
    Case {
        name: "where the steps lowered their process",
        words: &["step", "why", "all"],
        script: READ_ALONE,
        text: "boot mac_lomac 0\nenter t\ndone t 1 ok bytes 2 =hi\nleave t\nsource lomac vnode:/ high\nsource lomac vnode:/lo 5\nsource lomac proc:t 5,9,high\nlowered t 1 2 proc:t 9 5 vnode:/lo\n",
        ..STEPPED
    },
    Case {
        name: "a sink that fails",
        script: "boot mac_biba\ntask t uid 0 gid 0 label -\nread /\nend\nsteps\nenter t\nend\n",
        sink_fails: &[2],
        status: 5,
        text: "boot mac_b",
        ..STEPPED
    },
];

#[test]
fn no_thread_is_needed(rt: HostRuntime) -> Result<(), AllocError> {
    wants_case(&rt, rt.alloc(), None, &NO_STEPS)
}

#[test]
fn steps_are_taken(rt: HostRuntime) -> Result<(), AllocError> {
    run_scenarios(&rt, rt.alloc(), "step", TAKEN)?;
    run_cases(&rt, rt.alloc(), CASES)
}
