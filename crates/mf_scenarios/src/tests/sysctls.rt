//! Settings of mac_seeotheruids and mac_portacl that change between two calls.

use crate::tests::transcript::run_scenarios;
use std::alloc::AllocError;

const BINDINGS: &str = "which ports are guarded, and of whom
boot mac_portacl
task t uid 0 gid 0 label -
= boot mac_portacl -
socket s -> ok
bind s tcp 80 -> ok
sysctl security.mac.portacl.suser_exempt=0 -> ok
bind s tcp 80 -> no EPERM socket_bind mac_portacl 1
bind s udp 1023 -> no EPERM socket_bind mac_portacl 1
bind s tcp 1024 -> ok
sysctl security.mac.portacl.port_high=79 -> ok
bind s tcp 80 -> ok
bind s tcp 79 -> no EPERM socket_bind mac_portacl 1
sysctl security.mac.portacl.port_high=65535 -> ok
bind s udp 65535 -> no EPERM socket_bind mac_portacl 1
bind s udp 0 -> ok
sysctl security.mac.portacl.autoport_exempt=0 -> ok
bind s udp 0 -> no EPERM socket_bind mac_portacl 1
sysctl security.mac.portacl.suser_exempt=1 -> ok
bind s udp 0 -> ok
end

rules, by uid and by group
boot mac_portacl
task t uid 0 gid 5,7 label -
= boot mac_portacl -
socket s -> ok
sysctl security.mac.portacl.suser_exempt=0 -> ok
sysctl security.mac.portacl.rules=uid:0:tcp:80,gid:7:udp:53 -> ok
bind s tcp 80 -> ok
bind s udp 53 -> ok
bind s udp 80 -> no EPERM socket_bind mac_portacl 1
bind s tcp 53 -> no EPERM socket_bind mac_portacl 1
sysctl security.mac.portacl.rules=uid:7:tcp:80 -> ok
bind s tcp 80 -> no EPERM socket_bind mac_portacl 1
sysctl security.mac.portacl.rules=gid:0:tcp:80 -> ok
bind s tcp 80 -> no EPERM socket_bind mac_portacl 1
sysctl security.mac.portacl.rules=gid:5:tcp:80 -> ok
bind s tcp 80 -> ok
sysctl security.mac.portacl.rules= -> ok
bind s tcp 80 -> no EPERM socket_bind mac_portacl 1
bind p tcp 80 -> no ENOENT - -
end

values that a setting hasn't leave it as it was
boot mac_portacl
task t uid 0 gid 0 label -
= boot mac_portacl -
socket s -> ok
sysctl security.mac.portacl.suser_exempt=0 -> ok
sysctl security.mac.portacl.suser_exempt=2 -> no EINVAL - -
sysctl security.mac.portacl.port_high=65536 -> no EINVAL - -
sysctl security.mac.portacl.port_high=x -> no EINVAL - -
sysctl security.mac.portacl.rules=uid:0:tcp:80, -> no EINVAL - -
sysctl security.mac.portacl.rules=uid:0:sctp:80 -> no EINVAL - -
sysctl security.mac.portacl.enabled=0 -> no ENOENT - -
bind s tcp 80 -> no EPERM socket_bind mac_portacl 1
end

a policy of ports that comes back is in its initial state
boot mac_portacl
task t uid 0 gid 0 label -
= boot mac_portacl -
socket s -> ok
sysctl security.mac.portacl.suser_exempt=0 -> ok
bind s tcp 80 -> no EPERM socket_bind mac_portacl 1
kldunload mac_portacl -> ok
bind s tcp 80 -> ok
sysctl security.mac.portacl.suser_exempt=0 -> no ENOENT - -
kldload mac_portacl -> ok slot -
bind s tcp 80 -> ok
sysctl security.mac.portacl.suser_exempt=0 -> ok
bind s tcp 1023 -> no EPERM socket_bind mac_portacl 1
bind s tcp 1024 -> ok
end

who isn't root changes none
boot mac_portacl
task t uid 80 gid 80 label -
= boot mac_portacl -
sysctl security.mac.portacl.rules=uid:80:tcp:80 -> no EPERM - -
sysctl security.mac.seeotheruids.specificgid=x -> no EPERM - -
socket s -> ok
bind s tcp 80 -> no EPERM socket_bind mac_portacl 1
end
";

const PROCESSES: &str = "what is denied of a process of another uid
boot mac_seeotheruids
task t uid 1001 gid 1001 label -
= boot mac_seeotheruids -
see t -> ok
see b -> no ESRCH proc_visible mac_seeotheruids 1
signal b -> no ESRCH proc_signal mac_seeotheruids 1
debug b -> no ESRCH proc_debug mac_seeotheruids 1
sched b -> no ESRCH proc_sched mac_seeotheruids 1
fork c -> ok
signal t.c -> ok
end
task b uid 1002 gid 7 label -
end

which processes of other uids are seen
boot mac_seeotheruids
task t uid 0 gid 5,7 label -
= boot mac_seeotheruids -
see b -> ok
sysctl security.mac.seeotheruids.suser_privileged=0 -> ok
see b -> no ESRCH proc_visible mac_seeotheruids 1
sysctl security.mac.seeotheruids.primarygroup_enabled=1 -> ok
see b -> no ESRCH proc_visible mac_seeotheruids 1
sysctl security.mac.seeotheruids.specificgid=7 -> ok
see b -> no ESRCH proc_visible mac_seeotheruids 1
sysctl security.mac.seeotheruids.specificgid_enabled=1 -> ok
see b -> ok
sysctl security.mac.seeotheruids.specificgid=6 -> ok
see b -> no ESRCH proc_visible mac_seeotheruids 1
sysctl security.mac.seeotheruids.specificgid=4294967296 -> no EINVAL - -
sysctl security.mac.seeotheruids.specificgid=4294967295 -> ok
see b -> no ESRCH proc_visible mac_seeotheruids 1
end
task b uid 1002 gid 7 label -
end

a policy of processes that comes back is in its initial state
boot mac_seeotheruids
task t uid 0 gid 7 label -
= boot mac_seeotheruids -
sysctl security.mac.seeotheruids.suser_privileged=0 -> ok
see b -> no ESRCH proc_visible mac_seeotheruids 1
sysctl security.mac.seeotheruids.primarygroup_enabled=1 -> ok
see b -> ok
kldunload mac_seeotheruids -> ok
sysctl security.mac.seeotheruids.primarygroup_enabled=2 -> no ENOENT - -
kldload mac_seeotheruids -> ok slot -
sysctl security.mac.seeotheruids.suser_privileged=0 -> ok
see b -> no ESRCH proc_visible mac_seeotheruids 1
end
task b uid 1002 gid 7 label -
end

there is no setting of a policy that isn't listed
boot mac_portacl
task t uid 0 gid 0 label -
= boot mac_portacl -
sysctl security.mac.seeotheruids.suser_privileged=0 -> no ENOENT - -
sysctl security.mac.bsdextended.firstmatch_enabled=x -> no ENOENT - -
see b -> ok
end
task b uid 1002 gid 7 label -
end
";

#[test]
fn bindings(rt: HostRuntime) -> Result<(), AllocError> {
    run_scenarios(&rt, rt.alloc(), "run", BINDINGS)
}

#[test]
fn processes(rt: HostRuntime) -> Result<(), AllocError> {
    run_scenarios(&rt, rt.alloc(), "run", PROCESSES)
}
