//! What the policies and the framework answer to the lines of one task.

use crate::tests::transcript::run_scenarios;
use std::alloc::AllocError;

const OBJECTS: &str = "order inside a plan
boot mac_biba
file /d dir uid 0 gid 0 mode 755 label biba/low
task t uid 0 gid 0 label biba/high
= boot mac_biba 0
read /d/x -> no EACCES vnode_lookup mac_biba 2
read /x -> no ENOENT - -
stat / -> ok stat dir uid 0 gid 0 mode 755 size 0
unlink / -> no EINVAL - -
end
= source biba vnode:/ high
= source biba vnode:/d low
= source biba proc:t high

elements that can't be compared
boot mac_biba
file /a reg uid 0 gid 0 mode 644 label biba/5:1 text hi
task t uid 0 gid 0 label biba/9:2
= boot mac_biba 0
read /a -> no EACCES vnode_open_read mac_biba 2
write /a y -> no EACCES vnode_open_write mac_biba 2
end
= source biba vnode:/ high
= source biba vnode:/a 5:1
= source biba proc:t 9:2,high

precedence against walk order
boot mac_biba
boot mac_partition
task t uid 0 gid 0 label biba/5,partition/1
= boot mac_biba 0
= boot mac_partition 1
signal b -> no ESRCH proc_signal mac_partition 1
end
task b uid 0 gid 0 label biba/9,partition/2
end
= source biba vnode:/ high
= source biba proc:t 5
= source biba proc:b 9

lifetimes
boot mac_biba
task t uid 0 gid 0 label biba/5
= boot mac_biba 0
fork c -> ok
fork c -> no EEXIST - -
@c pipe p -> ok
pwrite p x -> ok
pstat p -> ok size 1
@c exit -> ok
pread p -> no ENOENT - -
see t.c -> no ESRCH - -
@c getpmac -> no ESRCH - -
fork c -> ok
end
= source biba vnode:/ high
= source biba proc:t 5
= source biba proc:t.c 5

payloads
file /d dir uid 0 gid 5 mode 700 label -
file /d/b reg uid 80 gid 0 mode 0 label - text hi
file /d/a reg uid 0 gid 0 mode 644 label -
task t uid 0 gid 0 label -
readdir /d -> ok names 2 a,b
stat /d/b -> ok stat reg uid 80 gid 0 mode 0 size 2
chmod /d/b 4755 -> ok
write /d/b \\20 -> ok
read /d/b -> ok bytes 3 =hi\\20
create /d/c -> ok
stat /d/c -> ok stat reg uid 0 gid 5 mode 644 size 0
unlink /d -> no ENOTEMPTY - -
socket s -> ok
send s s x -> ok
recv s -> ok bytes 1 =x
kldstat -> ok modules -
end
";

const LOADS: &str = "loading refused
boot mac_biba
task t uid 0 gid 0 label biba/equal
= boot mac_biba 0
kldload mac_mls -> no EBUSY - -
kldunload mac_biba -> no EBUSY - -
kldload mac_partition -> ok slot 1
kldload mac_partition -> no EEXIST - -
kldload mac_foo -> no ENOENT - -
kldunload mac_mls -> no ENOENT - -
kldstat -> ok modules mac_biba:0,mac_partition:1
end
= source biba vnode:/ high
= source biba proc:t -

a range from low to high may load
boot mac_biba
task t uid 0 gid 0 label biba/high
= boot mac_biba 0
kldload mac_partition -> ok slot 1
end
= source biba vnode:/ high
= source biba proc:t high

a shorter range may not load
boot mac_biba
task t uid 0 gid 0 label biba/10(low-10)
= boot mac_biba 0
kldload mac_partition -> no EPERM kld_load mac_biba 2
end
= source biba vnode:/ high
= source biba proc:t 10

who isn't root may not load
boot mac_biba
task t uid 80 gid 0 label biba/equal
= boot mac_biba 0
kldload mac_partition -> no EPERM priv - 1
end
= source biba vnode:/ high
= source biba proc:t -

slots run out
boot mac_biba
boot mac_mls
task t uid 0 gid 0 label biba/equal
= boot mac_biba 0
= boot mac_mls 1
kldload mac_partition -> ok slot 2
kldunload mac_partition -> ok
kldload mac_partition -> ok slot 3
kldunload mac_partition -> ok
kldload mac_partition -> no ENOMEM - -
end
= source biba vnode:/ high
= source biba proc:t -
= source mls vnode:/ low
= source mls proc:t low

a late partition
boot mac_biba
task t uid 0 gid 0 label biba/equal
= boot mac_biba 0
kldload mac_partition -> ok slot 1
see b -> ok
fork c -> ok
see t.c -> ok
end
task b uid 0 gid 0 label biba/equal
end
= source biba vnode:/ high
= source biba proc:t -
= source biba proc:b -
= source biba proc:t.c -
";

#[test]
fn objects(rt: HostRuntime) -> Result<(), AllocError> {
    run_scenarios(&rt, rt.alloc(), "run", OBJECTS)
}

#[test]
fn loads(rt: HostRuntime) -> Result<(), AllocError> {
    run_scenarios(&rt, rt.alloc(), "run", LOADS)
}
