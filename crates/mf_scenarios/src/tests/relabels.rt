//! Relabels: who may make them, what they change, and what they make of sources.

use crate::tests::transcript::run_scenarios;
use std::alloc::AllocError;

/// What the manual pages of these names show.
const MANUAL_PAGES: &str = "getpmac(8) and setpmac(8)
boot mac_biba
boot mac_partition
task t uid 0 gid 0 label -
= boot mac_biba 0
= boot mac_partition 1
getpmac -> ok label biba/high(low-high),partition/none
setpmac partition/13 -> ok
setpmac biba/low -> ok
getpmac -> ok label biba/low(low-high),partition/13
end
= source biba vnode:/ high
= source biba proc:t low

getfmac(8) and setfmac(8)
boot mac_biba
boot mac_mls
file /etc dir uid 0 gid 0 mode 755 label -
file /etc/motd reg uid 0 gid 0 mode 644 label -
task t uid 0 gid 0 label -
= boot mac_biba 0
= boot mac_mls 1
getfmac /etc/motd -> ok label biba/high,mls/low
setfmac biba/equal,mls/equal /etc/motd -> ok
getfmac /etc/motd -> ok label biba/equal,mls/equal
setfmac mls/10:2+3+6 /etc/motd -> ok
getfmac /etc/motd -> no EACCES vnode_stat mac_mls 3
end
= source biba vnode:/ high
= source biba vnode:/etc high
= source biba vnode:/etc/motd -
= source biba proc:t high
= source mls vnode:/ low
= source mls vnode:/etc low
= source mls vnode:/etc/motd 10:2+3+6
= source mls proc:t low
";

const PROCESSES: &str = "the greatest grade is below high
boot mac_biba
file /h reg uid 0 gid 0 mode 644 label biba/high text x
file /g reg uid 0 gid 0 mode 644 label biba/65535 text x
task t uid 0 gid 0 label biba/65535
= boot mac_biba 0
read /h -> ok bytes 1 =x
setpmac biba/high -> ok
read /g -> no EACCES vnode_open_read mac_biba 2
setpmac biba/65536 -> no EINVAL - -
end
= source biba vnode:/ high
= source biba vnode:/h high
= source biba vnode:/g 65535
= source biba proc:t high

compartments
boot mac_biba
file /a reg uid 0 gid 0 mode 644 label biba/5:1+256 text x
task t uid 0 gid 0 label biba/5:256
= boot mac_biba 0
read /a -> ok bytes 1 =x
write /a y -> no EACCES vnode_open_write mac_biba 2
setpmac biba/5:257 -> no EINVAL - -
setpmac biba/5:0 -> no EINVAL - -
end
= source biba vnode:/ high
= source biba vnode:/a 5:1+256
= source biba proc:t 5:1+256,5:256,high

the order of the tests of a process's relabel
boot mac_biba
task t uid 0 gid 0 label biba/10(5-20)
= boot mac_biba 0
setpmac biba/4(5-20) -> no EINVAL cred_relabel mac_biba 1
setpmac biba/(11-20) -> no EINVAL cred_relabel mac_biba 1
setpmac biba/(25-30) -> no EINVAL cred_relabel mac_biba 1
setpmac biba/25 -> no EPERM cred_relabel mac_biba 1
setpmac biba/10(5-30) -> no EPERM cred_relabel mac_biba 1
setpmac biba/equal -> no EPERM cred_relabel mac_biba 1
setpmac biba/(equal-20) -> no EPERM cred_relabel mac_biba 1
setpmac biba/12(6-18) -> ok
setpmac biba/(6-19) -> no EPERM cred_relabel mac_biba 1
setpmac biba/7(8-9),biba/13 -> ok
getpmac -> ok label biba/13(6-18)
end
= source biba vnode:/ high
= source biba proc:t 13

an element starts the sources anew, a range leaves them
boot mac_biba
file /a reg uid 0 gid 0 mode 644 label biba/9 text hi
task t uid 0 gid 0 label biba/8
= boot mac_biba 0
read /a -> ok bytes 2 =hi
setpmac biba/(low-10) -> ok
fork c -> ok
@c setpmac biba/8 -> ok
getpmac -> ok label biba/8(low-10)
pipe p -> ok
setpipemac biba/7 p -> ok
end
= source biba vnode:/ high
= source biba vnode:/a 9
= source biba proc:t 8,9,high
= source biba proc:t.c 8
= source biba pipe:p 7

a late partition
boot mac_biba
task t uid 0 gid 0 label biba/equal
= boot mac_biba 0
setpmac partition/7 -> no EINVAL - -
kldload mac_partition -> ok slot 1
see b -> ok
setpmac partition/7 -> ok
see b -> no ESRCH proc_visible mac_partition 1
fork c -> ok
see t.c -> ok
@c setpmac partition/8 -> ok
see t.c -> no ESRCH proc_visible mac_partition 1
setpmac partition/none -> ok
getpmac -> ok label biba/equal(low-high),partition/7
end
task b uid 0 gid 0 label biba/equal
end
= source biba vnode:/ high
= source biba proc:t -
= source biba proc:b -
= source biba proc:t.c -

who may take on a partition, and a caller that is gone
boot mac_partition
task t uid 80 gid 80 label -
= boot mac_partition 0
setpmac partition/7 -> no EPERM cred_relabel mac_partition 1
setpmac partition/0 -> ok
setfmac partition/0 / -> no EINVAL - -
setpmac partition/0,foo/x -> no EINVAL - -
@c setpmac partition/ -> no ESRCH - -
end
";

const OBJECTS: &str = "one policy refuses a joint relabel
boot mac_mls
boot mac_biba
file /f reg uid 0 gid 0 mode 644 label -
task t uid 0 gid 0 label mls/low(low-low)
= boot mac_mls 0
= boot mac_biba 1
setfmac biba/5,mls/7 /f -> no EPERM vnode_relabel mac_mls 2
getfmac /f -> ok label biba/high,mls/low
setfmac partition/1 /f -> no EINVAL - -
setfmac biba /f -> no EINVAL - -
setfmac biba /x -> no EINVAL - -
setfmac biba/5 /x -> no ENOENT - -
setfmac biba/5(1-9) /f -> no EINVAL vnode_relabel mac_biba 2
end
= source biba vnode:/ high
= source biba vnode:/f high
= source biba proc:t high
= source mls vnode:/ low
= source mls vnode:/f low
= source mls proc:t low

the old element is judged too, and by each policy
boot mac_biba
boot mac_mls
file /f reg uid 0 gid 0 mode 644 label biba/15,mls/5
task t uid 0 gid 0 label biba/10(5-12),mls/5
= boot mac_biba 0
= boot mac_mls 1
setfmac mls/3 /f -> no EPERM vnode_relabel mac_biba 2
setfmac biba/11 /f -> no EPERM vnode_relabel mac_biba 2
setfmac biba/11(10-12) /f -> no EINVAL vnode_relabel mac_biba 2
setfmac biba/equal / -> no EPERM vnode_relabel mac_biba 1
getfmac /f -> ok label biba/15,mls/5
end
= source biba vnode:/ high
= source biba vnode:/f 15
= source biba proc:t 10,15,high
= source mls vnode:/ low
= source mls vnode:/f 5
= source mls proc:t low,5

sockets
boot mac_biba
task t uid 0 gid 0 label biba/5(low-high)
= boot mac_biba 0
socket s -> ok
setpmac biba/9 -> ok
socket d -> ok
send s d x -> no EACCES socket_deliver mac_biba 2
setsockmac biba/9 s -> ok
send s d x -> ok
recv d -> ok bytes 1 =x
recv d -> no EAGAIN - -
setsockmac biba/9 p -> no ENOENT - -
setsockmac biba p -> no EINVAL - -
end
= source biba vnode:/ high
= source biba proc:t 9
= source biba socket:s 9
= source biba socket:d 9

another policy's part leaves the sources, and a check of a relabel moves none
boot mac_biba
boot mac_mls
file /a reg uid 0 gid 0 mode 644 label biba/9,mls/low text hi
task t uid 0 gid 0 label biba/8,mls/low
= boot mac_biba 0
= boot mac_mls 1
pipe p -> ok
read /a -> ok bytes 2 =hi
setpipemac mls/low p -> ok
fork c -> ok
@c setpmac biba/equal -> ok
end
= source biba vnode:/ high
= source biba vnode:/a 9
= source biba proc:t 8,9,high
= source biba pipe:p 8
= source biba proc:t.c -
= source mls vnode:/ low
= source mls vnode:/a low
= source mls proc:t low
= source mls pipe:p low
= source mls proc:t.c low

a pipe that is exempt for a while
boot mac_biba
task t uid 0 gid 0 label biba/5
= boot mac_biba 0
pipe p -> ok
pwrite p x -> ok
setpipemac biba/equal p -> ok
pwrite p x -> ok
setpipemac biba/7 p -> ok
setpipemac partition/none p -> no EINVAL - -
pread p -> ok bytes 2 =xx
end
= source biba vnode:/ high
= source biba proc:t 5,7
= source biba pipe:p 7
";

#[test]
fn manual_pages(rt: HostRuntime) -> Result<(), AllocError> {
    run_scenarios(&rt, rt.alloc(), "run", MANUAL_PAGES)
}

#[test]
fn relabels_of_processes(rt: HostRuntime) -> Result<(), AllocError> {
    run_scenarios(&rt, rt.alloc(), "run", PROCESSES)
}

#[test]
fn relabels_of_objects(rt: HostRuntime) -> Result<(), AllocError> {
    run_scenarios(&rt, rt.alloc(), "run", OBJECTS)
}
