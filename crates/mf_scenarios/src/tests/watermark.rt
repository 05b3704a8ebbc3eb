//! What mac_lomac answers, which labels it takes, whom it lowers, and what moves under it.

use crate::tests::transcript::run_scenarios;
use std::alloc::AllocError;

const PROCESSES: &str = "who lowers himself writes no more above himself
boot mac_lomac
file /hi reg uid 0 gid 0 mode 644 label -
task t uid 0 gid 0 label -
= boot mac_lomac 0
write /hi x -> ok
setpmac lomac/5 -> ok
write /hi x -> no EACCES vnode_open_write mac_lomac 2
setpmac lomac/high -> no EPERM cred_relabel mac_lomac 1
getpmac -> ok label lomac/5
read /hi -> ok bytes 1 =x
create /new -> no EACCES vnode_create mac_lomac 2
end
= source lomac vnode:/ high
= source lomac vnode:/hi high
= source lomac proc:t 5,high

no compartments, no range, and equal by who is equal
boot mac_lomac
task t uid 0 gid 0 label -
= boot mac_lomac 0
setpmac lomac/5:1 -> no EINVAL - -
setpmac lomac/(1-2) -> no EINVAL - -
setpmac lomac/5(1-9) -> no EINVAL - -
setpmac lomac/ -> no EINVAL - -
setpmac lomac/65536 -> no EINVAL - -
setpmac lomac/equal -> no EPERM cred_relabel mac_lomac 1
setpmac mls/5 -> no EINVAL - -
getpmac -> ok label lomac/high
setpmac lomac/lo,lomac/0065535 -> ok
getpmac -> ok label lomac/65535
end
= source lomac vnode:/ high
= source lomac proc:t 65535

an equal subject is bound by nothing, and lowered by nothing
boot mac_lomac
file /hi reg uid 0 gid 0 mode 644 label -
file /lo reg uid 0 gid 0 mode 644 label lomac/low text hi
task t uid 0 gid 0 label lomac/eq
= boot mac_lomac 0
read /lo -> ok bytes 2 =hi
write /hi x -> ok
setfmac lomac/equal /hi -> ok
setpmac lomac/high -> ok
setpmac lomac/equal -> no EPERM cred_relabel mac_lomac 1
setfmac lomac/9 /hi -> ok
getfmac /hi -> ok label lomac/9
end
= source lomac vnode:/ high
= source lomac vnode:/hi 9
= source lomac vnode:/lo low
= source lomac proc:t 9,high

others are seen, and acted on where they are no higher; who debugs sinks, and hands up what it had
boot mac_lomac
task t uid 0 gid 0 label lomac/5
= boot mac_lomac 0
see above -> ok
signal above -> no EACCES proc_signal mac_lomac 1
sched above -> no EACCES proc_sched mac_lomac 1
debug above -> no EACCES proc_debug mac_lomac 1
debug t -> ok
see below -> ok
signal below -> ok
sched below -> ok
getpmac -> ok label lomac/5
debug below -> ok
getpmac -> ok label lomac/3
end
task above uid 0 gid 0 label -
end
task below uid 0 gid 0 label lomac/3
end
= source lomac vnode:/ high
= source lomac proc:t 3,5
= source lomac proc:above high
= source lomac proc:below 3,5

who reads what is lower writes nothing higher any more, and doesn't rise again
boot mac_lomac
file /lo reg uid 0 gid 0 mode 644 label lomac/low text hi
file /hi reg uid 0 gid 0 mode 644 label -
task t uid 0 gid 0 label -
= boot mac_lomac 0
read /lo -> ok bytes 2 =hi
getpmac -> ok label lomac/low
write /hi x -> no EACCES vnode_open_write mac_lomac 2
setpmac lomac/high -> no EPERM cred_relabel mac_lomac 1
end
= source lomac vnode:/ high
= source lomac vnode:/lo low
= source lomac vnode:/hi high
= source lomac proc:t low,high

a check finds the caller as those before it leave it, and who is denied stays lowered
boot mac_lomac
file /d dir uid 0 gid 0 mode 755 label lomac/5
file /d/f reg uid 0 gid 0 mode 644 label lomac/9
task t uid 0 gid 0 label lomac/9
= boot mac_lomac 0
write /d/f x -> no EACCES vnode_open_write mac_lomac 3
getpmac -> ok label lomac/5
unlink /d/f -> no EACCES vnode_unlink mac_lomac 4
end
= source lomac vnode:/ high
= source lomac vnode:/d 5,9,high
= source lomac vnode:/d/f 9
= source lomac proc:t 5,9,high

a call that is refused lowers its caller, and so does one that another policy denies
boot mac_biba
boot mac_lomac
file /d dir uid 0 gid 0 mode 755 label lomac/8
file /d/f reg uid 0 gid 0 mode 644 label biba/low,lomac/4
file /e dir uid 0 gid 0 mode 755 label lomac/6
task t uid 0 gid 0 label -
= boot mac_biba 0
= boot mac_lomac 1
read /d/f -> no EACCES vnode_open_read mac_biba 3
getpmac -> ok label biba/high(low-high),lomac/8
read /e/none -> no ENOENT - -
getpmac -> ok label biba/high(low-high),lomac/6
setfmac lomac/5 /d/f -> ok
getpmac -> ok label biba/high(low-high),lomac/6
end
= source biba vnode:/ high
= source biba vnode:/d high
= source biba vnode:/d/f low
= source biba vnode:/e high
= source biba proc:t high
= source lomac vnode:/ high
= source lomac vnode:/d 8
= source lomac vnode:/d/f 5
= source lomac vnode:/e 6
= source lomac proc:t 6,8,high

who is looked at lowers, and who is written to doesn't
boot mac_lomac
file /r reg uid 0 gid 0 mode 644 label lomac/3 text hi
file /x reg uid 0 gid 0 mode 755 label lomac/2
file /s dir uid 0 gid 0 mode 755 label lomac/1
task t uid 0 gid 0 label -
= boot mac_lomac 0
chmod /r 600 -> ok
write /r ! -> ok
pipe p -> ok
setpipemac lomac/8 p -> ok
socket s -> ok
setsockmac lomac/7 s -> ok
seesock s -> ok
pwrite p x -> ok
send s s x -> ok
getpmac -> ok label lomac/high
pstat p -> ok size 1
getpmac -> ok label lomac/8
recv s -> ok bytes 1 =x
getpmac -> ok label lomac/7
setpipemac lomac/6 p -> no EPERM pipe_relabel mac_lomac 1
stat /r -> ok stat reg uid 0 gid 0 mode 600 size 3
exec /x -> ok
getpmac -> ok label lomac/2
readdir /s -> ok names 0 -
getpmac -> ok label lomac/1
end
= source lomac vnode:/ high
= source lomac vnode:/r 3,high
= source lomac vnode:/x 2
= source lomac vnode:/s 1
= source lomac proc:t 1,2,3,7,8,high
= source lomac pipe:p 8,high
= source lomac socket:s 7,high
";

const OBJECTS: &str = "what is made has its maker's element
boot mac_lomac
file /d dir uid 0 gid 0 mode 755 label lomac/9
task t uid 0 gid 0 label lomac/9
= boot mac_lomac 0
create /d/f -> ok
getfmac /d/f -> ok label lomac/9
pipe p -> ok
fork c -> ok
@c getpmac -> ok label lomac/9
@c setpmac lomac/8 -> ok
@c pwrite p x -> no EACCES pipe_write mac_lomac 1
@c pread p -> no EAGAIN - -
@c pstat p -> ok size 0
@c write /d/f x -> no EACCES vnode_open_write mac_lomac 3
@c unlink /d/f -> no EACCES vnode_unlink_dir mac_lomac 3
unlink /d/f -> ok
end
= source lomac vnode:/ high
= source lomac vnode:/d 9,high
= source lomac proc:t 9,high
= source lomac pipe:p 9,high
= source lomac proc:t.c 8,9,high

what is made has the element that its maker has by then, also by the look-ups of the call that makes it
boot mac_lomac
file /d dir uid 0 gid 0 mode 755 label lomac/5
task t uid 0 gid 0 label lomac/9
= boot mac_lomac 0
fork b -> ok
create /d/f -> ok
getfmac /d/f -> ok label lomac/5
fork c -> ok
@c getpmac -> ok label lomac/5
pipe p -> ok
@b pwrite p x -> ok
@b pread p -> ok bytes 1 =x
@b getpmac -> ok label lomac/5
end
= source lomac vnode:/ high
= source lomac vnode:/d 5,9,high
= source lomac proc:t 5,9,high
= source lomac proc:t.b 5,9,high
= source lomac vnode:/d/f 5,9,high
= source lomac proc:t.c 5,9,high
= source lomac pipe:p 5,9,high

a socket that delivers is no caller
boot mac_lomac
task t uid 0 gid 0 label lomac/equal
= boot mac_lomac 0
socket s -> ok
socket d -> ok
setsockmac lomac/9 s -> ok
setsockmac lomac/5 d -> ok
send s d x -> no EACCES socket_deliver mac_lomac 2
setsockmac lomac/9 d -> ok
send s d x -> ok
recv d -> ok bytes 1 =x
getpmac -> ok label lomac/equal
end
= source lomac vnode:/ high
= source lomac proc:t -
= source lomac socket:s 9
= source lomac socket:d 9

messages go between sockets of one element
boot mac_lomac
task t uid 0 gid 0 label lomac/9
= boot mac_lomac 0
socket s -> ok
setpmac lomac/5 -> ok
socket d -> ok
send d s x -> no EACCES socket_deliver mac_lomac 2
send s d x -> no EACCES socket_send mac_lomac 1
seesock s -> ok
recv s -> no EAGAIN - -
send d d x -> ok
end
= source lomac vnode:/ high
= source lomac proc:t 5,9
= source lomac socket:s 9
= source lomac socket:d 5,9

who relabels gives and takes what he dominates
boot mac_lomac
file /f reg uid 0 gid 0 mode 644 label lomac/5
file /hi reg uid 0 gid 0 mode 644 label -
task t uid 0 gid 0 label lomac/9
= boot mac_lomac 0
setfmac lomac/high /f -> no EPERM vnode_relabel mac_lomac 2
setfmac lomac/9 /f -> ok
setfmac lomac/equal /f -> no EPERM vnode_relabel mac_lomac 2
setfmac lomac/low /hi -> no EPERM vnode_relabel mac_lomac 2
setfmac lomac/5:1 /f -> no EINVAL - -
pipe p -> ok
setpipemac lomac/10 p -> no EPERM pipe_relabel mac_lomac 1
setpipemac lomac/3 p -> ok
socket s -> ok
setsockmac lomac/10 s -> no EPERM socket_relabel mac_lomac 1
setsockmac lomac/3 s -> ok
getfmac /f -> ok label lomac/9
end
= source lomac vnode:/ high
= source lomac vnode:/f 9
= source lomac vnode:/hi high
= source lomac proc:t 9,high
= source lomac pipe:p 3
= source lomac socket:s 3

the old element is judged also without a part for mac_lomac, and one policy refuses for all
boot mac_biba
boot mac_lomac
file /hi reg uid 0 gid 0 mode 644 label -
task t uid 0 gid 0 label lomac/9
= boot mac_biba 0
= boot mac_lomac 1
setfmac biba/5 /hi -> no EPERM vnode_relabel mac_lomac 2
getfmac /hi -> ok label biba/high,lomac/high
setpmac biba/5 -> ok
getpmac -> ok label biba/5(low-high),lomac/9
end
= source biba vnode:/ high
= source biba vnode:/hi high
= source biba proc:t 5
= source lomac vnode:/ high
= source lomac vnode:/hi high
= source lomac proc:t 9,high

four modules label, and their parts have an order of their own
boot mac_partition
boot mac_lomac
boot mac_mls
boot mac_biba
task t uid 0 gid 0 label partition/7,lomac/9,mls/3
= boot mac_partition 0
= boot mac_lomac 1
= boot mac_mls 2
= boot mac_biba 3
getpmac -> ok label biba/high(low-high),mls/3(low-high),lomac/9,partition/7
getfmac / -> ok label biba/high,mls/low,lomac/high
kldstat -> ok modules mac_biba:3,mac_mls:2,mac_lomac:1,mac_partition:0
kldload mac_lomac -> no EBUSY - -
kldunload mac_lomac -> no EBUSY - -
kldunload mac_partition -> ok
kldload mac_partition -> no ENOMEM - -
end
= source biba vnode:/ high
= source biba proc:t high
= source mls vnode:/ low
= source mls proc:t low,3
= source lomac vnode:/ high
= source lomac proc:t 9,high
";

#[test]
fn watermark_of_processes(rt: HostRuntime) -> Result<(), AllocError> {
    run_scenarios(&rt, rt.alloc(), "run", PROCESSES)
}

#[test]
fn watermark_of_objects(rt: HostRuntime) -> Result<(), AllocError> {
    run_scenarios(&rt, rt.alloc(), "run", OBJECTS)
}
