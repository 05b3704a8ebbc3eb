//! Files that are open: what is asked through them, what a relabel changes, and what a file and a process take along.

use crate::tests::transcript::run_scenarios;
use std::alloc::AllocError;

const RELABELLED: &str = "without revocation an open file is read on
boot mac_biba
file /f reg uid 0 gid 0 mode 644 label biba/high text hi
task t uid 0 gid 0 label biba/high
= boot mac_biba 0
open /f r -> ok fd 0
setfmac biba/low /f -> ok
fread 0 -> ok bytes 2 =hi
fwrite 0 x -> no EBADF - -
close 0 -> ok
close 0 -> no EBADF - -
end
= source biba vnode:/ high
= source biba vnode:/f low
= source biba proc:t high

the tunable may say so too
boot mac_biba
tunable security.mac.biba.revocation_enabled=0
file /f reg uid 0 gid 0 mode 644 label biba/high text hi
task t uid 0 gid 0 label biba/high
= boot mac_biba 0
open /f r -> ok fd 0
setfmac biba/low /f -> ok
fread 0 -> ok bytes 2 =hi
read /f -> no EACCES vnode_open_read mac_biba 2
end
= source biba vnode:/ high
= source biba vnode:/f low
= source biba proc:t high

with revocation it isn't
boot mac_biba
tunable security.mac.biba.revocation_enabled=1
file /f reg uid 0 gid 0 mode 644 label biba/high text hi
task t uid 0 gid 0 label biba/high
= boot mac_biba 0
open /f r -> ok fd 0
setfmac biba/low /f -> ok
fread 0 -> no EACCES vnode_read mac_biba 1
fwrite 0 x -> no EBADF - -
close 0 -> ok
close 0 -> no EBADF - -
end
= source biba vnode:/ high
= source biba vnode:/f low
= source biba proc:t high

with revocation it is again once the label is back
boot mac_biba
tunable security.mac.biba.revocation_enabled=1
file /f reg uid 0 gid 0 mode 644 label biba/high text hi
task t uid 0 gid 0 label biba/high
= boot mac_biba 0
open /f r -> ok fd 0
setfmac biba/low /f -> ok
fread 0 -> no EACCES vnode_read mac_biba 1
setfmac biba/high /f -> ok
fread 0 -> ok bytes 2 =hi
setpmac biba/equal -> ok
setfmac biba/low /f -> ok
fread 0 -> ok bytes 2 =hi
end
= source biba vnode:/ high
= source biba vnode:/f low
= source biba proc:t -

a write that is denied writes nothing and moves nothing
boot mac_biba
tunable security.mac.biba.revocation_enabled=1
file /f reg uid 0 gid 0 mode 644 label biba/3 text hi
task t uid 0 gid 0 label biba/5
= boot mac_biba 0
open /f w -> ok fd 0
setfmac biba/9 /f -> ok
fwrite 0 x -> no EACCES vnode_write mac_biba 1
stat /f -> ok stat reg uid 0 gid 0 mode 644 size 2
end
= source biba vnode:/ high
= source biba vnode:/f 9
= source biba proc:t 5,9,high

mac_mls has revocation always
boot mac_mls
file /f reg uid 0 gid 0 mode 644 label mls/3 text hi
task t uid 0 gid 0 label mls/5
= boot mac_mls 0
open /f r -> ok fd 0
setfmac mls/7 /f -> ok
fread 0 -> no EACCES vnode_read mac_mls 1
setfmac mls/4 /f -> ok
fread 0 -> ok bytes 2 =hi
end
= source mls vnode:/ low
= source mls vnode:/f 4
= source mls proc:t low,3,4,5

so has mac_lomac, which lowers who reads
boot mac_lomac
file /f reg uid 0 gid 0 mode 644 label lomac/9 text hi
file /g reg uid 0 gid 0 mode 644 label lomac/9
task t uid 0 gid 0 label lomac/9
= boot mac_lomac 0
open /f r -> ok fd 0
open /g w -> ok fd 1
fwrite 1 x -> ok
setfmac lomac/3 /f -> ok
fread 0 -> ok bytes 2 =hi
getpmac -> ok label lomac/3
fwrite 1 x -> no EACCES vnode_write mac_lomac 1
end
= source lomac vnode:/ high
= source lomac vnode:/f 3
= source lomac vnode:/g 9,high
= source lomac proc:t 3,9,high
";

/// Which transfers count, of a process of `biba/5` and a file of `biba/9` or `biba/3`.
const NUMBERS: &str = "sixteen, and all go with their file
boot mac_biba
file /f reg uid 0 gid 0 mode 644 label biba/high text hi
task t uid 0 gid 0 label biba/high
= boot mac_biba 0
open /f r -> ok fd 0
open /f w -> ok fd 1
open /f rw -> ok fd 2
open /f r -> ok fd 3
open /f r -> ok fd 4
open /f r -> ok fd 5
open /f r -> ok fd 6
open /f r -> ok fd 7
open /f r -> ok fd 8
open /f r -> ok fd 9
open /f r -> ok fd 10
open /f r -> ok fd 11
open /f r -> ok fd 12
open /f r -> ok fd 13
open /f r -> ok fd 14
open /f r -> ok fd 15
open /f r -> no EMFILE - -
open / r -> no EISDIR - -
open /g r -> no ENOENT - -
unlink /f -> ok
fread 0 -> no EBADF - -
close 15 -> no EBADF - -
create /f -> ok
open /f w -> ok fd 0
close 0 -> ok
end
= source biba vnode:/ high
= source biba proc:t high
= source biba vnode:/f high

the seventeenth
boot mac_biba
tunable security.mac.biba.revocation_enabled=1
file /f reg uid 0 gid 0 mode 644 label biba/high text hi
task t uid 0 gid 0 label biba/high
= boot mac_biba 0
open /f r -> ok fd 0
open /f r -> ok fd 1
open /f r -> ok fd 2
open /f r -> ok fd 3
open /f r -> ok fd 4
open /f r -> ok fd 5
open /f r -> ok fd 6
open /f r -> ok fd 7
open /f r -> ok fd 8
open /f r -> ok fd 9
open /f r -> ok fd 10
open /f r -> ok fd 11
open /f r -> ok fd 12
open /f r -> ok fd 13
open /f r -> ok fd 14
open /f r -> ok fd 15
open /f r -> no EMFILE - -
end
= source biba vnode:/ high
= source biba vnode:/f high
= source biba proc:t high

reading is asked before writing
boot mac_biba
file /hi reg uid 0 gid 0 mode 644 label biba/9
file /lo reg uid 0 gid 0 mode 644 label biba/3
task t uid 0 gid 0 label biba/5
= boot mac_biba 0
open /lo rw -> no EACCES vnode_open_read mac_biba 2
open /hi rw -> no EACCES vnode_open_write mac_biba 3
fread 0 -> no EBADF - -
end
= source biba vnode:/ high
= source biba vnode:/hi 9
= source biba vnode:/lo 3
= source biba proc:t 5,9,high

the lowest number that is free
boot mac_biba
file /f reg uid 0 gid 0 mode 644 label biba/high text hi
task t uid 0 gid 0 label biba/high
= boot mac_biba 0
open /f r -> ok fd 0
open /f w -> ok fd 1
open /f rw -> ok fd 2
close 1 -> ok
close 0 -> ok
open /f rw -> ok fd 0
open /f r -> ok fd 1
open /f r -> ok fd 3
fwrite 1 x -> no EBADF - -
fwrite 0 ! -> ok
fread 3 -> ok bytes 3 =hi!
fread 1 -> ok bytes 3 =hi!
end
= source biba vnode:/ high
= source biba vnode:/f high
= source biba proc:t high

a child has none, and one that exits leaves none
boot mac_biba
file /f reg uid 0 gid 0 mode 644 label biba/high text hi
task t uid 0 gid 0 label biba/high
= boot mac_biba 0
open /f r -> ok fd 0
fork c -> ok
@c fread 0 -> no EBADF - -
@c open /f r -> ok fd 0
@c open /f r -> ok fd 1
close 0 -> ok
@c fread 0 -> ok bytes 2 =hi
@c exit -> ok
@c fread 0 -> no ESRCH - -
fork c -> ok
@c fread 1 -> no EBADF - -
@c exit -> ok
end
= source biba vnode:/ high
= source biba vnode:/f high
= source biba proc:t high

a file that goes takes those of all processes along, and no other
boot mac_biba
file /f reg uid 0 gid 0 mode 644 label biba/high text hi
file /g reg uid 0 gid 0 mode 644 label biba/high text ho
task t uid 0 gid 0 label biba/high
= boot mac_biba 0
fork c -> ok
@c open /g r -> ok fd 0
@c open /f r -> ok fd 1
open /g rw -> ok fd 0
unlink /g -> ok
@c fread 0 -> no EBADF - -
@c fread 1 -> ok bytes 2 =hi
fwrite 0 x -> no EBADF - -
@c open /f r -> ok fd 0
@c exit -> ok
end
= source biba vnode:/ high
= source biba vnode:/f high
= source biba proc:t high
";

#[test]
fn relabels_and_open_files(rt: HostRuntime) -> Result<(), AllocError> {
    run_scenarios(&rt, rt.alloc(), "run", RELABELLED)
}

#[test]
fn numbers_of_descriptors(rt: HostRuntime) -> Result<(), AllocError> {
    run_scenarios(&rt, rt.alloc(), "run", NUMBERS)
}
