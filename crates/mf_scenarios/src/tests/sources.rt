//! What flowed into each party.

use crate::tests::transcript::run_scenarios;
use std::alloc::AllocError;

const FLOWS: &str = "who is exempt hands nothing on
boot mac_biba
file /lo reg uid 0 gid 0 mode 644 label biba/low text hi
file /hi reg uid 0 gid 0 mode 644 label biba/high
task t uid 0 gid 0 label biba/equal
= boot mac_biba 0
read /lo -> ok bytes 2 =hi
write /hi hi -> ok
end
= source biba vnode:/ high
= source biba vnode:/lo low
= source biba vnode:/hi high
= source biba proc:t -

the look-up of a write that is denied counts
boot mac_biba
file /a reg uid 0 gid 0 mode 644 label biba/9
task t uid 0 gid 0 label biba/5
= boot mac_biba 0
write /a x -> no EACCES vnode_open_write mac_biba 2
end
= source biba vnode:/ high
= source biba vnode:/a 9
= source biba proc:t 5,high

what is made has its maker's sources, and what was made before has not
boot mac_biba
file /a reg uid 0 gid 0 mode 644 label biba/9:1 text hi
task t uid 0 gid 0 label biba/5
= boot mac_biba 0
fork b -> ok
read /a -> ok bytes 2 =hi
fork c -> ok
pipe p -> ok
end
= source biba vnode:/ high
= source biba vnode:/a 9:1
= source biba proc:t 5,9:1,high
= source biba proc:t.b 5
= source biba proc:t.c 5,9:1,high
= source biba pipe:p 5,9:1,high

a chain over three parties
boot mac_biba
file /a reg uid 0 gid 0 mode 644 label biba/9 text hi
task t uid 0 gid 0 label biba/5
= boot mac_biba 0
fork c -> ok
pipe p -> ok
socket s -> ok
read /a -> ok bytes 2 =hi
pwrite p x -> ok
@c pread p -> ok bytes 1 =x
end
= source biba vnode:/ high
= source biba vnode:/a 9
= source biba proc:t 5,9,high
= source biba proc:t.c 5,9,high
= source biba pipe:p 5,9,high
= source biba socket:s 5

a process and the one that debugs it have what either had
boot mac_biba
file /a reg uid 0 gid 0 mode 644 label biba/8 text hi
file /b reg uid 0 gid 0 mode 644 label biba/9 text ho
task t uid 0 gid 0 label biba/5
= boot mac_biba 0
fork c -> ok
read /a -> ok bytes 2 =hi
@c read /b -> ok bytes 2 =ho
debug t.c -> ok
end
= source biba vnode:/ high
= source biba vnode:/a 8
= source biba vnode:/b 9
= source biba proc:t 5,8,9,high
= source biba proc:t.c 5,8,9,high
";

#[test]
fn flows(rt: HostRuntime) -> Result<(), AllocError> {
    run_scenarios(&rt, rt.alloc(), "run", FLOWS)
}
