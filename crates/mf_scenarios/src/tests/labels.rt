//! Labels as `getpmac` and `getfmac` show them.

use crate::tests::transcript::run_scenarios;
use std::alloc::AllocError;

const LABELS: &str = "the canonical text, a denial, and a caller that is gone
boot mac_biba
file /a reg uid 0 gid 0 mode 644 label biba/low
task t uid 0 gid 0 label biba/010:3+2+06(5:2+3-20:6+5+4+3+2)
= boot mac_biba 0
getpmac -> ok label biba/10:2+3+6(5:2+3-20:2+3+4+5+6)
getfmac / -> ok label biba/high
getfmac /a -> no EACCES vnode_stat mac_biba 2
fork c -> ok
@c exit -> ok
@c getpmac -> no ESRCH - -
end
= source biba vnode:/ high
= source biba vnode:/a low
= source biba proc:t 10:2+3+6,high

the parts have an order of their own, and a file has no partition
boot mac_partition
boot mac_mls
boot mac_biba
task t uid 0 gid 0 label partition/7,mls/3,biba/9(1-9)
= boot mac_partition 0
= boot mac_mls 1
= boot mac_biba 2
getpmac -> ok label biba/9(1-9),mls/3(low-high),partition/7
getfmac / -> ok label biba/high,mls/low
end
= source biba vnode:/ high
= source biba proc:t 9,high
= source mls vnode:/ low
= source mls proc:t low,3

a process older than mac_partition
boot mac_mls
task t uid 0 gid 0 label mls/5
= boot mac_mls 0
getpmac -> ok label mls/5(low-high)
kldload mac_partition -> ok slot 1
getpmac -> ok label mls/5(low-high),partition/none
fork c -> ok
@c getpmac -> ok label mls/5(low-high),partition/none
kldunload mac_partition -> ok
@c getpmac -> ok label mls/5(low-high)
end
= source mls vnode:/ low
= source mls proc:t 5
= source mls proc:t.c 5

a partition of the module as it was loaded before
boot mac_partition
task t uid 0 gid 0 label partition/3
= boot mac_partition 0
getpmac -> ok label partition/3
kldunload mac_partition -> ok
getpmac -> ok label -
kldload mac_partition -> ok slot 1
getpmac -> ok label partition/none
end

no policy, and one that labels nothing
task t uid 0 gid 0 label -
getpmac -> ok label -
kldload mac_bsdextended -> ok slot -
getfmac / -> ok label -
end
";

#[test]
fn labels(rt: HostRuntime) -> Result<(), AllocError> {
    run_scenarios(&rt, rt.alloc(), "run", LABELS)
}
