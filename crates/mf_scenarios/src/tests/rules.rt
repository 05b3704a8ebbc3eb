//! Rules about files, and their settings.

use crate::tests::transcript::run_scenarios;
use std::alloc::AllocError;

const DECISIONS: &str = "a tie of a static and a dynamic policy
boot mac_bsdextended
boot mac_biba
file /a reg uid 0 gid 0 mode 644 label biba/low text hi
task t uid 0 gid 0 label biba/high
= boot mac_bsdextended -
= boot mac_biba 0
ugidfw add subject uid 0 object type r mode n -> ok rule 0
read /a -> no EACCES vnode_open_read mac_biba 2
end
= source biba vnode:/ high
= source biba vnode:/a low
= source biba proc:t high

first match and all match
boot mac_bsdextended
file /f reg uid 0 gid 0 mode 644 label - text hi
task t uid 0 gid 0 label -
= boot mac_bsdextended -
ugidfw add subject uid 0 object type r mode r -> ok rule 0
ugidfw add subject uid 0 object type r mode n -> ok rule 1
read /f -> ok bytes 2 =hi
write /f x -> no EACCES vnode_open_write mac_bsdextended 2
sysctl security.mac.bsdextended.firstmatch_enabled=0 -> ok
read /f -> no EACCES vnode_open_read mac_bsdextended 2
ugidfw list -> ok rules 2 ; 0 subject uid 0 object type r mode r ; 1 subject uid 0 object type r mode n
end

rules change between two reads
boot mac_bsdextended
file /f reg uid 0 gid 0 mode 644 label - text hi
task t uid 0 gid 0 label -
= boot mac_bsdextended -
read /f -> ok bytes 2 =hi
ugidfw add subject object type r mode sw -> ok rule 0
read /f -> no EACCES vnode_open_read mac_bsdextended 2
stat /f -> ok stat reg uid 0 gid 0 mode 644 size 2
ugidfw set 0 subject ! uid 0 object mode n -> ok
read /f -> ok bytes 2 =hi
end
";

const SETTINGS: &str = "root alone changes settings, and that is judged first
boot mac_bsdextended
file /f reg uid 0 gid 0 mode 644 label - text hi
task t uid 1001 gid 1001 label -
= boot mac_bsdextended -
ugidfw add subject object mode n -> no EPERM - -
ugidfw remove 7 -> no EPERM - -
sysctl kern.hostname=x -> no EPERM - -
ugidfw list -> ok rules 0
read /f -> ok bytes 2 =hi
end

values and names of settings
boot mac_bsdextended
file /f reg uid 0 gid 0 mode 644 label - text hi
task t uid 0 gid 0 label -
= boot mac_bsdextended -
sysctl kern.hostname=2 -> no ENOENT - -
sysctl security.mac.bsdextended.firstmatch_enabled=2 -> no EINVAL - -
sysctl security.mac.bsdextended.firstmatch_enabled= -> no EINVAL - -
ugidfw set 249 subject object mode x -> ok
ugidfw remove 248 -> no ENOENT - -
ugidfw list -> ok rules 1 ; 249 subject object mode x
end

a policy that comes back is in its initial state
boot mac_bsdextended
file /f reg uid 0 gid 0 mode 644 label - text hi
task t uid 0 gid 0 label -
= boot mac_bsdextended -
ugidfw add subject object mode x -> ok rule 0
sysctl security.mac.bsdextended.firstmatch_enabled=0 -> ok
kldunload mac_bsdextended -> ok
ugidfw list -> no ENOENT - -
sysctl security.mac.bsdextended.firstmatch_enabled=2 -> no ENOENT - -
kldload mac_bsdextended -> ok slot -
ugidfw list -> ok rules 0
ugidfw add subject object mode arswx -> ok rule 0
ugidfw add subject object mode n -> ok rule 1
read /f -> ok bytes 2 =hi
end

nobody changes a tunable whose module is listed
boot mac_biba
tunable security.mac.biba.revocation_enabled=1
file /f reg uid 0 gid 0 mode 644 label biba/high text hi
task t uid 0 gid 0 label biba/high
= boot mac_biba 0
sysctl security.mac.biba.revocation_enabled=0 -> no EPERM - -
sysctl security.mac.biba.revocation_enabled=x -> no EPERM - -
sysctl security.mac.biba.enabled=0 -> no ENOENT - -
open /f r -> ok fd 0
setfmac biba/low /f -> ok
fread 0 -> no EACCES vnode_read mac_biba 1
end
= source biba vnode:/ high
= source biba vnode:/f low
= source biba proc:t high

nor does who isn't root
boot mac_biba
task t uid 1001 gid 1001 label biba/high
= boot mac_biba 0
sysctl security.mac.biba.revocation_enabled=1 -> no EPERM - -
end
= source biba vnode:/ high
= source biba proc:t high

there is none where mac_biba isn't listed
task t uid 0 gid 0 label -
sysctl security.mac.biba.revocation_enabled=1 -> no ENOENT - -
sysctl security.mac.biba.revocation_enabled=x -> no ENOENT - -
end

which who isn't root doesn't learn
task t uid 1001 gid 1001 label -
sysctl security.mac.biba.revocation_enabled=1 -> no EPERM - -
end
";

#[test]
fn decisions(rt: HostRuntime) -> Result<(), AllocError> {
    run_scenarios(&rt, rt.alloc(), "run", DECISIONS)
}

#[test]
fn settings(rt: HostRuntime) -> Result<(), AllocError> {
    run_scenarios(&rt, rt.alloc(), "run", SETTINGS)
}
