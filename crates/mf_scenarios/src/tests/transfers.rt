//! Which transfers through descriptors count as movements.

use crate::tests::limits::{Fill, are_answered};
use crate::tests::transcript::run_scenarios;
use crate::tests::wants_that;
use std::alloc::AllocError;

const COUNTED: &str = "none counts after the process got another element
boot mac_biba
file /f reg uid 0 gid 0 mode 644 label biba/9 text hi
task t uid 0 gid 0 label biba/5
= boot mac_biba 0
open /f r -> ok fd 0
setpmac biba/6 -> ok
fread 0 -> ok bytes 2 =hi
end
= source biba vnode:/ high
= source biba vnode:/f 9
= source biba proc:t 6

one counts once the element is back
boot mac_biba
file /f reg uid 0 gid 0 mode 644 label biba/9 text hi
task t uid 0 gid 0 label biba/5
= boot mac_biba 0
open /f r -> ok fd 0
setpmac biba/6 -> ok
fread 0 -> ok bytes 2 =hi
setpmac biba/5 -> ok
fread 0 -> ok bytes 2 =hi
end
= source biba vnode:/ high
= source biba vnode:/f 9
= source biba proc:t 5,9

the same element, and a range alone, are no other element
boot mac_biba
file /f reg uid 0 gid 0 mode 644 label biba/3 text hi
task t uid 0 gid 0 label biba/5
= boot mac_biba 0
open /f w -> ok fd 0
setfmac biba/3 /f -> ok
setpmac biba/(1-9) -> ok
fwrite 0 x -> ok
end
= source biba vnode:/ high
= source biba vnode:/f 3,5,high
= source biba proc:t 5,high

none counts after the file got another element
boot mac_biba
file /f reg uid 0 gid 0 mode 644 label biba/3 text hi
task t uid 0 gid 0 label biba/5
= boot mac_biba 0
open /f w -> ok fd 0
setfmac biba/2 /f -> ok
fwrite 0 x -> ok
end
= source biba vnode:/ high
= source biba vnode:/f 2
= source biba proc:t 5,high

with revocation each counts that is allowed
boot mac_biba
tunable security.mac.biba.revocation_enabled=1
file /f reg uid 0 gid 0 mode 644 label biba/3 text hi
task t uid 0 gid 0 label biba/5
= boot mac_biba 0
open /f w -> ok fd 0
setfmac biba/2 /f -> ok
fwrite 0 x -> ok
end
= source biba vnode:/ high
= source biba vnode:/f 2,5,high
= source biba proc:t 5,high

for mac_mls each counts, also where it doesn't for mac_biba
boot mac_biba
boot mac_mls
file /f reg uid 0 gid 0 mode 644 label biba/9,mls/3 text hi
task t uid 0 gid 0 label biba/5,mls/5
= boot mac_biba 0
= boot mac_mls 1
open /f r -> ok fd 0
setfmac biba/2,mls/4 /f -> ok
fread 0 -> ok bytes 2 =hi
end
= source biba vnode:/ high
= source biba vnode:/f 2
= source biba proc:t 5,9,high
= source mls vnode:/ low
= source mls vnode:/f 4
= source mls proc:t low,3,4,5

for mac_lomac each counts, also where it doesn't for mac_biba
boot mac_biba
boot mac_lomac
file /f reg uid 0 gid 0 mode 644 label biba/3,lomac/5 text hi
task t uid 0 gid 0 label biba/5,lomac/5
= boot mac_biba 0
= boot mac_lomac 1
open /f w -> ok fd 0
setfmac biba/2,lomac/4 /f -> ok
fwrite 0 x -> ok
end
= source biba vnode:/ high
= source biba vnode:/f 2
= source biba proc:t 5,high
= source lomac vnode:/ high
= source lomac vnode:/f 4,5,high
= source lomac proc:t 5,high

who reads through a descriptor is lowered by mac_lomac
boot mac_lomac
file /f reg uid 0 gid 0 mode 644 label lomac/5 text hi
task t uid 0 gid 0 label lomac/5
= boot mac_lomac 0
open /f rw -> ok fd 0
setfmac lomac/4 /f -> ok
fread 0 -> ok bytes 2 =hi
getpmac -> ok label lomac/4
fwrite 0 x -> ok
end
= source lomac vnode:/ high
= source lomac vnode:/f 4,5,high
= source lomac proc:t 4,5,high

a file that is relabelled and back has the element of the opening
boot mac_biba
file /f reg uid 0 gid 0 mode 644 label biba/3 text hi
task t uid 0 gid 0 label biba/5
= boot mac_biba 0
open /f w -> ok fd 0
setfmac biba/2 /f -> ok
fwrite 0 x -> ok
setfmac biba/3 /f -> ok
fwrite 0 x -> ok
end
= source biba vnode:/ high
= source biba vnode:/f 3,5,high
= source biba proc:t 5,high

who was equal at the opening hands nothing on as another
boot mac_biba
file /f reg uid 0 gid 0 mode 644 label biba/3 text hi
task t uid 0 gid 0 label biba/equal(low-high)
= boot mac_biba 0
open /f w -> ok fd 0
setpmac biba/5 -> ok
fwrite 0 x -> ok
end
= source biba vnode:/ high
= source biba vnode:/f 3
= source biba proc:t 5

what was equal at the opening gets nothing as another
boot mac_biba
file /f reg uid 0 gid 0 mode 644 label biba/equal text hi
task t uid 0 gid 0 label biba/5
= boot mac_biba 0
open /f w -> ok fd 0
setfmac biba/3 /f -> ok
fwrite 0 x -> ok
end
= source biba vnode:/ high
= source biba vnode:/f 3
= source biba proc:t 5,high

compartments in another order are the same element
boot mac_biba
file /f reg uid 0 gid 0 mode 644 label biba/3:1+2 text hi
task t uid 0 gid 0 label biba/5:2+1
= boot mac_biba 0
open /f w -> ok fd 0
setfmac biba/3:2+1 /f -> ok
setpmac biba/5:1+2 -> ok
fwrite 0 x -> ok
end
= source biba vnode:/ high
= source biba vnode:/f 3:1+2,5:1+2
= source biba proc:t 5:1+2
";

/// A file that is filled by its name.
const WITH_FILE: &str = "boot mac_biba
file /f reg uid 0 gid 0 mode 644 label biba/3
task t uid 0 gid 0 label biba/5
= boot mac_biba 0
";

/// A relabel takes what the file had. What is written then is too much, and counts all the same, since it passed its check.
const REFUSED: &[Fill] = &[Fill {
    line: "write /f ",
    letters: 65_536,
    reply: "ok",
    from: 0,
    to: 1,
    behind: "open /f w -> ok fd 0
setfmac biba/2 /f -> ok
setfmac biba/3 /f -> ok
fwrite 0 a -> no EFBIG - -
= source biba vnode:/ high
= source biba vnode:/f 3,5,high
= source biba proc:t 5,high
",
}];

#[test]
fn transfers_that_count(rt: HostRuntime) -> Result<(), AllocError> {
    let holds = are_answered(&rt, rt.alloc(), WITH_FILE, REFUSED)?;
    wants_that(&rt, "a transfer that is refused after its check", holds);
    run_scenarios(&rt, rt.alloc(), "run", COUNTED)
}
