//! Calls on open files where mac_biba is listed, with revocation and without.

use crate::calls::{is_said, run};
use crate::machine::{Machine, booted, revoke};
use mf_biba::Biba;
use mf_elem::Elem;
use std::alloc::{AllocError, Global};
use std::process::Abort;

/// Calls of a process that is high, with open files; the file of the last four is no longer high.
const OPEN: &str = "create /f -> ok
open /f rw -> ok fd 0
open /f r -> ok fd 1
close 0 -> ok
close 0 -> EBADF
fwrite 1 x -> EBADF
open /f w -> ok fd 0
fread 0 -> EBADF
fwrite 0 x -> ok
fread 1 -> ok
open / r -> EISDIR
fork c -> ok
@c fread 1 -> EBADF
@c close 0 -> EBADF
setfmac biba/5 /f -> ok
read /f -> EACCES vnode_open_read 2
open /f rw -> EACCES vnode_open_read 2
fwrite 0 x -> ok
";

/// The file is high again, and goes.
const CLOSED: &str = "setfmac biba/high /f -> ok
fread 1 -> ok
@c open /f r -> ok fd 0
unlink /f -> ok
fread 1 -> EBADF
close 0 -> EBADF
@c fread 0 -> EBADF
";

/// Does the calls; where the file is no longer high, a read through a descriptor is answered so.
fn keep_open(
    rt: &impl Abort,
    alloc: Global,
    machine: &mut Machine<Biba>,
    read: &str,
) -> Result<(), AllocError> {
    run(rt, alloc, machine, OPEN)?;
    is_said(rt, alloc, machine, "fread 1", read)?;
    run(rt, alloc, machine, CLOSED)
}

/// The same with revocation or without.
fn keep_open_where(
    rt: &impl Abort,
    alloc: Global,
    machine: &mut Machine<Biba>,
    is_revoked: bool,
    read: &str,
) -> Result<(), AllocError> {
    if is_revoked {
        revoke(alloc, machine)?;
    }
    keep_open(rt, alloc, machine, read)
}

/// The same from the beginning.
fn keep_open_anew(
    rt: &impl Abort,
    alloc: Global,
    is_revoked: bool,
    read: &str,
) -> Result<(), AllocError> {
    let mut machine = booted(rt, alloc, Elem::High, Elem::Low)?;
    keep_open_where(rt, alloc, &mut machine, is_revoked, read)
}

/// Whether revocation is on, and how a read of the open file is answered.
const READS: &[(bool, &str)] = &[(false, "ok"), (true, "EACCES vnode_read 1")];

#[test]
fn an_open_file_is_read_on_without_revocation(rt: HostRuntime) -> Result<(), AllocError> {
    for (is_revoked, read) in READS {
        keep_open_anew(&rt, rt.alloc(), *is_revoked, read)?;
    }
    Ok(())
}
