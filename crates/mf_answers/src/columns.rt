//! The table of operations, a column a function: what policies test for each.
ghost use Rattle.std.specs.Prelude.{◌≡◌};
ghost use Rattle.mf_policy.specs.Lowering.{observes};
ghost use Rattle.mf_policy.specs.Operations.{is_transfer, row_of};
ghost use Rattle.mf_policy.specs.Ports.{is_on_process};

use mf_errno::Errno;
use mf_item::CheckOp;
use mf_policy::{PartitionTest, Test};
use mf_rule::{ADMINISTER, EXECUTE, READ, STAT, WRITE};

/// What mac_biba(4), mac_mls(4) and mac_lomac(4) test. An object that the subject may not observe is hidden from it with ENOENT
/// where it is a socket, and with ESRCH where it is a process; else it is denied with EACCES.
pub fn test_of(op: CheckOp) -> Test
    ensures { result ≡ (row_of op).test }
{
    match op {
        CheckOp::VnodeLookup
        | CheckOp::VnodeOpenRead
        | CheckOp::VnodeRead
        | CheckOp::VnodeExec
        | CheckOp::VnodeStat
        | CheckOp::VnodeReaddir
        | CheckOp::PipeRead
        | CheckOp::PipeStat
        | CheckOp::SocketReceive => Test::Observe(Errno::Eacces),
        CheckOp::SocketVisible => Test::Observe(Errno::Enoent),
        CheckOp::ProcVisible => Test::Observe(Errno::Esrch),
        CheckOp::VnodeOpenWrite
        | CheckOp::VnodeWrite
        | CheckOp::VnodeCreate
        | CheckOp::VnodeUnlinkDir
        | CheckOp::VnodeUnlink
        | CheckOp::VnodeSetmode
        | CheckOp::PipeWrite
        | CheckOp::SocketSend => Test::Modify,
        CheckOp::SocketDeliver => Test::SameLevel,
        CheckOp::ProcSignal | CheckOp::ProcDebug | CheckOp::ProcSched => Test::ObserveAndModify,
        CheckOp::VnodeRelabel | CheckOp::PipeRelabel | CheckOp::SocketRelabel =>
            Test::RelabelObject,
        CheckOp::CredRelabel => Test::RelabelCredential,
        CheckOp::KldLoad | CheckOp::KldUnload => Test::GuardModules,
        CheckOp::SocketBind | CheckOp::Priv => Test::Pass,
    }
}

/// What mac_partition(4) tests: sockets and processes of other partitions aren't seen.
pub fn partition_test_of(op: CheckOp) -> PartitionTest
    ensures { result ≡ (row_of op).partition }
{
    match op {
        CheckOp::SocketVisible => PartitionTest::Agree(Errno::Enoent),
        CheckOp::ProcVisible | CheckOp::ProcSignal | CheckOp::ProcDebug | CheckOp::ProcSched => {
            PartitionTest::Agree(Errno::Esrch)
        }
        CheckOp::CredRelabel => PartitionTest::Join,
        CheckOp::VnodeLookup
        | CheckOp::VnodeOpenRead
        | CheckOp::VnodeOpenWrite
        | CheckOp::VnodeRead
        | CheckOp::VnodeWrite
        | CheckOp::VnodeExec
        | CheckOp::VnodeStat
        | CheckOp::VnodeReaddir
        | CheckOp::VnodeCreate
        | CheckOp::VnodeUnlinkDir
        | CheckOp::VnodeUnlink
        | CheckOp::VnodeSetmode
        | CheckOp::VnodeRelabel
        | CheckOp::PipeRead
        | CheckOp::PipeWrite
        | CheckOp::PipeStat
        | CheckOp::PipeRelabel
        | CheckOp::SocketSend
        | CheckOp::SocketDeliver
        | CheckOp::SocketReceive
        | CheckOp::SocketRelabel
        | CheckOp::SocketBind
        | CheckOp::KldLoad
        | CheckOp::KldUnload
        | CheckOp::Priv => PartitionTest::Ignore,
    }
}

/// The letters of ugidfw(8) that the rules of mac_bsdextended(4) have to give, which may be none. None where the rules aren't
/// asked, as for what is no file.
pub fn letters_of(op: CheckOp) -> Option<u8>
    ensures { result ≡ (row_of op).letters }
{
    match op {
        CheckOp::VnodeLookup => Some(EXECUTE),
        CheckOp::VnodeOpenRead | CheckOp::VnodeReaddir => Some(READ),
        CheckOp::VnodeOpenWrite
        | CheckOp::VnodeCreate
        | CheckOp::VnodeUnlinkDir
        | CheckOp::VnodeUnlink => Some(WRITE),
        CheckOp::VnodeRead | CheckOp::VnodeWrite => Some(0),
        CheckOp::VnodeExec => Some(READ | EXECUTE),
        CheckOp::VnodeStat => Some(STAT),
        CheckOp::VnodeSetmode => Some(ADMINISTER),
        CheckOp::VnodeRelabel
        | CheckOp::PipeRead
        | CheckOp::PipeWrite
        | CheckOp::PipeStat
        | CheckOp::PipeRelabel
        | CheckOp::SocketSend
        | CheckOp::SocketDeliver
        | CheckOp::SocketReceive
        | CheckOp::SocketVisible
        | CheckOp::SocketRelabel
        | CheckOp::SocketBind
        | CheckOp::CredRelabel
        | CheckOp::ProcVisible
        | CheckOp::ProcSignal
        | CheckOp::ProcDebug
        | CheckOp::ProcSched
        | CheckOp::KldLoad
        | CheckOp::KldUnload
        | CheckOp::Priv => None,
    }
}

/// Whether the operation is a transfer of bytes through an open file.
pub fn is_transfer(op: CheckOp) -> bool
    ensures { result ≡ is_transfer op }
{
    matches!(op, CheckOp::VnodeRead | CheckOp::VnodeWrite)
}

/// Whether a process does the operation to another.
pub fn is_on_process(op: CheckOp) -> bool
    ensures { result ≡ is_on_process op }
{
    matches!(
        op,
        CheckOp::ProcVisible | CheckOp::ProcSignal | CheckOp::ProcDebug | CheckOp::ProcSched
    )
}

/// Whether information moves from the object to the subject.
pub fn moves_to_subject(op: CheckOp) -> bool
    ensures { result ≡ observes (row_of op).movement }
{
    matches!(
        op,
        CheckOp::VnodeLookup
            | CheckOp::VnodeOpenRead
            | CheckOp::VnodeRead
            | CheckOp::VnodeExec
            | CheckOp::VnodeStat
            | CheckOp::VnodeReaddir
            | CheckOp::PipeRead
            | CheckOp::PipeStat
            | CheckOp::SocketReceive
            | CheckOp::ProcDebug
    )
}
