//! The table of operations: what policies test for each, which way each moves information, and which are transfers.
ghost use Rattle.std.specs.Prelude.{◌≡◌};
ghost use Rattle.mf_policy.specs.Operations as spec;

use Movement::{BothWays, Still, ToObject, ToSubject};
use PartitionTest::{Agree, Ignore, Join};
use Test::{
    GuardModules, Modify, Observe, ObserveAndModify, Pass, RelabelCredential, RelabelObject,
    SameLevel,
};
use mf_errno::Errno::{self, Eacces, Enoent, Esrch};
use mf_item::CheckOp;
use mf_rule::{ADMINISTER, EXECUTE, READ, STAT, WRITE};

/// What Biba, MLS and LOMAC test.
#[derive(Clone, Copy, PartialEq, Eq)]
pub enum Test {
    /// The subject may observe the object, else this error.
    Observe(Errno),
    /// The subject may modify the object, else EACCES.
    Modify,
    /// ESRCH where the subject may not observe the object, else EACCES where it may not modify it.
    ObserveAndModify,
    /// Subject and object are of one level, else EACCES.
    SameLevel,
    /// The rules for a relabel of an object.
    RelabelObject,
    /// The rules for a relabel of the subject's own credential.
    RelabelCredential,
    /// For a policy that guards the kernel's modules: the subject is privileged, else EPERM.
    GuardModules,
    /// Nothing.
    Pass,
}

/// What the partition policy tests.
#[derive(Clone, Copy)]
pub enum PartitionTest {
    /// The subject's partition agrees with the object's, else this error.
    Agree(Errno),
    /// The rule for a relabel of the subject's own credential.
    Join,
    /// Nothing.
    Ignore,
}

/// Which way information moves where the operation is allowed.
#[derive(Clone, Copy, PartialEq, Eq)]
pub enum Movement {
    Still,
    ToSubject,
    ToObject,
    BothWays,
}

/// A row of the table.
#[derive(Clone, Copy)]
pub struct Row {
    pub test: Test,
    pub partition: PartitionTest,
    /// The letters of ugidfw(8) that rules about files have to give, all of them; none may be asked for. None where they aren't asked.
    pub letters: Option<u8>,
    pub movement: Movement,
    /// Whether it is a transfer of bytes through an open file.
    pub transfer: bool,
}

impl Row {
    fn of(test: Test, partition: PartitionTest, letters: Option<u8>, movement: Movement) -> Row
        ensures { result ≡ spec.row test partition letters movement }
    {
        Row {
            test,
            partition,
            letters,
            movement,
            transfer: false,
        }
    }

    fn as_transfer(self) -> Row
        ensures { result ≡ spec.as_transfer self }
    {
        Row {
            transfer: true,
            ..self
        }
    }
}

/// The row of an operation. The movements are those of mac_biba(4), mac_mls(4) and mac_lomac(4): an operation that observes
/// moves to the subject, one that modifies to the object.
pub fn row_of(op: CheckOp) -> Row
    ensures { result ≡ spec.row_of op }
{
    match op {
        CheckOp::VnodeLookup => Row::of(Observe(Eacces), Ignore, Some(EXECUTE), ToSubject),
        CheckOp::VnodeOpenRead => Row::of(Observe(Eacces), Ignore, Some(READ), ToSubject),
        CheckOp::VnodeOpenWrite => Row::of(Modify, Ignore, Some(WRITE), ToObject),
        CheckOp::VnodeRead => Row::of(Observe(Eacces), Ignore, Some(0), ToSubject).as_transfer(),
        CheckOp::VnodeWrite => Row::of(Modify, Ignore, Some(0), ToObject).as_transfer(),
        CheckOp::VnodeExec => Row::of(Observe(Eacces), Ignore, Some(READ | EXECUTE), ToSubject),
        CheckOp::VnodeStat => Row::of(Observe(Eacces), Ignore, Some(STAT), ToSubject),
        CheckOp::VnodeReaddir => Row::of(Observe(Eacces), Ignore, Some(READ), ToSubject),
        CheckOp::VnodeCreate => Row::of(Modify, Ignore, Some(WRITE), ToObject),
        CheckOp::VnodeUnlinkDir => Row::of(Modify, Ignore, Some(WRITE), ToObject),
        CheckOp::VnodeUnlink => Row::of(Modify, Ignore, Some(WRITE), ToObject),
        CheckOp::VnodeSetmode => Row::of(Modify, Ignore, Some(ADMINISTER), ToObject),
        CheckOp::VnodeRelabel => Row::of(RelabelObject, Ignore, None, Still),
        CheckOp::PipeRead => Row::of(Observe(Eacces), Ignore, None, ToSubject),
        CheckOp::PipeWrite => Row::of(Modify, Ignore, None, ToObject),
        CheckOp::PipeStat => Row::of(Observe(Eacces), Ignore, None, ToSubject),
        CheckOp::PipeRelabel => Row::of(RelabelObject, Ignore, None, Still),
        CheckOp::SocketSend => Row::of(Modify, Ignore, None, ToObject),
        CheckOp::SocketDeliver => Row::of(SameLevel, Ignore, None, ToObject),
        CheckOp::SocketReceive => Row::of(Observe(Eacces), Ignore, None, ToSubject),
        CheckOp::SocketVisible => Row::of(Observe(Enoent), Agree(Enoent), None, Still),
        CheckOp::SocketRelabel => Row::of(RelabelObject, Ignore, None, Still),
        CheckOp::SocketBind => Row::of(Pass, Ignore, None, Still),
        CheckOp::CredRelabel => Row::of(RelabelCredential, Join, None, Still),
        CheckOp::ProcVisible => Row::of(Observe(Esrch), Agree(Esrch), None, Still),
        CheckOp::ProcSignal => Row::of(ObserveAndModify, Agree(Esrch), None, ToObject),
        CheckOp::ProcDebug => Row::of(ObserveAndModify, Agree(Esrch), None, BothWays),
        CheckOp::ProcSched => Row::of(ObserveAndModify, Agree(Esrch), None, ToObject),
        CheckOp::KldLoad => Row::of(GuardModules, Ignore, None, Still),
        CheckOp::KldUnload => Row::of(GuardModules, Ignore, None, Still),
        CheckOp::Priv => Row::of(Pass, Ignore, None, Still),
    }
}

/// Whether the operation is a transfer of bytes through an open file.
pub fn is_transfer(op: CheckOp) -> bool
    ensures { result ≡ spec.is_transfer op }
{
    row_of(op).transfer
}
