//! The letters of the matrix.
ghost use Rattle.std.specs.Prelude.{◌≡◌, Some};
ghost use Rattle.mf_matrix.specs.Letters.{letters_for};

use mf_item::{CheckOp, Kind, ObjectView};

/// A letter, and the operation that it stands for.
#[derive(Clone, Copy)]
pub struct Letter {
    pub sign: char,
    pub op: CheckOp,
}

/// The letters of what may be done to an object.
pub(crate) fn letters_for(object: &ObjectView) -> [Option<Letter>; 4]
    ensures { result ≡ letters_for object.now }
{
    match object.kind {
        Kind::Vnode if object.file.dir => [
            letter_of('r', CheckOp::VnodeReaddir),
            letter_of('w', CheckOp::VnodeCreate),
            letter_of('x', CheckOp::VnodeLookup),
            letter_of('s', CheckOp::VnodeStat),
        ],
        Kind::Vnode => [
            letter_of('r', CheckOp::VnodeOpenRead),
            letter_of('w', CheckOp::VnodeOpenWrite),
            letter_of('x', CheckOp::VnodeExec),
            letter_of('s', CheckOp::VnodeStat),
        ],
        Kind::Pipe => [
            letter_of('r', CheckOp::PipeRead),
            letter_of('w', CheckOp::PipeWrite),
            letter_of('s', CheckOp::PipeStat),
            None,
        ],
        Kind::Socket => [
            letter_of('r', CheckOp::SocketReceive),
            letter_of('w', CheckOp::SocketSend),
            letter_of('v', CheckOp::SocketVisible),
            None,
        ],
        Kind::Process => [
            letter_of('v', CheckOp::ProcVisible),
            letter_of('g', CheckOp::ProcSignal),
            letter_of('d', CheckOp::ProcDebug),
            letter_of('c', CheckOp::ProcSched),
        ],
    }
}

fn letter_of(sign: char, op: CheckOp) -> Option<Letter>
    ensures { result ≡ Some (record { sign = sign; op = op }) }
{
    Some(Letter { sign, op })
}
