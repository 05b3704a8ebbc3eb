//! The beginning of what a file, a pipe or a message holds.
ghost use Rattle.std.specs.Prelude.{◌≡◌, ◌^◌, ◌<◌, [], length};
ghost use Rattle.mf_objects.specs.Head.{head_of};

use crate::limits::HEAD_BYTES;
use mf_cred::ArrayVec;

/// How many bytes something holds, and the first of them.
#[derive(Drop)]
pub struct Head {
    pub len: u32,
    pub first: ArrayVec<u8, HEAD_BYTES>,
}

impl Head {
    ghost use Rattle.mf_objects.specs.Head.{head_of};

    /// The head of these bytes.
    pub(crate) fn of(bytes: &[u8]) -> Head
        requires { length bytes.now < 2 ^ 32 }
        ensures { result ≡ head_of bytes.now }
    {
        let shown = HEAD_BYTES.min(bytes.len());
        let mut first = ArrayVec::new();
        for byte in &bytes[..shown] {
            first.push(*byte);
        }
        Head {
            len: bytes.len() as u32,
            first,
        }
    }
}
