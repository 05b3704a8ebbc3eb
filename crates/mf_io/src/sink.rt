//! Where bytes go.
ghost use Rattle.std.specs.Prelude.{◌≡◌, ◌<◌, ◌≤◌, List, [], ℕ, Option, length, take, IfOk, OnErr};
ghost use Rattle.mf_io.specs.Outside.{Took};
ghost use Rattle.mf_io.specs.Causes.{HasCause};

use crate::source::Failed;

/// A sink of bytes. Its ghost members give the bytes that it took, and how many calls failed.
pub trait Sink {
    /// The bytes taken; None where the sink can't know them.
    ghost taken: { Self → Option (List ℕ) };

    /// How many calls have failed, a count of 64 bits that stays at its greatest value.
    ghost faults: { Self → ℕ };

    /// Takes bytes from the front of the piece, and returns how many: at least one of a piece that isn't empty.
    fn write(&mut self, piece: &[u8]) -> Result<usize, Failed>
        ensures fits { IfOk result (λ n. n ≤ length piece.now) }
        ensures some { IfOk result (λ n. 0 < length piece.now → 0 < n) }
        ensures bytes { IfOk result (λ n.
            Took (taken self.old) (taken self.new) (take n piece.now)) }
        ensures err { OnErr result (Took (taken self.old) (taken self.new) []) }
        ensures cause { HasCause (faults self.old) (faults self.new) result };
}
