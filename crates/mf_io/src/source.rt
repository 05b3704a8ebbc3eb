//! Where bytes come from.
ghost use Rattle.std.specs.Prelude.{◌≡◌, ◌≤◌, List, ℕ, Option, length, IfOk};
ghost use Rattle.mf_io.specs.Causes.{HasCause, Gave};

/// A call of a source or a sink that failed.
#[derive(Clone, Copy, Debug, PartialEq, Eq)]
pub struct Failed;

/// A source of bytes. Its ghost members give the bytes that it has left, and how many calls failed.
pub trait Source {
    /// The bytes left; None where the source can't know them.
    ghost left: { Self → Option (List ℕ) };

    /// How many calls have failed, a count of 64 bits that stays at its greatest value.
    ghost faults: { Self → ℕ };

    /// Puts bytes at the front of the buffer, and returns how many. For a buffer that isn't empty, 0 is the end of the
    /// input.
    fn read(&mut self, buffer: &mut [u8]) -> Result<usize, Failed>
        ensures fits { IfOk result (λ n. n ≤ length buffer.old) }
        ensures bytes { IfOk result (λ n.
            Gave (left self.old) (left self.new) (length buffer.old) n buffer.new) }
        ensures cause { HasCause (faults self.old) (faults self.new) result };
}
