// A stream of bytes that arrive in pieces.
ghost use Rattle.std.specs.Prelude.{◌≡◌, ◌<◌, ◌≤◌, ℕ, List, Option, length, IfOk, OnErr};
ghost use Rattle.std.specs.Io.KnownBytes.{ReadConsumes};
ghost use Rattle.desk_edge.specs.Count.{raised};

use crate::Failed;

/// A stream of bytes that arrive in order, in pieces of any size, until it ends (this project's profile).
pub trait Feed {
    /// The bytes that have not arrived yet, where the feed specifies them.
    ghost content: { Self → Option (List ℕ) };

    /// How many calls failed: a u64 that stays at its greatest value.
    ghost faults: { Self → ℕ };

    /// Waits for the next piece, copies it to the start of `buf`, and returns its length in bytes, at most the length of `buf`. 0
    /// means the end of the stream. The rest of `buf` is unspecified.
    ///
    /// # Errors
    ///
    /// `Failed` where the system reports an error. The count of faults has risen.
    fn take(&mut self, buf: &mut [u8]) -> Result<usize, Failed>
        requires { 0 < length buf.old }
        ensures within { IfOk result (λ count. count ≤ length buf.old) }
        ensures bytes { ReadConsumes (content self.old) (content self.new) result buf.new }
        ensures quiet { IfOk result (λ _. faults self.new ≡ faults self.old) }
        ensures failed { OnErr result (faults self.new ≡ raised (faults self.old)) }
        ensures faults { faults self.old ≤ faults self.new };
}
