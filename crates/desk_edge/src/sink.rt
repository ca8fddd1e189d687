// A sink of bytes, which takes them in order.
ghost use Rattle.std.specs.Prelude.{◌≡◌, ◌≤◌, ℕ, List, Option, [], length, take, IfOk, OnOk, OnErr};
ghost use Rattle.desk_edge.specs.Count.{raised};
ghost use Rattle.desk_edge.specs.Sink.{appended};

use crate::Failed;

/// Takes bytes in order, and sends them on when it is flushed (this project's profile).
pub trait Sink {
    /// The bytes that were put, where the sink specifies them.
    ghost bytes: { Self → Option (List ℕ) };

    /// Those of them that were flushed, where the sink specifies them.
    ghost sent: { Self → Option (List ℕ) };

    /// How many calls failed: a u64 that stays at its greatest value.
    ghost faults: { Self → ℕ };

    /// Takes the first bytes of the piece, at least one unless it is empty, and returns how many.
    ///
    /// # Errors
    ///
    /// `Failed` where the bytes cannot be written. A sink that specifies its bytes has taken none. The count of faults has risen.
    fn put(&mut self, piece: &[u8]) -> Result<usize, Failed>
        ensures within { IfOk result (λ count. count ≤ length piece.now) }
        ensures some { IfOk result (λ count. count ≡ 0 → piece.now ≡ []) }
        ensures taken { IfOk result (λ count.
            bytes self.new ≡ appended (take count piece.now) (bytes self.old)) }
        ensures same { OnErr result (bytes self.new ≡ bytes self.old) }
        ensures unsent { sent self.new ≡ sent self.old }
        ensures quiet { IfOk result (λ _. faults self.new ≡ faults self.old) }
        ensures failed { OnErr result (faults self.new ≡ raised (faults self.old)) }
        ensures faults { faults self.old ≤ faults self.new };

    /// Sends on all bytes that were put.
    ///
    /// # Errors
    ///
    /// `Failed` where they cannot be written. The count of faults has risen.
    fn flush(&mut self) -> Result<(), Failed>
        ensures kept { bytes self.new ≡ bytes self.old }
        ensures sent { OnOk result (sent self.new ≡ bytes self.old) }
        ensures unsent { OnErr result (sent self.new ≡ sent self.old) }
        ensures quiet { OnOk result (faults self.new ≡ faults self.old) }
        ensures failed { OnErr result (faults self.new ≡ raised (faults self.old)) }
        ensures faults { faults self.old ≤ faults self.new };
}
