// A shelf of files: one file at a time is open, and read from its first byte.
ghost use Rattle.std.specs.Prelude.{◌≡◌, ◌+◌, ◌<◌, ◌≤◌, ◌↔◌, ℕ, Option, false, [], length, take, is_some, IfOk, IfSome, OnOk, OnErr};
ghost use Rattle.std.specs.Option.{option_map};
ghost use Rattle.desk_edge.specs.Count.{Rose, raised};
ghost use Rattle.desk_edge.specs.Shelf.{Contents, file_at, files_of, begun, passed};

use thiserror::Error;

/// A call of a shelf, feed or sink failed. The count of faults of that shelf, feed or sink has risen.
#[derive(Clone, Copy, Debug, PartialEq, Eq, Error)]
#[error("the call failed")]
pub struct Failed;

/// Files by path. One at a time is open and read in order (this project's profile).
pub trait Shelf {
    /// The files and the rest of the open file, where the shelf specifies them.
    ghost contents: { Self → Option Contents };

    /// How many calls failed: a u64 that stays at its greatest value.
    ghost faults: { Self → ℕ };

    /// How many times no file had the path: a u64 that stays at its greatest value.
    ghost misses: { Self → ℕ };

    /// How many calls were made, where the shelf counts them, else 0.
    ghost calls: { Self → ℕ };

    /// Opens the file with this path at its first byte. Returns false if there is none. Then no file is open.
    ///
    /// # Errors
    ///
    /// `Failed` where the file cannot be opened, though it may exist. The count of faults has risen.
    fn find(&mut self, path: &str) -> Result<bool, Failed>
        ensures begun { OnOk result (contents self.new ≡ option_map (begun path.now) (contents self.old)) }
        ensures same { OnErr result (contents self.new ≡ contents self.old) }
        ensures found { IfOk result (λ found. IfSome (contents self.old)
            (λ c. found ≡ is_some (file_at c.files path.now))) }
        ensures missed { IfOk result (λ found. found ≡ false → Rose (misses self.old) (misses self.new)) }
        ensures quiet { IfOk result (λ _. faults self.new ≡ faults self.old) }
        ensures failed { OnErr result (faults self.new ≡ raised (faults self.old)) }
        ensures faults { faults self.old ≤ faults self.new }
        ensures misses { misses self.old ≤ misses self.new }
        ensures counted { calls self.new ≤ calls self.old + 1 };

    /// Copies the next bytes of the open file to the start of `buf` and returns how many. 0 means the end of the file, or that none
    /// is open. The rest of `buf` is unspecified.
    ///
    /// # Errors
    ///
    /// `Failed` where the file cannot be read. The count of faults has risen.
    fn take(&mut self, buf: &mut [u8]) -> Result<usize, Failed>
        requires { 0 < length buf.old }
        ensures within { IfOk result (λ count. count ≤ length buf.old) }
        ensures passed { IfOk result (λ count.
            contents self.new ≡ option_map (passed count) (contents self.old)) }
        ensures same { OnErr result (contents self.new ≡ contents self.old) }
        ensures bytes { IfOk result (λ count. IfSome (contents self.old)
            (λ c. take count buf.new ≡ take count c.rest)) }
        ensures end { IfOk result (λ count. IfSome (contents self.old)
            (λ c. (count ≡ 0) ↔ (c.rest ≡ []))) }
        ensures quiet { IfOk result (λ _. faults self.new ≡ faults self.old) }
        ensures failed { OnErr result (faults self.new ≡ raised (faults self.old)) }
        ensures faults { faults self.old ≤ faults self.new }
        ensures misses { misses self.old ≤ misses self.new }
        ensures counted { calls self.new ≤ calls self.old + 1 };
}
