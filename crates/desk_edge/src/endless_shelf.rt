// A shelf of endless files, for tests.
ghost use Rattle.std.specs.Prelude.{◌≡◌, ◌<◌, true, Ok, length, replicate};

use crate::{Failed, Shelf};
use std::marker::Model;

/// Has an endless file of one byte value at each path. Clauses see the byte value, and no contents by path.
#[derive(Drop)]
pub struct EndlessShelf {
    byte: u8,
}

impl Model for EndlessShelf {
    ghost use Rattle.std.specs.Prelude.{ℕ};

    ghost Value = { ℕ };

    ghost view = { λ s. s.byte };
}

impl EndlessShelf {
    /// Makes a shelf whose files consist of this byte.
    pub fn new(byte: u8) -> EndlessShelf
        ensures { result ≡ byte }
    {
        EndlessShelf { byte }
    }

    /// See `Shelf::find`. Every path is found.
    pub fn find(&mut self, _path: &str) -> Result<bool, Failed>
        ensures found { result ≡ Ok true }
        ensures same { self.new ≡ self.old }
    {
        Ok(true)
    }

    /// See `Shelf::take`. Fills the whole of `buf` with the byte.
    pub fn take(&mut self, buf: &mut [u8]) -> Result<usize, Failed>
        ensures count { result ≡ Ok (length buf.old) }
        ensures bytes { buf.new ≡ replicate (length buf.old) self.old }
        ensures same { self.new ≡ self.old }
    {
        buf.fill(self.byte);
        Ok(buf.len())
    }
}

impl Shelf for EndlessShelf {
    ghost use Rattle.std.specs.Prelude.{None};

    ghost contents = { λ _. None };

    ghost faults = { λ _. 0 };

    ghost misses = { λ _. 0 };

    ghost calls = { λ _. 0 };

    // The shelf specifies no contents and no call fails, so the clauses of the trait say little. These are its own.
    fn find(&mut self, path: &str) -> Result<bool, Failed>
        ensures found { result ≡ Ok true }
        ensures same { self.new ≡ self.old }
    {
        EndlessShelf::find(self, path)
    }

    fn take(&mut self, buf: &mut [u8]) -> Result<usize, Failed>
        requires { 0 < length buf.old }
        ensures count { result ≡ Ok (length buf.old) }
        ensures bytes { buf.new ≡ replicate (length buf.old) self.old }
        ensures same { self.new ≡ self.old }
    {
        EndlessShelf::take(self, buf)
    }
}
