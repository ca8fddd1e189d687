// A shelf of files in memory.
ghost use Rattle.std.specs.Prelude.{◌≡◌, ◌+◌, ◌≤◌, Some, [], length, take, IfOk};
ghost use Rattle.desk_edge.specs.MemoryShelf.{find_answer, after_find, take_answer, after_take};

use crate::count::one_more;
use crate::lists::{bytes_at, place_of};
use crate::{CallList, Failed, FileList, Shelf};
use std::marker::Model;

/// Files in memory, with a limit of bytes for each call and failing calls. Calls of `find` and `take` are numbered together,
/// from 1.
#[derive(Drop)]
pub struct MemoryShelf {
    files: FileList,
    most: usize,
    fails: CallList,
    // The place of the open file, and the number of files if none is open.
    at: usize,
    place: usize,
    calls: u64,
    faults: u64,
    misses: u64,
}

impl Model for MemoryShelf {
    ghost use Rattle.std.specs.Prelude.{◌≤◌, length, drop};
    ghost use Rattle.desk_edge.specs.FileList.{bytes_of};
    ghost use Rattle.desk_edge.specs.MemoryShelf.{ShelfState};

    ghost Value = { ShelfState };

    ghost view = { λ s. record {
      contents = record { files = s.files; rest = drop s.place (bytes_of s.files s.at) };
      most = s.most;
      fails = s.fails;
      calls = s.calls;
      faults = s.faults;
      misses = s.misses;
    } };

    ghost invariant = { λ s. (1 ≤ s.most) × (s.place ≤ length (bytes_of s.files s.at)) };
}

impl MemoryShelf {
    /// Makes a shelf of these files, of which a call returns at most `most` bytes. The calls with the numbers in `fails` fail.
    pub fn new(files: FileList, most: usize, fails: CallList) -> MemoryShelf
        requires { 1 ≤ most }
        ensures { result ≡ record {
          contents = record { files = files; rest = [] };
          most = most;
          fails = fails;
          calls = 0;
          faults = 0;
          misses = 0;
        } }
    {
        let at = files.len();
        MemoryShelf {
            files,
            most,
            fails,
            at,
            place: 0,
            calls: 0,
            faults: 0,
            misses: 0,
        }
    }

    /// Returns how many calls were made.
    pub fn calls(&self) -> u64
        ensures { result ≡ self.now.calls }
    {
        self.calls
    }

    /// Returns how many calls failed.
    pub fn faults(&self) -> u64
        ensures { result ≡ self.now.faults }
    {
        self.faults
    }

    /// Returns how many times no file had the path.
    pub fn misses(&self) -> u64
        ensures { result ≡ self.now.misses }
    {
        self.misses
    }

    /// See `Shelf::find`. Fails exactly if the number of the call is listed.
    pub fn find(&mut self, path: &str) -> Result<bool, Failed>
        ensures answer { result ≡ find_answer self.old path.now }
        ensures state { self.new ≡ after_find self.old path.now }
        ensures faults { self.old.faults ≤ self.new.faults }
        ensures misses { self.old.misses ≤ self.new.misses }
        ensures counted { self.new.calls ≤ self.old.calls + 1 }
    {
        self.calls = one_more(self.calls);
        if self.fails.items().contains(&self.calls) {
            self.faults = one_more(self.faults);
            return Err(Failed);
        }
        self.at = place_of(&self.files, path);
        self.place = 0;
        let found = self.at < self.files.len();
        if !found {
            self.misses = one_more(self.misses);
        }
        Ok(found)
    }

    /// See `Shelf::take`. Fails exactly if the number of the call is listed.
    pub fn take(&mut self, buf: &mut [u8]) -> Result<usize, Failed>
        ensures answer { result ≡ take_answer self.old (length buf.old) }
        ensures state { self.new ≡ after_take self.old (length buf.old) }
        ensures bytes { IfOk result (λ count. take count buf.new ≡ take count self.old.contents.rest) }
        ensures faults { self.old.faults ≤ self.new.faults }
        ensures counted { self.new.calls ≤ self.old.calls + 1 }
        ensures some { 1 ≤ self.old.most }
    {
        self.calls = one_more(self.calls);
        if self.fails.items().contains(&self.calls) {
            self.faults = one_more(self.faults);
            return Err(Failed);
        }
        let (_, rest) = bytes_at(&self.files, self.at).split_at(self.place);
        let count = buf.len().min(self.most).min(rest.len());
        buf[..count].copy_from_slice(&rest[..count]);
        self.place += count;
        Ok(count)
    }
}

impl Shelf for MemoryShelf {
    ghost contents = { λ s. Some s.contents };

    ghost faults = { λ s. s.faults };

    ghost misses = { λ s. s.misses };

    ghost calls = { λ s. s.calls };

    fn find(&mut self, path: &str) -> Result<bool, Failed> {
        MemoryShelf::find(self, path)
    }

    fn take(&mut self, buf: &mut [u8]) -> Result<usize, Failed> {
        MemoryShelf::take(self, buf)
    }
}
