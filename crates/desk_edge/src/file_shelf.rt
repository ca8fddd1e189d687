// A shelf over the system's files.
ghost use Rattle.std.specs.Prelude.{◌≡◌, ◌≤◌, ◌<◌, false, is_some, None, Ok, length, IfOk, IfSome, OnErr};
ghost use Rattle.std.specs.Io.KnownBytes.{Keeps, ReadConsumes};
ghost use Rattle.desk_edge.specs.Count.{Rose, raised};
ghost use Rattle.desk_edge.specs.FileShelf.{IsFound, Opens};

use crate::begun::Begun;
use crate::count::one_more;
use crate::{Failed, Shelf};
use std::io::ErrorKind;
use std::marker::Model;
use std::rt::Files;
use std::{fs, io};

/// The system's files, each read from its first byte. Clauses see the counts of faults and misses, whether a file is open, and
/// what its reader has left, where the reader specifies that. They see no contents by path. A folder, a path through a file
/// and a path with a zero byte are faults. An empty path is not found.
#[derive(Drop)]
pub struct FileShelf<R: Files + Drop> {
    files: R,
    begun: Begun<R::File>,
    faults: u64,
    misses: u64,
}

impl<R: Files + Drop> Model for FileShelf<R> {
    ghost use Rattle.desk_edge.specs.FileShelf.{FilesState};

    ghost Value = { FilesState };

    ghost view = { λ s. record {
      begun = s.begun;
      faults = s.faults;
      misses = s.misses;
    } };
}

impl<R: Files + Drop> FileShelf<R> {
    /// Makes a shelf of the files that this handle reaches, with none open.
    pub fn new(files: R) -> FileShelf<R>
        ensures { result ≡ record {
          begun = None;
          faults = 0;
          misses = 0;
        } }
    {
        FileShelf {
            files,
            begun: Begun::none(),
            faults: 0,
            misses: 0,
        }
    }

    /// See `Shelf::find`. After a miss or a fault no file is open.
    pub fn find(&mut self, path: &str) -> Result<bool, Failed>
        ensures found { IsFound result self.old self.new }
        ensures faults { self.old.faults ≤ self.new.faults }
        ensures misses { self.old.misses ≤ self.new.misses }
    {
        self.begun = Begun::none();
        match opening(fs::open(&self.files, path)) {
            Ok(Some(file)) => {
                self.begun = Begun::of(file);
                Ok(true)
            }
            Ok(None) => {
                self.misses = one_more(self.misses);
                Ok(false)
            }
            Err(failed) => {
                self.faults = one_more(self.faults);
                Err(failed)
            }
        }
    }

    /// See `Shelf::take`. Where the open file's reader specifies what it has left, the bytes are those that it loses, 0 means that
    /// none is left, and after a fault it has lost none. The file stays open on every exit.
    pub fn take(&mut self, buf: &mut [u8]) -> Result<usize, Failed>
        ensures within { IfOk result (λ count. count ≤ length buf.old) }
        ensures begun { is_some self.new.begun ≡ is_some self.old.begun }
        ensures none { self.old.begun ≡ None → (result ≡ Ok 0) × (self.new ≡ self.old) }
        ensures bytes { IfSome self.old.begun (λ old. IfSome self.new.begun (λ new. ReadConsumes old new result buf.new)) }
        ensures quiet { IfOk result (λ _. self.new.faults ≡ self.old.faults) }
        ensures failed { OnErr result (self.new.faults ≡ raised self.old.faults) }
        ensures faults { self.old.faults ≤ self.new.faults }
        ensures misses { self.new.misses ≡ self.old.misses }
    {
        match self.begun.read(buf) {
            Ok(count) => Ok(count),
            Err(_) => {
                self.faults = one_more(self.faults);
                Err(Failed)
            }
        }
    }
}

impl<R: Files + Drop> Shelf for FileShelf<R> {
    ghost contents = { λ _. None };

    ghost faults = { λ s. s.faults };

    ghost misses = { λ s. s.misses };

    ghost calls = { λ _. 0 };

    // The shelf specifies no contents, so only the trait's clauses on counts apply. The others are the shelf's own.
    fn find(&mut self, path: &str) -> Result<bool, Failed>
        ensures found { IsFound result self.old self.new }
        ensures missed { IfOk result (λ found. found ≡ false → Rose self.old.misses self.new.misses) }
        ensures quiet { IfOk result (λ _. self.new.faults ≡ self.old.faults) }
        ensures failed { OnErr result (self.new.faults ≡ raised self.old.faults) }
        ensures faults { self.old.faults ≤ self.new.faults }
        ensures misses { self.old.misses ≤ self.new.misses }
    {
        FileShelf::find(self, path)
    }

    fn take(&mut self, buf: &mut [u8]) -> Result<usize, Failed>
        requires { 0 < length buf.old }
        ensures within { IfOk result (λ count. count ≤ length buf.old) }
        ensures begun { is_some self.new.begun ≡ is_some self.old.begun }
        ensures none { self.old.begun ≡ None → (result ≡ Ok 0) × (self.new ≡ self.old) }
        ensures bytes { IfSome self.old.begun (λ old. IfSome self.new.begun (λ new. ReadConsumes old new result buf.new)) }
        ensures quiet { IfOk result (λ _. self.new.faults ≡ self.old.faults) }
        ensures failed { OnErr result (self.new.faults ≡ raised self.old.faults) }
        ensures faults { self.old.faults ≤ self.new.faults }
        ensures misses { self.old.misses ≤ self.new.misses }
    {
        FileShelf::take(self, buf)
    }
}

// The system's result of an open, as a result of `find`: only NotFound means that the path has no file.
fn opening<F: Drop>(opened: io::Result<F>) -> Result<Option<F>, Failed>
    ensures { Opens opened result }
{
    match opened {
        Ok(file) => Ok(Some(file)),
        Err(error) if error.kind() == ErrorKind::NotFound => Ok(None),
        Err(_) => Err(Failed),
    }
}
