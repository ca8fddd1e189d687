// A feed over a reader.
ghost use Rattle.std.specs.Prelude.{◌≡◌, ◌≤◌, length, IfOk, OnErr};
ghost use Rattle.std.specs.Io.KnownBytes.{ReadConsumes};
ghost use Rattle.desk_edge.specs.Count.{raised};

use crate::count::one_more;
use crate::{Failed, Feed};
use std::io::Read;
use std::marker::Model;

/// A feed over a reader such as standard input, which is read once a call. A pipe gives the bytes that have arrived, and waits
/// if there are none. Clauses see what the reader has left, where it specifies that, and the count of faults.
#[derive(Drop)]
pub struct InFeed<R: Read + Drop> {
    reader: R,
    faults: u64,
}

impl<R: Read + Drop> Model for InFeed<R> {
    ghost use Rattle.desk_edge.specs.InFeed.{ReaderState};

    ghost Value = { ReaderState };

    ghost view = { λ s. record {
      left = R.remaining s.reader;
      faults = s.faults;
    } };
}

impl<R: Read + Drop> InFeed<R> {
    pub fn new(reader: R) -> InFeed<R>
        ensures { result ≡ record {
          left = R.remaining reader;
          faults = 0;
        } }
    {
        InFeed { reader, faults: 0 }
    }

    /// See `Feed::take`.
    pub fn take(&mut self, buf: &mut [u8]) -> Result<usize, Failed>
        ensures within { IfOk result (λ count. count ≤ length buf.old) }
        ensures bytes { ReadConsumes self.old.left self.new.left result buf.new }
        ensures quiet { IfOk result (λ _. self.new.faults ≡ self.old.faults) }
        ensures failed { OnErr result (self.new.faults ≡ raised self.old.faults) }
        ensures faults { self.old.faults ≤ self.new.faults }
    {
        match self.reader.read(buf) {
            Ok(count) => Ok(count),
            Err(_) => {
                self.faults = one_more(self.faults);
                Err(Failed)
            }
        }
    }
}

impl<R: Read + Drop> Feed for InFeed<R> {
    ghost content = { λ s. s.left };

    ghost faults = { λ s. s.faults };

    fn take(&mut self, buf: &mut [u8]) -> Result<usize, Failed> {
        InFeed::take(self, buf)
    }
}
