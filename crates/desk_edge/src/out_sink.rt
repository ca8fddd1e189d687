// A sink over a writer.
ghost use Rattle.std.specs.Prelude.{◌≡◌, ◌≤◌, ℕ, None, [], length, take, IfOk, OnOk, OnErr};
ghost use Rattle.std.specs.Io.KnownBytes.{Appends, Keeps};
ghost use Rattle.desk_edge.specs.Count.{raised};

use crate::count::one_more;
use crate::{Failed, Sink};
use std::io;
use std::io::{Error, ErrorKind, Write};
use std::marker::Model;

/// A sink over a writer such as standard output, which is flushed at each put. Clauses see the count of faults, and what the
/// writer holds, where the writer specifies that. As a `Sink` it specifies no bytes.
#[derive(Drop)]
pub struct OutSink<W: Write + Drop> {
    writer: W,
    faults: u64,
}

impl<W: Write + Drop> Model for OutSink<W> {
    ghost use Rattle.desk_edge.specs.OutSink.{WriterState};

    ghost Value = { WriterState };

    ghost view = { λ s. record {
      written = W.contents s.writer;
      faults = s.faults;
    } };
}

impl<W: Write + Drop> OutSink<W> {
    pub fn new(writer: W) -> OutSink<W>
        ensures { result ≡ record {
          written = W.contents writer;
          faults = 0;
        } }
    {
        OutSink { writer, faults: 0 }
    }

    /// See `Sink::put`. Where the writer specifies what it holds, it holds the bytes that the call returns, and after a fault a
    /// prefix of the piece.
    pub fn put(&mut self, piece: &[u8]) -> Result<usize, Failed>
        ensures within { IfOk result (λ count. count ≤ length piece.now) }
        ensures some { IfOk result (λ count. count ≡ 0 → piece.now ≡ []) }
        ensures bytes { IfOk result (λ count. Appends self.old.written self.new.written (take count piece.now)) }
        ensures front { OnErr result ((count : ℕ) × Appends self.old.written self.new.written (take count piece.now)) }
        ensures quiet { IfOk result (λ _. self.new.faults ≡ self.old.faults) }
        ensures failed { OnErr result (self.new.faults ≡ raised self.old.faults) }
        ensures faults { self.old.faults ≤ self.new.faults }
    {
        match write_through(&mut self.writer, piece) {
            Ok(count) => Ok(count),
            Err(_) => {
                self.faults = one_more(self.faults);
                Err(Failed)
            }
        }
    }

    /// See `Sink::flush`. Where the writer specifies what it holds, that does not change.
    pub fn flush(&mut self) -> Result<(), Failed>
        ensures kept { Keeps self.old.written self.new.written }
        ensures quiet { OnOk result (self.new.faults ≡ self.old.faults) }
        ensures failed { OnErr result (self.new.faults ≡ raised self.old.faults) }
        ensures faults { self.old.faults ≤ self.new.faults }
    {
        match self.writer.flush() {
            Ok(()) => Ok(()),
            Err(_) => {
                self.faults = one_more(self.faults);
                Err(Failed)
            }
        }
    }
}

impl<W: Write + Drop> Sink for OutSink<W> {
    ghost bytes = { λ _. None };

    ghost sent = { λ _. None };

    ghost faults = { λ s. s.faults };

    fn put(&mut self, piece: &[u8]) -> Result<usize, Failed> {
        OutSink::put(self, piece)
    }

    fn flush(&mut self) -> Result<(), Failed> {
        OutSink::flush(self)
    }
}

// Writes the first bytes of the piece and flushes the writer. A write of 0 bytes is an error.
fn write_through<W: Write>(writer: &mut W, piece: &[u8]) -> io::Result<usize>
    ensures within { IfOk result (λ count. count ≤ length piece.now) }
    ensures some { IfOk result (λ count. count ≡ 0 → piece.now ≡ []) }
    ensures bytes { IfOk result (λ count.
        Appends (W.contents writer.old) (W.contents writer.new) (take count piece.now)) }
    ensures front { OnErr result ((count : ℕ) × Appends (W.contents writer.old) (W.contents writer.new) (take count piece.now)) }
{
    let count = writer.write(piece)?;
    if count == 0 && !piece.is_empty() {
        return Err(Error::from(ErrorKind::WriteZero));
    }
    writer.flush()?;
    Ok(count)
}
