// The open file of a shelf.
ghost use Rattle.std.specs.Prelude.{◌≡◌, ◌≤◌, length, is_some, None, Some, Ok, IfOk, IfSome, option_map};
ghost use Rattle.std.specs.Io.KnownBytes.{ReadConsumes};

use std::io;
use std::io::Read;
use std::marker::Model;

// The reader of the open file, if there is one. Clauses see the bytes that it has left, where the reader specifies them.
#[derive(Drop)]
pub(crate) struct Begun<F: Read + Drop> {
    reader: Option<F>,
}

impl<F: Read + Drop> Model for Begun<F> {
    ghost use Rattle.std.specs.Prelude.{ℕ, List, Option};
    ghost use Rattle.std.specs.Option.{option_map};

    ghost Value = { Option (Option (List ℕ)) };

    ghost view = { λ b. option_map F.remaining b.reader };
}

impl<F: Read + Drop> Begun<F> {
    // No open file.
    pub(crate) fn none() -> Begun<F>
        ensures { result ≡ None }
    {
        Begun { reader: None }
    }

    // The open file is the one of this reader.
    pub(crate) fn of(reader: F) -> Begun<F>
        ensures { result ≡ Some (F.remaining reader) }
    {
        Begun {
            reader: Some(reader),
        }
    }

    // Reads the next bytes of the open file. Returns 0 if no file is open.
    pub(crate) fn read(&mut self, buf: &mut [u8]) -> io::Result<usize>
        ensures within { IfOk result (λ count. count ≤ length buf.old) }
        ensures kept { is_some self.new ≡ is_some self.old }
        ensures none { self.old ≡ None → (result ≡ Ok 0) × (self.new ≡ None) }
        ensures bytes { IfSome self.old (λ old. IfSome self.new (λ new. ReadConsumes old new result buf.new)) }
    {
        match &mut self.reader {
            Some(reader) => reader.read(buf),
            None => Ok(0),
        }
    }
}
