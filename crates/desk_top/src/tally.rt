// What is kept of a text that is not held: how long it is, and its last line.
ghost use Rattle.std.specs.Prelude.{◌≡◌, ◌+◌, ◌<◌, ◌^◌, [], length, OnOk};
ghost use Rattle.desk_top.specs.Summary.{tally_of, ends_line, with_byte, with_bytes};

use std::alloc::{AllocError, Global};
use std::marker::Model;

/// How many lines and bytes a text has, and its last line. Contracts see the three.
#[derive(Drop)]
pub struct Tally {
    pub(crate) lines: u128,
    pub(crate) bytes: u128,
    pub(crate) last: Vec<u8>,
}

impl Model for Tally {
    ghost use Rattle.std.specs.Prelude.{◌≤◌};
    ghost use Rattle.desk_top.specs.Summary.{Tally as Kept};

    ghost Value = { Kept };

    ghost view = { λ t. record { lines = t.lines; bytes = t.bytes; last = t.last.items } };

    ghost invariant = { λ t. t.lines ≤ t.bytes };
}

impl Tally {
    /// Of no text.
    pub fn new(alloc: Global) -> Tally
        ensures { result ≡ tally_of [] }
    {
        Tally {
            lines: 0,
            bytes: 0,
            last: Vec::new(alloc),
        }
    }

    /// Of the text with a piece behind it. An error is want of memory, after which the tally is of no use.
    pub fn add(&mut self, piece: &[u8]) -> Result<(), AllocError>
        requires room { self.old.bytes + length piece.now < 2 ^ 128 }
        ensures { OnOk result (self.new ≡ with_bytes self.old piece.now) }
    {
        for byte in piece {
            self.push(*byte)?;
        }
        Ok(())
    }

    // Of the text with a byte behind it.
    fn push(&mut self, byte: u8) -> Result<(), AllocError>
        requires room { self.old.bytes + 1 < 2 ^ 128 }
        ensures { OnOk result (self.new ≡ with_byte self.old byte) }
    {
        if ends_line(&self.last) {
            self.last.clear();
        }
        self.last.push(byte)?;
        self.bytes += 1;
        if byte == b'\n' {
            self.lines += 1;
        }
        Ok(())
    }
}

// Whether the last byte of a text is a newline.
fn ends_line(text: &[u8]) -> bool
    ensures { result ≡ ends_line text.now }
{
    match text {
        [.., byte] => *byte == b'\n',
        [] => false,
    }
}
