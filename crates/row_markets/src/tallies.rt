// How many rows of a kind agree and how many differ.
ghost use Rattle.std.specs.Prelude.{◌≡◌, if◌then◌else◌, ◌+◌, ◌-◌, ◌^◌, min};

use std::io;

/// Counts of rows of a kind, each up to the last number of 64 bits.
#[derive(Clone, Copy)]
pub struct Tally {
    kind: &'static str,
    agree: u64,
    differ: u64,
}

impl Tally {
    /// None of a kind yet.
    pub fn new(kind: &'static str) -> Tally
        ensures kind { result.kind.now ≡ kind.now }
        ensures agree { result.agree ≡ 0 }
        ensures differ { result.differ ≡ 0 }
    {
        Tally {
            kind,
            agree: 0,
            differ: 0,
        }
    }

    /// Counts one row more, and prints it where it differs. It is counted also where it could not be printed.
    pub fn count(&mut self, rt: &impl Print, line: &str, agrees: bool) -> io::Result<()>
        ensures kind { self.new.kind ≡ self.old.kind }
        ensures agree { self.new.agree ≡ (if agrees then min (self.old.agree + 1) (2 ^ 64 - 1) else self.old.agree) }
        ensures differ { self.new.differ ≡ (if agrees then self.old.differ else min (self.old.differ + 1) (2 ^ 64 - 1)) }
    {
        if agrees {
            self.agree = self.agree.saturating_add(1);
            return Ok(());
        }
        self.differ = self.differ.saturating_add(1);
        println!(rt; "{}: {line}", self.kind)
    }

    /// Prints the counts.
    pub fn tell(&self, rt: &impl Print) -> io::Result<()> {
        println!(rt;
            "{}: {} agree, {} differ",
            self.kind, self.agree, self.differ
        )
    }
}
