// How many rows of a kind agree and how many differ.
use std::io;

/// Counts of rows of a kind, each up to the last number of 64 bits.
#[derive(Drop)]
pub(crate) struct Tally {
    kind: &'static str,
    agree: u64,
    differ: u64,
}

impl Tally {
    /// None of a kind yet.
    pub(crate) fn new(kind: &'static str) -> Tally {
        Tally {
            kind,
            agree: 0,
            differ: 0,
        }
    }

    /// Counts one row more, and prints it where it differs.
    pub(crate) fn count(&mut self, rt: &impl Print, row: &str, agrees: bool) -> io::Result<()> {
        if agrees {
            self.agree = self.agree.saturating_add(1);
            return Ok(());
        }
        self.differ = self.differ.saturating_add(1);
        println!(rt; "{}: {row}", self.kind)
    }

    /// Prints the counts.
    pub(crate) fn tell(&self, rt: &impl Print) -> io::Result<()> {
        println!(rt;
            "{}: {} agree, {} differ",
            self.kind, self.agree, self.differ
        )
    }
}
