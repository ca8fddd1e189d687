// The lines that a session took.
ghost use Rattle.std.specs.Prelude.{◌≡◌, ◌⊎◌, ◌↔◌, ◌^◌, ◌-◌, ℕ, List, [], true, false, length, None, IfSome, IfOk, OnOk, OnErr, IsOk, IsErrOf};
ghost use Rattle.desk_names.specs.Name.{is_name, IsName};
ghost use Rattle.desk_names.specs.Names.{has_text, place_of, most_names};
ghost use Rattle.desk_terms.specs.Reading.{Calc};
ghost use Rattle.desk_model.specs.Sound.{IsSound};
ghost use Rattle.session_model.specs.Grown.{interned_in};
ghost use Rattle.session_rounds.specs.Goes.{Halts};
ghost use Rattle.live_model.specs.Live.{said};
ghost use Rattle.live_session.specs.Lines.{live_of, StandBy, IsFollowed};
ghost use Rattle.live_session.specs.Saying.{IsSaid, as_course, IsCutShort};

use crate::SayFault;
use crate::answering::answer;
use crate::blocks::Blocks;
use crate::reader::Reader;
use desk_names::{NameFault, NameId, Names};
use desk_terms::Bench;
use session_rounds::WatchedSession;
use std::alloc::{AllocError, Global};
use std::marker::Model;
use watch_rounds::Picker;

/// The lines that a session took: the names of its actions in order, the open block, and how many lines there were. They belong
/// to that session, whose names and actions they know.
#[derive(Drop)]
pub struct Lines {
    blocks: Blocks,
    line: u64,
    reader: Reader,
    alloc: Global,
}

impl Model for Lines {
    ghost use Rattle.live_session.specs.Lines.{Lines};

    ghost Value = { Lines };

    ghost view = { λ l. record {
      begun = l.blocks.begun;
      block = l.blocks.block;
      line = l.line;
      names = l.reader.names;
      actions = l.reader.begun;
    } };
}

impl Lines {
    /// Starts without lines, for a session whose actions have these names. Takes no memory.
    pub fn new(alloc: Global, begun: Names) -> Lines
        ensures { result ≡ record { begun = begun; block = None; line = 0; names = []; actions = [] } }
    {
        Lines {
            blocks: Blocks { begun, block: None },
            line: 0,
            reader: Reader::new(alloc),
            alloc,
        }
    }

    /// Returns how many lines were taken.
    pub fn count(&self) -> u64
        ensures { result ≡ self.now.line }
    {
        self.line
    }

    /// Returns the line, from 1, at which the open block began, if a block is open.
    pub fn open_block(&self) -> Option<u64>
        ensures none { (result ≡ None) ↔ (self.now.block ≡ None) }
        ensures line { IfSome result (λ line. IfSome self.now.block (λ block. line ≡ block.line)) }
    {
        match &self.blocks.block {
            Some(block) => Some(block.line),
            None => None,
        }
    }

    /// Returns how many actions the session has, without the open block.
    pub fn actions<P: Picker>(&self, session: &WatchedSession<P>) -> usize
        requires stands { StandBy P session.now self.now }
        ensures { result ≡ length session.now.standing.actions }
    {
        let _ = session.is_stopped();
        let begun = self.blocks.begun.len() as usize;
        if self.blocks.block.is_some() {
            begun - 1
        } else {
            begun
        }
    }

    /// Returns the number of a name of the session. A new name is appended.
    ///
    /// # Errors
    ///
    /// Those of `WatchedSession::intern`.
    pub fn intern<P: Picker>(
        &mut self,
        session: &mut WatchedSession<P>,
        text: &[u8],
    ) -> Result<NameId, NameFault>
        requires stands { StandBy P session.old self.old }
        ensures place { IfOk result (λ name. name ≡ place_of session.old.standing.names text.now) }
        ensures kept { OnOk result (live_of session.new self.new ≡ live_of (interned_in text.now session.old) self.old) }
        ensures same { OnErr result ((session.new ≡ session.old) × (self.new ≡ self.old)) }
        ensures known { has_text session.old.standing.names text.now ≡ true → IsOk result }
        ensures form { IsErrOf result NameFault.Form ↔ (is_name text.now ≡ false) }
        ensures full { IsErrOf result NameFault.Full ↔ (IsName text.now
            × (length session.old.standing.names ≡ most_names) × (has_text session.old.standing.names text.now ≡ false)) }
        ensures sound { (calc : Calc) → IsSound calc session.old.standing.state → IsSound calc session.new.standing.state }
        ensures stands { StandBy P session.new self.new }
    {
        let is_copy = self.reader.names.len() == session.session().names().len();
        let name = session.intern(text)?;
        follow(self.alloc, &mut self.reader.names, is_copy, text);
        Ok(name)
    }

    /// Returns an empty vector for the words of lines.
    pub fn words<'a>(&self) -> Vec<&'a [u8]>
        ensures { result.items ≡ [] }
    {
        Vec::new(self.alloc)
    }

    /// Carries out a line and appends what it writes: the lines of its round, or its fault, which changes nothing else. `line` has
    /// no newline. A line longer than `MOST_LINE` bytes may be cut to any longer prefix. `words` is room for its words, which is
    /// reused for each line. Lines are counted from 1.
    ///
    /// # Errors
    ///
    /// `Stopped` where the session is stopped and `TooManyLines` after line 2^64 - 1. Then nothing has changed. `NoMemory` where
    /// memory runs out. Then the line is not counted. In a round a prefix of its lines was appended, and the session is stopped.
    /// Else nothing was appended, and the session is as before, apart from a prefix of the line's new names.
    pub fn say<'a, P: Picker, B: Bench>(
        &mut self,
        session: &mut WatchedSession<P>,
        line: &'a [u8],
        words: &mut Vec<&'a [u8]>,
        bench: &mut B,
        out: &mut Vec<u8>,
    ) -> Result<(), SayFault>
        requires sound { IsSound (B.calc bench.old) session.old.standing.state }
        requires stands { StandBy P session.old self.old }
        ensures same { B.calc bench.new ≡ B.calc bench.old }
        // It does exactly what the definition says.
        ensures says { OnOk result (IsSaid P (said (record { calc = B.calc bench.old; at = P.at; after = P.after }) (live_of session.old self.old) line.now)
            (live_of session.new self.new) (record { lines = out.old.items; count = B.count bench.old; log = B.log bench.old })
            (record { lines = out.new.items; count = B.count bench.new; log = B.log bench.new })) }
        ensures halts { IsErrOf result SayFault.NoMemory → Halts P (as_course (said (record { calc = B.calc bench.old; at = P.at; after = P.after })
            (live_of session.old self.old) line.now))
            (record { lines = out.old.items; count = B.count bench.old; log = B.log bench.old })
            (record { lines = out.new.items; count = B.count bench.new; log = B.log bench.new }) }
        ensures cut { IsErrOf result SayFault.NoMemory → IsCutShort P line.now (live_of session.old self.old) (live_of session.new self.new) }
        ensures runs { OnOk result (session.new.standing.stopped ≡ false) }
        ensures sound { IsSound (B.calc bench.old) session.new.standing.state }
        ensures stands { StandBy P session.new self.new }
        // It is not tried exactly in these cases. Then nothing has changed.
        ensures stopped { IsErrOf result SayFault.Stopped ↔ (session.old.standing.stopped ≡ true) }
        ensures many { IsErrOf result SayFault.TooManyLines
            ↔ ((session.old.standing.stopped ≡ false) × (self.old.line ≡ 2 ^ 64 - 1)) }
        ensures kept { IsErrOf result SayFault.Stopped ⊎ IsErrOf result SayFault.TooManyLines
            → (self.new ≡ self.old) × (session.new ≡ session.old) × (out.new.items ≡ out.old.items) × (bench.new ≡ bench.old) }
    {
        if session.is_stopped() {
            return Err(SayFault::Stopped);
        }
        if self.line == u64::MAX {
            return Err(SayFault::TooManyLines);
        }
        let done = answer(
            self.alloc,
            session,
            &mut self.blocks,
            &mut self.reader,
            self.line,
            line,
            words,
            bench,
            out,
        );
        match done {
            Ok(()) => {
                self.line += 1;
                Ok(())
            }
            Err(AllocError) => Err(SayFault::NoMemory),
        }
    }
}

// Keeps the names that lines are read over equal to those of a session that interned a text, if they were equal. Out of
// memory, they are emptied until the next line is read.
fn follow(alloc: Global, copy: &mut Names, is_copy: bool, text: &[u8])
    ensures { (names : List (List ℕ)) → IsFollowed names text.now is_copy copy.old copy.new }
{
    if is_copy && copy.intern(text).is_ok() {
        return;
    }
    *copy = Names::new(alloc);
}
