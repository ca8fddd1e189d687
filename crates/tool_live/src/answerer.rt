// Who answers lines.
ghost use Rattle.std.specs.Prelude.{◌≡◌, ◌<◌, ◌++◌, ◌∷◌, ℕ, Bool, List, Option, [], length, OnOk, OnErr};
ghost use Rattle.tool_live.specs.Answers.{IsFrontOf};
ghost use Rattle.tool_live.specs.declared.answerer.TheConstants.{MOST_LINE};

use std::alloc::AllocError;

/// The most bytes of a line that are told apart: longer ones are answered alike.
pub const MOST_LINE: usize = 65_536;

/// Who answers lines, one after the other, to their end (this project's profile).
pub trait Answerer {
    /// What no line changes.
    ghost Kept: { Type 0 };

    ghost kept: { Self → Self.Kept };

    /// What it writes for lines that come from here on, and at their end.
    ghost told: { Self → List (List ℕ) → List ℕ };

    /// How often its bench is called by the end of these lines, and the log of that, where it is told.
    ghost called: { Self → List (List ℕ) → ℕ × Option (List (ℕ × Bool)) };

    /// It can answer: what it must be for the calls below.
    ghost can: { Self → Type 0 };

    /// Appends what a line calls for. It fails for want of memory alone; a front of it was appended then. `words` is room for
    /// parts of the line, so that it need not be made for each: what stands in it is not looked at, and not promised.
    fn answer<'a>(
        &mut self,
        line: &'a [u8],
        words: &mut Vec<&'a [u8]>,
        answers: &mut Vec<u8>,
    ) -> Result<(), AllocError>
        requires can { can self.old }
        ensures kept { kept self.new ≡ kept self.old }
        ensures can { OnOk result (can self.new) }
        ensures ok { OnOk result ((rest : List (List ℕ)) →
            answers.new.items ++ told self.new rest ≡ answers.old.items ++ told self.old (line.now ∷ rest)) }
        ensures calls { OnOk result ((rest : List (List ℕ)) → called self.new rest ≡ called self.old (line.now ∷ rest)) }
        ensures err { OnErr result ((rest : List (List ℕ)) →
            IsFrontOf answers.new.items (answers.old.items ++ told self.old (line.now ∷ rest))) }
        ensures long { MOST_LINE < length line.now → (other : List ℕ) (rest : List (List ℕ)) → MOST_LINE < length other
            → (told self.old (other ∷ rest) ≡ told self.old (line.now ∷ rest)) × (called self.old (other ∷ rest) ≡ called self.old (line.now ∷ rest)) };

    /// Appends what the end calls for, likewise.
    fn end(&mut self, answers: &mut Vec<u8>) -> Result<(), AllocError>
        requires can { can self.old }
        ensures kept { kept self.new ≡ kept self.old }
        ensures ok { OnOk result (answers.new.items ≡ answers.old.items ++ told self.old []) }
        ensures calls { OnOk result (called self.new [] ≡ called self.old []) }
        ensures err { OnErr result (IsFrontOf answers.new.items (answers.old.items ++ told self.old [])) };
}
