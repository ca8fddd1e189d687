// A session that answers lines.
ghost use Rattle.std.specs.Prelude.{◌≡◌, ◌<◌, ◌∷◌, ◌++◌, ℕ, List, length, OnOk, OnErr};
ghost use Rattle.desk_terms.specs.Bench.{counted, logged};
ghost use Rattle.desk_model.specs.Sound.{IsSound};
ghost use Rattle.tool_live.specs.Answers.{IsFrontOf};
ghost use Rattle.live_model.specs.Live.{conversation, spoken, unclosed};
ghost use Rattle.live_model.specs.declared.limits.TheConstants.{MOST_LINE};
ghost use Rattle.live_session.specs.Lines.{live_of, StandBy};

use crate::Answerer;
use crate::ready::{tell_ready, tell_unclosed};
use desk_terms::Bench;
use live_session::Lines;
use session_rounds::WatchedSession;
use std::alloc::{AllocError, Global};
use watch_rounds::Picker;

// A session with what was said to it and its bench; each line is told as done or not.
#[derive(Drop)]
pub(crate) struct Talk<'a, P, B> {
    pub(crate) alloc: Global,
    pub(crate) session: &'a mut WatchedSession<P>,
    pub(crate) lines: &'a mut Lines,
    pub(crate) bench: &'a mut B,
    pub(crate) ready: bool,
}

impl<P: Picker, B: Bench> Answerer for Talk<'_, P, B> {
    ghost use Rattle.std.specs.Prelude.{Bool, length};
    ghost use Rattle.std.specs.Borrow.{GName};
    ghost use Rattle.desk_terms.specs.Bench.{counted, logged};
    ghost use Rattle.desk_terms.specs.Reading.{Calc};
    ghost use Rattle.desk_model.specs.Sound.{IsSound};
    ghost use Rattle.live_model.specs.Live.{conversation, spoken};
    ghost use Rattle.live_session.specs.Lines.{live_of, StandBy};

    ghost Kept = { Calc × GName × Bool };

    ghost kept = { λ t. (B.calc t.bench.now, t.bench.ghost_name, t.ready) };

    ghost can = { λ t. IsSound (B.calc t.bench.now) t.session.now.standing.state × StandBy P t.session.now t.lines.now };

    ghost told = { λ t lines. conversation (record { calc = B.calc t.bench.now; at = P.at; after = P.after }) t.ready (live_of t.session.now t.lines.now) lines };

    ghost called = { λ t lines. (
      counted (B.count t.bench.now) (length (spoken (record { calc = B.calc t.bench.now; at = P.at; after = P.after }) t.ready (live_of t.session.now t.lines.now) lines).calls),
      logged (B.log t.bench.now) (spoken (record { calc = B.calc t.bench.now; at = P.at; after = P.after }) t.ready (live_of t.session.now t.lines.now) lines).calls,
    ) };

    fn answer<'b>(
        &mut self,
        line: &'b [u8],
        words: &mut Vec<&'b [u8]>,
        answers: &mut Vec<u8>,
    ) -> Result<(), AllocError> {
        answer_line(
            self.alloc,
            self.session,
            self.lines,
            self.bench,
            self.ready,
            line,
            words,
            answers,
        )
    }

    fn end(&mut self, answers: &mut Vec<u8>) -> Result<(), AllocError> {
        answer_end(self.alloc, self.lines, answers)
    }
}

// What a line says is done, and what it writes is appended, with the line that tells it as done.
fn answer_line<'a, P: Picker, B: Bench>(
    alloc: Global,
    session: &mut WatchedSession<P>,
    lines: &mut Lines,
    bench: &mut B,
    ready: bool,
    line: &'a [u8],
    words: &mut Vec<&'a [u8]>,
    answers: &mut Vec<u8>,
) -> Result<(), AllocError>
    requires sound { IsSound (B.calc bench.old) session.old.standing.state }
    requires stands { StandBy P session.old lines.old }
    ensures same { B.calc bench.new ≡ B.calc bench.old }
    ensures sound { IsSound (B.calc bench.new) session.new.standing.state }
    ensures stands { StandBy P session.new lines.new }
    ensures ok { OnOk result ((rest : List (List ℕ)) →
        answers.new.items ++ conversation (record { calc = B.calc bench.new; at = P.at; after = P.after }) ready (live_of session.new lines.new) rest
        ≡ answers.old.items ++ conversation (record { calc = B.calc bench.old; at = P.at; after = P.after }) ready (live_of session.old lines.old) (line.now ∷ rest)) }
    ensures count { OnOk result ((rest : List (List ℕ)) →
        counted (B.count bench.new) (length (spoken (record { calc = B.calc bench.new; at = P.at; after = P.after }) ready (live_of session.new lines.new) rest).calls)
        ≡ counted (B.count bench.old) (length (spoken (record { calc = B.calc bench.old; at = P.at; after = P.after }) ready (live_of session.old lines.old) (line.now ∷ rest)).calls)) }
    ensures log { OnOk result ((rest : List (List ℕ)) →
        logged (B.log bench.new) (spoken (record { calc = B.calc bench.new; at = P.at; after = P.after }) ready (live_of session.new lines.new) rest).calls
        ≡ logged (B.log bench.old) (spoken (record { calc = B.calc bench.old; at = P.at; after = P.after }) ready (live_of session.old lines.old) (line.now ∷ rest)).calls) }
    ensures err { OnErr result ((rest : List (List ℕ)) → IsFrontOf answers.new.items
        (answers.old.items ++ conversation (record { calc = B.calc bench.old; at = P.at; after = P.after }) ready (live_of session.old lines.old) (line.now ∷ rest))) }
{
    if lines.say(session, line, words, bench, answers).is_err() {
        return Err(AllocError);
    }
    tell_ready(alloc, ready, lines.count(), answers)
}

// The line of the block that stands open, where one does, is appended.
fn answer_end(alloc: Global, lines: &Lines, answers: &mut Vec<u8>) -> Result<(), AllocError>
    ensures ok { OnOk result (answers.new.items ≡ answers.old.items ++ unclosed lines.now.block) }
    ensures err { OnErr result (answers.new.items ≡ answers.old.items) }
{
    match lines.open_block() {
        Some(line) => tell_unclosed(alloc, line, answers),
        None => Ok(()),
    }
}
