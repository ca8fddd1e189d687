// Reads a line and carries it out.
ghost use Rattle.std.specs.Prelude.{◌≡◌, ◌⊎◌, ◌+◌, ◌<◌, ◌^◌, false, true, OnOk, OnErr};
ghost use Rattle.desk_model.specs.Sound.{IsSound};
ghost use Rattle.session_rounds.specs.Goes.{Halts};
ghost use Rattle.live_model.specs.Live.{said};
ghost use Rattle.live_session.specs.Saying.{IsSaid, as_course, HasLearnt, new_in};
ghost use Rattle.live_session.specs.Standing.{Stands};

use crate::blocks::Blocks;
use crate::doing::state;
use crate::fault_line::fault_line;
use crate::learning::learn;
use crate::reader::{Reader, read};
use desk_terms::Bench;
use script_words::LineFault;
use session_rounds::WatchedSession;
use std::alloc::{AllocError, Global};
use watch_rounds::Picker;

// Carries out a line, or appends its fault, where `before` lines came before it. The arguments are the fields of a session.
pub(crate) fn answer<'a, P: Picker, B: Bench>(
    alloc: Global,
    session: &mut WatchedSession<P>,
    blocks: &mut Blocks,
    reader: &mut Reader,
    before: u64,
    line: &'a [u8],
    words: &mut Vec<&'a [u8]>,
    bench: &mut B,
    out: &mut Vec<u8>,
) -> Result<(), AllocError>
    requires running { session.old.standing.stopped ≡ false }
    requires few { before + 1 < 2 ^ 64 }
    requires sound { IsSound (B.calc bench.old) session.old.standing.state }
    requires stands { Stands P (record { running = session.old; begun = blocks.old.begun; block = blocks.old.block; line = before })
        reader.old.names reader.old.begun }
    ensures same { B.calc bench.new ≡ B.calc bench.old }
    ensures ok { OnOk result (IsSaid P (said (record { calc = B.calc bench.old; at = P.at; after = P.after })
        (record { running = session.old; begun = blocks.old.begun; block = blocks.old.block; line = before }) line.now)
        (record { running = session.new; begun = blocks.new.begun; block = blocks.new.block; line = before + 1 })
        (record { lines = out.old.items; count = B.count bench.old; log = B.log bench.old })
        (record { lines = out.new.items; count = B.count bench.new; log = B.log bench.new })) }
    ensures err { OnErr result (Halts P (as_course (said (record { calc = B.calc bench.old; at = P.at; after = P.after })
        (record { running = session.old; begun = blocks.old.begun; block = blocks.old.block; line = before }) line.now))
        (record { lines = out.old.items; count = B.count bench.old; log = B.log bench.old })
        (record { lines = out.new.items; count = B.count bench.new; log = B.log bench.new })) }
    ensures kept { OnErr result (blocks.new ≡ blocks.old) }
    ensures halted { OnErr result (HasLearnt P (new_in (record { running = session.old; begun = blocks.old.begun; block = blocks.old.block; line = before }) line.now)
        session.old session.new ⊎ (session.new.standing.stopped ≡ true)) }
    ensures running { OnOk result (session.new.standing.stopped ≡ false) }
    ensures stands { Stands P (record { running = session.new; begun = blocks.new.begun; block = blocks.new.block; line = before })
        reader.new.names reader.new.begun }
    ensures sound { IsSound (B.calc bench.old) session.new.standing.state }
{
    let inside = blocks.block.is_some();
    let names = session.session().names();
    match read(
        alloc,
        line,
        words,
        &mut reader.names,
        &mut reader.begun,
        &mut reader.met,
        names,
        &blocks.begun,
        inside,
    ) {
        Ok(statement) => {
            learn(session, &reader.names)?;
            state(
                alloc,
                session,
                blocks,
                reader,
                before + 1,
                statement,
                bench,
                out,
            )
        }
        Err(LineFault::Kind(kind)) => fault_line(alloc, before + 1, kind, out),
        Err(LineFault::NoMemory) => Err(AllocError),
    }
}
