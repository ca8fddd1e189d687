// Carries out lines without a fault.
ghost use Rattle.std.specs.Prelude.{◌≡◌, ◌⊎◌, ℕ, false, true, length, is_some, OnOk, OnErr};
ghost use Rattle.desk_model.specs.Sound.{IsSound};
ghost use Rattle.session_commands.specs.Whole.{IsCommand};
ghost use Rattle.session_rounds.specs.Goes.{Halts};
ghost use Rattle.live_model.specs.Live.{commanded, stated};
ghost use Rattle.live_session.specs.Saying.{IsSaid, as_course};
ghost use Rattle.live_session.specs.Standing.{BlockFits, Leaves};

use crate::blocks::Blocks;
use crate::reader::Reader;
use desk_terms::Bench;
use session_commands::Command;
use session_lang::{Statement, linked};
use session_rounds::WatchedSession;
use std::alloc::{AllocError, Global};
use watch_rounds::Picker;

// Carries out a statement in a session that knows the names of its line.
pub(crate) fn state<P: Picker, B: Bench>(
    alloc: Global,
    session: &mut WatchedSession<P>,
    blocks: &mut Blocks,
    known: &Reader,
    line: u64,
    statement: Statement,
    bench: &mut B,
    out: &mut Vec<u8>,
) -> Result<(), AllocError>
    requires running { session.old.standing.stopped ≡ false }
    requires sound { IsSound (B.calc bench.old) session.old.standing.state }
    requires names { session.old.standing.names ≡ known.now.names }
    requires leaves { Leaves (is_some blocks.old.block) blocks.old.begun
        (record { names = known.now.names; begun = known.now.begun }) statement }
    requires block { BlockFits blocks.old.block (length session.old.standing.names) (length blocks.old.begun) (length session.old.standing.actions) }
    ensures same { B.calc bench.new ≡ B.calc bench.old }
    ensures ok { OnOk result (IsSaid P (stated (record { calc = B.calc bench.old; at = P.at; after = P.after })
        (record { names = known.now.names; begun = known.now.begun }) statement
        (record { running = session.old; begun = known.now.begun; block = blocks.old.block; line = line }))
        (record { running = session.new; begun = blocks.new.begun; block = blocks.new.block; line = line })
        (record { lines = out.old.items; count = B.count bench.old; log = B.log bench.old })
        (record { lines = out.new.items; count = B.count bench.new; log = B.log bench.new })) }
    ensures err { OnErr result (Halts P (as_course (stated (record { calc = B.calc bench.old; at = P.at; after = P.after })
        (record { names = known.now.names; begun = known.now.begun }) statement
        (record { running = session.old; begun = known.now.begun; block = blocks.old.block; line = line })))
        (record { lines = out.old.items; count = B.count bench.old; log = B.log bench.old })
        (record { lines = out.new.items; count = B.count bench.new; log = B.log bench.new })) }
    ensures kept { OnErr result (blocks.new ≡ blocks.old) }
    ensures halted { OnErr result ((session.new ≡ session.old) ⊎ (session.new.standing.stopped ≡ true)) }
    ensures running { OnOk result (session.new.standing.stopped ≡ false) }
    ensures names { session.new.standing.names ≡ session.old.standing.names }
    ensures begun { OnOk result (blocks.new.begun ≡ known.now.begun) }
    ensures block { BlockFits blocks.new.block (length session.new.standing.names) (length blocks.new.begun) (length session.new.standing.actions) }
    ensures sound { IsSound (B.calc bench.old) session.new.standing.state }
{
    match statement {
        Statement::Blank => Ok(()),
        Statement::Begin(_) => blocks.begin(alloc, &known.begun, line),
        Statement::End => blocks.end(alloc, session),
        Statement::Run(command) => {
            let command = linked(&known.names, &known.begun, command);
            do_command(session, blocks, &command, bench, out)
        }
    }
}

// Carries out a command: outside a block it runs its round, inside it appends the command to the block.
fn do_command<P: Picker, B: Bench>(
    session: &mut WatchedSession<P>,
    blocks: &mut Blocks,
    command: &Command,
    bench: &mut B,
    out: &mut Vec<u8>,
) -> Result<(), AllocError>
    requires running { session.old.standing.stopped ≡ false }
    requires sound { IsSound (B.calc bench.old) session.old.standing.state }
    requires known { IsCommand (length session.old.standing.names) (length blocks.old.begun) command.now }
    requires block { BlockFits blocks.old.block (length session.old.standing.names) (length blocks.old.begun) (length session.old.standing.actions) }
    ensures same { B.calc bench.new ≡ B.calc bench.old }
    ensures ok { OnOk result ((line : ℕ) → IsSaid P (commanded (record { calc = B.calc bench.old; at = P.at; after = P.after }) blocks.old.block
        (record { running = session.old; begun = blocks.old.begun; block = blocks.old.block; line = line }) command.now)
        (record { running = session.new; begun = blocks.new.begun; block = blocks.new.block; line = line })
        (record { lines = out.old.items; count = B.count bench.old; log = B.log bench.old })
        (record { lines = out.new.items; count = B.count bench.new; log = B.log bench.new })) }
    ensures err { OnErr result ((line : ℕ) → Halts P (as_course (commanded (record { calc = B.calc bench.old; at = P.at; after = P.after }) blocks.old.block
        (record { running = session.old; begun = blocks.old.begun; block = blocks.old.block; line = line }) command.now))
        (record { lines = out.old.items; count = B.count bench.old; log = B.log bench.old })
        (record { lines = out.new.items; count = B.count bench.new; log = B.log bench.new })) }
    ensures kept { OnErr result (blocks.new ≡ blocks.old) }
    ensures halted { OnErr result ((session.new ≡ session.old) ⊎ (session.new.standing.stopped ≡ true)) }
    ensures running { OnOk result (session.new.standing.stopped ≡ false) }
    ensures names { session.new.standing.names ≡ session.old.standing.names }
    ensures begun { blocks.new.begun ≡ blocks.old.begun }
    ensures block { BlockFits blocks.new.block (length session.new.standing.names) (length blocks.new.begun) (length session.new.standing.actions) }
    ensures sound { IsSound (B.calc bench.old) session.new.standing.state }
{
    match &mut blocks.block {
        Some(block) => block.commands.push(*command),
        None => session.step(command, bench, out),
    }
}
