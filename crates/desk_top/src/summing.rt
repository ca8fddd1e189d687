// A load: its script is run, and what it writes is summed up.
ghost use Rattle.std.specs.Prelude.{◌≡◌, ◌+◌, ◌≤◌, ◌^◌, false, None, length, All, IfOk, IfErr, OnOk, OnErr, IsErrOf};
ghost use Rattle.desk_edge.specs.Count.{Rose, raised};
ghost use Rattle.desk_terms.specs.Bench.{counted, logged};
ghost use Rattle.desk_model.specs.Sound.{IsSound};
ghost use Rattle.session_model.specs.Standing.{IsKnown};
ghost use Rattle.session_model.specs.Course.{round_of};
ghost use Rattle.session_model.specs.Rounds.{transcript, calls_of};
ghost use Rattle.session_rounds.specs.Goes.{Stays};
ghost use Rattle.desk_top.specs.Early.{outside, IsCut, IsHalted};
ghost use Rattle.tool_script.specs.Found.{CanRun, run_in};
ghost use Rattle.tool_script.specs.Verdict.{Load as LoadWanted};
ghost use Rattle.desk_top.specs.Round.{IsCounted, StopsWithin};
ghost use Rattle.desk_top.specs.Written.{IsLate, Writes, ended};
ghost use Rattle.desk_top.specs.Summary.{tally_of};
ghost use Rattle.desk_top.specs.Output.{output_in, computed_in, rounds_in};

use crate::load_lines::summary;
use crate::tally::Tally;
use desk_edge::{Sink, write_whole};
use desk_terms::Bench;
use market_session::begun;
use session_commands::Command;
use session_rounds::WatchedSession;
use std::alloc::{AllocError, Global};
use tool_script::{ScriptRun, Status};
use watch_rounds::{Order, Picker};

// Runs the script of a load, and writes the sum of its transcript and the last line of it.
pub(crate) fn sum_up<K: Sink, B: Bench>(
    alloc: Global,
    size: u32,
    run: ScriptRun,
    out: &mut K,
    bench: &mut B,
) -> Result<(), Status>
    requires can { CanRun run }
    ensures written { Writes (K.bytes out.old) (K.bytes out.new) (output_in (B.calc bench.old) (LoadWanted size (run_in run))) (ended result) }
    ensures count { OnOk result (B.count bench.new ≡ counted (B.count bench.old) (length (computed_in (B.calc bench.old) (LoadWanted size (run_in run))))) }
    ensures log { OnOk result (B.log bench.new ≡ logged (B.log bench.old) (computed_in (B.calc bench.old) (LoadWanted size (run_in run)))) }
    ensures cut { IsErrOf result Status.WriteFault → IsCut (rounds_in (B.calc bench.old) (LoadWanted size (run_in run)))
        (outside (K.bytes out.old) (B.count bench.old) (B.log bench.old)) (outside (K.bytes out.new) (B.count bench.new) (B.log bench.new)) }
    ensures halted { IsErrOf result Status.NoMemory → IsHalted (rounds_in (B.calc bench.old) (LoadWanted size (run_in run)))
        (outside (K.bytes out.old) (B.count bench.old) (B.log bench.old)) (outside (K.bytes out.new) (B.count bench.new) (B.log bench.new)) }
    ensures same { B.calc bench.new ≡ B.calc bench.old }
    ensures late { IfErr result IsLate }
    ensures write { IsErrOf result Status.WriteFault → Rose (K.faults out.old) (K.faults out.new) }
    ensures clean { OnOk result (K.faults out.new ≡ K.faults out.old) }
    ensures once { IsErrOf result Status.WriteFault → K.faults out.new ≡ raised (K.faults out.old) }
    ensures at_most { IsErrOf result Status.NoMemory → K.faults out.new ≡ K.faults out.old }
{
    let (mut session, commands) = begun(
        alloc,
        run.market.names,
        run.market.today,
        run.market.made,
        run.script,
        Order::First,
    )?;
    let counted = tallied(alloc, &mut session, commands.items(), bench);
    // Let go here, once for all exits behind it.
    drop(session);
    let tally = counted?;
    let summary = summary(alloc, size, &tally)?;
    match write_whole(out, &summary) {
        Ok(()) => Ok(()),
        Err(_) => Err(Status::WriteFault),
    }
}

// Does the round of each command in order over a session, and counts its lines.
fn tallied<P: Picker, B: Bench>(
    alloc: Global,
    session: &mut WatchedSession<P>,
    commands: &[Command],
    bench: &mut B,
) -> Result<Tally, AllocError>
    requires running { session.old.standing.stopped ≡ false }
    requires known { All (IsKnown session.old.standing) commands.now }
    requires sound { IsSound (B.calc bench.old) session.old.standing.state }
    ensures same { B.calc bench.new ≡ B.calc bench.old }
    ensures tally { IfOk result (λ tally. tally ≡ tally_of
        (transcript (record { calc = B.calc bench.old; at = P.at; after = P.after }) session.old commands.now)) }
    ensures count { OnOk result (B.count bench.new ≡ counted (B.count bench.old)
        (length (calls_of (record { calc = B.calc bench.old; at = P.at; after = P.after }) session.old commands.now))) }
    ensures log { OnOk result (B.log bench.new ≡ logged (B.log bench.old)
        (calls_of (record { calc = B.calc bench.old; at = P.at; after = P.after }) session.old commands.now)) }
    ensures stops { OnErr result (StopsWithin (calls_of (record { calc = B.calc bench.old; at = P.at; after = P.after }) session.old commands.now)
        (outside None (B.count bench.old) (B.log bench.old)) (outside None (B.count bench.new) (B.log bench.new))) }
{
    let mut tally = Tally::new(alloc);
    let mut lines = Vec::new(alloc);
    for command in commands {
        count_round(session, command, &mut lines, &mut tally, bench)?;
    }
    Ok(tally)
}

// Does one round, and counts its lines. `lines` is room for them.
fn count_round<P: Picker, B: Bench>(
    session: &mut WatchedSession<P>,
    command: &Command,
    lines: &mut Vec<u8>,
    tally: &mut Tally,
    bench: &mut B,
) -> Result<(), AllocError>
    requires running { session.old.standing.stopped ≡ false }
    requires known { IsKnown session.old.standing command.now }
    requires sound { IsSound (B.calc bench.old) session.old.standing.state }
    requires room { tally.old.bytes + 2 ^ 64 ≤ 2 ^ 128 }
    ensures same { B.calc bench.new ≡ B.calc bench.old }
    ensures done { OnOk result (IsCounted (round_of (record { calc = B.calc bench.old; at = P.at; after = P.after }) session.old command.now)
        session.new tally.old tally.new (outside None (B.count bench.old) (B.log bench.old)) (outside None (B.count bench.new) (B.log bench.new))) }
    ensures stays { OnOk result (Stays (B.calc bench.old) session.old.standing session.new.standing) }
    ensures running { OnOk result (session.new.standing.stopped ≡ false) }
    ensures stops { OnErr result (StopsWithin (round_of (record { calc = B.calc bench.old; at = P.at; after = P.after }) session.old command.now).calls
        (outside None (B.count bench.old) (B.log bench.old)) (outside None (B.count bench.new) (B.log bench.new))) }
    ensures more { OnOk result (tally.new.bytes ≤ tally.old.bytes + 2 ^ 64) }
{
    lines.clear();
    session.step(command, bench, lines)?;
    tally.add(lines)?;
    Ok(())
}
