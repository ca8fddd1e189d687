// The commands of a script, whose lines are written as they come.
ghost use Rattle.std.specs.Prelude.{◌≡◌, false, true, length, All, OnOk, OnErr, IfErr, IsErrOf};
ghost use Rattle.desk_edge.specs.Count.{raised};
ghost use Rattle.desk_edge.specs.Sink.{appended};
ghost use Rattle.desk_terms.specs.Bench.{counted, logged};
ghost use Rattle.desk_model.specs.Sound.{IsSound};
ghost use Rattle.session_model.specs.Standing.{IsKnown};
ghost use Rattle.session_model.specs.Course.{round_of};
ghost use Rattle.session_model.specs.Rounds.{transcript, calls_of};
ghost use Rattle.tool_live.specs.Answers.{PutsFront};
ghost use Rattle.live_model.specs.Log.{done};
ghost use Rattle.tool_live.specs.Ends.{IsLate};

use desk_edge::{Sink, write_whole};
use desk_terms::Bench;
use session_commands::Command;
use session_rounds::WatchedSession;
use std::alloc::Global;
use tool_script::Status;
use watch_rounds::Picker;

// Does the round of each command in order, and writes the lines of each before the next begins.
pub(crate) fn play<P: Picker, K: Sink, B: Bench>(
    alloc: Global,
    session: &mut WatchedSession<P>,
    commands: &[Command],
    out: &mut K,
    bench: &mut B,
) -> Result<(), Status>
    requires running { session.old.standing.stopped ≡ false }
    requires known { All (IsKnown session.old.standing) commands.now }
    requires sound { IsSound (B.calc bench.old) session.old.standing.state }
    ensures same { B.calc bench.new ≡ B.calc bench.old }
    ensures written { OnOk result (K.bytes out.new ≡ appended
        (transcript (record { calc = B.calc bench.old; at = P.at; after = P.after }) session.old commands.now) (K.bytes out.old)) }
    ensures count { OnOk result (B.count bench.new ≡ counted (B.count bench.old)
        (length (calls_of (record { calc = B.calc bench.old; at = P.at; after = P.after }) session.old commands.now))) }
    ensures log { OnOk result (B.log bench.new ≡ logged (B.log bench.old)
        (calls_of (record { calc = B.calc bench.old; at = P.at; after = P.after }) session.old commands.now)) }
    ensures next { OnOk result (session.new ≡ done (record { calc = B.calc bench.old; at = P.at; after = P.after }) session.old commands.now) }
    ensures names { OnOk result (session.new.standing.names ≡ session.old.standing.names) }
    ensures actions { OnOk result (session.new.standing.actions ≡ session.old.standing.actions) }
    ensures sound { OnOk result (IsSound (B.calc bench.old) session.new.standing.state) }
    ensures front { OnErr result (PutsFront
        (transcript (record { calc = B.calc bench.old; at = P.at; after = P.after }) session.old commands.now) (K.bytes out.old) (K.bytes out.new)) }
    ensures late { IfErr result IsLate }
    ensures clean { OnOk result (K.faults out.new ≡ K.faults out.old) }
    ensures once { IsErrOf result Status.WriteFault → K.faults out.new ≡ raised (K.faults out.old) }
{
    let mut lines = Vec::new(alloc);
    for command in commands {
        play_round(session, command, &mut lines, out, bench)?;
    }
    Ok(())
}

// Does one round, and writes its lines; where memory ran out in it, those so far. `lines` is room for them.
fn play_round<P: Picker, K: Sink, B: Bench>(
    session: &mut WatchedSession<P>,
    command: &Command,
    lines: &mut Vec<u8>,
    out: &mut K,
    bench: &mut B,
) -> Result<(), Status>
    requires running { session.old.standing.stopped ≡ false }
    requires known { IsKnown session.old.standing command.now }
    requires sound { IsSound (B.calc bench.old) session.old.standing.state }
    ensures same { B.calc bench.new ≡ B.calc bench.old }
    ensures written { OnOk result (K.bytes out.new ≡ appended
        (round_of (record { calc = B.calc bench.old; at = P.at; after = P.after }) session.old command.now).lines (K.bytes out.old)) }
    ensures count { OnOk result (B.count bench.new ≡ counted (B.count bench.old)
        (length (round_of (record { calc = B.calc bench.old; at = P.at; after = P.after }) session.old command.now).calls)) }
    ensures log { OnOk result (B.log bench.new ≡ logged (B.log bench.old)
        (round_of (record { calc = B.calc bench.old; at = P.at; after = P.after }) session.old command.now).calls) }
    ensures next { OnOk result (session.new
        ≡ (round_of (record { calc = B.calc bench.old; at = P.at; after = P.after }) session.old command.now).next) }
    ensures names { session.new.standing.names ≡ session.old.standing.names }
    ensures actions { session.new.standing.actions ≡ session.old.standing.actions }
    ensures sound { IsSound (B.calc bench.old) session.new.standing.state }
    ensures running { OnOk result (session.new.standing.stopped ≡ false) }
    ensures front { OnErr result (PutsFront
        (round_of (record { calc = B.calc bench.old; at = P.at; after = P.after }) session.old command.now).lines (K.bytes out.old) (K.bytes out.new)) }
    ensures late { IfErr result IsLate }
    ensures clean { OnOk result (K.faults out.new ≡ K.faults out.old) }
    ensures once { IsErrOf result Status.WriteFault → K.faults out.new ≡ raised (K.faults out.old) }
{
    lines.clear();
    if session.step(command, bench, lines).is_err() {
        write_front(out, lines);
        return Err(Status::NoMemory);
    }
    match write_whole(out, lines) {
        Ok(()) => Ok(()),
        Err(_) => Err(Status::WriteFault),
    }
}

// Writes what it can of the lines of a round in which memory ran out.
fn write_front<K: Sink>(out: &mut K, lines: &[u8])
    ensures { PutsFront lines.now (K.bytes out.old) (K.bytes out.new) }
{
    match write_whole(out, lines) {
        Ok(()) => {}
        // It is want of memory all the same.
        Err(_) => {}
    }
}
