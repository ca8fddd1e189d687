// All commands of a script, in order.
ghost use Rattle.std.specs.Prelude.{◌≡◌, ◌⊎◌, ◌≤◌, ℕ, true, false, [], length, take, All, IfErr, OnOk, IsErrOf};
ghost use Rattle.desk_edge.specs.Count.{Rose, raised};
ghost use Rattle.desk_edge.specs.Sink.{appended};
ghost use Rattle.desk_terms.specs.Bench.{counted, logged};
ghost use Rattle.desk_model.specs.Sound.{IsSound};
ghost use Rattle.session_model.specs.Standing.{IsKnown};
ghost use Rattle.session_model.specs.Course.{Course, round_of};
ghost use Rattle.session_model.specs.Rounds.{rounds, transcript, calls_of};
ghost use Rattle.session_model.specs.Moments.{moments, moments_of_round};
ghost use Rattle.desk_top.specs.Early.{outside, IsCut, IsHalted, IsToldSoFar};
ghost use Rattle.desk_top.specs.Round.{RoundEnds};
ghost use Rattle.desk_top.specs.Written.{IsLate, Writes, ended};

use desk_edge::{Sink, write_whole};
use desk_terms::Bench;
use session_commands::Command;
use session_rounds::WatchedSession;
use std::alloc::Global;
use tool_script::Status;
use watch_rounds::Picker;

// Does the round of each command in order over a session, and writes the lines of each before the next begins. The session is
// lent: who owns one lets it go at each exit, which is much to prove where there are many.
pub(crate) fn play<P: Picker, K: Sink, B: Bench>(
    alloc: Global,
    session: &mut WatchedSession<P>,
    commands: &[Command],
    out: &mut K,
    bench: &mut B,
) -> Result<(), Status>
    requires running { session.old.standing.stopped ≡ false }
    requires known { All (IsKnown session.old.standing) commands.now }
    requires sound { IsSound (B.calc bench.old) session.old.standing.state }
    ensures same { B.calc bench.new ≡ B.calc bench.old }

    // At Ok the lines of all rounds were written, and their computations made.
    ensures written { Writes (K.bytes out.old) (K.bytes out.new)
        (transcript (record { calc = B.calc bench.old; at = P.at; after = P.after }) session.old commands.now) (ended result) }
    ensures count { OnOk result (B.count bench.new ≡ counted (B.count bench.old)
        (length (calls_of (record { calc = B.calc bench.old; at = P.at; after = P.after }) session.old commands.now))) }
    ensures log { OnOk result (B.log bench.new ≡ logged (B.log bench.old)
        (calls_of (record { calc = B.calc bench.old; at = P.at; after = P.after }) session.old commands.now)) }

    // At an early end it stands within one round, whose lines were not all written.
    ensures cut { IsErrOf result Status.WriteFault → IsCut (rounds (record { calc = B.calc bench.old; at = P.at; after = P.after }) session.old commands.now)
        (outside (K.bytes out.old) (B.count bench.old) (B.log bench.old)) (outside (K.bytes out.new) (B.count bench.new) (B.log bench.new)) }
    ensures halted { IsErrOf result Status.NoMemory → IsHalted (rounds (record { calc = B.calc bench.old; at = P.at; after = P.after }) session.old commands.now)
        (outside (K.bytes out.old) (B.count bench.old) (B.log bench.old)) (outside (K.bytes out.new) (B.count bench.new) (B.log bench.new)) }
    // All that was told before memory ran out was written, unless a put failed.
    ensures told { IsErrOf result Status.NoMemory → IsToldSoFar (B.calc bench.old) (moments (record { calc = B.calc bench.old; at = P.at; after = P.after }) session.old commands.now)
        (outside (K.bytes out.old) (B.count bench.old) (B.log bench.old)) (outside (K.bytes out.new) (B.count bench.new) (B.log bench.new))
        ⊎ (K.faults out.new ≡ raised (K.faults out.old)) }

    // Each round left a sound state.
    ensures sound { OnOk result (All (λ (t : Course P). IsSound (B.calc bench.old) t.next.standing.state)
        (rounds (record { calc = B.calc bench.old; at = P.at; after = P.after }) session.old commands.now)) }

    ensures late { IfErr result IsLate }
    ensures write { IsErrOf result Status.WriteFault → Rose (K.faults out.old) (K.faults out.new) }
    ensures clean { OnOk result (K.faults out.new ≡ K.faults out.old) }
    ensures once { IsErrOf result Status.WriteFault → K.faults out.new ≡ raised (K.faults out.old) }
    ensures at_most { IsErrOf result Status.NoMemory
        → (K.faults out.new ≡ K.faults out.old) ⊎ (K.faults out.new ≡ raised (K.faults out.old)) }
    ensures faults { K.faults out.old ≤ K.faults out.new }
{
    let mut lines = Vec::new(alloc);
    for command in commands {
        play_round(session, command, &mut lines, out, bench)?;
    }
    Ok(())
}

// Does one round, and writes its lines; where memory ran out in it, those so far. `lines` is room for them.
fn play_round<P: Picker, K: Sink, B: Bench>(
    session: &mut WatchedSession<P>,
    command: &Command,
    lines: &mut Vec<u8>,
    out: &mut K,
    bench: &mut B,
) -> Result<(), Status>
    requires running { session.old.standing.stopped ≡ false }
    requires known { IsKnown session.old.standing command.now }
    requires sound { IsSound (B.calc bench.old) session.old.standing.state }
    ensures same { B.calc bench.new ≡ B.calc bench.old }
    ensures ends { RoundEnds (round_of (record { calc = B.calc bench.old; at = P.at; after = P.after }) session.old command.now) result
        (outside (K.bytes out.old) (B.count bench.old) (B.log bench.old)) (outside (K.bytes out.new) (B.count bench.new) (B.log bench.new)) }
    ensures next { OnOk result (session.new ≡ (round_of (record { calc = B.calc bench.old; at = P.at; after = P.after }) session.old command.now).next) }
    ensures sound { IsSound (B.calc bench.old) session.new.standing.state }
    ensures running { OnOk result (session.new.standing.stopped ≡ false) }
    // Want of memory is answered only where the session is stopped; a failed write leaves it running.
    ensures stopped { IsErrOf result Status.NoMemory → session.new.standing.stopped ≡ true }
    // What was written of the round when memory ran out goes out whole, unless a put failed.
    ensures so_far { IsErrOf result Status.NoMemory → (K.bytes out.new ≡ appended lines.new.items (K.bytes out.old))
        ⊎ (K.faults out.new ≡ raised (K.faults out.old)) }
    ensures told { IsErrOf result Status.NoMemory → IsToldSoFar (B.calc bench.old) (moments_of_round (record { calc = B.calc bench.old; at = P.at; after = P.after }) session.old command.now)
        (outside (K.bytes out.old) (B.count bench.old) (B.log bench.old)) (outside (K.bytes out.new) (B.count bench.new) (B.log bench.new))
        ⊎ (K.faults out.new ≡ raised (K.faults out.old)) }
    ensures goes_on { IsErrOf result Status.WriteFault → session.new.standing.stopped ≡ false }
    ensures names { OnOk result (session.new.standing.names ≡ session.old.standing.names) }
    ensures actions { OnOk result (session.new.standing.actions ≡ session.old.standing.actions) }
    ensures late { IfErr result IsLate }
    ensures write { IsErrOf result Status.WriteFault → Rose (K.faults out.old) (K.faults out.new) }
    ensures clean { OnOk result (K.faults out.new ≡ K.faults out.old) }
    ensures once { IsErrOf result Status.WriteFault → K.faults out.new ≡ raised (K.faults out.old) }
    ensures at_most { IsErrOf result Status.NoMemory
        → (K.faults out.new ≡ K.faults out.old) ⊎ (K.faults out.new ≡ raised (K.faults out.old)) }
    ensures faults { K.faults out.old ≤ K.faults out.new }
{
    lines.clear();
    if session.step(command, bench, lines).is_err() {
        write_front(out, lines);
        return Err(Status::NoMemory);
    }
    match write_whole(out, lines) {
        Ok(()) => Ok(()),
        Err(_) => Err(Status::WriteFault),
    }
}

// Writes what it can of the lines of a round in which memory ran out.
fn write_front<K: Sink>(out: &mut K, lines: &[u8])
    ensures front { (count : ℕ) × (count ≤ length lines.now) × (K.bytes out.new ≡ appended (take count lines.now) (K.bytes out.old)) }
    // All of them, unless a put failed.
    ensures whole { (K.bytes out.new ≡ appended lines.now (K.bytes out.old)) ⊎ (K.faults out.new ≡ raised (K.faults out.old)) }
    ensures at_most { (K.faults out.new ≡ K.faults out.old) ⊎ (K.faults out.new ≡ raised (K.faults out.old)) }
    ensures nothing { lines.now ≡ [] → out.new ≡ out.old }
    ensures faults { K.faults out.old ≤ K.faults out.new }
{
    // Where this fails, it is want of memory all the same.
    let _ = write_whole(out, lines);
}
