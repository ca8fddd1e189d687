// What a plan says is done.
ghost use Rattle.std.specs.Prelude.{◌≡◌, ◌⊎◌, length, IfErr, IsErrOf, OnOk};
ghost use Rattle.desk_edge.specs.Count.{Rose, raised};
ghost use Rattle.desk_terms.specs.Bench.{counted, logged};
ghost use Rattle.tool_script.specs.Found.{CanRun, CanDo, run_in, plan_in};
ghost use Rattle.tool_script.specs.Verdict.{Run as RunWanted, IsReport};
ghost use Rattle.desk_top.specs.Early.{outside, IsCut, IsHalted};
ghost use Rattle.desk_top.specs.Output.{output_in, computed_in, rounds_in, IsToldIn};
ghost use Rattle.desk_top.specs.Written.{IsLate, Writes, ended};

use crate::play::play;
use crate::report::report;
use crate::summing::sum_up;
use desk_edge::Sink;
use desk_terms::Bench;
use market_session::begun;
use std::alloc::Global;
use tool_script::{Plan, ScriptRun, Status};
use watch_rounds::Order;

// Does what a plan says, and writes what comes of it to `out`: the round of each command of a script, with the runs of the
// watchers that it makes due, whose lines are written before the next round begins; or all rounds of a load, and then its
// summary; or the line of a report. A failed write or want of memory ends it early.
pub(crate) fn carry_out<K: Sink, B: Bench>(
    alloc: Global,
    plan: Plan,
    out: &mut K,
    bench: &mut B,
) -> Result<(), Status>
    requires can { CanDo plan }

    // At Ok all was written, and all was computed; at an early end a front of it was.
    ensures written { Writes (K.bytes out.old) (K.bytes out.new) (output_in (B.calc bench.old) (plan_in plan)) (ended result) }
    ensures count { OnOk result (B.count bench.new ≡ counted (B.count bench.old) (length (computed_in (B.calc bench.old) (plan_in plan)))) }
    ensures log { OnOk result (B.log bench.new ≡ logged (B.log bench.old) (computed_in (B.calc bench.old) (plan_in plan))) }
    ensures cut { IsErrOf result Status.WriteFault → IsCut (rounds_in (B.calc bench.old) (plan_in plan))
        (outside (K.bytes out.old) (B.count bench.old) (B.log bench.old)) (outside (K.bytes out.new) (B.count bench.new) (B.log bench.new)) }
    ensures halted { IsErrOf result Status.NoMemory → IsHalted (rounds_in (B.calc bench.old) (plan_in plan))
        (outside (K.bytes out.old) (B.count bench.old) (B.log bench.old)) (outside (K.bytes out.new) (B.count bench.new) (B.log bench.new)) }
    // Of a script all that was told before memory ran out was written, unless a put failed.
    ensures told { IsErrOf result Status.NoMemory → IsToldIn (B.calc bench.old) (plan_in plan)
        (outside (K.bytes out.old) (B.count bench.old) (B.log bench.old)) (outside (K.bytes out.new) (B.count bench.new) (B.log bench.new))
        ⊎ (K.faults out.new ≡ raised (K.faults out.old)) }
    ensures checked { IsReport (plan_in plan) → bench.new ≡ bench.old }
    ensures same { B.calc bench.new ≡ B.calc bench.old }
    ensures late { IfErr result IsLate }
    ensures write { IsErrOf result Status.WriteFault → Rose (K.faults out.old) (K.faults out.new) }
    // At Ok no put failed. After a fault of writing one did, and none was made behind it: any put may fail. Where memory ran out the
    // put of what was written till then may have failed.
    ensures clean { OnOk result (K.faults out.new ≡ K.faults out.old) }
    ensures once { IsErrOf result Status.WriteFault → K.faults out.new ≡ raised (K.faults out.old) }
    ensures at_most { IsErrOf result Status.NoMemory
        → (K.faults out.new ≡ K.faults out.old) ⊎ (K.faults out.new ≡ raised (K.faults out.old)) }
{
    match plan {
        Plan::Run { run, order } => play_script(alloc, run, order, out, bench),
        Plan::Load { size, run } => sum_up(alloc, size, run, out, bench),
        Plan::Check { objects, fixings } => report(alloc, objects, fixings, out),
    }
}

// Plays a script over a session of its market's objects.
fn play_script<K: Sink, B: Bench>(
    alloc: Global,
    run: ScriptRun,
    order: Order,
    out: &mut K,
    bench: &mut B,
) -> Result<(), Status>
    requires can { CanRun run }
    ensures written { Writes (K.bytes out.old) (K.bytes out.new) (output_in (B.calc bench.old) (RunWanted (run_in run) order)) (ended result) }
    ensures count { OnOk result (B.count bench.new ≡ counted (B.count bench.old) (length (computed_in (B.calc bench.old) (RunWanted (run_in run) order)))) }
    ensures log { OnOk result (B.log bench.new ≡ logged (B.log bench.old) (computed_in (B.calc bench.old) (RunWanted (run_in run) order))) }
    ensures cut { IsErrOf result Status.WriteFault → IsCut (rounds_in (B.calc bench.old) (RunWanted (run_in run) order))
        (outside (K.bytes out.old) (B.count bench.old) (B.log bench.old)) (outside (K.bytes out.new) (B.count bench.new) (B.log bench.new)) }
    ensures halted { IsErrOf result Status.NoMemory → IsHalted (rounds_in (B.calc bench.old) (RunWanted (run_in run) order))
        (outside (K.bytes out.old) (B.count bench.old) (B.log bench.old)) (outside (K.bytes out.new) (B.count bench.new) (B.log bench.new)) }
    ensures told { IsErrOf result Status.NoMemory → IsToldIn (B.calc bench.old) (RunWanted (run_in run) order)
        (outside (K.bytes out.old) (B.count bench.old) (B.log bench.old)) (outside (K.bytes out.new) (B.count bench.new) (B.log bench.new))
        ⊎ (K.faults out.new ≡ raised (K.faults out.old)) }
    ensures same { B.calc bench.new ≡ B.calc bench.old }
    ensures late { IfErr result IsLate }
    ensures write { IsErrOf result Status.WriteFault → Rose (K.faults out.old) (K.faults out.new) }
    ensures clean { OnOk result (K.faults out.new ≡ K.faults out.old) }
    ensures once { IsErrOf result Status.WriteFault → K.faults out.new ≡ raised (K.faults out.old) }
    ensures at_most { IsErrOf result Status.NoMemory
        → (K.faults out.new ≡ K.faults out.old) ⊎ (K.faults out.new ≡ raised (K.faults out.old)) }
{
    let (mut session, commands) = begun(
        alloc,
        run.market.names,
        run.market.today,
        run.market.made,
        run.script,
        order,
    )?;
    let played = play(alloc, &mut session, commands.items(), out, bench);
    drop(session);
    played
}
