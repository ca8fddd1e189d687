// From a command to its run.
ghost use Rattle.std.specs.Prelude.{map};
ghost use Rattle.std.specs.String.{string_bytes};
ghost use Rattle.tool_frame.specs.Tool.{shelf_turn, sink_turn, bench_turn};
ghost use Rattle.tool_script.specs.declared.status.Status.{Status};
ghost use Rattle.tool_script.specs.Status.{code_of, said_of};
ghost use Rattle.tool_front.specs.Command.{Ends, IsCommand};
ghost use Rattle.tool_front.specs.Session.{IsDesk};

use crate::noting::ended;
use crate::{Command, FrontStatus};
use bump_ladder::run_bump;
use curve_run::run_curve;
use desk_edge::{Feed, Shelf, Sink};
use desk_terms::Bench;
use desk_top::run;
use scenario_grid::run_grid;
use std::alloc::Global;
use tool_bond::{run_measure, run_yield};
use tool_live::run_live;
use tool_risk::run_risk;
use tool_runs::{run_explain, run_graph};
use why_run::run_why;

// Does a command. `words` are those after it, and `whole` are these with it before them.
pub(crate) fn carry_out<H: Shelf, F: Feed, K: Sink, N: Sink, B: Bench>(
    alloc: Global,
    command: Command,
    words: &[String],
    whole: &[String],
    shelf: &mut H,
    feed: &mut F,
    out: &mut K,
    notes: &mut N,
    bench: &mut B,
) -> FrontStatus
    ensures { IsCommand (map string_bytes whole.now) result (record {
      shelf = shelf_turn H.contents H.faults H.misses H.calls shelf.old shelf.new;
      input = F.content feed.old;
      sink = sink_turn K.bytes K.faults out.old out.new;
      notes = sink_turn N.bytes N.faults notes.old notes.new;
      bench = bench_turn B.calc B.count B.log bench.old bench.new;
    }) (map string_bytes words.now) command }
{
    match command {
        Command::Run => desk(alloc, command, words, whole, shelf, out, notes, bench),
        Command::Check => desk(alloc, command, words, whole, shelf, out, notes, bench),
        Command::Load => desk(alloc, command, words, whole, shelf, out, notes, bench),
        Command::Live => {
            let status = run_live(alloc, words, shelf, feed, out, bench);
            ended(alloc, command, words, status, notes)
        }
        Command::Curve => {
            let status = run_curve(alloc, words, shelf, out, notes, bench);
            ended(alloc, command, words, status, notes)
        }
        Command::Why => {
            let status = run_why(alloc, words, shelf, out, bench);
            ended(alloc, command, words, status, notes)
        }
        Command::Explain => {
            let status = run_explain(alloc, words, shelf, out, bench);
            ended(alloc, command, words, status, notes)
        }
        Command::Grid => {
            let status = run_grid(alloc, words, shelf, out, bench);
            ended(alloc, command, words, status, notes)
        }
        Command::Bump => {
            let status = run_bump(alloc, words, shelf, out, bench);
            ended(alloc, command, words, status, notes)
        }
        Command::Risk => {
            let status = run_risk(alloc, words, shelf, out, bench);
            ended(alloc, command, words, status, notes)
        }
        Command::Graph => {
            let status = run_graph(alloc, words, shelf, out, bench);
            ended(alloc, command, words, status, notes)
        }
        Command::Yield => {
            let status = run_yield(alloc, words, shelf, out);
            ended(alloc, command, words, status, notes)
        }
        Command::Measure => {
            let status = run_measure(alloc, words, shelf, out);
            ended(alloc, command, words, status, notes)
        }
    }
}

// Does a command of `desk`, which takes it as its first word.
fn desk<H: Shelf, K: Sink, N: Sink, B: Bench>(
    alloc: Global,
    command: Command,
    words: &[String],
    whole: &[String],
    shelf: &mut H,
    out: &mut K,
    notes: &mut N,
    bench: &mut B,
) -> FrontStatus
    ensures { (status : Status)
        × IsDesk (map string_bytes whole.now) status (shelf_turn H.contents H.faults H.misses H.calls shelf.old shelf.new)
        (sink_turn K.bytes K.faults out.old out.new) (bench_turn B.calc B.count B.log bench.old bench.new)
        × Ends command (map string_bytes words.now) (code_of status) (said_of status) result (sink_turn N.bytes N.faults notes.old notes.new) }
{
    let status = run(alloc, whole, shelf, out, bench);
    ended(alloc, command, words, status, notes)
}
