// A run of a tool.
ghost use Rattle.std.specs.Prelude.{map};
ghost use Rattle.std.specs.String.{string_bytes};
ghost use Rattle.tool_frame.specs.Tool.{IsRun, shelf_turn, sink_turn, bench_turn};

use crate::{Tool, ToolStatus};
use desk_edge::{Shelf, Sink, write_whole};
use desk_terms::Bench;
use std::alloc::Global;

/// Runs a tool on these words over the files of the shelf, writes its text to `out`, and returns the status of the run. The
/// words are those after the program's name. The prices are those of the bench.
///
/// The first failure in this order is the result: the words, then the files in reading order. Then the text is made whole and
/// written. A fault outside or an allocation failure may come at any time.
pub fn run_tool<'a, T: Tool<'a>, H: Shelf, K: Sink, B: Bench>(
    alloc: Global,
    words: &'a [String],
    shelf: &mut H,
    out: &mut K,
    bench: &mut B,
) -> T::Status
    ensures { IsRun T.Status.ends T.tool (map string_bytes words.now) result
        (shelf_turn H.contents H.faults H.misses H.calls shelf.old shelf.new)
        (sink_turn K.bytes K.faults out.old out.new) (bench_turn B.calc B.count B.log bench.old bench.new) }
{
    let wanted = match T::find(alloc, words, shelf) {
        Ok(wanted) => wanted,
        Err(status) => return status,
    };
    match T::text(alloc, wanted, bench) {
        Ok(text) => match write_whole(out, &text) {
            Ok(()) => T::Status::done(),
            Err(_) => T::Status::cut(),
        },
        Err(_) => T::Status::halted(),
    }
}
