// A run of a tool that takes names.
ghost use Rattle.std.specs.Prelude.{◌≡◌, if◌then◌else◌, map};
ghost use Rattle.std.specs.String.{string_bytes};
ghost use Rattle.tool_frame.specs.Tool.{shelf_turn, sink_turn, bench_turn};
ghost use Rattle.tool_frame.specs.Named_runRun.{IsNamedRun, named_end};

use crate::{NamedStatus, NamedTool, ToolStatus};
use desk_edge::{Shelf, Sink, write_whole};
use desk_terms::Bench;
use std::alloc::Global;

/// Does what the words ask a tool for over the files of the shelf, writes its text to `out`, and returns how that went. The
/// words are those after the program's name. The prices are those of the bench.
///
/// The first failure in this order is the result: the words; the files in reading order. Then the text is made whole, and
/// written. A fault outside, or an allocation that fails, may come at any time. A wrong name is the result where all else
/// went well.
pub fn run_named<'a, T: NamedTool<'a>, H: Shelf, K: Sink, B: Bench>(
    alloc: Global,
    words: &'a [String],
    shelf: &mut H,
    out: &mut K,
    bench: &mut B,
) -> NamedStatus<T::Status>
    ensures { IsNamedRun T.Status.ends T.tool T.refuses (map string_bytes words.now) result
        (shelf_turn H.contents H.faults H.misses H.calls shelf.old shelf.new)
        (sink_turn K.bytes K.faults out.old out.new) (bench_turn B.calc B.count B.log bench.old bench.new) }
{
    let wanted = match T::find(alloc, words, shelf) {
        Ok(wanted) => wanted,
        Err(status) => return NamedStatus::Of(status),
    };
    match T::text(alloc, wanted, bench) {
        Ok(text) => match write_whole(out, &text.text) {
            Ok(()) => named_end::<T::Status>(text.refuses),
            Err(_) => NamedStatus::Of(T::Status::cut()),
        },
        Err(_) => NamedStatus::Of(T::Status::halted()),
    }
}

// How a run ends whose text was written.
fn named_end<S: ToolStatus>(refuses: bool) -> NamedStatus<S>
    ensures { result ≡ named_end S.ends.done refuses }
{
    if refuses {
        NamedStatus::Refused
    } else {
        NamedStatus::Of(S::done())
    }
}
