// The call of the program.
ghost use Rattle.std.specs.Prelude.{map};
ghost use Rattle.std.specs.String.{string_bytes};
ghost use Rattle.tool_script.specs.Status.{script_ends};
ghost use Rattle.tool_frame.specs.Named_runRun.{IsNamedRun};
ghost use Rattle.tool_frame.specs.Tool.{shelf_turn, sink_turn, bench_turn};
ghost use Rattle.why_run.specs.Answering.{refuses_in, why_tool};

use crate::answering::text_of;
use crate::words::Triple;
use desk_edge::{Shelf, Sink};
use desk_terms::Bench;
use std::alloc::{AllocError, Global};
use tool_frame::{NamedStatus, NamedText, NamedTool, run_named};
use tool_script::{FoundRun, Status, find_run};

/// Runs a script over a market as `desk run` does, with its due watchers in the order `first`, writes nothing of its
/// transcript, and then writes to `out` from what the price of an object of the session was computed, and answers how that
/// went. The words are those behind the program's name: the path of a market, the path of a script, and the name of the
/// object. The prices are those of the bench.
///
/// The first failure in this order is the answer: the words; the market's file and the tables' names in it; the file of
/// the quotes, and that of the fixings, where the market names them; the market; the script's file; the script. Then the
/// round of each command is done, the answer is made whole, and written. A fault outside, or want of memory, may come at
/// any time. A name that no priced object has is the answer where all else went well.
pub fn run_why<H: Shelf, K: Sink, B: Bench>(
    alloc: Global,
    words: &[String],
    shelf: &mut H,
    out: &mut K,
    bench: &mut B,
) -> NamedStatus<Status>
    ensures { IsNamedRun script_ends why_tool refuses_in (map string_bytes words.now) result
        (shelf_turn H.contents H.faults H.misses H.calls shelf.old shelf.new)
        (sink_turn K.bytes K.faults out.old out.new) (bench_turn B.calc B.count B.log bench.old bench.new) }
{
    run_named::<Why, H, K, B>(alloc, words, shelf, out, bench)
}

// The tool of this program.
struct Why;

impl<'a> NamedTool<'a> for Why {
    ghost use Rattle.tool_script.specs.Asking.{Wanted, found_in};
    ghost use Rattle.tool_script.specs.Found.{CanRun};
    ghost use Rattle.why_run.specs.Answering.{refuses_in, why_tool};
    ghost use Rattle.why_run.specs.Words.{Triple, triple_in};

    type Wanted = FoundRun<Triple<'a>>;

    type Status = Status;

    ghost Request = { Triple };

    ghost Asked = { Wanted Triple };

    ghost asked_in = { found_in triple_in };

    ghost tool = { why_tool };

    ghost refuses = { refuses_in };

    ghost CanRun = { λ found. CanRun found.run };

    fn find<H: Shelf>(
        alloc: Global,
        words: &'a [String],
        shelf: &mut H,
    ) -> Result<FoundRun<Triple<'a>>, Status> {
        find_run(alloc, words, shelf)
    }

    fn text<B: Bench>(
        alloc: Global,
        wanted: FoundRun<Triple<'a>>,
        bench: &mut B,
    ) -> Result<NamedText, AllocError> {
        text_of(alloc, wanted, bench)
    }
}
