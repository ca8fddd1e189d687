// The call of the program.
ghost use Rattle.std.specs.Prelude.{map};
ghost use Rattle.std.specs.String.{string_bytes};
ghost use Rattle.tool_script.specs.Status.{script_ends};
ghost use Rattle.tool_frame.specs.Tool.{IsRun, shelf_turn, sink_turn, bench_turn};
ghost use Rattle.tool_runs.specs.Drawing.{graph_tool};

use crate::drawing::text_of;
use crate::graph_words::Paths;
use desk_edge::{Shelf, Sink};
use desk_terms::Bench;
use std::alloc::{AllocError, Global};
use tool_frame::{Tool, run_tool};
use tool_script::{FoundRun, Status, find_run};

/// Runs a script over a market as `desk run` does, with its due watchers in the order `first`, writes nothing of its
/// transcript, and then writes to `out` the graph of the session as it stands, and answers how that went. The words are
/// those behind the program's name: the path of a market, and the path of a script. The prices are those of the bench.
///
/// The first failure in this order is the answer: the words; the market's file and the tables' names in it; the file of
/// the quotes, and that of the fixings, where the market names them; the market; the script's file; the script. Then the
/// round of each command is done, the graph is made whole, and written. A fault outside, or want of memory, may come at
/// any time.
pub fn run_graph<H: Shelf, K: Sink, B: Bench>(
    alloc: Global,
    words: &[String],
    shelf: &mut H,
    out: &mut K,
    bench: &mut B,
) -> Status
    ensures { IsRun script_ends graph_tool (map string_bytes words.now) result
        (shelf_turn H.contents H.faults H.misses H.calls shelf.old shelf.new)
        (sink_turn K.bytes K.faults out.old out.new) (bench_turn B.calc B.count B.log bench.old bench.new) }
{
    run_tool::<Graph, H, K, B>(alloc, words, shelf, out, bench)
}

// The tool of this program.
struct Graph;

impl<'a> Tool<'a> for Graph {
    ghost use Rattle.tool_script.specs.Asking.{Wanted, found_in};
    ghost use Rattle.tool_script.specs.Found.{CanRun};
    ghost use Rattle.tool_runs.specs.Drawing.{graph_tool};
    ghost use Rattle.tool_runs.specs.GraphWords.{Paths, paths_in};

    type Wanted = FoundRun<Paths<'a>>;

    type Status = Status;

    ghost Request = { Paths };

    ghost Asked = { Wanted Paths };

    ghost asked_in = { found_in paths_in };

    ghost tool = { graph_tool };

    ghost CanRun = { λ found. CanRun found.run };

    fn find<H: Shelf>(
        alloc: Global,
        words: &'a [String],
        shelf: &mut H,
    ) -> Result<FoundRun<Paths<'a>>, Status> {
        find_run(alloc, words, shelf)
    }

    fn text<B: Bench>(
        alloc: Global,
        wanted: FoundRun<Paths<'a>>,
        bench: &mut B,
    ) -> Result<Vec<u8>, AllocError> {
        text_of(alloc, wanted.run, bench)
    }
}
