// The call of the program.
ghost use Rattle.std.specs.Prelude.{map};
ghost use Rattle.std.specs.String.{string_bytes};
ghost use Rattle.tool_script.specs.BlocksStatus.{blocks_ends};
ghost use Rattle.tool_frame.specs.Tool.{IsRun, shelf_turn, sink_turn, bench_turn};
ghost use Rattle.scenario_grid.specs.Verdict.{grid_tool};

use crate::grid_lines;
use desk_edge::{Shelf, Sink};
use desk_terms::Bench;
use market_file::Market;
use std::alloc::{AllocError, Global};
use tool_frame::{OpenMarket, Tool, run_tool};
use tool_script::{Blocks, BlocksStatus, ScriptRun, open_blocks};

// The tool.
struct GridTool;

impl<'a> Tool<'a> for GridTool {
    ghost use Rattle.tool_script.specs.Found.{CanRun, run_in};
    ghost use Rattle.tool_script.specs.Verdict.{ScriptRun};
    ghost use Rattle.tool_script.specs.ShapeLaws.{IsTaken};
    ghost use Rattle.tool_frame.specs.Words.{Pair};
    ghost use Rattle.scenario_grid.specs.Verdict.{grid_tool};

    type Wanted = ScriptRun;

    type Status = BlocksStatus;

    ghost Request = { Pair };

    ghost Asked = { ScriptRun };

    ghost asked_in = { run_in };

    ghost tool = { grid_tool };

    ghost CanRun = { λ run. CanRun run × IsTaken run.script };

    fn find<H: Shelf>(
        alloc: Global,
        words: &'a [String],
        shelf: &mut H,
    ) -> Result<ScriptRun, BlocksStatus> {
        open_blocks(alloc, Blocks::Scenarios, words, shelf)
    }

    fn text<B: Bench>(
        alloc: Global,
        wanted: ScriptRun,
        bench: &mut B,
    ) -> Result<Vec<u8>, AllocError> {
        let ScriptRun { market, script } = wanted;
        let OpenMarket { names, today, made } = market;
        let market = Market { today, made };
        grid_lines(alloc, &market, &names, &script, bench)
    }
}

/// Does what the words ask for over the files of the shelf, writes the lines to `out`, and answers how that went. The
/// words are those behind the program's name: the path of a market, and the path of a script. The prices are those of the
/// bench.
///
/// The first failure in this order is the answer: the words; the market's file and the tables' names in it; the file of
/// the quotes, and that of the fixings, where the market names them; the market; the script's file; the script; its shape.
/// Then the lines of the whole grid are made, one scenario after the other, and written. A fault outside, or want of
/// memory, may come at any time.
pub fn run_grid<H: Shelf, K: Sink, B: Bench>(
    alloc: Global,
    words: &[String],
    shelf: &mut H,
    out: &mut K,
    bench: &mut B,
) -> BlocksStatus
    ensures { IsRun blocks_ends grid_tool (map string_bytes words.now) result
        (shelf_turn H.contents H.faults H.misses H.calls shelf.old shelf.new)
        (sink_turn K.bytes K.faults out.old out.new) (bench_turn B.calc B.count B.log bench.old bench.new) }
{
    run_tool::<GridTool, H, K, B>(alloc, words, shelf, out, bench)
}
