// The call of the program.
ghost use Rattle.std.specs.Prelude.{map};
ghost use Rattle.std.specs.String.{string_bytes};
ghost use Rattle.tool_frame.specs.Idle.{no_bench};
ghost use Rattle.tool_frame.specs.Status.{market_ends};
ghost use Rattle.tool_frame.specs.Tool.{IsRun, shelf_turn, sink_turn};
ghost use Rattle.tool_bond.specs.YieldVerdict.{yield_tool};

use crate::{YieldTool, run_bond};
use desk_edge::{Shelf, Sink};
use std::alloc::Global;
use tool_frame::MarketStatus;

/// Does what the words ask for over the files of the shelf, writes the lines to `out`, and answers how that went. The
/// words are those behind the program's name: the path of a market, the name of a bond, a settlement day and a clean
/// price.
///
/// The first failure in this order is the answer: the words; the market's file and the tables' names in it; the file of
/// the quotes, and that of the fixings, where the market names them; the market. Then the lines are made whole, and
/// written. A fault outside, or want of memory, may come at any time.
pub fn run_yield<H: Shelf, K: Sink>(
    alloc: Global,
    words: &[String],
    shelf: &mut H,
    out: &mut K,
) -> MarketStatus
    ensures { IsRun market_ends yield_tool (map string_bytes words.now) result
        (shelf_turn H.contents H.faults H.misses H.calls shelf.old shelf.new) (sink_turn K.bytes K.faults out.old out.new) no_bench }
{
    run_bond::<YieldTool, H, K>(alloc, words, shelf, out)
}
