// What words and files ask for that are a script of blocks over a market.
ghost use Rattle.std.specs.Prelude.{map, IfOk};
ghost use Rattle.std.specs.String.{string_bytes};
ghost use Rattle.tool_script.specs.Found.{CanRun, run_in};
ghost use Rattle.tool_script.specs.ShapeLaws.{IsTaken};
ghost use Rattle.tool_frame.specs.Tool.{Finds, shelf_turn};
ghost use Rattle.tool_script.specs.BlocksStatus.{blocks_ends};
ghost use Rattle.tool_script.specs.BlocksAsking.{blocks_asks};

use crate::{Blocks, BlocksStatus, ScriptRun, a_shape_says_what_it_takes, check_shape, find_run};
use desk_edge::Shelf;
use std::alloc::Global;
use tool_frame::Pair;

/// What the words and the files ask for: a script over a market, whose blocks are scenarios or steps. The words are the path
/// of a market and the path of a script.
pub fn open_blocks<H: Shelf>(
    alloc: Global,
    blocks: Blocks,
    words: &[String],
    shelf: &mut H,
) -> Result<ScriptRun, BlocksStatus>
    ensures found { Finds blocks_ends (blocks_asks blocks) run_in (map string_bytes words.now) result
        (shelf_turn H.contents H.faults H.misses H.calls shelf.old shelf.new) }
    ensures can { IfOk result CanRun }
    ensures taken { IfOk result (λ run. IsTaken run.script) }
{
    let run = match find_run::<Pair<'_>, H>(alloc, words, shelf) {
        Ok(found) => found.run,
        Err(status) => return Err(BlocksStatus::Of(status)),
    };
    a_shape_says_what_it_takes();
    match check_shape(blocks, &run.script, &run.market.names) {
        Some(fault) => Err(BlocksStatus::Shape(fault)),
        None => Ok(run),
    }
}
