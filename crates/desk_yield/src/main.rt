//! The program `desk_yield`: of a bond of a market file, the interest that has accrued on a settlement day, the full price
//! at a clean price, and the yield at it.
//!
//! `desk_yield MARKET NAME DAY PRICE`. What it does is `tool_bond::run_yield`.
#![tactic(auto)]

use desk_edge::{Feed, Shelf, Sink};
use std::alloc::Global;
use tool_bond::{NAME, YieldStatus, run_yield};
use tool_frame::{Ended, Program, run_process};

// The run of the program.
struct DeskYield;

impl Program for DeskYield {
    type Status = YieldStatus;

    fn run<H: Shelf, F: Feed, K: Sink, N: Sink>(
        alloc: Global,
        words: &[String],
        shelf: &mut H,
        _feed: &mut F,
        out: &mut K,
        _notes: &mut N,
    ) -> YieldStatus {
        run_yield(alloc, words, shelf, out)
    }
}

fn main(rt: HostRuntime) -> Ended<YieldStatus> {
    run_process::<DeskYield>(&rt, NAME)
}
