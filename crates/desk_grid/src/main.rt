//! The program `desk_grid`: it prices what a script asks for under several sets of moves of a market, each beside the others,
//! and names for each ask the scenario in which it shows the least money.
//!
//! `desk_grid MARKET SCRIPT`. What it does is `scenario_grid::run_grid`.
#![tactic(auto)]

use desk_bench::DeskBench;
use desk_edge::{Feed, Shelf, Sink};
use scenario_grid::{NAME, run_grid};
use std::alloc::Global;
use tool_frame::{Ended, Program, run_process};
use tool_script::BlocksStatus;

// The run of the program.
struct DeskGrid;

impl Program for DeskGrid {
    type Status = BlocksStatus;

    fn run<H: Shelf, F: Feed, K: Sink, N: Sink>(
        alloc: Global,
        words: &[String],
        shelf: &mut H,
        _feed: &mut F,
        out: &mut K,
        _notes: &mut N,
    ) -> BlocksStatus {
        run_grid(alloc, words, shelf, out, &mut DeskBench::new())
    }
}

fn main(rt: HostRuntime) -> Ended<BlocksStatus> {
    run_process::<DeskGrid>(&rt, NAME)
}
