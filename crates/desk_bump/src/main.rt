//! The program `desk_bump`: it prices an instrument of a market file, moves each quote of the market by 0.0001 up and down,
//! and then all together, and writes what the instrument gains.
//!
//! `desk_bump MARKET NAME`. What it does is `bump_ladder::run_bump`.
#![tactic(auto)]

use bump_ladder::{BumpStatus, NAME, run_bump};
use desk_bench::DeskBench;
use desk_edge::{Feed, Shelf, Sink};
use std::alloc::Global;
use tool_frame::{Ended, Program, run_process};

// The run of the program.
struct DeskBump;

impl Program for DeskBump {
    type Status = BumpStatus;

    fn run<H: Shelf, F: Feed, K: Sink, N: Sink>(
        alloc: Global,
        words: &[String],
        shelf: &mut H,
        _feed: &mut F,
        out: &mut K,
        _notes: &mut N,
    ) -> BumpStatus {
        run_bump(alloc, words, shelf, out, &mut DeskBench::new())
    }
}

fn main(rt: HostRuntime) -> Ended<BumpStatus> {
    run_process::<DeskBump>(&rt, NAME)
}
