//! The program `desk`: it runs a session script over a market file and writes the transcript on standard output, checks
//! a market file, or runs a large session that a number gives.
//!
//! `desk run MARKET SCRIPT [--order ORDER]`, `desk check MARKET`, `desk load SIZE`. What it does is `desk_top::run`.
#![tactic(auto)]

use desk_bench::DeskBench;
use desk_edge::{Feed, Shelf, Sink};
use desk_top::{Status, run};
use std::alloc::Global;
use tool_frame::{Ended, Program, run_process};

// The run of the program.
struct Desk;

impl Program for Desk {
    type Status = Status;

    fn run<H: Shelf, F: Feed, K: Sink, N: Sink>(
        alloc: Global,
        words: &[String],
        shelf: &mut H,
        _feed: &mut F,
        out: &mut K,
        _notes: &mut N,
    ) -> Status {
        run(alloc, words, shelf, out, &mut DeskBench::new())
    }
}

fn main(rt: HostRuntime) -> Ended<Status> {
    run_process::<Desk>(&rt, "desk")
}
