//! The program `doqs`: one first word, one command. `doqs --help` lists the commands, and `doqs help COMMAND` shows how one is
//! used. What it does is `tool_front::run_doqs`.
#![tactic(auto)]

use desk_bench::DeskBench;
use desk_edge::{Feed, Shelf, Sink};
use std::alloc::Global;
use tool_frame::{Ended, Program, run_process};
use tool_front::{FrontStatus, NAME, run_doqs};

// The run of the program.
struct Doqs;

impl Program for Doqs {
    type Status = FrontStatus;

    fn run<H: Shelf, F: Feed, K: Sink, N: Sink>(
        alloc: Global,
        words: &[String],
        shelf: &mut H,
        feed: &mut F,
        out: &mut K,
        notes: &mut N,
    ) -> FrontStatus {
        run_doqs(alloc, words, shelf, feed, out, notes, &mut DeskBench::new())
    }
}

fn main(rt: HostRuntime) -> Ended<FrontStatus> {
    run_process::<Doqs>(&rt, NAME)
}
