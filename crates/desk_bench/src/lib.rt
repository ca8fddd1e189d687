//! The benches of this project: both price by the same rules, and one keeps a log of its calls.
//!
//! `DeskBench`; `ListBench` with `LogList` and `LogEntry`.
#![tactic(auto)]

ghost use Rattle.desk_bench.specs.Examples.{AreWorked};

mod bench;
mod curves;

pub use bench::{DeskBench, ListBench, LogEntry, LogList};

/// The definitions give what a hand works out for stocks, composites and implied curves.
fn prices_are_worked_through()
    ensures { AreWorked }
{}
