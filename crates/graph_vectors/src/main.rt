//! Tells graphs of stated shapes from their bottom and counts whom the notice reached: prints each row of `shapes.csv`
//! that differs, and how many agree. Then moves a holder between targets by the rows of `moves.csv`, and does the steps of
//! `deferrals.txt`, worked by hand over one net of five nodes, and of `watchers.txt`, random ones beside a plain model that
//! keeps sets (`tools/watcher_rows.py` writes them). Then it plays the rounds of `rounds.txt` step by step, and chooses
//! among the due by the rows of `picks.csv`; `tools/round_rows.py` writes both beside a plain model. Last comes a ring of
//! 65,536 nodes, each of them observed by the sixteen after it.
#![tactic(auto)]

ghost use Rattle.std.specs.Prelude.{◌≡◌, []};

mod moves;
mod nets;
mod picks;
mod ring;
mod rounds;
mod shapes;
mod steps;
mod tallies;
mod watched;
mod words;

use deferred_sources::Deferral;
use moves::moves_agree;
use observer_graph::Graph;
use shapes::shape_agrees;
use std::alloc::Global;
use std::{fs, io};
use steps::steps_agree;
use tallies::Tally;

fn main(rt: HostRuntime) -> io::Result<()> {
    compare(&rt, Table::Shapes)?;
    show_moves(&rt)?;
    compare(&rt, Table::Deferrals)?;
    compare(&rt, Table::Watchers)?;
    rounds::compare(&rt)?;
    ring::show(&rt)
}

// A file of rows each of which is a graph of its own.
#[derive(Clone, Copy)]
enum Table {
    Shapes,
    Deferrals,
    Watchers,
}

impl Table {
    // Its file, and its kind.
    fn names(self) -> (&'static str, &'static str) {
        match self {
            Table::Shapes => ("shapes.csv", "shapes"),
            Table::Deferrals => ("deferrals.txt", "deferrals"),
            Table::Watchers => ("watchers.txt", "watchers"),
        }
    }

    // Whether a row agrees, by an empty graph of its own. None where it is no row, or where memory is wanting.
    fn agrees(self, alloc: Global, row: &str) -> Option<bool> {
        let mut held = Deferral::new(Graph::new(alloc));
        self.agrees_over(&mut held, row)
    }

    // The same of a graph that is lent: who owns one lets it go at each exit.
    fn agrees_over(self, held: &mut Deferral, row: &str) -> Option<bool>
        requires { held.old.graph ≡ record { nodes = []; subjects = []; sources = []; noticed = []; spare = 0 } }
    {
        match self {
            Table::Shapes => shape_agrees(&mut held.graph, row),
            Table::Deferrals | Table::Watchers => steps_agree(held, row),
        }
    }
}

// Prints each row of a file that differs, and how many agree and differ.
fn compare(rt: &HostRuntime, table: Table) -> io::Result<()> {
    let (file, _) = table.names();
    let rows = fs::read_to_string(rt, file)?;
    compare_rows(rt, rt.alloc(), table, &rows)
}

// The same of the rows of a file.
fn compare_rows(rt: &impl Print, alloc: Global, table: Table, rows: &str) -> io::Result<()> {
    let (_, kind) = table.names();
    let mut tally = Tally::new(kind);
    for row in rows.lines() {
        tally.count(rt, row, table.agrees(alloc, row).unwrap_or(false))?;
    }
    tally.tell(rt)
}

// Prints whether the moves of a holder agree.
fn show_moves(rt: &HostRuntime) -> io::Result<()> {
    let moves = fs::read_to_string(rt, "moves.csv")?;
    let agree = moves_agree(rt.alloc(), &moves).unwrap_or(false);
    println!(rt; "moves: agree {agree}")
}
