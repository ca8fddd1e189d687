// Rows of rounds and of picks, the rounds played step by step.
ghost use Rattle.graph_vectors.specs.Watched.{HasRoom};

use crate::picks::Picks;
use crate::tallies::Tally;
use crate::watched::Watched;
use std::alloc::Global;
use std::{fs, io};

/// Prints each round of `rounds.txt` and each pick of `picks.csv` that differs, and how many agree.
pub(crate) fn compare(rt: &HostRuntime) -> io::Result<()> {
    let rounds = fs::read_to_string(rt, "rounds.txt")?;
    play(rt, rt.alloc(), &mut Watched::new(rt.alloc()), &rounds)?;
    let picks = fs::read_to_string(rt, "picks.csv")?;
    compare_picks(rt, &picks)
}

// Prints each round that differs, and how many agree and differ. A line `session` begins anew.
fn play(rt: &impl Print, alloc: Global, watched: &mut Watched, rows: &str) -> io::Result<()>
    requires { HasRoom watched.old }
{
    let mut rounds = Tally::new("rounds");
    for row in rows.lines() {
        if let Some(session) = row.strip_prefix("session ") {
            if watched.begin(alloc, session).is_none() {
                println!(rt; "rounds: {row}")?;
            }
        } else {
            rounds.count(rt, row, watched.round_agrees(row).unwrap_or(false))?;
        }
    }
    rounds.tell(rt)
}

// Prints each pick that differs, and how many agree and differ.
fn compare_picks(rt: &impl Print, rows: &str) -> io::Result<()> {
    let mut order = Picks::new();
    let mut picks = Tally::new("picks");
    for row in rows.lines() {
        picks.count(rt, row, order.pick_agrees(row).unwrap_or(false))?;
    }
    picks.tell(rt)
}
