//! Rounds: which watchers are due, how often each name has run in the round, and who of the due runs next (this
//! project's profile). A name runs at most eight times in a round, so every round ends.
//!
//! `Picker`, `Order`, `DueWatcher`, `Rounds`, `Notice`, `Tally`, `MOST_RUNS`. Words of `specs/`: `Round`,
//! `RoundsView`, `with_notice`, `with_run`, `runs_left`, `IsRound`, `order_at`. The functions of `laws`
//! and `rows` have no body: their contracts are what is proved.
#![tactic(auto)]

mod laws;
mod notice;
mod picker;
mod rounds;
mod rows;
mod tally;

pub use laws::a_name_runs_at_most_eight_times;
pub use notice::Notice;
pub use picker::{Order, Picker};
pub use rounds::{DueWatcher, Rounds};
pub use rows::{
    due_watchers_are_worked_through, eight_runs_are_worked_through, picks_are_worked_through,
};
pub use tally::{MOST_RUNS, Tally};
