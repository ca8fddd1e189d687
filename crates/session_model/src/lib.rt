//! What a session with names does, said without the code that does it: what a command resolves to, what it changes, the
//! lines and the computations that it gives, whom it tells and whose actions run then, and the transcript of all its rounds.
//!
//! `Act` with `Change`, `Growth` and `How`, `Place`, `is_quiet`, `MOST_LIVE`, `MOST_NUMBERS`. Words of `specs/`:
//! `Standing`, `resolve`, `changed`, `pricing_of`, `step`, `Turn`, `turn`, `Running`, `course_of`, `run`, `round_of`, `rounds`, `transcript`,
//! `calls_of`, `moments`, `names_run`, `IsOver`, `Shows`, `learn`, `with_action`, `wider`.
//! Its functions without a body are laws: their contracts are what is proved.
#![tactic(auto)]

mod act;
mod laws;
mod limits;
mod place;
mod quiet;
mod room_rows;
mod rows;
mod watch_rows;

pub use act::{Act, Change, Growth, How};
pub use laws::{
    each_answer_is_of_its_moment, every_round_ends, every_session_shows,
    what_comes_later_changes_nothing, without_freezing_and_deferral_all_is_fresh,
};
pub use limits::{MOST_LIVE, MOST_NUMBERS};
pub use place::Place;
pub use quiet::is_quiet;
pub use room_rows::{
    beginnings_are_worked_through, discount_factors_are_computed, forwarding_is_worked_through,
    room_is_worked_through,
};
pub use rows::{
    deferral_is_worked_through, drops_and_cycles_are_worked_through,
    frozen_objects_are_worked_through, handles_are_worked_through, members_are_worked_through,
    objects_of_a_market_are_worked_through, recalculation_is_worked_through,
    refusals_are_worked_through, unset_quotes_are_worked_through,
};
pub use watch_rows::{
    eight_runs_are_worked_through, notices_are_worked_through, picks_are_worked_through,
    rounds_are_worked_to_their_end, watchers_are_refused_in_order,
};
