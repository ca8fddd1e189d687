//! Scenarios beside each other: a session of its own for each, of a copy of the market's objects, in which the moves of the scenario are done
//! and then what is asked for is asked; and the lines of a whole grid of them. And what the program `desk_grid` does, from words, a market with
//! its tables and a script of scenarios to these lines and a status, for every shelf of files, sink of bytes and bench of prices.
//!
//! `one_scenario`; `grid_lines`; `run_grid`, `NAME`; of tool_script `check_shape`, `Blocks`.
#![tactic(auto)]

mod grid;
mod running;
mod scenario;

pub use grid::grid_lines;
pub use running::run_grid;
pub use scenario::one_scenario;
pub use tool_script::{Blocks, check_shape};

/// The name of the program whose run is `run_grid`.
pub const NAME: &str = "desk_grid";
