//! What the programs about a bond do, for every shelf of files and sink of bytes: from words and a market with its tables to the lines of the
//! bond's accrued interest, price and yield, and a status. `desk_yield` says nothing behind the yield; `doqs measure` says what a basis point
//! does there, and the bond's spread over the curve of its engine.
//!
//! `run_yield`, `run_measure`; `run_bond` over a `BondTool`, which is what a program says of a `Bond` behind the yield: `YieldTool`,
//! `MeasureTool`; `NAME`, `YieldStatus`, `MeasureStatus`.
#![tactic(auto)]

mod lines;
mod measure_lines;
mod measure_rows;
mod measure_running;
mod measure_tool;
mod named;
mod pushing;
mod refusing;
mod rows;
mod running;
mod spreads;
mod tool;
mod words;
mod yield_running;
mod yield_tool;

pub use measure_running::run_measure;
pub use measure_tool::MeasureTool;
pub use running::{run_bond, run_named_bond};
pub use tool::{Bond, BondTool};
pub use tool_frame::{MarketStatus as MeasureStatus, MarketStatus as YieldStatus};
pub use yield_running::run_yield;
pub use yield_tool::YieldTool;

/// The name of the program whose run is `run_yield`.
pub const NAME: &str = "desk_yield";
