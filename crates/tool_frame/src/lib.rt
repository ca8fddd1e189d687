//! The frame of every program and of every tool.
//!
//! A program's process gives its run the arguments, the system's files and the three standard streams. The exit status is the
//! code of the status, and the line of a status that has one goes to standard error. A tool's run reads words and files in
//! order, and the first failure is its status. It makes its text whole and writes it once. `IsRun` of `specs/Tool.antt` states
//! this for every tool, and it is proved here.
//!
//! Main types: `Program`, `Ending` (how a run ends), `Ended` (returned by a `main`), `Tool`, `ToolStatus`, `NamedTool`,
//! `MarketStatus`, `OpenMarket`, `Pair`, `MarketRequest`, `Found`, `IdleBench`. The proof of a tool uses `Finds`: the result
//! for words, from a reading of files.
//!
//! ```text
//! let status = run_tool::<MyTool, _, _, _>(alloc, words, &mut shelf, &mut out, &mut bench);
//! ```
#![tactic(auto)]

mod ending;
mod finding;
mod idle;
mod market;
mod named_run_rows;
mod named_run_running;
mod named_run_status;
mod named_run_tool;
mod process;
mod rows;
mod running;
mod status;
mod tool;
mod words;

pub use ending::{Ended, Ending};
pub use finding::{Found, MarketRequest, find};
pub use idle::IdleBench;
pub use market::{OpenMarket, open_market};
pub use named_run_running::run_named;
pub use named_run_status::{NamedStatus, NamedWords};
pub use named_run_tool::{NamedText, NamedTool};
pub use process::{Program, run_process};
pub use running::run_tool;
pub use status::MarketStatus;
pub use tool::{Tool, ToolStatus};
pub use words::{Pair, is_word, pair_of};
