//! The language of scripts: reads a text to a script or its first fault, and prints a script as text.
//!
//! `read_script`, `print_script` and `ScriptFault`; `read_line` with `Statement` and `Met` reads one line. The types of
//! session_commands that they use are offered here, too. Definitions of higher crates use `Step`, `lacks` and `linked`.
//!
//! ```text
//! let mut names = Names::new(alloc);
//! let script = read_script(alloc, b"quote q 1.5\nstock s q\nask s\n", &mut names)?;
//! print_script(alloc, &script, &names, &mut text)?;
//! ```
#![tactic(auto)]

mod fault;
mod known_line;
mod laws;
mod met;
mod print;
mod read;
mod statement;
mod steps;

pub use fault::ScriptFault;
pub use met::Met;
pub use print::print_script;
pub use read::read_script;
pub use session_commands::{ActionId, Actions, Command, CommandList, Refusal, Script, ScriptKind};
pub use statement::{Statement, read_line};
pub use steps::{Step, lacks, linked};
