//! What the program `doqs` does: the first word is a command, and the words after it are those of its run. Help, version and
//! usage are made of one table of commands.
//!
//! `run_doqs`; `Command`, `COMMANDS`, `Row`; `FrontStatus`; `VERSION`, `BUILD`, `NAME`.
#![tactic(auto)]

mod carrying;
mod command;
mod front;
mod help;
mod noting;
mod paths;
mod rows;
mod running;
mod status;
mod table;
mod version;

pub use command::{COMMANDS, Command};
pub use running::run_doqs;
pub use status::FrontStatus;
pub use table::Row;
pub use version::{BUILD, VERSION};

/// The program's name.
pub const NAME: &str = "doqs";
