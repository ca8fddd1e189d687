//! The vocabulary of a session: its commands, the reasons why one is refused, and scripts as lists of commands.
//!
//! `Command` is a command, `Refusal` why it is refused, `Script` a list of commands with its actions. The table of the
//! language, which session_lang reads and prints by, is `Verb` with `VERBS`, `Kind`, `Field` and `Parts`.
//!
//! ```text
//! let ask = Command::Ask(name);
//! let parts = Parts::of(ask);         // `ask` with the name as its first field
//! let same = parts.command();
//! ```
#![tactic(auto)]

mod command;
mod field;
mod laws;
mod parts;
mod refusal;
mod script;
mod script_kind;
mod table;

pub use command::Command;
pub use desk_names::ActionId;
pub use field::Field;
pub use parts::Parts;
pub use refusal::Refusal;
pub use script::{Actions, CommandList, Script};
pub use script_kind::ScriptKind;
pub use table::{Kind, VERBS, Verb};
