//! The calendars of a market file, read table by table into a list of named calendars.
//!
//! `read_calendars` returns `Calendars`, in which each is a `NamedCalendar`.
//!
//! ```text
//! let calendars = read_calendars(alloc, tables)?;
//! let target = calendars.built(b"target")?;
//! ```
#![tactic(auto)]

mod building;
mod calendars;
mod keys;
mod making;
mod places;
mod reader;
mod weekend;

pub use calendars::{Calendars, NamedCalendar, PartNames};
pub use keys::{CalendarKind, CalendarPlace};
pub use places::Field;
pub use reader::read_calendars;
pub use weekend::Weekend;
