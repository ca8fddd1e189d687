//! Civil days from 1901-01-01 to 2199-12-31 as whole numbers counted from 1970-01-01, with the texts of days and of
//! tenors, and the names of the ways to move a day to a business day.
//!
//! `Day`, `read_day`, `print_day`, `DayList`; `add_days`, `add_months`, `DateRange`, `month_end`, `weekday`; `Unit`,
//! `Tenor`, `read_tenor`; `Convention`.
#![tactic(auto)]

mod conventions;
mod day_list;
mod days;
mod digits;
mod laws;
mod shifts;
mod tenors;
mod texts;

pub use conventions::Convention;
pub use day_list::DayList;
pub use days::Day;
pub use shifts::{DateRange, add_days, add_months, month_end, weekday};
pub use tenors::{Tenor, Unit, read_tenor};
pub use texts::{print_day, read_day};
