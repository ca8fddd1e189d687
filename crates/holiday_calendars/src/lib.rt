//! Business days from 1901 to 2199 of calendars: every day, weekdays, TARGET, custom calendars, and joint calendars of up to eight
//! of these.
//!
//! `Base` is a single calendar (`bespoke` makes a custom one, or a `BespokeFault`), `Calendar` a single or joint one (`joint`,
//! `JointRule`, `JointFault`). `business_days` counts, `easter_sunday` is Easter.
//!
//! ```text
//! let target = Calendar::One(Base::Target);
//! let days = business_days(&target, from, to);
//! ```
#![tactic(auto)]

mod bases;
mod bespoke_days;
mod calendars;
mod closures;
mod counting;
mod easter;
mod joint_parts;
mod target;
mod weekdays;

pub use bases::{Base, BaseList};
pub use bespoke_days::{BespokeFault, BespokeHolidays, bespoke};
pub use calendars::Calendar;
pub use counting::business_days;
pub use easter::easter_sunday;
pub use joint_parts::{JointFault, JointParts, JointRule, joint};
