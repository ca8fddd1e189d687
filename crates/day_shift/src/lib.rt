//! Days moved to business days of a calendar, and by days, weeks, months and years, and how many business days lie
//! between two days.
//!
//! `adjust`, `advance`, `business_days_between`; `ShiftFault`.
#![tactic(auto)]

mod adjusting;
mod advancing;
mod counting;
mod faults;
mod laws;
mod months;
mod searches;

pub use adjusting::adjust;
pub use advancing::advance;
pub use counting::business_days_between;
pub use faults::ShiftFault;
