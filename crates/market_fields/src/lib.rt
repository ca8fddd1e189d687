//! The keys of every kind of object in a market file, and the values that they take.
//!
//! `ObjectKind` has the keys of a kind, `ObjectPlace` what a key takes, `KeyPresence` when it is required, `Version` the version of
//! the format. `Earlier` is the market before a table, and `place_field` reads a value to a `Field` (`Notional`, `TermRate`, `Sign`,
//! `Named`). Readers by position end a table's work: `_at` where a key may be missing, `needed_` where it may not.
//!
//! ```text
//! let fields = fields_of(..)?;                    // by entry_of of market_tables
//! let start = needed_day(&fields, 3)?;
//! let engine = object_at(&fields, 6)?;            // None without the key
//! ```
#![tactic(auto)]

mod earlier;
mod field;
mod helpers;
mod keys;
mod limited;
mod parts;
mod places;
mod presence;
mod taken;
mod version;

pub use earlier::{Earlier, Named, served};
pub use field::{
    Field, convention_at, count_at, day_at, flag_at, named_at, needed_calendar, needed_convention,
    needed_count, needed_counter, needed_day, needed_notional, needed_object, needed_rate,
    needed_sign, needed_target, needed_tenor, needed_weight, object_at, rate_at, rule_at,
};
pub use helpers::place_field;
pub use keys::{HelperKind, ObjectKind, ObjectPlace};
pub use limited::{Notional, Sign, TermRate};
pub use presence::KeyPresence;
pub use taken::{taken_calendar, taken_helpers, taken_name, taken_parts};
pub use version::Version;
