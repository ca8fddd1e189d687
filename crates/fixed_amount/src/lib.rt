//! Fixed-point numbers: rates, amounts and discount factors as whole numbers of a unit, one rounded quotient, and
//! decimal text read and printed exactly.
//!
//! `Rate`, `Amount`, `Discount`; `Rounding`, `div_round`; `read_decimal`, `DecimalFault`, `print_decimal`. Functions
//! whose names end in `law` do nothing: their contracts are what is proved of the definitions.
#![tactic(auto)]

mod decimal;
mod print;
mod read;
mod units;

pub use decimal::DecimalFault;
pub use print::{exact_decimal_law, print_decimal, round_trip_law};
pub use read::{read_decimal, reading_law};
pub use units::{Amount, Discount, Rate, Rounding, closest_steps_law, div_round, rounding_law};
