// The limits of terms.
use year_parts::PARTS_IN_YEAR;

/// The greatest rate of a fixing, spread or strike either way, in units of 10^-9: 10.
pub const MOST_RATE: u64 = 10_000_000_000;

/// The greatest notional of a flow either way, in units of 10^-6.
pub const MOST_NOTIONAL: u128 = 1_000_000_000_000_000_000;

/// The greatest known amount either way, in units of 10^-6.
pub const MOST_AMOUNT: u128 = 10_000_000_000_000_000_000_000;

/// The greatest part of the year of a floating flow: 440 years.
pub const MOST_PARTS: i64 = 440 * PARTS_IN_YEAR;

/// The most business days from the day of a fixing to its value day.
pub const MOST_FIXING_DAYS: u8 = 30;

/// The most flows of an instrument.
pub const MOST_FLOWS: usize = 1_602;
