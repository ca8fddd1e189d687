// The length of the year over which days are counted.
ghost use Rattle.std.specs.Prelude.{◌≡◌, pos, ◌≤ℤ◌, ◌*ℤ◌};
ghost use Rattle.year_parts.specs.Basis.{parts_in_day};

use crate::YearParts;

/// A year of 360, 365 or 366 days, or of 252 business days.
#[derive(Clone, Copy, PartialEq, Eq)]
pub enum Basis {
    D360,
    D365,
    D366,
    D252,
}

impl Basis {
    /// The parts of a day: 31,171 over 360, 30,744 over 365, 30,660 over 366 and 44,530 over 252.
    pub fn parts_in_day(self) -> i64
        ensures { result ≡ pos (parts_in_day self) }
    {
        match self {
            Basis::D360 => 31_171,
            Basis::D365 => 30_744,
            Basis::D366 => 30_660,
            Basis::D252 => 44_530,
        }
    }
}

/// `n` days, 0 to 110,000, as a fraction of a year of that many days.
pub fn of_days(n: i32, basis: Basis) -> YearParts
    requires low { pos 0 ≤ℤ n }
    requires high { n ≤ℤ pos 110_000 }
    ensures { result ≡ n *ℤ pos (parts_in_day basis) }
{
    YearParts(i64::from(n) * basis.parts_in_day())
}
