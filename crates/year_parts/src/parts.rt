// Year fractions. A clause sees one as its number of parts.
ghost use Rattle.std.specs.Prelude.{◌≡◌, pos, ◌^◌, ◌≤ℤ◌, ◌+ℤ◌};

use std::marker::Model;

/// The parts of a year: 360 days of 31,171 parts, 365 of 30,744, 366 of 30,660 or 252 of 44,530.
pub const PARTS_IN_YEAR: i64 = 11_221_560;

/// A year fraction in parts, `PARTS_IN_YEAR` to the year, from 0 to 2 * 10^12 parts.
#[derive(Clone, Copy, PartialEq, Eq, PartialOrd, Ord)]
pub struct YearParts(pub i64);

impl Model for YearParts {
    ghost use Rattle.std.specs.Prelude.{ℤ};
    ghost use Rattle.year_parts.specs.Parts.{IsYearParts};

    ghost Value = { ℤ };

    ghost view = { λ p. p.0 };

    ghost invariant = { λ p. IsYearParts p.0 };

    ghost inverse = { λ parts. record { 0 = parts } };
}

/// The sum of two fractions of at most 10^12 parts each.
pub fn add(a: YearParts, b: YearParts) -> YearParts
    requires first { a ≤ℤ pos (10 ^ 12) }
    requires second { b ≤ℤ pos (10 ^ 12) }
    ensures { result ≡ a +ℤ b }
{
    YearParts(a.0 + b.0)
}
