// The value of a helper less 1, by the factor at its end: at most 10^10 * 801 * 16 * 10^24 and 4 * 10^12 * 1.2 * 10^16 in size, which
// 128 bits hold with a quarter to spare.
ghost use Rattle.std.specs.Prelude.{◌≡◌, length, ◌≤◌, ◌*◌, ◌^◌, pos, ◌≤ℤ◌, ◌<ℤ◌, ◌+ℤ◌, ◌-ℤ◌, ◌*ℤ◌, unsigned_abs};
ghost use Rattle.curve_points.specs.Segment.{one, most};
ghost use Rattle.curve_bootstrap.specs.Coupon.{AreAfter, AreUpTo};
ghost use Rattle.curve_bootstrap.specs.Node.{whole};
ghost use Rattle.curve_bootstrap.specs.Split.{split_excess};

use crate::Coupon;
use crate::sums::open_total;
use curve_points::CurveNode;
use day_number::Day;
use year_parts::PARTS_IN_YEAR;

/// A rate of 1 for a whole year: 10^9 units times the parts of a year.
pub(crate) const WHOLE: i128 = 1_000_000_000 * PARTS_IN_YEAR as i128;

/// The greatest discount factor, in units of 10^-12.
pub(crate) const MOST_FACTOR: i128 = 4_000_000_000_000;

/// The discount factor 1, in the same units.
pub(crate) const ONE: i128 = 1_000_000_000_000;

/// Returns the value of a helper less 1 for a factor at its end, where `settled` is the value of the coupons before.
pub(crate) fn excess_at(
    last: &CurveNode,
    end: Day,
    rate: i128,
    settled: i128,
    coupons: &[Coupon],
    x: i128,
) -> i128
    requires few { length coupons.now ≤ 801 }
    requires after { AreAfter last.now.day coupons.now }
    requires up_to { AreUpTo end coupons.now }
    requires low { pos 0 ≤ℤ x }
    requires high { x ≤ℤ most }
    requires settled { pos 0 ≤ℤ settled }
    requires settled_high { settled ≤ℤ pos (801 * (8 * 10 ^ 24)) }
    requires rate { unsigned_abs rate ≤ 10 ^ 10 }
    ensures { result ≡ split_excess last.now end rate settled coupons.now x }
{
    let coupons_total = settled + open_total(last, end, x, coupons);
    weighed(x, rate, coupons_total)
}

// Returns a whole sum: the factor at the end and the coupons at the rate, less 1.
fn weighed(x: i128, rate: i128, coupons: i128) -> i128
    requires low { pos 0 ≤ℤ x }
    requires high { x ≤ℤ most }
    requires coupons { pos 0 ≤ℤ coupons }
    requires coupons_high { coupons ≤ℤ pos (801 * (16 * 10 ^ 24)) }
    requires rate { unsigned_abs rate ≤ 10 ^ 10 }
    ensures { result ≡ (x *ℤ whole +ℤ rate *ℤ coupons) -ℤ one *ℤ whole }
{
    x * WHOLE + interest(rate, coupons) - ONE * WHOLE
}

/// Returns the value of coupons at a rate.
pub(crate) fn interest(rate: i128, coupons: i128) -> i128
    requires coupons { pos 0 ≤ℤ coupons }
    requires coupons_high { coupons ≤ℤ pos (801 * (16 * 10 ^ 24)) }
    requires rate { unsigned_abs rate ≤ 10 ^ 10 }
    ensures value { result ≡ rate *ℤ coupons }
    ensures size { unsigned_abs result ≤ 10 ^ 10 * (801 * (16 * 10 ^ 24)) }
{
    rate * coupons
}
