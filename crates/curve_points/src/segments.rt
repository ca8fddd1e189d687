// Discount factors between two nodes.
ghost use Rattle.std.specs.Prelude.{◌≡◌, ◌≤◌, pos, ◌≤ℤ◌, ◌<ℤ◌, ◌^◌, ◌*◌, ◌-ℤ◌, ◌*ℤ◌};
ghost use Rattle.fixed_amount.specs.Rounding.{closest};
ghost use Rattle.curve_points.specs.Segment.{between, most};

use day_number::Day;

/// The discount factor at a day after `from` and not after `to`, in proportion to the days, between the factors `first`
/// at `from` and `last` at `to`, rounded once. All factors are in units of 10^-12; a factor of 0 is taken too.
pub fn factor_between(from: Day, first: i128, to: Day, last: i128, day: Day) -> i128
    requires after { from <ℤ day }
    requires within { day ≤ℤ to }
    requires first { pos 0 ≤ℤ first }
    requires first_high { first ≤ℤ most }
    requires last { pos 0 ≤ℤ last }
    requires last_high { last ≤ℤ most }
    ensures value { result ≡ between from first to last day }
    ensures low { pos 0 ≤ℤ result }
    ensures high { result ≤ℤ most }
    ensures positive { pos 1 ≤ℤ first → pos 1 ≤ℤ last → pos 1 ≤ℤ result }
{
    let all = days(from, to);
    let sum = product(first, days(day, to)) + product(last, days(from, day));
    i128::from(closest_quotient(sum, all))
}

// The quotient of two numbers, rounded to the closest, a half up.
fn closest_quotient(sum: u64, all: u64) -> u64
    requires some { 1 ≤ all }
    ensures { pos result ≡ closest (pos sum) all }
{
    let whole = sum / all;
    let rest = sum % all;
    if rest >= all - rest { whole + 1 } else { whole }
}

// How many days lie from a day to another that is not before it.
fn days(from: Day, to: Day) -> u64
    requires { from ≤ℤ to }
    ensures value { pos result ≡ to -ℤ from }
    ensures high { result ≤ 200_000 }
{
    (to.number() - from.number()) as u64
}

// A factor times a number of days: at most 8 * 10^17.
fn product(factor: i128, days: u64) -> u64
    requires factor { pos 0 ≤ℤ factor }
    requires factor_high { factor ≤ℤ most }
    requires days { days ≤ 200_000 }
    ensures value { pos result ≡ factor *ℤ pos days }
    ensures high { result ≤ 4 * 10 ^ 12 * 200_000 }
{
    factor as u64 * days
}
