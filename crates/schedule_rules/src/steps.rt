// The days a number of tenors from a plan's seed.
ghost use Rattle.std.specs.Prelude.{◌≡◌, ◌*ℤ◌, ◌^◌, ◌-◌, pos};
ghost use Rattle.jiff_core.specs.Calendar.{IsWithin};
ghost use Rattle.day_shift.specs.Month.{month_at};
ghost use Rattle.schedule_rules.specs.Step as step;

use crate::{Plan, Rule};
use day_number::{Day, Tenor, Unit, add_days, add_months, month_end};

// The day k tenors from the seed, where it is inside the bound.
#[tactic(auto, unfolding(crate::specs::Step::step))]
pub(crate) fn step(plan: &Plan<'_>, k: u32) -> Option<Day>
    ensures { result ≡ step.step plan.now k }
{
    let n = count(plan.rule, plan.tenor, k);
    let day = moved(plan.eom, plan.tenor.unit, seed(plan), n)?;
    if is_inside(plan, day) {
        Some(day)
    } else {
        None
    }
}

// The day that every step starts at.
pub(crate) fn seed(plan: &Plan<'_>) -> Day
    ensures { result ≡ step.seed_by plan.now.rule plan.now }
{
    match plan.rule {
        Rule::Backward => plan.last.unwrap_or(plan.end),
        Rule::Forward => plan.first.unwrap_or(plan.start),
        Rule::Zero => plan.start,
    }
}

// Whether a day is before the steps' bound.
fn is_inside(plan: &Plan<'_>, day: Day) -> bool
    ensures { result ≡ step.is_inside plan.now.rule plan.now day }
{
    match plan.rule {
        Rule::Backward => !(day <= plan.first.unwrap_or(plan.start)),
        Rule::Forward => !(plan.last.unwrap_or(plan.end) <= day),
        Rule::Zero => false,
    }
}

// A number of tenors towards the other end.
fn count(rule: Rule, tenor: Tenor, k: u32) -> i64
    ensures { result ≡ step.count_by rule tenor k }
{
    match rule {
        Rule::Backward => -times(k, tenor.count),
        Rule::Forward => times(k, tenor.count),
        Rule::Zero => 0,
    }
}

// A count k times.
fn times(k: u32, count: i32) -> i64
    ensures value { result ≡ pos k *ℤ count }
    ensures range { IsWithin (2 ^ 63 - 1) result }
{
    i64::from(k) * i64::from(count)
}

// The day n of a unit from a seed, whose month end is kept or not.
fn moved(keeps: bool, unit: Unit, seed: Day, n: i64) -> Option<Day>
    ensures { result ≡ step.moved keeps unit seed n }
{
    let day = units_on(unit, seed, n)?;
    if keeps && is_of_months(unit) && is_month_end(seed) {
        Some(month_end(day))
    } else {
        Some(day)
    }
}

// Whether the unit counts months.
fn is_of_months(unit: Unit) -> bool
    ensures { result ≡ step.is_of_months unit }
{
    match unit {
        Unit::Days => false,
        Unit::Weeks => false,
        Unit::Months => true,
        Unit::Years => true,
    }
}

// Whether a day is the last of its month.
fn is_month_end(day: Day) -> bool
    ensures { result ≡ step.is_month_end day }
{
    day == month_end(day)
}

// The day n of a unit on, where there is one. Past 200,000 days, which a unit is at least, the range has ended.
fn units_on(unit: Unit, day: Day, n: i64) -> Option<Day>
    ensures { result ≡ step.units_on unit day n }
{
    let _number = day.number();
    if n < -200_000 {
        None
    } else if n > 200_000 {
        None
    } else {
        near_units_on(unit, day, n as i32)
    }
}

// The same for counts that fit.
fn near_units_on(unit: Unit, day: Day, n: i32) -> Option<Day>
    requires { IsWithin 200_000 n }
    ensures { result ≡ step.units_on unit day n }
{
    match unit {
        Unit::Days => add_days(day, n).ok(),
        Unit::Weeks => add_days(day, n * 7).ok(),
        Unit::Months => months_on(day, n),
        Unit::Years => months_on(day, n * 12),
    }
}

// The day a number of months on, where there is one.
fn months_on(day: Day, n: i32) -> Option<Day>
    ensures { result ≡ month_at day n }
{
    add_months(day, n).ok()
}
