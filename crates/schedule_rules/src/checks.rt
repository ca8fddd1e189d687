// Whether a plan's terms are in order.
ghost use Rattle.std.specs.Prelude.{◌≡◌, pos};
ghost use Rattle.day_number.specs.Tenor.{unit_limit};
ghost use Rattle.schedule_rules.specs.Terms as terms;

use crate::{Plan, PlanFault, Rule};
use day_number::{Day, Tenor, Unit};

// The first of the faults of a plan's terms.
pub(crate) fn fault_of_terms(plan: &Plan<'_>) -> Option<PlanFault>
    ensures { result ≡ terms.fault_of_terms plan.now }
{
    if plan.end <= plan.start {
        return Some(PlanFault::Order);
    }
    if has_steps(plan.rule) && !is_tenor(plan.tenor) {
        return Some(PlanFault::Tenor);
    }
    if is_stub(plan, plan.first)
        && is_stub(plan, plan.last)
        && are_in_order(plan.first, plan.last)
    {
        None
    } else {
        Some(PlanFault::Stub)
    }
}

// Whether the rule steps by the tenor.
fn has_steps(rule: Rule) -> bool
    ensures { result ≡ terms.has_steps rule }
{
    match rule {
        Rule::Backward => true,
        Rule::Forward => true,
        Rule::Zero => false,
    }
}

// The greatest count of a unit.
fn limit(unit: Unit) -> i32
    ensures { result ≡ pos (unit_limit unit) }
{
    match unit {
        Unit::Days => 22_000,
        Unit::Weeks => 3_100,
        Unit::Months => 720,
        Unit::Years => 60,
    }
}

// Whether the count is from 1 to its unit's limit.
fn is_tenor(tenor: Tenor) -> bool
    ensures { result ≡ terms.is_tenor tenor }
{
    1 <= tenor.count && tenor.count <= limit(tenor.unit)
}

// Whether a stub's day is not given, or is strictly between start and end where there are steps.
fn is_stub(plan: &Plan<'_>, stub: Option<Day>) -> bool
    ensures { result ≡ terms.is_stub plan.now stub }
{
    match stub {
        None => true,
        Some(day) => has_steps(plan.rule) && !(day <= plan.start) && !(plan.end <= day),
    }
}

// Whether the first stub's day is not after the last one's, where both are given.
fn are_in_order(first: Option<Day>, last: Option<Day>) -> bool
    ensures { result ≡ terms.are_in_order first last }
{
    match (first, last) {
        (Some(first), Some(last)) => first <= last,
        _ => true,
    }
}
