// The schedules of bonds and swaps.
ghost use Rattle.std.specs.Prelude.{◌≡◌, ◌≤◌, Option, Some, None, Result};
ghost use Rattle.market_tables.specs.Given.{Gives, Says};
ghost use Rattle.market_instruments.specs.Schedules.{span_seen, span_of, rules_of, plan_fault, dates_of};

use day_number::{Convention, Day, Tenor};
use holiday_calendars::Calendar;
use market_fields::{Field, convention_at, flag_at, needed_calendar, needed_day, rule_at};
use market_tables::{MarketKind, TableFault};
use schedule_rules::{Plan, PlanFault, Rule, Schedule, make};
use std::alloc::Global;

/// The start and the end of an instrument, and its calendar.
#[derive(Clone, Copy)]
pub struct Span<'a> {
    pub start: Day,
    pub end: Day,
    pub cal: &'a Calendar,
}

/// How the days between start and end are found and adjusted.
#[derive(Clone, Copy)]
pub struct Rules {
    pub rule: Rule,
    pub conv: Convention,
    pub end_conv: Convention,
    pub eom: bool,
}

// The start, the end and the calendar, at a position and behind it.
pub(crate) fn span_of(fields: &[Option<Field>], at: usize) -> Result<Span<'_>, TableFault>
    requires { at ≤ 3 }
    ensures { Says span_seen result (span_of fields.now at) }
{
    let start = needed_day(fields, at)?;
    let end = needed_day(fields, at + 1)?;
    match needed_calendar(fields, at + 2) {
        Ok(cal) => Ok(Span { start, end, cal }),
        Err(fault) => Err(fault),
    }
}

// The rules at a position and behind it, each with its default.
pub(crate) fn rules_of(fields: &[Option<Field>], at: usize) -> Result<Rules, TableFault>
    requires { at ≤ 11 }
    ensures { Says (λ rules. rules) result (rules_of fields.now at) }
{
    let rule = rule_at(fields, at)?.unwrap_or(Rule::Backward);
    let conv = convention_at(fields, at + 1)?.unwrap_or(Convention::ModifiedFollowing);
    let end_conv = convention_at(fields, at + 2)?.unwrap_or(conv);
    let eom = flag_at(fields, at + 3)?.unwrap_or(false);
    Ok(Rules {
        rule,
        conv,
        end_conv,
        eom,
    })
}

// A fault of a plan as that of a market.
fn plan_fault(fault: PlanFault) -> TableFault
    ensures { result ≡ plan_fault fault }
{
    match fault {
        PlanFault::Order
        | PlanFault::Tenor
        | PlanFault::Stub
        | PlanFault::TooMany
        | PlanFault::DateRange
        | PlanFault::Collapsed => TableFault::Kind(MarketKind::Plan),
        PlanFault::NoMemory => TableFault::NoMemory,
    }
}

// The schedule of a span by rules in steps of a tenor, with stubs to a first day and from a last, or `Plan`.
pub(crate) fn dates_of(
    alloc: Global,
    span: &Span<'_>,
    rules: Rules,
    tenor: Tenor,
    first: Option<Day>,
    last: Option<Day>,
) -> Result<Schedule, TableFault>
    ensures { Gives (λ days. days) result (dates_of (span_seen span.now) rules tenor first last) }
{
    let plan = Plan {
        start: span.start,
        end: span.end,
        tenor,
        cal: span.cal,
        conv: rules.conv,
        end_conv: rules.end_conv,
        rule: rules.rule,
        eom: rules.eom,
        first,
        last,
    };
    match make(alloc, &plan) {
        Ok(schedule) => Ok(schedule),
        Err(fault) => Err(plan_fault(fault)),
    }
}
