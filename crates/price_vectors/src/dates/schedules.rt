// Schedules, by QuantLib 1.29 and by a model in Python.
use crate::dates::calendar_text::short_day;
use crate::dates::fault::RowFault;
use crate::words::{
    next_convention, next_day, next_day_or, next_flag, next_number, next_three, next_unit,
};
use day_number::{Day, Tenor};
use holiday_calendars::Calendar;
use schedule_rules::{Plan, PlanFault, Rule, Schedule, make};
use std::alloc::Global;
use std::str::Split;

/// `calendar,start,end,count,unit,conv,end conv,rule,month end,first,last,answer,why,profile`: a plan and its days
/// YYYYMMDD with spaces between, or its fault. Where a reason is given, the days of this project's profile stand last.
pub(crate) fn schedule_agrees(
    alloc: Global,
    calendar: &Calendar,
    row: &mut Split<'_, char>,
) -> Result<bool, RowFault> {
    let (Some(plan), Some((answer, why, profile))) = (next_plan(calendar, row), next_three(row))
    else {
        return Err(RowFault::NotARow);
    };
    let due = if why.is_empty() { answer } else { profile };
    is_due(make(alloc, &plan), due)
}

// The plan of the next words. Its tenor is a count of a unit, within its limits or not.
fn next_plan<'x>(calendar: &'x Calendar, row: &mut Split<'_, char>) -> Option<Plan<'x>> {
    let (Some(start), Some(end), Some(count), Some(unit)) = (
        next_day(row),
        next_day(row),
        next_number(row),
        next_unit(row),
    ) else {
        return None;
    };
    let (Some(conv), Some(end_conv), Some(rule), Some(eom), Some(first), Some(last)) = (
        next_convention(row),
        next_convention(row),
        next_rule(row),
        next_flag(row),
        next_day_or(row, ""),
        next_day_or(row, ""),
    ) else {
        return None;
    };
    Some(Plan {
        cal: calendar,
        start,
        end,
        tenor: Tenor { count, unit },
        conv,
        end_conv,
        rule,
        eom,
        first,
        last,
    })
}

fn next_rule(row: &mut Split<'_, char>) -> Option<Rule> {
    match row.next()? {
        "B" => Some(Rule::Backward),
        "F" => Some(Rule::Forward),
        "Z" => Some(Rule::Zero),
        _ => None,
    }
}

// Whether a schedule has the days of a text, or was refused with its fault.
fn is_due(made: Result<Schedule, PlanFault>, due: &str) -> Result<bool, RowFault> {
    match made {
        Ok(schedule) => match fault_of(due) {
            Some(_) => Ok(false),
            None => has_days(schedule.dates(), due).ok_or(RowFault::NotARow),
        },
        Err(PlanFault::NoMemory) => Err(RowFault::NoMemory),
        Err(fault) => Ok(fault_of(due) == Some(fault)),
    }
}

fn fault_of(text: &str) -> Option<PlanFault> {
    match text {
        "Order" => Some(PlanFault::Order),
        "Tenor" => Some(PlanFault::Tenor),
        "Stub" => Some(PlanFault::Stub),
        "TooMany" => Some(PlanFault::TooMany),
        "DateRange" => Some(PlanFault::DateRange),
        "Collapsed" => Some(PlanFault::Collapsed),
        _ => None,
    }
}

// Whether these are the days of a text.
fn has_days(days: &[Day], text: &str) -> Option<bool> {
    let mut left = days.iter();
    for word in text.split(' ') {
        match left.next() {
            Some(day) if *day == short_day(word)? => {}
            _ => return Some(false),
        }
    }
    Some(left.next().is_none())
}
