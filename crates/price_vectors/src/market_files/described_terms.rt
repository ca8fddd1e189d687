// Curves, indexes and flows as text.
use crate::market_files::described::push_number;
use day_number::{Convention, Day, Tenor, Unit, add_days, print_day};
use desk_names::ObjId;
use desk_terms::{CurveStart, CurveTerms, Fixings, FlowTerm, FlowTerms, Helper, IndexTerms};
use fixed_amount::{Amount, Rate, print_decimal};
use holiday_calendars::Calendar;
use std::alloc::{AllocError, Global};
use year_parts::Counter;

// The most flows of which each is written.
const MOST_FLOWS: usize = 9;

/// Appends the terms of a curve.
pub(crate) fn push_curve(
    alloc: Global,
    terms: &CurveTerms,
    out: &mut Vec<u8>,
) -> Result<(), AllocError> {
    out.extend_from_slice(b" curve ")?;
    push_calendar(&terms.cal, out)?;
    push_start(alloc, terms.start, out)?;
    for helper in terms.helpers.items() {
        push_helper(alloc, helper, out)?;
    }
    Ok(())
}

// Appends the settlement days of a moving start, or the day of a fixed one.
fn push_start(alloc: Global, start: CurveStart, out: &mut Vec<u8>) -> Result<(), AllocError> {
    match start {
        CurveStart::Moving(settlement) => push_number(alloc, u32::from(settlement), out),
        CurveStart::Fixed(day) => push_day(alloc, day, out),
    }
}

fn push_helper(alloc: Global, helper: &Helper, out: &mut Vec<u8>) -> Result<(), AllocError> {
    out.extend_from_slice(b" [")?;
    out.extend_from_slice(conv_text(helper.conv))?;
    push_number(alloc, helper.quote.0, out)?;
    push_tenor(alloc, helper.tenor, out)?;
    if let Some(every) = helper.every {
        push_tenor(alloc, every, out)?;
    }
    push_flag(helper.eom, out)?;
    out.extend_from_slice(counter_text(helper.counter))?;
    out.extend_from_slice(b"]")
}

/// Appends the terms of an index with its rates of January 2024.
pub(crate) fn push_index(
    alloc: Global,
    terms: &IndexTerms,
    fixings: &Fixings,
    out: &mut Vec<u8>,
) -> Result<(), AllocError> {
    let (days, curve, count) = (terms.fixing_days, terms.curve.0, fixings.len());
    out.extend_from_slice(b" index ")?;
    push_calendar(&terms.cal, out)?;
    out.extend_from_slice(format!(in alloc; " {days}")?.as_bytes())?;
    push_tenor(alloc, terms.tenor, out)?;
    out.push(b' ')?;
    out.extend_from_slice(conv_text(terms.conv))?;
    push_flag(terms.eom, out)?;
    out.extend_from_slice(counter_text(terms.counter))?;
    out.extend_from_slice(format!(in alloc; " {curve} rates {count}")?.as_bytes())?;
    for day in 1..=31 {
        if let Some(day) = Day::of(2024, 1, day) {
            push_fixing(alloc, fixings, day, out)?;
        }
    }
    Ok(())
}

fn push_fixing(
    alloc: Global,
    fixings: &Fixings,
    day: Day,
    out: &mut Vec<u8>,
) -> Result<(), AllocError> {
    match fixings.get(day) {
        Some(rate) => {
            push_day(alloc, day, out)?;
            push_rate(alloc, rate, out)
        }
        None => Ok(()),
    }
}

/// Appends the engine, the index and the flows of an instrument; of many flows the first, the last and their number.
pub(crate) fn push_flows(
    alloc: Global,
    terms: &FlowTerms,
    engine: Option<ObjId>,
    out: &mut Vec<u8>,
) -> Result<(), AllocError> {
    out.extend_from_slice(b" flows")?;
    push_optional(alloc, engine, out)?;
    push_optional(alloc, terms.index, out)?;
    let flows = terms.flows.items();
    if flows.len() <= MOST_FLOWS {
        for flow in flows {
            push_flow(alloc, flow, out)?;
        }
        return Ok(());
    }
    if let (Some(first), Some(last)) = (flows.first(), flows.last()) {
        push_flow(alloc, first, out)?;
        push_flow(alloc, last, out)?;
    }
    let count = flows.len();
    out.extend_from_slice(format!(in alloc; " ... {count}")?.as_bytes())
}

fn push_optional(
    alloc: Global,
    object: Option<ObjId>,
    out: &mut Vec<u8>,
) -> Result<(), AllocError> {
    match object {
        Some(object) => push_number(alloc, object.0, out),
        None => out.extend_from_slice(b" none"),
    }
}

fn push_flow(alloc: Global, flow: &FlowTerm, out: &mut Vec<u8>) -> Result<(), AllocError> {
    match flow {
        FlowTerm::Known { paid, amount, .. } => {
            push_paid(alloc, b" [known", *paid, *amount, out)?;
        }
        FlowTerm::Float {
            paid,
            notional,
            spread,
            parts,
            fixing,
        } => {
            let parts = parts.0;
            push_paid(alloc, b" [float", *paid, *notional, out)?;
            push_rate(alloc, *spread, out)?;
            out.extend_from_slice(format!(in alloc; " {parts}")?.as_bytes())?;
            push_day(alloc, *fixing, out)?;
        }
        FlowTerm::Forward {
            paid,
            notional,
            strike,
            fixing,
        } => {
            push_paid(alloc, b" [forward", *paid, *notional, out)?;
            push_rate(alloc, *strike, out)?;
            push_day(alloc, *fixing, out)?;
        }
    }
    out.extend_from_slice(b"]")
}

// Appends a flow's word, the day that it is paid and its amount or its notional.
fn push_paid(
    alloc: Global,
    word: &[u8],
    paid: Day,
    amount: Amount,
    out: &mut Vec<u8>,
) -> Result<(), AllocError> {
    out.extend_from_slice(word)?;
    push_day(alloc, paid, out)?;
    push_amount(alloc, amount, out)
}

fn push_day(alloc: Global, day: Day, out: &mut Vec<u8>) -> Result<(), AllocError> {
    out.push(b' ')?;
    print_day(alloc, day, out)
}

fn push_amount(alloc: Global, amount: Amount, out: &mut Vec<u8>) -> Result<(), AllocError> {
    out.push(b' ')?;
    print_decimal(alloc, amount.units(), 6, out)
}

fn push_rate(alloc: Global, rate: Rate, out: &mut Vec<u8>) -> Result<(), AllocError> {
    out.push(b' ')?;
    print_decimal(alloc, i128::from(rate.units()), 9, out)
}

fn push_tenor(alloc: Global, tenor: Tenor, out: &mut Vec<u8>) -> Result<(), AllocError> {
    let count = tenor.count;
    let unit = match tenor.unit {
        Unit::Days => "D",
        Unit::Weeks => "W",
        Unit::Months => "M",
        Unit::Years => "Y",
    };
    out.extend_from_slice(format!(in alloc; " {count}{unit}")?.as_bytes())
}

fn push_flag(flag: bool, out: &mut Vec<u8>) -> Result<(), AllocError> {
    if flag {
        return out.extend_from_slice(b" yes ");
    }
    out.extend_from_slice(b" no ")
}

// A calendar by its business days among the two weeks from 2024-03-25 on, which is a Monday: `1` for each that is one.
fn push_calendar(calendar: &Calendar, out: &mut Vec<u8>) -> Result<(), AllocError> {
    let Some(monday) = Day::of(2024, 3, 25) else {
        return Ok(());
    };
    for past in 0..14 {
        if let Ok(day) = add_days(monday, past) {
            let digit = if calendar.is_business(day) {
                b'1'
            } else {
                b'0'
            };
            out.push(digit)?;
        }
    }
    Ok(())
}

fn conv_text(conv: Convention) -> &'static [u8] {
    match conv {
        Convention::Unadjusted => b"unadjusted",
        Convention::Following => b"following",
        Convention::Preceding => b"preceding",
        Convention::ModifiedFollowing => b"modified_following",
        Convention::ModifiedPreceding => b"modified_preceding",
        Convention::HalfMonthModifiedFollowing => b"half_month_modified_following",
        Convention::Nearest => b"nearest",
    }
}

fn counter_text(counter: Counter) -> &'static [u8] {
    match counter {
        Counter::Act360 => b"act360",
        Counter::Act365 => b"act365",
        Counter::ActAct => b"actact",
        Counter::Thirty360 => b"thirty360",
        Counter::ThirtyE360 => b"thirtye360",
        Counter::Bus252 => b"bus252",
    }
}
