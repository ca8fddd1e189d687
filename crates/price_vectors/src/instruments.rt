// The flows of instruments on a notional of 1,000,000 by their terms in the tables:
// `bond:START:END:COUPON:EVERY:CONVENTION:COUNTER`, `fra:START:STRIKE:TENOR:CONVENTION:COUNTER` and
// `swap:SIDE:START:END:FIXED_RATE:FIXED_EVERY:FIXED_COUNTER:FLOAT_TENOR:SPREAD:CONVENTION`.
ghost use Rattle.flow_terms.specs.Fixings.{IsRate};
ghost use Rattle.flow_terms.specs.Ranges.{IsNotional};

use crate::words::{next_convention, next_counter, next_day, next_rate, next_tenor};
use cash_flow_legs::{fixed_leg, float_leg, forward_flow, redemption};
use day_number::{Convention, Day, Tenor};
use desk_names::ObjId;
use fixed_amount::{Amount, Rate};
use flow_terms::{FlowTermList, FlowTerms, IndexTerms};
use holiday_calendars::Calendar;
use row_markets::{Market, calendar_of};
use schedule_rules::{Plan, Rule, Schedule, make};
use std::alloc::Global;
use std::str::Split;
use year_parts::Counter;

/// The number of the index that flows are on.
pub(crate) const INDEX: ObjId = ObjId(2);

// 1,000,000 in units of 10^-6.
const NOTIONAL: Amount = Amount(1_000_000_000_000);

// The same on the side that pays.
const PAID: Amount = Amount(-1_000_000_000_000);

/// The flows of an instrument, and the index that some of them are on.
#[derive(Drop)]
pub(crate) struct Instrument {
    pub(crate) terms: FlowTerms,
    pub(crate) index: Option<IndexTerms>,
}

/// The instrument of a text. None where it cannot be read or has no days.
pub(crate) fn instrument_of(alloc: Global, market: &Market<'_>, text: &str) -> Option<Instrument> {
    let mut flows = FlowTermList::new(alloc);
    let index = add_flows(alloc, market, text, &mut flows)?;
    let named = match &index {
        Some(_) => Some(INDEX),
        None => None,
    };
    let terms = FlowTerms {
        flows,
        index: named,
    };
    Some(Instrument { terms, index })
}

// Adds the flows of a text; the index that some of them are on.
fn add_flows(
    alloc: Global,
    market: &Market<'_>,
    text: &str,
    flows: &mut FlowTermList,
) -> Option<Option<IndexTerms>> {
    let mut words = text.split(':');
    match words.next()? {
        "bond" => add_bond(alloc, market, &mut words, flows),
        "fra" => add_agreement(market, &mut words, flows),
        "swap" => add_swap(alloc, market, &mut words, flows),
        _ => None,
    }
}

// The days that an instrument runs over, and how they are adjusted.
#[derive(Clone, Copy)]
struct Days<'x> {
    cal: &'x Calendar,
    start: Day,
    end: Day,
    conv: Convention,
}

// A backward schedule without month ends.
fn schedule_of(alloc: Global, days: &Days<'_>, every: Tenor) -> Option<Schedule> {
    let plan = Plan {
        start: days.start,
        end: days.end,
        tenor: every,
        cal: days.cal,
        conv: days.conv,
        end_conv: days.conv,
        rule: Rule::Backward,
        eom: false,
        first: None,
        last: None,
    };
    make(alloc, &plan).ok()
}

// Adds the coupons of a bond and its redemption, which are on no index.
fn add_bond(
    alloc: Global,
    market: &Market<'_>,
    words: &mut Split<'_, char>,
    flows: &mut FlowTermList,
) -> Option<Option<IndexTerms>> {
    let (Some(start), Some(end), Some(coupon), Some(every), Some(conv), Some(counter)) = (
        next_day(words),
        next_day(words),
        next_rate(words),
        next_tenor(words),
        next_convention(words),
        next_counter(words),
    ) else {
        return None;
    };
    let cal = calendar_of(market.calendar)?;
    let days = Days {
        cal: &cal,
        start,
        end,
        conv,
    };
    add_fixed(alloc, &days, every, NOTIONAL, coupon, counter, flows)?;
    redemption(&cal, end, 0, NOTIONAL, flows).ok()?;
    Some(None)
}

// Adds the coupons of a fixed leg.
fn add_fixed(
    alloc: Global,
    days: &Days<'_>,
    every: Tenor,
    notional: Amount,
    rate: Rate,
    counter: Counter,
    flows: &mut FlowTermList,
) -> Option<()>
    requires notional { IsNotional notional }
    requires rate { IsRate rate }
{
    let schedule = schedule_of(alloc, days, every)?;
    fixed_leg(&schedule, days.cal, 0, notional, rate, counter, flows).ok()
}

// Adds the settlement of a forward rate agreement that is long the rate.
fn add_agreement(
    market: &Market<'_>,
    words: &mut Split<'_, char>,
    flows: &mut FlowTermList,
) -> Option<Option<IndexTerms>> {
    let (Some(start), Some(strike), Some(tenor), Some(conv), Some(counter)) = (
        next_day(words),
        next_rate(words),
        next_tenor(words),
        next_convention(words),
        next_counter(words),
    ) else {
        return None;
    };
    let index = market.index(tenor, conv, counter)?;
    forward_flow(&index, start, NOTIONAL, strike, flows).ok()?;
    Some(Some(index))
}

// Adds the fixed leg of a swap and its floating leg, which is by Actual/360.
fn add_swap(
    alloc: Global,
    market: &Market<'_>,
    words: &mut Split<'_, char>,
    flows: &mut FlowTermList,
) -> Option<Option<IndexTerms>> {
    let (Some(side), Some(start), Some(end), Some(rate), Some(every), Some(counter)) = (
        words.next(),
        next_day(words),
        next_day(words),
        next_rate(words),
        next_tenor(words),
        next_counter(words),
    ) else {
        return None;
    };
    let (Some(tenor), Some(spread), Some(conv)) = (
        next_tenor(words),
        next_rate(words),
        next_convention(words),
    ) else {
        return None;
    };
    let (paid, received) = if side == "pay" {
        (PAID, NOTIONAL)
    } else {
        (NOTIONAL, PAID)
    };
    let index = market.index(tenor, conv, Counter::Act360)?;
    let days = Days {
        cal: &index.cal,
        start,
        end,
        conv,
    };
    add_fixed(alloc, &days, every, paid, rate, counter, flows)?;
    add_float(alloc, &days, received, spread, &index, flows)?;
    Some(Some(index))
}

// Adds the amounts of a floating leg by Actual/360 on an index, one for each tenor of it.
fn add_float(
    alloc: Global,
    days: &Days<'_>,
    notional: Amount,
    spread: Rate,
    index: &IndexTerms,
    flows: &mut FlowTermList,
) -> Option<()>
    requires notional { IsNotional notional }
    requires spread { IsRate spread }
{
    let schedule = schedule_of(alloc, days, index.tenor)?;
    let counter = Counter::Act360;
    float_leg(
        &schedule, days.cal, 0, notional, spread, counter, index, flows,
    )
    .ok()
}
