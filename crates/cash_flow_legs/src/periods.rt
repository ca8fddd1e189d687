// A flow for each period of a schedule.
ghost use Rattle.std.specs.Prelude.{◌≡◌, ◌≤◌, ◌<ℤ◌, length, is_some, IfSome, IfNone, Err};
ghost use Rattle.std.specs.List.{All};
ghost use Rattle.std.specs.List.Sorted.{IsStrictlySortedBy};
ghost use Rattle.std.specs.Ordering.{int_cmp};
ghost use Rattle.flow_terms.specs.Ranges.{IsFlow};
ghost use Rattle.cash_flow_legs.specs.declared.faults.LegFault.TheVariants.{DateRange};
ghost use Rattle.cash_flow_legs.specs.Legs.{IsLeg, flow_of, each_period};
ghost use Rattle.cash_flow_legs.specs.Appended.{Appends, Begins, AddsInRange};

use crate::LegFault;
use crate::days::{fixing_day, payment_day};
use crate::interests::interest;
use day_counters::fraction;
use day_number::Day;
use fixed_amount::{Amount, Rate};
use flow_terms::{FlowTerm, FlowTermList, IndexTerms};
use holiday_calendars::Calendar;
use year_parts::Counter;

/// The payment of a leg for each of its periods.
#[derive(Clone, Copy)]
pub enum Coupon<'a> {
    /// Interest at a rate.
    Fixed(Rate),
    /// Interest at the rate of an index plus a spread.
    Float(Rate, &'a IndexTerms),
}

/// A leg without its periods.
#[derive(Clone, Copy)]
pub struct Leg<'a> {
    /// The calendar of its payments and of its day counter.
    pub cal: &'a Calendar,
    /// How many business days a payment is after the end of its period.
    pub lag: u8,
    pub notional: Amount,
    /// How the year fraction of a period is counted.
    pub counter: Counter,
    pub coupon: Coupon<'a>,
}

/// Appends the flow of each period, or leaves the list as it was. A day out of range is found without memory.
pub(crate) fn append_leg(
    leg: &Leg<'_>,
    days: &[Day],
    out: &mut FlowTermList,
) -> Result<(), LegFault>
    requires leg { IsLeg leg.now }
    requires rising { IsStrictlySortedBy int_cmp days.now }
    requires count { 2 ≤ length days.now }
    ensures flows { Appends (each_period (flow_of leg.now) days.now) out.old out.new result }
    ensures day { IfNone (each_period (flow_of leg.now) days.now) (result ≡ Err DateRange) }
    ensures range { AddsInRange out.old out.new }
{
    if !are_dated(leg, days) {
        return Err(LegFault::DateRange);
    }
    let count = out.len();
    let pushed = push_flows(leg, days, out);
    if pushed.is_err() {
        out.truncate(count);
    }
    pushed
}

// Returns whether the days of the flow of each period are in range.
fn are_dated(leg: &Leg<'_>, days: &[Day]) -> bool
    requires leg { IsLeg leg.now }
    requires rising { IsStrictlySortedBy int_cmp days.now }
    requires count { 2 ≤ length days.now }
    ensures { result ≡ is_some (each_period (flow_of leg.now) days.now) }
{
    for at in 1..days.len() {
        let Some(_) = period_flow(leg, days[at - 1], days[at]) else {
            return false;
        };
    }
    true
}

// Appends the flows of periods, up to one whose day is out of range or for which memory runs out.
fn push_flows(leg: &Leg<'_>, days: &[Day], out: &mut FlowTermList) -> Result<(), LegFault>
    requires leg { IsLeg leg.now }
    requires rising { IsStrictlySortedBy int_cmp days.now }
    requires count { 2 ≤ length days.now }
    ensures flows { Begins (each_period (flow_of leg.now) days.now) out.old out.new result }
    ensures range { AddsInRange out.old out.new }
{
    for at in 1..days.len() {
        let Some(flow) = period_flow(leg, days[at - 1], days[at]) else {
            return Err(LegFault::DateRange);
        };
        out.push(flow)?;
    }
    Ok(())
}

// Returns the flow of a period, if its days are in range.
fn period_flow(leg: &Leg<'_>, from: Day, to: Day) -> Option<FlowTerm>
    requires leg { IsLeg leg.now }
    requires order { from <ℤ to }
    ensures flow { result ≡ flow_of leg.now from to }
    ensures range { IfSome result IsFlow }
{
    let paid = payment_day(leg.cal, to, leg.lag)?;
    let parts = fraction(leg.counter, leg.cal, from, to);
    match leg.coupon {
        Coupon::Fixed(rate) => Some(FlowTerm::Known {
            paid,
            amount: interest(leg.notional, rate, parts),
            period: Some((from, to)),
        }),
        Coupon::Float(spread, index) => Some(FlowTerm::Float {
            paid,
            notional: leg.notional,
            spread,
            parts,
            fixing: fixing_day(index, from)?,
        }),
    }
}
