// Whether terms are in range.
ghost use Rattle.std.specs.Prelude.{◌≡◌, ◌↔◌, pos, IsTrue};
ghost use Rattle.std.specs.List.{All};
ghost use Rattle.jiff_core.specs.Calendar.{IsBetween, IsWithin};
ghost use Rattle.day_number.specs.Tenor.{IsTenor, unit_limit};
ghost use Rattle.flow_terms.specs.Fixings.{IsRate};
ghost use Rattle.flow_terms.specs.Ranges.{IsIndexInRange, IsNotional, IsInOrder, IsFlow, IsIndexNamed, AreFlowsInRange};
ghost use Rattle.flow_terms.specs.declared.limits.TheConstants.{MOST_AMOUNT, MOST_PARTS};

use crate::limits::{
    MOST_AMOUNT, MOST_FIXING_DAYS, MOST_FLOWS, MOST_NOTIONAL, MOST_PARTS, MOST_RATE,
};
use crate::{FlowTerm, FlowTerms, IndexTerms, Period};
use day_number::{Tenor, Unit};
use desk_names::ObjId;
use fixed_amount::{Amount, Rate};
use year_parts::YearParts;

impl IndexTerms {
    /// Whether the terms are in range: at most 30 fixing days, and a tenor within the limit of its unit.
    pub fn is_in_range(&self) -> bool
        ensures { IsTrue result ↔ IsIndexInRange self.now }
    {
        self.fixing_days <= MOST_FIXING_DAYS && is_tenor(self.tenor)
    }
}

impl FlowTerms {
    /// Whether the terms are in range: 1 to 1,602 flows, each within its limits, and an index where a flow is on one.
    pub fn is_in_range(&self) -> bool
        ensures { IsTrue result ↔ AreFlowsInRange self.now }
    {
        let flows = self.flows.items();
        flows.len() >= 1
            && flows.len() <= MOST_FLOWS
            && are_flows(flows)
            && is_index_named(flows, self.index)
    }
}

impl FlowTerm {
    /// Whether the amount or the notional, the rate and the parts are within their limits: a known amount within 10^22
    /// units either way, a notional within 10^18, a spread or strike within 10, at most 440 years; and whether its
    /// period, where it has one, starts before it ends.
    pub fn is_in_range(&self) -> bool
        ensures { IsTrue result ↔ IsFlow self.now }
    {
        match self {
            FlowTerm::Known { amount, period, .. } => is_known_amount(*amount)
                && is_in_order(*period),
            FlowTerm::Float {
                notional,
                spread,
                parts,
                ..
            } => is_notional(*notional) && is_rate(*spread) && are_parts(*parts),
            FlowTerm::Forward {
                notional,
                strike,
                ..
            } => is_notional(*notional) && is_rate(*strike),
        }
    }
}

// Whether each flow is within its limits.
fn are_flows(flows: &[FlowTerm]) -> bool
    ensures { IsTrue result ↔ All IsFlow flows.now }
{
    flows.iter().all(|flow| flow.is_in_range())
}

// Whether an index is named where a flow is on one.
fn is_index_named(flows: &[FlowTerm], index: Option<ObjId>) -> bool
    ensures { IsTrue result ↔ IsIndexNamed flows.now index }
{
    match index {
        Some(_) => true,
        None => flows.iter().all(|flow| flow.fixing().is_none()),
    }
}

// Whether a known amount is within its limit.
fn is_known_amount(amount: Amount) -> bool
    ensures { IsTrue result ↔ IsWithin MOST_AMOUNT amount }
{
    amount.units().unsigned_abs() <= MOST_AMOUNT
}

// Whether a period, where there is one, starts before it ends.
fn is_in_order(period: Option<Period>) -> bool
    ensures { IsTrue result ↔ IsInOrder period }
{
    match period {
        None => true,
        Some((start, end)) => start < end,
    }
}

// Whether a notional is within its limit.
fn is_notional(notional: Amount) -> bool
    ensures { IsTrue result ↔ IsNotional notional }
{
    notional.units().unsigned_abs() <= MOST_NOTIONAL
}

// Whether a rate is within its limit.
fn is_rate(rate: Rate) -> bool
    ensures { IsTrue result ↔ IsRate rate }
{
    rate.units().unsigned_abs() <= MOST_RATE
}

// Whether a part of the year is within its limit.
fn are_parts(parts: YearParts) -> bool
    ensures { IsTrue result ↔ IsBetween (pos 0) MOST_PARTS parts }
{
    parts.0 >= 0 && parts.0 <= MOST_PARTS
}

// Whether a tenor's count is from 1 to its unit's limit.
fn is_tenor(tenor: Tenor) -> bool
    ensures { IsTrue result ↔ IsTenor tenor }
{
    tenor.count >= 1 && tenor.count <= limit(tenor.unit)
}

// The greatest count of a unit.
fn limit(unit: Unit) -> i32
    ensures { result ≡ pos (unit_limit unit) }
{
    match unit {
        Unit::Days => 22_000,
        Unit::Weeks => 3_100,
        Unit::Months => 720,
        Unit::Years => 60,
    }
}
