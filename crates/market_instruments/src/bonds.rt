// Bonds.
ghost use Rattle.std.specs.Prelude.{◌≡◌, ℕ, Option, Some, [], IfOk};
ghost use Rattle.flow_terms.specs.Ranges.{IsNotional};
ghost use Rattle.flow_terms.specs.Fixings.{IsRate};
ghost use Rattle.desk_terms.specs.Reading.{AreInRange};
ghost use Rattle.market_tables.specs.Given.{Gives, Says};
ghost use Rattle.market_fields.specs.Earlier.{seen};
ghost use Rattle.market_instruments.specs.Schedules.{span_seen};
ghost use Rattle.market_instruments.specs.Appended.{StayWithin};
ghost use Rattle.market_instruments.specs.Bonds.{bond_dates, fixed_coupons, float_coupons, no_coupons, coupons_by, coupons_of, bond_of};

use crate::appended::{lag_at, push_fixed, push_float, push_redemption};
use crate::limits::instrument_of;
use crate::schedules::{Span, dates_of, rules_of, span_of};
use desk_names::ObjId;
use desk_terms::{FlowTermList, Terms};
use market_fields::{
    Earlier, Field, Notional, Sign, TermRate, day_at, needed_counter, needed_notional,
    needed_tenor, object_at, rate_at,
};
use market_tables::{MarketKind, TableFault};
use schedule_rules::Schedule;
use std::alloc::Global;

// The days of a bond's coupons.
fn bond_dates(
    alloc: Global,
    fields: &[Option<Field>],
    span: &Span<'_>,
) -> Result<Schedule, TableFault>
    ensures { Gives (λ days. days) result (bond_dates fields.now (span_seen span.now)) }
{
    let every = needed_tenor(fields, 10)?;
    let rules = rules_of(fields, 11)?;
    let first = day_at(fields, 16)?;
    let last = day_at(fields, 17)?;
    dates_of(alloc, span, rules, every, first, last)
}

// Appends coupons at a fixed rate.
fn fixed_coupons(
    alloc: Global,
    fields: &[Option<Field>],
    span: &Span<'_>,
    lag: u8,
    notional: Notional,
    rate: TermRate,
    out: &mut FlowTermList,
) -> Result<(), TableFault>
    ensures flows { Gives (λ _. out.new) result (fixed_coupons fields.now (span_seen span.now) lag notional rate out.old) }
    ensures range { (index : Option ℕ) → StayWithin index out.old out.new }
{
    let schedule = bond_dates(alloc, fields, span)?;
    let counter = needed_counter(fields, 15)?;
    push_fixed(
        &schedule,
        span.cal,
        lag,
        notional.signed(Sign::Plus),
        rate.rate(),
        counter,
        out,
    )
}

// Appends coupons at an index's rate and a spread.
fn float_coupons(
    alloc: Global,
    earlier: Earlier<'_>,
    fields: &[Option<Field>],
    span: &Span<'_>,
    lag: u8,
    notional: Notional,
    index: ObjId,
    out: &mut FlowTermList,
) -> Result<(), TableFault>
    ensures flows { Gives (λ _. out.new) result (float_coupons (seen earlier.entry) fields.now (span_seen span.now) lag notional index out.old) }
    ensures range { StayWithin (Some index) out.old out.new }
{
    let schedule = bond_dates(alloc, fields, span)?;
    let counter = needed_counter(fields, 15)?;
    let spread = rate_at(fields, 9)?.unwrap_or(TermRate::zero());
    let terms = earlier.index_terms(index)?;
    push_float(
        &schedule,
        span.cal,
        lag,
        notional.signed(Sign::Plus),
        spread.rate(),
        counter,
        terms,
        out,
    )
}

// Refuses a bond without coupons whose start is not before its end.
fn no_coupons(span: &Span<'_>, out: &FlowTermList) -> Result<(), TableFault>
    ensures flows { Says (λ _. out.now) result (no_coupons (span_seen span.now) out.now) }
{
    if span.start < span.end {
        return Ok(());
    }
    Err(TableFault::Kind(MarketKind::Plan))
}

// Appends the coupons of a bond, by its rate or its index, if it has one.
fn push_coupons(
    alloc: Global,
    earlier: Earlier<'_>,
    fields: &[Option<Field>],
    span: &Span<'_>,
    lag: u8,
    notional: Notional,
    index: Option<ObjId>,
    out: &mut FlowTermList,
) -> Result<(), TableFault>
    ensures flows { Gives (λ _. out.new) result (coupons_of (seen earlier.entry) fields.now (span_seen span.now) lag notional index out.old) }
    ensures range { StayWithin index out.old out.new }
{
    let coupon = rate_at(fields, 7)?;
    match (coupon, index) {
        (Some(rate), _) => fixed_coupons(alloc, fields, span, lag, notional, rate, out),
        (None, Some(index)) => float_coupons(
            alloc, earlier, fields, span, lag, notional, index, out,
        ),
        (None, None) => no_coupons(span, out),
    }
}

/// A bond (QuantLib's `FixedRateBond`, `FloatingRateBond` and `ZeroCouponBond`): its coupons, and then its redemption,
/// each paid its payment lag after it is due.
/// `Plan` where its schedule is refused or, without coupons, its start is not before its end; then `Range` where a day
/// of its flows leaves the range; then `Flows`.
pub fn bond(
    alloc: Global,
    earlier: Earlier<'_>,
    fields: &[Option<Field>],
) -> Result<Terms, TableFault>
    ensures terms { Gives (λ terms. terms) result (bond_of (seen earlier.entry) fields.now) }
    ensures range { IfOk result AreInRange }
{
    let notional = needed_notional(fields, 1)?;
    let span = match span_of(fields, 2) {
        Ok(span) => span,
        Err(fault) => return Err(fault),
    };
    let engine = object_at(fields, 5)?;
    let lag = lag_at(fields, 6)?;
    let index = object_at(fields, 8)?;
    // The flows are lent beside this copy, so that the index itself stays free.
    let on = index;
    let mut flows = FlowTermList::new(alloc);
    push_coupons(alloc, earlier, fields, &span, lag, notional, on, &mut flows)?;
    push_redemption(
        span.cal,
        span.end,
        lag,
        notional.signed(Sign::Plus),
        &mut flows,
    )?;
    instrument_of(flows, index, engine)
}
