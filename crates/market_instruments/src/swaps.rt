// Swaps.
ghost use Rattle.std.specs.Prelude.{◌≡◌, ℕ, Option, [], IfOk};
ghost use Rattle.desk_terms.specs.Reading.{AreInRange};
ghost use Rattle.market_tables.specs.Given.{Gives};
ghost use Rattle.market_tables.specs.Refusals.{Refuses};
ghost use Rattle.market_fields.specs.Earlier.{seen};
ghost use Rattle.market_instruments.specs.Appended.{StayWithin};
ghost use Rattle.market_instruments.specs.Swaps.{fixed_side, float_side, swap_of};

use crate::appended::{lag_at, push_fixed, push_float};
use crate::limits::instrument_of;
use crate::schedules::{dates_of, rules_of, span_of};
use desk_names::ObjId;
use desk_terms::{FlowTermList, Terms};
use holiday_calendars::Calendar;
use market_fields::{
    Earlier, Field, TermRate, needed_counter, needed_notional, needed_rate, needed_sign,
    needed_tenor, object_at, rate_at,
};
use market_tables::{MarketKind, TableFault};
use schedule_rules::Schedule;
use std::alloc::Global;

// Appends the fixed leg of a swap, negative where it is paid; refused whatever the memory.
fn push_fixed_side(
    fields: &[Option<Field>],
    cal: &Calendar,
    lag: u8,
    schedule: &Schedule,
    out: &mut FlowTermList,
) -> Result<(), TableFault>
    ensures flows { Gives (λ _. out.new) result (fixed_side fields.now cal.now lag schedule.now out.old) }
    ensures told { Refuses result (fixed_side fields.now cal.now lag schedule.now out.old) }
    ensures range { (index : Option ℕ) → StayWithin index out.old out.new }
{
    let notional = needed_notional(fields, 1)?;
    let sign = needed_sign(fields, 2)?;
    let rate = needed_rate(fields, 12)?;
    let counter = needed_counter(fields, 14)?;
    let notional = notional.signed(sign);
    push_fixed(schedule, cal, lag, notional, rate.rate(), counter, out)
}

// Appends the floating leg of a swap, negative where the fixed one is received; refused whatever the memory.
fn push_float_side(
    earlier: Earlier<'_>,
    fields: &[Option<Field>],
    cal: &Calendar,
    lag: u8,
    schedule: &Schedule,
    index: Option<ObjId>,
    out: &mut FlowTermList,
) -> Result<(), TableFault>
    ensures flows { Gives (λ _. out.new) result (float_side (seen earlier.entry) fields.now cal.now lag schedule.now index out.old) }
    ensures told { Refuses result (float_side (seen earlier.entry) fields.now cal.now lag schedule.now index out.old) }
    ensures range { StayWithin index out.old out.new }
{
    let notional = needed_notional(fields, 1)?;
    let sign = needed_sign(fields, 2)?;
    let Some(index) = index else {
        return Err(TableFault::Kind(MarketKind::Key));
    };
    let spread = rate_at(fields, 16)?.unwrap_or(TermRate::zero());
    let counter = needed_counter(fields, 18)?;
    let terms = earlier.index_terms(index)?;
    let notional = notional.signed(sign.opposite());
    push_float(
        schedule,
        cal,
        lag,
        notional,
        spread.rate(),
        counter,
        terms,
        out,
    )
}

/// A swap (QuantLib's `VanillaSwap`): its fixed leg, and then its floating leg, each flow paid its payment lag after its
/// period. `Plan` where one of its schedules is refused; then `Range` where a day of its flows leaves the range; then
/// `Flows`.
pub fn swap(
    alloc: Global,
    earlier: Earlier<'_>,
    fields: &[Option<Field>],
) -> Result<Terms, TableFault>
    ensures terms { Gives (λ terms. terms) result (swap_of (seen earlier.entry) fields.now) }
    ensures range { IfOk result AreInRange }
{
    let span = match span_of(fields, 3) {
        Ok(span) => span,
        Err(fault) => return Err(fault),
    };
    let engine = object_at(fields, 6)?;
    let lag = lag_at(fields, 7)?;
    let rules = rules_of(fields, 8)?;
    let fixed_every = needed_tenor(fields, 13)?;
    let index = object_at(fields, 15)?;
    // The flows are lent beside this copy, so that the index itself stays free.
    let on = index;
    let float_every = needed_tenor(fields, 17)?;
    let fixed_dates = dates_of(alloc, &span, rules, fixed_every, None, None)?;
    let float_dates = dates_of(alloc, &span, rules, float_every, None, None)?;
    let mut flows = FlowTermList::new(alloc);
    push_fixed_side(fields, span.cal, lag, &fixed_dates, &mut flows)?;
    push_float_side(earlier, fields, span.cal, lag, &float_dates, on, &mut flows)?;
    instrument_of(flows, index, engine)
}
