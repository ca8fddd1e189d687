// Flows put behind others.
ghost use Rattle.std.specs.Prelude.{◌≡◌, ℕ, List, Option, Some};
ghost use Rattle.holiday_calendars.specs.Calendar.{is_business_day};
ghost use Rattle.flow_terms.specs.declared.flows.FlowTerm.{FlowTerm};
ghost use Rattle.flow_terms.specs.Fixings.{IsRate};
ghost use Rattle.flow_terms.specs.Ranges.{IsNotional};
ghost use Rattle.cash_flow_legs.specs.Appended.{Appends};
ghost use Rattle.market_tables.specs.Fields.{field_in};
ghost use Rattle.market_tables.specs.Given.{Gives, Says};
ghost use Rattle.market_tables.specs.Refusals.{Refuses};
ghost use Rattle.market_instruments.specs.Appended.{lag_in, ranged, behind, fixed_behind, float_behind, redeemed, settled, StayWithin};

use cash_flow_legs::{LegFault, fixed_leg, float_leg, forward_flow, redemption};
use day_number::Day;
use desk_terms::{FlowTermList, IndexTerms};
use fixed_amount::{Amount, Rate};
use holiday_calendars::Calendar;
use market_fields::{Field, count_at};
use market_tables::{MarketKind, TableFault};
use schedule_rules::Schedule;
use year_parts::Counter;

// The same answer, with `Range` where a day is not there.
#[tactic(auto, using(crate::proofs::AppendLemmas::landed, crate::proofs::AppendLemmas::out_of_range))]
fn ranged(appended: Result<(), LegFault>) -> Result<(), TableFault>
    ensures flows { (due : Option (List FlowTerm)) (old new : List FlowTerm) → Appends due old new appended → Gives (λ _. new) result (behind old due) }
    ensures fault { result ≡ ranged appended }
{
    match appended {
        Ok(()) => Ok(()),
        Err(LegFault::DateRange) => Err(TableFault::Kind(MarketKind::Range)),
        Err(LegFault::NoMemory) => Err(TableFault::NoMemory),
    }
}

// The payment lag of a key at a position, which is 0 where the key is missing.
pub(crate) fn lag_at(fields: &[Option<Field>], at: usize) -> Result<u8, TableFault>
    ensures { Says (λ lag. lag) result (lag_in (field_in fields.now at)) }
{
    Ok(count_at(fields, at)?.unwrap_or(0))
}

// Appends fixed interest, or `Range`, whatever the memory.
pub(crate) fn push_fixed(
    schedule: &Schedule,
    cal: &Calendar,
    lag: u8,
    notional: Amount,
    rate: Rate,
    counter: Counter,
    out: &mut FlowTermList,
) -> Result<(), TableFault>
    requires notional { IsNotional notional }
    requires rate { IsRate rate }
    ensures flows { Gives (λ _. out.new) result (fixed_behind out.old cal.now lag notional rate counter schedule.now) }
    ensures told { Refuses result (fixed_behind out.old cal.now lag notional rate counter schedule.now) }
    ensures range { (index : Option ℕ) → StayWithin index out.old out.new }
{
    ranged(fixed_leg(schedule, cal, lag, notional, rate, counter, out))
}

// Appends interest at an index's rate, or `Range`, whatever the memory.
pub(crate) fn push_float(
    schedule: &Schedule,
    cal: &Calendar,
    lag: u8,
    notional: Amount,
    spread: Rate,
    counter: Counter,
    index: &IndexTerms,
    out: &mut FlowTermList,
) -> Result<(), TableFault>
    requires notional { IsNotional notional }
    requires spread { IsRate spread }
    ensures flows { Gives (λ _. out.new) result (float_behind out.old cal.now lag notional spread counter index.now schedule.now) }
    ensures told { Refuses result (float_behind out.old cal.now lag notional spread counter index.now schedule.now) }
    ensures range { (object : ℕ) → StayWithin (Some object) out.old out.new }
{
    ranged(float_leg(schedule, cal, lag, notional, spread, counter, index, out))
}

// Appends a redemption, or `Range`, whatever the memory.
pub(crate) fn push_redemption(
    cal: &Calendar,
    end: Day,
    lag: u8,
    notional: Amount,
    out: &mut FlowTermList,
) -> Result<(), TableFault>
    requires { IsNotional notional }
    ensures flows { Gives (λ _. out.new) result (redeemed out.old cal.now lag end notional) }
    ensures told { Refuses result (redeemed out.old cal.now lag end notional) }
    ensures range { (index : Option ℕ) → StayWithin index out.old out.new }
{
    ranged(redemption(cal, end, lag, notional, out))
}

// Appends a settlement, or `Range`, whatever the memory.
pub(crate) fn push_settlement(
    index: &IndexTerms,
    start: Day,
    notional: Amount,
    strike: Rate,
    out: &mut FlowTermList,
) -> Result<(), TableFault>
    requires notional { IsNotional notional }
    requires strike { IsRate strike }
    ensures flows { Gives (λ _. out.new) result (settled out.old index.now start notional strike) }
    ensures told { Refuses result (settled out.old index.now start notional strike) }
    ensures range { (object : ℕ) → StayWithin (Some object) out.old out.new }
{
    ranged(forward_flow(index, start, notional, strike, out))
}
