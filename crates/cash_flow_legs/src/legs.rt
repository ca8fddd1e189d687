// The legs of bonds and swaps.
ghost use Rattle.std.specs.Prelude.{◌≡◌, IfNone, Err};
ghost use Rattle.cash_flow_legs.specs.declared.faults.LegFault.TheVariants.{DateRange};
ghost use Rattle.holiday_calendars.specs.Calendar.{is_business_day};
ghost use Rattle.flow_terms.specs.Fixings.{IsRate};
ghost use Rattle.flow_terms.specs.Ranges.{IsNotional};
ghost use Rattle.cash_flow_legs.specs.Legs.{each_period, fixed_flow, float_flow};
ghost use Rattle.cash_flow_legs.specs.Appended.{Appends, AddsInRange};

use crate::periods::append_leg;
use crate::{Coupon, Leg, LegFault};
use fixed_amount::{Amount, Rate};
use flow_terms::{FlowTermList, IndexTerms};
use holiday_calendars::Calendar;
use schedule_rules::Schedule;
use year_parts::Counter;

/// Appends interest at a fixed rate for each period of a schedule (QuantLib's `FixedRateLeg`). The notional is at most 10^18 units
/// of 10^-6 in size. Interest is paid `lag` business days of the calendar after the period's end, and without a lag on the next
/// business day at or after it. A period runs from one day of the schedule to the next.
///
/// # Errors
///
/// `DateRange` where a payment day is out of range, which takes no memory, and `NoMemory`. Then the list is as before.
pub fn fixed_leg(
    schedule: &Schedule,
    cal: &Calendar,
    lag: u8,
    notional: Amount,
    rate: Rate,
    counter: Counter,
    out: &mut FlowTermList,
) -> Result<(), LegFault>
    requires notional { IsNotional notional }
    requires rate { IsRate rate }
    ensures flows { let flow = fixed_flow (is_business_day cal.now) lag notional rate counter in
        Appends (each_period flow schedule.now) out.old out.new result }
    ensures day { let flow = fixed_flow (is_business_day cal.now) lag notional rate counter in
        IfNone (each_period flow schedule.now) (result ≡ Err DateRange) }
    ensures range { AddsInRange out.old out.new }
{
    let leg = Leg {
        cal,
        lag,
        notional,
        counter,
        coupon: Coupon::Fixed(rate),
    };
    append_leg(&leg, schedule.dates(), out)
}

/// Appends interest at an index's rate plus a spread for each period of a schedule (QuantLib's `IborLeg`). The notional is at most
/// 10^18 units of 10^-6 in size. Payments and periods are those of `fixed_leg`. The rate is fixed the index's fixing days before
/// the start of the period, on the index's calendar.
///
/// # Errors
///
/// `DateRange` where a payment day or fixing day is out of range, which takes no memory, and `NoMemory`. Then the list is as before.
pub fn float_leg(
    schedule: &Schedule,
    cal: &Calendar,
    lag: u8,
    notional: Amount,
    spread: Rate,
    counter: Counter,
    index: &IndexTerms,
    out: &mut FlowTermList,
) -> Result<(), LegFault>
    requires notional { IsNotional notional }
    requires spread { IsRate spread }
    ensures flows { let flow = float_flow (is_business_day cal.now) lag notional spread counter index.now in
        Appends (each_period flow schedule.now) out.old out.new result }
    ensures day { let flow = float_flow (is_business_day cal.now) lag notional spread counter index.now in
        IfNone (each_period flow schedule.now) (result ≡ Err DateRange) }
    ensures range { AddsInRange out.old out.new }
{
    let leg = Leg {
        cal,
        lag,
        notional,
        counter,
        coupon: Coupon::Float(spread, index),
    };
    append_leg(&leg, schedule.dates(), out)
}
