// Single flows: a redemption, and the settlement of a forward rate agreement.
ghost use Rattle.std.specs.Prelude.{◌≡◌, IfSome, IfNone, Err};
ghost use Rattle.holiday_calendars.specs.Calendar.{is_business_day};
ghost use Rattle.flow_terms.specs.Fixings.{IsRate};
ghost use Rattle.flow_terms.specs.Ranges.{IsNotional, IsFlow};
ghost use Rattle.cash_flow_legs.specs.declared.faults.LegFault.TheVariants.{DateRange};
ghost use Rattle.cash_flow_legs.specs.Singles as single;
ghost use Rattle.cash_flow_legs.specs.Appended.{Appends, AddsInRange, one_flow};

use crate::LegFault;
use crate::days::{fixing_day, payment_day};
use day_number::Day;
use day_shift::adjust;
use fixed_amount::{Amount, Rate};
use flow_terms::{FlowTerm, FlowTermList, IndexTerms};
use holiday_calendars::Calendar;

/// Appends the payment of a notional at the end (QuantLib's `Redemption`). The notional is at most 10^18 units of 10^-6 in size. It is
/// paid `lag` business days of the calendar after the end, and without a lag on the next business day at or after it.
///
/// # Errors
///
/// `DateRange` where the payment day is out of range, which takes no memory, and `NoMemory`. Then the list is as before.
pub fn redemption(
    cal: &Calendar,
    end: Day,
    lag: u8,
    notional: Amount,
    out: &mut FlowTermList,
) -> Result<(), LegFault>
    requires { IsNotional notional }
    ensures flows { let flow = single.redemption_flow (is_business_day cal.now) lag end notional in
        Appends (one_flow flow) out.old out.new result }
    ensures day { IfNone (single.redemption_flow (is_business_day cal.now) lag end notional) (result ≡ Err DateRange) }
    ensures range { AddsInRange out.old out.new }
{
    let Some(flow) = redemption_flow(cal, end, lag, notional) else {
        return Err(LegFault::DateRange);
    };
    out.push(flow)?;
    Ok(())
}

// Returns the flow of a redemption, if its day is in range.
fn redemption_flow(cal: &Calendar, end: Day, lag: u8, notional: Amount) -> Option<FlowTerm>
    requires { IsNotional notional }
    ensures flow { result ≡ single.redemption_flow (is_business_day cal.now) lag end notional }
    ensures range { IfSome result IsFlow }
{
    let paid = payment_day(cal, end, lag)?;
    Some(FlowTerm::Known {
        paid,
        amount: notional,
        period: None,
    })
}

/// Appends the settlement of a forward rate agreement on an index from a start, at a strike (QuantLib's `ForwardRateAgreement`). The
/// notional is at most 10^18 units of 10^-6 in size. It is paid on the start, adjusted by the index's convention and calendar. Its
/// rate is fixed the index's fixing days before that day.
///
/// # Errors
///
/// `DateRange` where a day is out of range, and `NoMemory`. Then the list is as before.
pub fn forward_flow(
    index: &IndexTerms,
    start: Day,
    notional: Amount,
    strike: Rate,
    out: &mut FlowTermList,
) -> Result<(), LegFault>
    requires notional { IsNotional notional }
    requires strike { IsRate strike }
    ensures flows { let flow = single.settlement_flow index.now start notional strike in
        Appends (one_flow flow) out.old out.new result }
    ensures day { IfNone (single.settlement_flow index.now start notional strike) (result ≡ Err DateRange) }
    ensures range { AddsInRange out.old out.new }
{
    let Some(flow) = settlement_flow(index, start, notional, strike) else {
        return Err(LegFault::DateRange);
    };
    out.push(flow)?;
    Ok(())
}

// Returns the flow of a settlement, if its days are in range.
fn settlement_flow(
    index: &IndexTerms,
    start: Day,
    notional: Amount,
    strike: Rate,
) -> Option<FlowTerm>
    requires notional { IsNotional notional }
    requires strike { IsRate strike }
    ensures flow { result ≡ single.settlement_flow index.now start notional strike }
    ensures range { IfSome result IsFlow }
{
    let paid = adjust(&index.cal, start, index.conv).ok()?;
    let fixing = fixing_day(index, paid)?;
    Some(FlowTerm::Forward {
        paid,
        notional,
        strike,
        fixing,
    })
}
