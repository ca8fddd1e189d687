// The settlement of a forward rate agreement.
ghost use Rattle.std.specs.Prelude.{◌≡◌, ◌≤ℤ◌, ◌+ℤ◌, ◌*ℤ◌, pos, IfOk};
ghost use Rattle.jiff_core.specs.Calendar.{IsBetween, IsWithin};
ghost use Rattle.flow_terms.specs.Fixings.{IsRate};
ghost use Rattle.flow_terms.specs.Ranges.{IsNotional};
ghost use Rattle.flow_terms.specs.declared.limits.TheConstants.{MOST_PARTS, MOST_AMOUNT};
ghost use Rattle.cash_flow_legs.specs.Interest.{whole};
ghost use Rattle.cash_flow_legs.specs.Amount.{amount_or_cause, settlement};

use crate::interests::{WHOLE, difference, product, wide, wide_rate};
use desk_names::ObjId;
use desk_terms::Cause;
use fixed_amount::{Amount, Rate, Rounding, div_round};
use flow_terms::MOST_AMOUNT;
use year_parts::YearParts;

/// Returns the settlement at the start of a period for a rate over a strike: the interest on the difference, discounted by the rate
/// over the period, rounded once. `TooLarge` of the owner where the divisor is not above 0, or the amount is beyond 10^22 units.
pub(crate) fn settlement(
    owner: ObjId,
    notional: Amount,
    strike: Rate,
    parts: YearParts,
    rate: Rate,
) -> Result<Amount, Cause>
    requires notional { IsNotional notional }
    requires strike { IsRate strike }
    requires parts { IsBetween (pos 0) MOST_PARTS parts }
    requires rate { IsRate rate }
    ensures value { result ≡ settlement owner notional strike parts rate }
    ensures range { IfOk result (IsWithin MOST_AMOUNT) }
{
    let growth = growth(rate, parts);
    if growth <= 0 {
        return Err(Cause::TooLarge(owner));
    }
    let interest = product(notional, difference(rate, strike), parts);
    amount_or_cause(owner, div_round(interest, growth, Rounding::Closest))
}

// Returns what 1 grows to at a rate over a period, in units of a rate times parts of a year.
fn growth(rate: Rate, parts: YearParts) -> i128
    requires rate { IsRate rate }
    requires parts { IsBetween (pos 0) MOST_PARTS parts }
    ensures { result ≡ pos whole +ℤ rate *ℤ parts }
{
    WHOLE + wide_rate(rate) * wide(parts)
}

// Returns an amount within its limit, or the cause with its owner.
fn amount_or_cause(owner: ObjId, amount: i128) -> Result<Amount, Cause>
    ensures value { result ≡ amount_or_cause owner amount }
    ensures range { IfOk result (IsWithin MOST_AMOUNT) }
{
    if amount.unsigned_abs() > MOST_AMOUNT {
        return Err(Cause::TooLarge(owner));
    }
    Ok(Amount(amount))
}
