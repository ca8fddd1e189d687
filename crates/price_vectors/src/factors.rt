// Rows `market,terms,ql,profile,gap,why`: a value on a market's curve by QuantLib 1.29, and by this project's profile.
// Terms are `discount:DAY`, `implied:REFERENCE:DAY`, and those of instruments.
use crate::numbers::is_within;
use crate::tables::{Agreed, of_first};
use crate::words::{next_day, next_three};
use curve_points::{CurveValue, discount, implied};
use day_number::Day;
use desk_names::ObjId;
use fixed_amount::Discount;
use row_markets::{Markets, whole_factor};
use std::alloc::Global;

// How many units of 10^-18 a unit of a factor has.
const FINE: u32 = 1_000_000;

// The greatest gaps to QuantLib's figures, in units of 10^-18: 0.5 units of 10^-12 for one rounding, and 1.11 and half a
// hundredth for the rounding of the implied nodes.
const DISCOUNT_GAP: u128 = 500_000;

const IMPLIED_GAP: u128 = 1_115_000;

/// Whether a discount factor agrees, and one of an implied curve. A row that asks for something else has neither, and those of
/// a market `row..` are examples told in words.
pub(crate) fn factor_agrees(alloc: Global, markets: &Markets<'_>, line: &str) -> Option<Agreed> {
    let mut fields = line.split(',');
    let (market, terms, quantlib) = next_three(&mut fields)?;
    let profile = fields.next()?;
    let mut words = terms.split(':');
    let kind = words.next()?;
    if market.starts_with("row") || is_other(kind) {
        return Some(Agreed {
            first: None,
            second: None,
        });
    }
    let curve = &markets.find(market)?.curve;
    let profile = whole_factor(profile)?;
    let day = next_day(&mut words)?;
    match kind {
        "discount" => {
            let found = discount(curve, day).ok() == Some(profile);
            let near = is_within(profile.units(), FINE, quantlib, DISCOUNT_GAP)?;
            Some(of_first(found && near))
        }
        "implied" => {
            let found = implied_factor(alloc, curve, day, next_day(&mut words)?) == Some(profile);
            let near = is_within(profile.units(), FINE, quantlib, IMPLIED_GAP)?;
            Some(Agreed {
                first: None,
                second: Some(found && near),
            })
        }
        _ => None,
    }
}

// Whether terms of a kind are those of an instrument.
fn is_other(kind: &str) -> bool {
    kind == "bond" || kind == "fra" || kind == "swap"
}

// The discount factor at a day on the curve seen from another.
fn implied_factor(alloc: Global, curve: &CurveValue, reference: Day, day: Day) -> Option<Discount> {
    let seen = implied(alloc, curve, ObjId(2), reference).ok()?;
    discount(&seen, day).ok()
}
