// Rows `market,terms,after,yield` and of the yield at the whole part of the price there, the basis-point value, the duration and the
// convexity each its figure, that beside it, cut to 12 places, and how far it may lie from that.
ghost use Rattle.std.specs.Prelude.{◌≡◌, ◌≤◌, true};
ghost use Rattle.bond_yield.specs.declared.yields.TheConstants.{MOST_YIELD};
ghost use Rattle.bond_yield.specs.Fixed.{is_fixed};
ghost use Rattle.flow_terms.specs.Ranges.{AreFlowsInRange};

use crate::instruments::instrument_of;
use crate::numbers::{is_near, yield_of};
use crate::tables::Agreed;
use crate::words::{Three, next_three};
use bond_measure::{bpv, convexity, duration};
use bond_yield::{full_price, is_fixed, yield_at};
use day_number::{Day, read_day};
use fixed_amount::{Amount, Rate, read_decimal};
use flow_terms::FlowTerms;
use row_markets::Markets;
use std::alloc::Global;

// How many places the basis-point value has, and the yield and the duration.
const MONEY_PLACES: u8 = 6;

const FINE_PLACES: u8 = 9;

// One of money, in units.
const WHOLE: i128 = 1_000_000;

/// Whether the measures of a row's bond are those of the row, and each of the row's figures lies no farther than its bound from
/// the one beside it. None where the row cannot be read.
pub(crate) fn measures_agree(alloc: Global, markets: &Markets<'_>, line: &str) -> Option<Agreed> {
    let mut words = line.split(',');
    let (market, terms, after) = next_three(&mut words)?;
    let rate = words.next()?;
    let figures = [
        next_three(&mut words)?,
        next_three(&mut words)?,
        next_three(&mut words)?,
        next_three(&mut words)?,
    ];
    let market = markets.find(market)?;
    let settle = read_day(after.as_bytes())?;
    let y = yield_of(rate)?;
    let instrument = instrument_of(alloc, market, terms)?;
    let terms = &instrument.terms;
    if terms.is_in_range() && is_fixed(terms) {
        return Some(Agreed {
            first: Some(are_measures(terms, settle, y, figures) == Some(true)),
            second: Some(are_within(figures)),
        });
    }
    None
}

// Whether each figure, which stands before the one beside it and the bound, lies no farther than its bound from the one beside it.
fn are_within(figures: [Three<'_>; 4]) -> bool {
    for (shown, beside, bound) in figures {
        if is_near(shown, beside, bound) != Some(true) {
            return false;
        }
    }
    true
}

// Whether the measures of flows are these. None where there is none.
fn are_measures(flows: &FlowTerms, settle: Day, y: u64, figures: [Three<'_>; 4]) -> Option<bool>
    requires range { AreFlowsInRange flows.now }
    requires fixed { is_fixed flows.now.flows ≡ true }
    requires most { y ≤ MOST_YIELD }
{
    let price = full_price(flows, settle, Rate(y as i64)).units();
    let least = yield_at(flows.flows.items(), settle, Amount(price / WHOLE * WHOLE)).ok()?;
    let gain = bpv(flows, settle, y).ok()?;
    let years = duration(flows, settle, y).ok()?;
    let bend = convexity(flows, settle, y).ok()?;
    Some(
        has(figures[0].0, i128::from(least.units()), FINE_PLACES)
            && has(figures[1].0, gain.units(), MONEY_PLACES)
            && has(figures[2].0, years, FINE_PLACES)
            && has(figures[3].0, bend, 0),
    )
}

// Whether a figure of so many places is the one shown.
fn has(shown: &str, found: i128, places: u8) -> bool
    requires { places ≤ 18 }
{
    match read_decimal(shown.as_bytes(), places) {
        Ok(units) => found == i128::from(units),
        Err(_) => false,
    }
}
