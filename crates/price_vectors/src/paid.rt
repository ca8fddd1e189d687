// Rows `market,terms,after,flows,yield,full`: what an instrument still pays after today and after a day, as
// `day:units;day:units..`, its floating amounts forecast from the market's curve; and, where it pays known amounts alone, a
// yield in units of 10^-9 and what the flows are worth on that day at it.
ghost use Rattle.flow_terms.specs.Ranges.{AreFlowsInRange};

use crate::instruments::{Instrument, instrument_of};
use crate::jobs::index_use;
use crate::numbers::{whole_amount, yield_of};
use crate::tables::Agreed;
use crate::words::next_three;
use bond_yield::{full_price, is_fixed};
use cash_flow_legs::{Flow, flows};
use day_number::{Day, read_day};
use desk_names::ObjId;
use fixed_amount::Rate;
use flow_terms::{Fixings, FlowTerms};
use row_markets::{Market, Markets};
use std::alloc::Global;

// The number of the instrument.
const INSTRUMENT: ObjId = ObjId(4);

/// Whether the row's flows are paid, and where it has a yield, whether they are worth as much at it. None where the row cannot
/// be read.
pub(crate) fn flows_agree(alloc: Global, markets: &Markets<'_>, line: &str) -> Option<Agreed> {
    let mut words = line.split(',');
    let (market, terms, after) = next_three(&mut words)?;
    let (wanted, rate, full) = next_three(&mut words)?;
    let market = markets.find(market)?;
    let after = read_day(after.as_bytes())?;
    let instrument = instrument_of(alloc, market, terms)?;
    let terms = &instrument.terms;
    if !terms.is_in_range() {
        return None;
    }
    let first = pays(alloc, market, &instrument, after, wanted);
    let second = is_worth(terms, after, rate, full)?;
    Some(Agreed {
        first: Some(first),
        second,
    })
}

// Whether an instrument pays these flows after a day.
fn pays(
    alloc: Global,
    market: &Market<'_>,
    instrument: &Instrument,
    after: Day,
    wanted: &str,
) -> bool
    requires range { AreFlowsInRange instrument.now.terms }
{
    let fixings = Fixings::new(alloc);
    let index = index_use(instrument.index.as_ref(), &fixings);
    let terms = &instrument.terms;
    if terms.index.is_some() && index.is_none() {
        return false;
    }
    let curve = Some(&market.curve);
    match flows(
        alloc,
        terms,
        market.today,
        after,
        index.as_ref(),
        curve,
        INSTRUMENT,
    ) {
        Ok(found) => are_flows(found.items(), wanted),
        Err(_) => false,
    }
}

// Whether flows are those of a text `day:units;day:units..`.
fn are_flows(flows: &[Flow], wanted: &str) -> bool {
    let mut left = flows.iter();
    for text in wanted.split(';') {
        match left.next() {
            Some(flow) if is_flow(flow, text) => {}
            _ => return false,
        }
    }
    left.next().is_none()
}

// Whether a flow is that of a text `day:units`.
fn is_flow(flow: &Flow, text: &str) -> bool {
    match text.split_once(':') {
        Some((day, units)) => {
            read_day(day.as_bytes()) == Some(flow.paid) && whole_amount(units) == Some(flow.amount)
        }
        None => false,
    }
}

// Whether flows are worth as much on a day at a yield, where there is one. None where one cannot be read, or the flows are not
// those of a bond.
fn is_worth(terms: &FlowTerms, settle: Day, rate: &str, full: &str) -> Option<Option<bool>>
    requires range { AreFlowsInRange terms.now }
{
    if rate.is_empty() {
        return Some(None);
    }
    let y = yield_of(rate)?;
    let full = whole_amount(full)?;
    if is_fixed(terms) {
        return Some(Some(full_price(terms, settle, Rate(y as i64)) == full));
    }
    None
}
