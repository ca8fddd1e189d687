// Rows `market,terms,ql,profile,gap,why`: QuantLib's value of an instrument, cut to 12 places, the value in whole units
// of 10^-6 over the same nodes, the gap between them in these units, and why they differ by more than roundings. The value is
// the price of the instrument on a market's curve, by a bench that keeps a log of its calls.
ghost use Rattle.std.specs.Prelude.{◌≡◌, IsTrue, option_copied};
ghost use Rattle.std.specs.List.{list_all};
ghost use Rattle.desk_terms.specs.Reading.{reading_of, IsWellFormed, IsIndexOf, index_reading, curve_count};
ghost use Rattle.price_vectors.specs.Inputs.{is_curve};

use crate::instruments::{INDEX, Instrument, instrument_of};
use crate::numbers::{has_gap, whole_amount};
use crate::tables::Agreed;
use crate::words::next_three;
use curve_points::copy_curve;
use day_number::Day;
use desk_bench::{ListBench, LogEntry};
use desk_names::ObjId;
use desk_terms::{Bench, Input, InputList, Job, Terms, Value};
use fixed_amount::Amount;
use flow_terms::{Fixings, FlowTerms, IndexTerms, IndexUse, expired, needs_forecast};
use instrument_terms::flows_terms;
use row_markets::{Market, Markets};
use std::alloc::Global;

// The numbers of the instrument and its engine, and of a composite of the instrument alone.
const INSTRUMENT: ObjId = ObjId(4);

const ENGINE: ObjId = ObjId(3);

const COMPOSITE: ObjId = ObjId(5);

/// Whether the instrument's value is the row's, and its gap to QuantLib's where the row gives no reason why it differs. None
/// where the row cannot be read.
pub(crate) fn value_agrees(alloc: Global, markets: &Markets<'_>, line: &str) -> Option<Agreed> {
    let mut words = line.split(',');
    let (market, terms, quantlib) = next_three(&mut words)?;
    let (units, gap, why) = next_three(&mut words)?;
    let market = markets.find(market)?;
    let wanted = whole_amount(units)?;
    let second = if why.is_empty() {
        Some(has_gap(units, quantlib, gap)?)
    } else {
        None
    };
    let instrument = instrument_of(alloc, market, terms)?;
    let first = Some(value_of(alloc, market, instrument) == Some(wanted));
    Some(Agreed { first, second })
}

// The value of an instrument on a market's curve, which discounts its flows and gives its index. None where it is refused.
fn value_of(alloc: Global, market: &Market<'_>, instrument: Instrument) -> Option<Amount> {
    let Instrument { terms, index } = instrument;
    match flows_terms(terms.flows, terms.index, Some(ENGINE)) {
        Ok(terms) => value_on(alloc, market, &terms, index.as_ref()),
        Err(_) => None,
    }
}

// The value of terms of flows on a market's curve.
fn value_on(
    alloc: Global,
    market: &Market<'_>,
    terms: &Terms,
    index: Option<&IndexTerms>,
) -> Option<Amount> {
    let fixings = Fixings::new(alloc);
    let index = index_use(index, &fixings);
    let inputs = curves(alloc, market, terms, index.as_ref())?;
    let job = Job {
        object: INSTRUMENT,
        terms,
        inputs: &inputs,
        today: market.today,
        index,
    };
    priced(alloc, &job)
}

// The value of a job of flows.
fn priced(alloc: Global, job: &Job<'_>) -> Option<Amount> {
    if !is_well_formed(job) {
        return None;
    }
    let mut bench = ListBench::with_room(alloc, 1).ok()?;
    told(alloc, &mut bench, job)
}

// The value that a bench gives a composite which holds a job's instrument once. None where its log does not tell of the price
// of the instrument, and then of that of the composite.
fn told(alloc: Global, bench: &mut ListBench, job: &Job<'_>) -> Option<Amount>
    requires { IsWellFormed (reading_of job.now) }
{
    let amount = match bench.price(alloc, job).ok()? {
        Value::Money(amount) => amount,
        Value::Curve(_) => return None,
    };
    let value = bench.price_sum(COMPOSITE, amount.units()).ok()?;
    if tells_both(bench.log().as_slice()) {
        return Some(value);
    }
    None
}

// Whether a log tells of the price of the instrument, and then of that of the composite.
fn tells_both(log: &[LogEntry]) -> bool {
    match log {
        [first, last] => {
            first.priced && last.priced && first.object == INSTRUMENT && last.object == COMPOSITE
        }
        _ => false,
    }
}

/// An index and its stored rates.
pub(crate) fn index_use<'x>(
    index: Option<&'x IndexTerms>,
    fixings: &'x Fixings,
) -> Option<IndexUse<'x>> {
    match index {
        None => None,
        Some(terms) => Some(IndexUse {
            object: INDEX,
            terms,
            fixings,
        }),
    }
}

// As many copies of a market's curve as the price of terms of flows takes.
fn curves(
    alloc: Global,
    market: &Market<'_>,
    terms: &Terms,
    index: Option<&IndexUse<'_>>,
) -> Option<InputList> {
    let Terms::Flows(flows, _) = terms else {
        return None;
    };
    let mut inputs = InputList::new(alloc);
    for _ in 0..curve_count(flows, market.today, index) {
        let copy = copy_curve(alloc, &market.curve).ok()?;
        inputs.push(Input::Curve(copy)).ok()?;
    }
    Some(inputs)
}

// Whether a job is one of flows, and a price may be asked for.
#[tactic(auto, using(crate::proofs::InputLemmas::are_all_curves))]
fn is_well_formed(job: &Job<'_>) -> bool
    ensures { IsTrue result → IsWellFormed (reading_of job.now) }
{
    let Terms::Flows(flows, _) = job.terms else {
        return false;
    };
    flows.is_in_range()
        && is_index_of(flows, job.index.as_ref())
        && are_curves(job.inputs.items())
        && job.inputs.len() == curve_count(flows, job.today, job.index.as_ref())
}

// Whether an index is the one that flows name.
fn is_index_of(flows: &FlowTerms, index: Option<&IndexUse<'_>>) -> bool
    ensures { IsTrue result → IsIndexOf flows.now.index (index_reading (option_copied index.entry)) }
{
    match (flows.index, index) {
        (None, None) => true,
        (Some(named), Some(index)) => index.object == named,
        (None, Some(_)) | (Some(_), None) => false,
    }
}

// Whether inputs are curves alone.
fn are_curves(inputs: &[Input]) -> bool
    ensures { result ≡ list_all is_curve inputs.now }
{
    inputs.iter().all(|input| is_curve(input))
}

// Whether an input is a curve.
fn is_curve(input: &Input) -> bool
    ensures { result ≡ is_curve input.now }
{
    match input {
        Input::Rate(_) => false,
        Input::Money(_) => false,
        Input::Curve(_) => true,
    }
}

// How many curves the price of flows takes.
fn curve_count(flows: &FlowTerms, today: Day, index: Option<&IndexUse<'_>>) -> usize
    ensures { result ≡ curve_count flows.now today (index_reading (option_copied index.entry)) }
{
    if expired(flows, today) {
        return 0;
    }
    match index {
        Some(index) if needs_forecast(flows, index.fixings, today) => 2,
        Some(_) | None => 1,
    }
}
