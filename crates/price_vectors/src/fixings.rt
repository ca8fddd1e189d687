// Rates of interest-rate indexes. Rows `market,day,tenor,convention,counter,ql,rate` have the rate that an index of the market
// fixes on a day, by QuantLib and in units of 10^-9: the forecasts beneath QuantLib's values of forward rate agreements. Rows
// `today,day,stored,answer` have the rate of the index of 50 days in the market `M1` on a day, with stored rates
// `day:units;day:units..` that are added in this order; they were worked out by hand. The answer is a rate in units of 10^-9,
// `refused` with the word of a cause, or `exists` with the rate that is kept.
use crate::instruments::INDEX;
use crate::numbers::is_within;
use crate::tables::{Agreed, of_first};
use crate::words::{Three, next_convention, next_counter, next_day, next_tenor, next_three};
use day_number::{Convention, Day, Tenor, Unit, read_day};
use desk_terms::Cause;
use fixed_amount::Rate;
use flow_terms::{FixFault, Fixings, IndexTerms};
use rate_indexes::fixing;
use row_markets::{Market, Markets, whole_rate};
use std::alloc::Global;
use year_parts::Counter;

// How many units of 10^-18 a unit of a rate has.
const FINE: u32 = 1_000_000_000;

// The greatest gap between a rate that is rounded once and the exact one, in units of 10^-18: half a unit of 10^-9.
const HALF: u128 = 500_000_000;

// The tenor of the index that rates are stored for.
const FIFTY_DAYS: Tenor = Tenor {
    count: 50,
    unit: Unit::Days,
};

/// Whether a forecast is the row's rate, and this near enough to QuantLib's. None where the row cannot be read.
pub(crate) fn forecast_agrees(alloc: Global, markets: &Markets<'_>, line: &str) -> Option<Agreed> {
    let mut words = line.split(',');
    let market = markets.find(words.next()?)?;
    let day = next_day(&mut words)?;
    let tenor = next_tenor(&mut words)?;
    let conv = next_convention(&mut words)?;
    let counter = next_counter(&mut words)?;
    let quantlib = words.next()?;
    let rate = whole_rate(words.next()?)?;
    let near = is_within(rate.units(), FINE, quantlib, HALF)?;
    let index = market.index(tenor, conv, counter)?;
    let found = rate_on(market, &index, &Fixings::new(alloc), market.today, day)?;
    Some(of_first(near && found == Ok(rate)))
}

// The rate of an index of a market on a day. None where its terms are out of range.
fn rate_on(
    market: &Market<'_>,
    index: &IndexTerms,
    fixings: &Fixings,
    today: Day,
    day: Day,
) -> Option<Result<Rate, Cause>> {
    if index.is_in_range() {
        return Some(fixing(INDEX, index, fixings, today, day, Some(&market.curve)));
    }
    None
}

/// Whether the market `M1` gives what a row says. None where the row cannot be read.
pub(crate) fn stored_agrees(alloc: Global, markets: &Markets<'_>, line: &str) -> Option<Agreed> {
    let mut words = line.split(',');
    let dated = next_three(&mut words)?;
    let answer = words.next()?;
    let market = markets.find("M1")?;
    let index = market.index(FIFTY_DAYS, Convention::Following, Counter::Act360)?;
    has_answer(market, &index, &mut Fixings::new(alloc), dated, answer)
}

// Whether an index of a market gives what a row says, once the row's rates are stored.
fn has_answer(
    market: &Market<'_>,
    index: &IndexTerms,
    fixings: &mut Fixings,
    dated: Three<'_>,
    answer: &str,
) -> Option<Agreed> {
    let (today, day, stored) = dated;
    if let Some(kept) = store(fixings, stored)? {
        return Some(of_first(kept == whole_rate(answer.strip_prefix("exists ")?)?));
    }
    let today = read_day(today.as_bytes())?;
    let day = read_day(day.as_bytes())?;
    is_answer(rate_on(market, index, fixings, today, day)?, answer)
}

// Stores the rates of a text, up to one whose day has a rate already, which is the answer. None where the text cannot be
// read.
fn store(fixings: &mut Fixings, text: &str) -> Option<Option<Rate>> {
    if text.is_empty() {
        return Some(None);
    }
    for word in text.split(';') {
        let (day, units) = word.split_once(':')?;
        if let Err(fault) = fixings.add(read_day(day.as_bytes())?, whole_rate(units)?) {
            return Some(Some(kept(fault)?));
        }
    }
    Some(None)
}

// The rate that is kept. None where memory is wanting.
fn kept(fault: FixFault) -> Option<Rate> {
    match fault {
        FixFault::Exists(rate) => Some(rate),
        FixFault::NoMemory => None,
    }
}

// Whether an answer is the one of a text.
fn is_answer(found: Result<Rate, Cause>, text: &str) -> Option<Agreed> {
    let agrees = match (found, text.strip_prefix("refused ")) {
        (Ok(rate), None) => rate == whole_rate(text)?,
        (Err(cause), Some(word)) => cause.word() == word.as_bytes(),
        (Ok(_), Some(_)) | (Err(_), None) => false,
    };
    Some(of_first(agrees))
}
