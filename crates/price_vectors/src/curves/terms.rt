// Helpers `kind:tenor:every:convention:eom:counter:rate`, separated by `;`: D a deposit, S a swap, the rate in 10^-9.
use crate::words::{next_convention, next_counter, next_tenor};
use curve_terms::{CurveStart, CurveTerms, Helper, HelperList};
use day_number::{Tenor, read_tenor};
use desk_names::ObjId;
use fixed_amount::{Rate, read_decimal};
use holiday_calendars::Calendar;
use std::alloc::Global;

/// The terms of a row, and the rates of its helpers.
#[derive(Drop)]
pub(crate) struct Asked {
    pub(crate) terms: CurveTerms,
    pub(crate) rates: Vec<Rate>,
}

impl Asked {
    /// Terms without helpers.
    pub(crate) fn new(alloc: Global, cal: Calendar, start: CurveStart) -> Asked {
        Asked {
            terms: CurveTerms {
                cal,
                start,
                helpers: HelperList::new(alloc),
            },
            rates: Vec::new(alloc),
        }
    }

    /// Adds the helpers of a text, each with its rate.
    pub(crate) fn push(&mut self, helpers: &str) -> Option<()> {
        for text in helpers.split(';') {
            let (helper, rate) = helper_of(text)?;
            self.terms.helpers.push(helper).ok()?;
            self.rates.push(rate).ok()?;
        }
        Some(())
    }
}

// The helper of a text and its rate.
fn helper_of(text: &str) -> Option<(Helper, Rate)> {
    let mut words = text.split(':');
    let (Some(kind), Some(tenor), Some(every), Some(conv), Some(eom), Some(counter), Some(rate)) = (
        words.next(),
        next_tenor(&mut words),
        words.next(),
        next_convention(&mut words),
        words.next(),
        next_counter(&mut words),
        words.next(),
    ) else {
        return None;
    };
    let helper = Helper {
        quote: ObjId(0),
        tenor,
        every: every_of(kind, every)?,
        conv,
        eom: eom == "1",
        counter,
    };
    Some((helper, rate_of(rate)?))
}

// How often a helper of a kind pays: a deposit does so once.
fn every_of(kind: &str, text: &str) -> Option<Option<Tenor>> {
    match kind {
        "D" if text.is_empty() => Some(None),
        "S" => Some(Some(read_tenor(text.as_bytes())?)),
        _ => None,
    }
}

// The rate of a text, in units of 10^-9.
fn rate_of(text: &str) -> Option<Rate> {
    let units = read_decimal(text.as_bytes(), 0).ok()?;
    if units < -1_000_000_000_000_000_000 || units > 1_000_000_000_000_000_000 {
        return None;
    }
    Some(Rate(units))
}
