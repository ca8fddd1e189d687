// The line of a curve, with the helpers that it is built from and the rates of their quotes.
ghost use Rattle.std.specs.Prelude.{◌≡◌, ◌<◌, ◌++◌, length, Some, IfOk, OnOk, All, option_copied};
ghost use Rattle.curve_terms.specs.Terms.{IsHelper};
ghost use Rattle.desk_model.specs.Market.{terms_at};
ghost use Rattle.desk_model.specs.Uses.{input_at};
ghost use Rattle.curve_run.specs.Plotting.{line_at};
ghost use Rattle.curve_run.specs.Quoted.{built_in, helper_quotes, quotes_by, quotes_named, rate_in, rates_by, unquoted};
ghost use Rattle.curve_drawing.specs.Lines.{line_of};

use curve_drawing::{Plot, PlotLine, Quoted, line_of};
use curve_points::CurveValue;
use curve_terms::{CurveTerms, Helper};
use desk_model::Entry;
use desk_names::ObjId;
use desk_terms::{Cause, Terms};
use fixed_amount::Rate;
use holiday_calendars::{Base, Calendar};
use lazy_objects::Desk;
use std::alloc::{AllocError, Global};

// What is drawn of a curve.
pub(crate) fn line_at(
    alloc: Global,
    desk: &mut Desk,
    plot: Plot,
    curve: &CurveValue,
) -> Result<Result<PlotLine, Cause>, AllocError>
    ensures line { IfOk result (λ line. line ≡ line_at plot desk.old.market curve.now) }
    ensures same { desk.new ≡ desk.old }
{
    desk.shape();
    let quotes = quotes_of(alloc, desk, curve.owner())?;
    let rates = rates_of(alloc, desk, quotes.as_slice())?;
    match built(desk, curve.owner()) {
        Some(terms) => built_line(alloc, plot, curve, terms, rates.as_slice()),
        None => unquoted_line(alloc, plot, curve),
    }
}

// What is drawn of a curve that is built from the helpers of terms.
fn built_line(
    alloc: Global,
    plot: Plot,
    curve: &CurveValue,
    terms: &CurveTerms,
    rates: &[Rate],
) -> Result<Result<PlotLine, Cause>, AllocError>
    requires { All IsHelper terms.now.helpers }
    ensures { IfOk result (λ line. line ≡ line_of plot (quotes_by rates.now (Some terms.now)) curve.now) }
{
    let quoted = Quoted {
        cal: &terms.cal,
        helpers: terms.helpers.items(),
        rates,
    };
    line_of(alloc, curve, &quoted, plot)
}

// What is drawn of a curve that is built from no helpers.
fn unquoted_line(
    alloc: Global,
    plot: Plot,
    curve: &CurveValue,
) -> Result<Result<PlotLine, Cause>, AllocError>
    ensures { IfOk result (λ line. line ≡ line_of plot unquoted curve.now) }
{
    let cal = Calendar::one(Base::Null);
    let quoted = Quoted {
        cal: &cal,
        helpers: &[],
        rates: &[],
    };
    line_of(alloc, curve, &quoted, plot)
}

// The terms of an object that is a curve, and is built from helpers.
fn built(desk: &Desk, object: ObjId) -> Option<&CurveTerms>
    ensures { option_copied result ≡ built_in (terms_at desk.now.market object) }
{
    built_of(desk.terms(object))
}

fn built_of(terms: Option<&Terms>) -> Option<&CurveTerms>
    ensures { option_copied result ≡ built_in (option_copied terms.entry) }
{
    match terms {
        Some(Terms::Curve(built)) => Some(built),
        None
        | Some(
            Terms::Quote(_)
            | Terms::Derived { .. }
            | Terms::Handle { .. }
            | Terms::Implied { .. }
            | Terms::Index(..)
            | Terms::Engine { .. }
            | Terms::Stock { .. }
            | Terms::Composite(_)
            | Terms::Flows(..),
        ) => None,
    }
}

// The quotes of a curve's helpers, in order.
fn quotes_of(alloc: Global, desk: &Desk, object: ObjId) -> Result<Vec<ObjId>, AllocError>
    ensures { IfOk result (λ quotes. quotes.items ≡ quotes_named (terms_at desk.now.market object)) }
{
    let mut quotes = Vec::new(alloc);
    match built(desk, object) {
        Some(terms) => push_quotes(terms.helpers.items(), &mut quotes)?,
        None => {}
    }
    Ok(quotes)
}

fn push_quotes(helpers: &[Helper], quotes: &mut Vec<ObjId>) -> Result<(), AllocError>
    ensures { OnOk result (quotes.new.items ≡ quotes.old.items ++ helper_quotes helpers.now) }
{
    for helper in helpers {
        quotes.push(helper.quote)?;
    }
    Ok(())
}

// The rates that quotes give, up to the first that gives none.
fn rates_of(alloc: Global, desk: &mut Desk, quotes: &[ObjId]) -> Result<Vec<Rate>, AllocError>
    requires within { All (λ quote. quote < length desk.old.market.objects) quotes.now }
    ensures rates { IfOk result (λ rates. rates.items ≡ rates_by (input_at desk.old.market) quotes.now) }
    ensures same { desk.new ≡ desk.old }
{
    let mut rates = Vec::new(alloc);
    for quote in quotes {
        match rate_of(desk, *quote)? {
            Some(rate) => rates.push(rate)?,
            None => return Ok(rates),
        }
    }
    Ok(rates)
}

// The rate that a quote gives.
fn rate_of(desk: &mut Desk, quote: ObjId) -> Result<Option<Rate>, AllocError>
    requires within { quote < length desk.old.market.objects }
    ensures rate { IfOk result (λ rate. rate ≡ rate_in (input_at desk.old.market quote)) }
    ensures same { desk.new ≡ desk.old }
{
    match desk.given(quote) {
        Ok(entry) => Ok(rate_in(entry)),
        Err(error) => Err(error),
    }
}

fn rate_in(entry: Entry) -> Option<Rate>
    ensures { result ≡ rate_in entry }
{
    match entry {
        Entry::Gives(rate) => Some(rate),
        Entry::Needs(_) | Entry::Refuses(_) => None,
    }
}
