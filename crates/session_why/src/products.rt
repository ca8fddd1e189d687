// The products of flows: of each that is still to be paid its amount times the discount factor.
ghost use Rattle.std.specs.Prelude.{◌≡◌, ◌≤◌, ◌*◌, ◌^◌, ◌*ℤ◌, true, length, Ok, Some, IfOk, IfSome, IsSome, unsigned_abs, option_copied, option_map};
ghost use Rattle.jiff_core.specs.Calendar.{IsWithin};
ghost use Rattle.flow_terms.specs.declared.limits.TheConstants.{MOST_AMOUNT, MOST_FLOWS};
ghost use Rattle.flow_terms.specs.Flows.{fixed_on};
ghost use Rattle.cash_flow_legs.specs.Amount.{views_of, is_forecast_of};
ghost use Rattle.cash_flow_legs.specs.Live.{live_flows, AreInRange};
ghost use Rattle.discount_engines.specs.Worth.{factor_on};
ghost use Rattle.why_model.specs.Workings.{fixing_by, rate_by};
ghost use Rattle.session_why.specs.Over.{IsFit, IsForecastable, fixing_over, found, product_over, products_over};

use cash_flow_legs::{Flow, FlowFault, flows, is_live};
use curve_points::{CurveValue, discount_near};
use day_number::Day;
use desk_names::ObjId;
use desk_terms::{Cause, point_cause};
use fixed_amount::{Amount, Discount, Rate};
use flow_terms::{FlowTerm, FlowTerms, IndexUse};
use rate_indexes::fixing;
use std::alloc::{AllocError, Global};
use std::marker::Model;

// The inputs of a price of flows.
#[derive(Clone, Copy)]
pub(crate) struct Over<'a> {
    pub(crate) object: ObjId,
    pub(crate) terms: &'a FlowTerms,
    pub(crate) today: Day,
    pub(crate) index: Option<IndexUse<'a>>,
    pub(crate) discount: &'a CurveValue,
    pub(crate) forecast: Option<&'a CurveValue>,
}

// A flow with its product, and the day and the rate of the fixing in its amount, if there is one.
#[derive(Drop)]
pub(crate) struct FlowLine {
    pub(crate) paid: Day,
    pub(crate) amount: Amount,
    pub(crate) factor: Discount,
    pub(crate) product: i128,
    pub(crate) fixing: Option<(Day, Rate)>,
}

impl Model for FlowLine {
    ghost use Rattle.std.specs.Prelude.{◌≤◌, ◌*◌, ◌^◌, unsigned_abs};
    ghost use Rattle.why_model.specs.Workings.{FlowProduct};

    ghost Value = { FlowProduct };

    ghost view = { λ f. record { paid = f.paid; amount = f.amount; factor = f.factor; product = f.product; fixing = f.fixing } };

    ghost invariant = { λ f. unsigned_abs f.product ≤ 4 * 10 ^ 34 };
}

// Returns the products of the flows that are still to be paid, in order. None if one of them is refused.
pub(crate) fn products_of(
    alloc: Global,
    over: &Over<'_>,
) -> Result<Option<Vec<FlowLine>>, AllocError>
    requires { IsFit over.now }
    ensures products { IfOk result (λ products. option_map (λ list. list.items) products ≡ found (products_over over.now)) }
    ensures few { IfOk result (λ products. IfSome products (λ list. length list.items ≤ MOST_FLOWS)) }
{
    match flows(
        alloc,
        over.terms,
        over.today,
        over.discount.reference(),
        over.index.as_ref(),
        over.forecast,
        over.object,
    ) {
        Ok(list) => with_factors(alloc, over, list.items()),
        Err(FlowFault::Refused(_)) => Ok(None),
        Err(FlowFault::NoMemory) => Err(AllocError),
    }
}

// Returns the products of flows with these amounts.
fn with_factors(
    alloc: Global,
    over: &Over<'_>,
    list: &[Flow],
) -> Result<Option<Vec<FlowLine>>, AllocError>
    requires fit { IsFit over.now }
    requires amounts { live_flows (views_of over.now.index) over.now.today over.now.discount.now.reference
        (option_copied over.now.forecast) over.now.object over.now.terms.now.flows ≡ Ok list.now }
    requires range { AreInRange over.now.terms.now.flows list.now }
    ensures products { IfOk result (λ products. option_map (λ list. list.items) products ≡ found (products_over over.now)) }
    ensures few { IfOk result (λ products. IfSome products (λ list. length list.items ≤ MOST_FLOWS)) }
{
    let mut products = Vec::new(alloc);
    let mut guess = 0;
    let mut at: usize = 0;
    for term in over.terms.flows.items() {
        if at < list.len() && is_live(term, over.today, over.discount.reference()) {
            match product_of(over, term, list[at].amount, &mut guess) {
                Ok(product) => products.push(product)?,
                Err(_) => return Ok(None),
            }
            at += 1;
        }
    }
    Ok(Some(products))
}

// A flow with this amount.
fn product_of(
    over: &Over<'_>,
    term: &FlowTerm,
    amount: Amount,
    guess: &mut usize,
) -> Result<FlowLine, Cause>
    requires index { IsSome (fixed_on term.now) → IsSome over.now.index }
    requires curve { is_forecast_of (views_of over.now.index) over.now.today term.now ≡ true → IsSome over.now.forecast }
    requires amount { IsWithin MOST_AMOUNT amount }
    ensures { result ≡ product_over over.now term.now amount }
{
    let factor = factor_on(over.discount, term.paid(), guess)?;
    let fixing = fixing_of(over, term)?;
    Ok(FlowLine {
        paid: term.paid(),
        amount,
        factor,
        product: product(amount, factor),
        fixing,
    })
}

// The discount factor on a day, the place of whose node is guessed.
fn factor_on(curve: &CurveValue, day: Day, guess: &mut usize) -> Result<Discount, Cause>
    ensures { result ≡ factor_on curve.now day }
{
    match discount_near(curve, day, guess) {
        Ok(factor) => Ok(factor),
        Err(fault) => Err(point_cause(curve.owner(), day, fault)),
    }
}

// The fixing of a flow.
fn fixing_of(over: &Over<'_>, term: &FlowTerm) -> Result<Option<(Day, Rate)>, Cause>
    requires index { IsSome (fixed_on term.now) → IsSome over.now.index }
    requires curve { is_forecast_of (views_of over.now.index) over.now.today term.now ≡ true → IsSome over.now.forecast }
    ensures { result ≡ fixing_over over.now term.now }
{
    match term.fixing() {
        None => Ok(None),
        Some(day) => fixing_on(over, day),
    }
}

// The fixing on a day.
fn fixing_on(over: &Over<'_>, day: Day) -> Result<Option<(Day, Rate)>, Cause>
    requires curve { IsForecastable over.now day }
    ensures { result ≡ fixing_by (rate_by (views_of over.now.index) over.now.today (option_copied over.now.forecast) over.now.object) (Some day) }
{
    match over.index.as_ref() {
        None => Err(Cause::NoFixing(over.object, day)),
        Some(index) => {
            let rate = fixing(
                index.object,
                index.terms,
                index.fixings,
                over.today,
                day,
                over.forecast,
            )?;
            Ok(Some((day, rate)))
        }
    }
}

// An amount times a discount factor: at most 10^22 times 4 * 10^12 units.
fn product(amount: Amount, factor: Discount) -> i128
    requires { IsWithin MOST_AMOUNT amount }
    ensures value { result ≡ amount *ℤ factor }
    ensures size { unsigned_abs result ≤ 4 * 10 ^ 34 }
{
    amount.units() * wide(factor)
}

// The units of a discount factor, for products.
fn wide(factor: Discount) -> i128
    ensures value { result ≡ factor }
    ensures size { unsigned_abs result ≤ 4 * 10 ^ 12 }
{
    i128::from(factor.units())
}
