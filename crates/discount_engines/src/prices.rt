// The price of a job: of a stock and of a composite here, of an instrument of flows in `flow_values.rt`.
ghost use Rattle.std.specs.Prelude.{◌≡◌, ◌≤◌, ◌^◌, ◌*ℤ◌, length, IfSome, unsigned_abs};
ghost use Rattle.fixed_amount.specs.Rounding.{closest};
ghost use Rattle.desk_terms.specs.Reading.{reading_of, IsWellFormed, Fits};
ghost use Rattle.discount_engines.specs.Money.{as_money, money_of};
ghost use Rattle.desk_terms.specs.declared.cause.Cause.TheVariants.{TooLarge};
ghost use Rattle.discount_engines.specs.Stock.{stock_price};
ghost use Rattle.discount_engines.specs.Composite.{product, weighted, composite_price};
ghost use Rattle.discount_engines.specs.Price.{instrument_price, answer_of};

use crate::PriceFault;
use crate::flow_values::flows_price;
use crate::worths::sum_of;
use desk_names::ObjId;
use desk_terms::{Cause, Input, Job, Part, Terms, Value};
use fixed_amount::{Amount, Rate, Rounding, div_round};
use std::alloc::Global;

// The most units of a price, either way.
const MOST_UNITS: i128 = 1_000_000_000_000_000_000_000_000;

// How many units of a rate make one unit of an amount.
const RATE_UNITS: i128 = 1000;

// The most that a weight is, either way.
const MOST_WEIGHT: i64 = 1_000_000;

// The most parts of a composite.
const MOST_PARTS: usize = 4096;

/// The price of a stock, a composite, a bond, a swap or a forward rate agreement, in units of 10^-6, within 10^24 units
/// either way (QuantLib's `PricingEngine`). `Refused` by the first cause in the order of the flows: `NoFixing`, `Before`,
/// `Past`, `RateRange` and `DateRange` of the index or of its curve, `TooLarge` of the instrument; then `Before` and `Past`
/// of the discount curve. No price takes memory today, so `NoMemory` does not come.
#[inline(always)]
pub fn price(_alloc: Global, job: &Job<'_>) -> Result<Value, PriceFault>
    requires { IsWellFormed (reading_of job.now) }
    ensures answer { result ≡ answer_of (instrument_price (reading_of job.now)) }
    ensures fits { Fits (reading_of job.now) (instrument_price (reading_of job.now)) }
{
    match price_of(job) {
        Ok(amount) => Ok(Value::Money(amount)),
        Err(cause) => Err(PriceFault::Refused(cause)),
    }
}

// The price of a job as an amount, or a cause alone.
#[inline(always)]
fn price_of(job: &Job<'_>) -> Result<Amount, Cause>
    requires { IsWellFormed (reading_of job.now) }
    ensures { as_money result ≡ instrument_price (reading_of job.now) }
{
    let inputs = job.inputs.items();
    match job.terms {
        Terms::Stock { .. } => stock_price(job.object, inputs),
        Terms::Composite(parts) => composite_price(job.object, parts.items(), inputs),
        Terms::Flows(flows, _) => {
            flows_price(job.object, flows, job.today, job.index.as_ref(), inputs)
        }
        Terms::Quote(_)
        | Terms::Derived { .. }
        | Terms::Handle { .. }
        | Terms::Curve(_)
        | Terms::Implied { .. }
        | Terms::Index(..)
        | Terms::Engine { .. } => Err(Cause::TooLarge(job.object)),
    }
}

// The price of a stock.
fn stock_price(object: ObjId, inputs: &[Input]) -> Result<Amount, Cause>
    ensures { as_money result ≡ stock_price object inputs.now }
{
    match inputs {
        [Input::Rate(rate)] => money_of(object, stock_units(*rate)),
        _ => Err(Cause::TooLarge(object)),
    }
}

// A rate in units of an amount, rounded to the closest.
fn stock_units(rate: Rate) -> i128
    ensures { result ≡ closest rate 1000 }
{
    div_round(rate.units() as i128, RATE_UNITS, Rounding::Closest)
}

// The price of a composite.
#[inline(always)]
fn composite_price(object: ObjId, parts: &[Part], inputs: &[Input]) -> Result<Amount, Cause>
    ensures { as_money result ≡ composite_price object parts.now inputs.now }
{
    if parts.len() > MOST_PARTS {
        return Err(Cause::TooLarge(object));
    }
    match weighted(parts, inputs) {
        None => Err(Cause::TooLarge(object)),
        Some(units) => money_of(object, units),
    }
}

// The sum of each weight times the value of its member.
#[inline(always)]
fn weighted(parts: &[Part], inputs: &[Input]) -> Option<i128>
    requires { length parts.now ≤ 4096 }
    ensures { result ≡ weighted parts.now inputs.now }
{
    if inputs.len() < parts.len() {
        return None;
    }
    let mut sum: i128 = 0;
    for at in 0..parts.len() {
        match product(&parts[at], &inputs[at]) {
            None => return None,
            Some(units) => sum = sum_of(sum, units),
        }
    }
    Some(sum)
}

// A weight times the value of its member.
#[inline(always)]
fn product(part: &Part, input: &Input) -> Option<i128>
    ensures value { result ≡ product part.now input.now }
    ensures bound { IfSome result (λ units. unsigned_abs units ≤ 10 ^ 32) }
{
    match input {
        Input::Rate(_) => None,
        Input::Curve(_) => None,
        Input::Money(amount) => {
            if part.weight < -MOST_WEIGHT || part.weight > MOST_WEIGHT {
                return None;
            }
            Some(times(part.weight, *amount))
        }
    }
}

// A weight times an amount.
fn times(weight: i64, amount: Amount) -> i128
    requires { unsigned_abs weight ≤ 1000000 }
    ensures value { result ≡ weight *ℤ amount }
    ensures bound { unsigned_abs result ≤ 10 ^ 32 }
{
    weight as i128 * amount.0
}

/// What an object is worth whose flows, or whose weights times its members' values, sum to these units of 10^-6: money within 10^24
/// units either way, else `TooLarge` of the object.
#[inline(always)]
pub fn money_of(object: ObjId, units: i128) -> Result<Amount, Cause>
    ensures { as_money result ≡ money_of object units }
{
    if units >= -MOST_UNITS && units <= MOST_UNITS {
        Ok(Amount(units))
    } else {
        Err(too_large(object))
    }
}

// That the price of an object is too large. It stays apart, since most prices are not.
#[inline(never)]
fn too_large(object: ObjId) -> Cause
    ensures { result ≡ TooLarge object }
{
    Cause::TooLarge(object)
}
