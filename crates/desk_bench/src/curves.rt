// The prices of curves.
ghost use Rattle.std.specs.Prelude.{◌≡◌, IfOk, IsOk};
ghost use Rattle.curve_terms.specs.Terms.{IsInRange};
ghost use Rattle.desk_terms.specs.Bench.{Answers};
ghost use Rattle.desk_terms.specs.Reading.{AreRates, day_read};
ghost use Rattle.desk_terms.specs.declared.terms.Terms.TheVariants.{Curve};
ghost use Rattle.desk_bench.specs.Pricing.{rates_of, build_cause, implied_cause, fault_of, built_answer, seen_answer, seen, curve_price, implied_price, MayWantSeen, WantsOnly};
ghost use Rattle.curve_points.specs.Implied.{implied_curve};

use curve_bootstrap::{BuildFault, CurvePlans, build_by};
use curve_points::{CurveValue, ImpliedFault, implied};
use curve_terms::CurveTerms;
use day_number::Day;
use desk_names::ObjId;
use desk_terms::{BenchFault, Cause, Input, Value};
use fixed_amount::Rate;
use std::alloc::{AllocError, Global};

/// The curve of an object, by the rates of its helpers in their order and what is kept of curves.
#[inline(never)]
pub fn curve_price(
    alloc: Global,
    object: ObjId,
    terms: &CurveTerms,
    today: Day,
    inputs: &[Input],
    kept: &mut CurvePlans,
) -> Result<Value, BenchFault>
    requires range { IsInRange terms.now }
    requires rates { AreRates terms.now.helpers inputs.now }
    ensures { Answers (curve_price object terms.now (day_read (Curve terms.now) today) inputs.now) result }
{
    let rates = rates_of(alloc, inputs)?;
    let curve = build_by(alloc, object, terms, today, rates.as_slice(), kept);
    built_answer(object, curve)
}

/// The curve of an object that sees another from its own reference day. What is refused is refused without memory.
#[inline(never)]
pub fn implied_price(
    alloc: Global,
    object: ObjId,
    reference: Day,
    inputs: &[Input],
) -> Result<Value, BenchFault>
    ensures price { Answers (implied_price object reference inputs.now) result }
    ensures memory { WantsOnly (MayWantSeen object reference inputs.now) result }
{
    match inputs {
        [Input::Curve(base)] => seen_from(alloc, object, base, reference),
        _ => Err(BenchFault::Refused(Cause::TooLarge(object))),
    }
}

// A curve seen from a day. What is refused is refused without memory.
#[tactic(auto, using(crate::proofs::Answered::gives_seen, crate::proofs::Answered::wants_seen))]
fn seen_from(
    alloc: Global,
    object: ObjId,
    base: &CurveValue,
    reference: Day,
) -> Result<Value, BenchFault>
    ensures price { Answers (seen object base.now.owner reference (implied_curve base.now object reference)) result }
    ensures memory { WantsOnly (IsOk (implied_curve base.now object reference)) result }
{
    let curve = implied(alloc, base, object, reference);
    seen_answer(object, base.owner(), reference, curve)
}

// The answer of a bench where a curve is built, or is not.
fn built_answer(object: ObjId, curve: Result<CurveValue, BuildFault>) -> Result<Value, BenchFault>
    ensures { result ≡ built_answer object curve }
{
    match curve {
        Ok(curve) => Ok(Value::Curve(curve)),
        Err(fault) => Err(fault_of(build_cause(object, fault))),
    }
}

// The answer of a bench where a curve is seen from a day, or is not.
fn seen_answer(
    object: ObjId,
    base: ObjId,
    day: Day,
    curve: Result<CurveValue, ImpliedFault>,
) -> Result<Value, BenchFault>
    ensures { result ≡ seen_answer object base day curve }
{
    match curve {
        Ok(curve) => Ok(Value::Curve(curve)),
        Err(fault) => Err(fault_of(implied_cause(object, base, day, fault))),
    }
}

// The rates among inputs, in order.
fn rates_of(alloc: Global, inputs: &[Input]) -> Result<Vec<Rate>, AllocError>
    ensures { IfOk result (λ rates. rates.items ≡ rates_of inputs.now) }
{
    let mut rates = Vec::with_capacity(alloc, inputs.len())?;
    for input in inputs {
        match input {
            Input::Rate(rate) => rates.push(*rate)?,
            Input::Money(_) => {}
            Input::Curve(_) => {}
        }
    }
    Ok(rates)
}

// Why a curve is not built; none for want of memory.
fn build_cause(object: ObjId, fault: BuildFault) -> Option<Cause>
    ensures { result ≡ build_cause object fault }
{
    match fault {
        BuildFault::Pillar(k) => Some(Cause::Pillar(object, k)),
        BuildFault::Discount(k) => Some(Cause::Discount(object, k)),
        BuildFault::Negative(k) => Some(Cause::Negative(object, k)),
        BuildFault::RateRange => Some(Cause::RateRange(object)),
        BuildFault::DateRange => Some(Cause::DateRange(object)),
        BuildFault::NoMemory => None,
    }
}

// Why a curve is not seen from a day; none for want of memory.
fn implied_cause(object: ObjId, base: ObjId, day: Day, fault: ImpliedFault) -> Option<Cause>
    ensures { result ≡ implied_cause object base day fault }
{
    match fault {
        ImpliedFault::Before => Some(Cause::Before(base, day)),
        ImpliedFault::Past => Some(Cause::Past(base, day)),
        ImpliedFault::Node(k) => Some(Cause::Discount(object, k)),
        ImpliedFault::NoMemory => None,
    }
}

// A refusal by its cause, or want of memory where there is none.
fn fault_of(cause: Option<Cause>) -> BenchFault
    ensures { result ≡ fault_of cause }
{
    match cause {
        Some(cause) => BenchFault::Refused(cause),
        None => BenchFault::NoMemory,
    }
}
