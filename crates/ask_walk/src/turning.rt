// One step of an ask at an object: reads its inputs, and computes it if they all have values.
ghost use Rattle.std.specs.Prelude.{◌≡◌, ◌≢◌, List, true, Some, IfOk, OnErr, pos, ◌≤◌, ◌+◌, ◌*◌, ◌^◌, ◌+ℤ◌, ◌*ℤ◌, unsigned_abs, OnOk, [], ◌∷◌, ◌++◌};
ghost use Rattle.desk_terms.specs.declared.terms.Terms.TheVariants.{Composite};
ghost use Rattle.desk_terms.specs.declared.terms.Part.{Part};
ghost use Rattle.desk_model.specs.Market.{terms_at};
ghost use Rattle.desk_model.specs.Links.{IsLinked, IsKinded, AreRanged, is_lazy_at};
ghost use Rattle.object_store.specs.Market.{market_in};
ghost use Rattle.object_store.specs.Shape.{role_at};
ghost use Rattle.object_store.specs.Store.{registry_of};
ghost use Rattle.observer_graph.specs.declared.node.Role.TheVariants as role;
ghost use Rattle.ask_walk.specs.Reads.{Remembers};
ghost use Rattle.ask_walk.specs.Begun.{IsBegun, HasRead};
ghost use Rattle.ask_walk.specs.Turns.{MayRun, Turns, Fails};
ghost use Rattle.desk_terms.specs.declared.value.Value.{Value};
ghost use Rattle.desk_terms.specs.declared.cause.Cause.TheVariants.{Unpriced};
ghost use Rattle.desk_terms.specs.Parts.{ArePartsInRange};
ghost use Rattle.desk_terms.specs.Sums.{money_in};
ghost use Rattle.desk_model.specs.Uses.{uses};
ghost use Rattle.desk_model.specs.Fresh.{input_of};
ghost use Rattle.desk_model.specs.Next.{next_of};
ghost use Rattle.ask_walk.specs.Steps.{next_with, NextMember};
ghost use Rattle.object_store.specs.Slots.{answer_of, answered, answered_of, is_at_hand};

use crate::asking::{Books, compute, total};
use crate::reader::read;
use crate::uses::{flow_entries, helper_entries, only_entry};
use curve_points::copy_curve;
use desk_model::Entry;
use desk_names::ObjId;
use desk_terms::{Bench, Cause, Input, InputList, Part, Terms, Value};
use fixed_amount::Amount;
use object_store::{Market, Scratch, Store};
use std::alloc::{AllocError, Global};

/// The state of an ask at an object: of a composite, how many of its members were read, and the sum of their values times their
/// weights, in units of 10^-6. The inputs of any other object are read in one step.
#[derive(Clone, Copy)]
pub struct Begun {
    pub object: ObjId,
    pub read: usize,
    pub sum: i128,
}

// Starts at an object of which nothing was read.
#[inline(always)]
pub fn begin(object: ObjId) -> Begun
    ensures { result ≡ record { object = object; read = 0; sum = pos 0 } }
{
    Begun {
        object,
        read: 0,
        sum: 0,
    }
}

// Copies the state field by field, since a copy of the whole takes its padding along.
#[inline(always)]
pub fn left(begun: &Begun) -> Begun
    ensures { result ≡ begun.now }
{
    Begun {
        object: begun.object,
        read: begun.read,
        sum: begun.sum,
    }
}

/// The next step of an ask at an object.
#[derive(Clone, Copy)]
pub enum Step {
    /// Compute its price from the inputs that were read.
    Ready,
    /// This object has to be computed first.
    First(ObjId),
    /// End the ask with this cause.
    Stops(Cause),
}

// Appends the value of another object to the inputs.
#[inline(always)]
fn push_value(alloc: Global, value: &Value, inputs: &mut InputList) -> Result<(), AllocError>
    ensures { OnOk result (inputs.new ≡ inputs.old ++ input_of value.now ∷ []) }
{
    match value {
        Value::Money(amount) => inputs.push(Input::Money(*amount)),
        Value::Curve(curve) => {
            let copy = copy_curve(alloc, curve)?;
            inputs.push(Input::Curve(copy))
        }
    }
}

// Returns the last value of an object, or that it has none. `None` if it has to be computed first.
#[inline(always)]
fn answer(store: &Store, object: ObjId) -> Option<Result<&Value, Cause>>
    ensures { answered result ≡ answered_of (is_at_hand store.now.kept object) (answer_of store.now.kept object) }
{
    if !store.is_at_hand(object) {
        return None;
    }
    match store.last(object) {
        Some(value) => Some(Ok(value)),
        None => Some(Err(unpriced(object))),
    }
}

// Returns that an object has no last value. It is a function of its own, since most objects have one.
#[inline(never)]
fn unpriced(object: ObjId) -> Cause
    ensures { result ≡ Unpriced object }
{
    Cause::Unpriced(object)
}

// Returns the next step at a composite of these parts, after those that were read. Reads on from there.
#[inline(always)]
fn next_member(store: &Store, parts: &[Part], begun: &mut Begun) -> Step
    requires range { ArePartsInRange parts.now }
    requires read { HasRead store.now.kept parts.now begun.old.read begun.old.sum }
    ensures object { begun.new.object ≡ begun.old.object }
    ensures next { NextMember store.now.kept parts.now begun.new.sum result }
    ensures read { HasRead store.now.kept parts.now begun.new.read begun.new.sum }
{
    let mut sum = begun.sum;
    for at in begun.read..parts.len() {
        let part = &parts[at];
        match answer(store, part.member) {
            Some(outcome) => match outcome {
                Ok(value) => sum = sum_with(sum, part.weight, value),
                Err(cause) => {
                    begun.read = at;
                    begun.sum = sum;
                    return Step::Stops(cause);
                }
            },
            None => {
                begun.read = at;
                begun.sum = sum;
                return Step::First(part.member);
            }
        }
    }
    begun.read = parts.len();
    begun.sum = sum;
    Step::Ready
}

// Adds a weight times the value of a member, which counts 0 if it is no amount.
#[inline(always)]
fn sum_with(sum: i128, weight: i64, value: &Value) -> i128
    requires sum { unsigned_abs sum ≤ 4096 * 10 ^ 32 }
    requires weight { unsigned_abs weight ≤ 1_000_000 }
    ensures value { result ≡ sum +ℤ (weight *ℤ money_in (input_of value.now)) }
    ensures bound { unsigned_abs result ≤ unsigned_abs sum + 10 ^ 32 }
{
    match value {
        Value::Money(amount) => sum_of(sum, times(weight, *amount)),
        Value::Curve(_) => sum,
    }
}

// Returns a weight times an amount.
#[inline(always)]
fn times(weight: i64, amount: Amount) -> i128
    requires { unsigned_abs weight ≤ 1_000_000 }
    ensures value { result ≡ weight *ℤ amount }
    ensures bound { unsigned_abs result ≤ 10 ^ 32 }
{
    weight as i128 * amount.0
}

// Adds a product to a sum of at most 4,096 products: 4.1 * 10^35 of the 1.7 * 10^38 that 128 bits hold.
#[inline(always)]
fn sum_of(sum: i128, product: i128) -> i128
    requires sum { unsigned_abs sum ≤ 4096 * 10 ^ 32 }
    requires product { unsigned_abs product ≤ 10 ^ 32 }
    ensures value { result ≡ sum +ℤ product }
    ensures bound { unsigned_abs result ≤ unsigned_abs sum + 10 ^ 32 }
{
    sum + product
}

// Returns the next step where a price takes these entries.
#[inline(always)]
fn next_entries(
    alloc: Global,
    store: &Store,
    entries: &[Entry],
    inputs: &mut InputList,
) -> Result<Step, AllocError>
    requires empty { inputs.old ≡ [] }
    ensures { IfOk result (λ step. next_with inputs.new step ≡ next_of (is_at_hand store.now.kept) (answer_of store.now.kept) entries.now) }
{
    for at in 0..entries.len() {
        match entries[at] {
            Entry::Gives(rate) => inputs.push(Input::Rate(rate))?,
            Entry::Refuses(cause) => return Ok(Step::Stops(cause)),
            Entry::Needs(object) => match answer(store, object) {
                Some(outcome) => match outcome {
                    Ok(held) => push_value(alloc, held, inputs)?,
                    Err(cause) => return Ok(Step::Stops(cause)),
                },
                None => return Ok(Step::First(object)),
            },
        }
    }
    Ok(Step::Ready)
}

// Returns the next step at a lazy object that is no composite. Where it is ready, `inputs` are those of its price.
#[inline(always)]
fn next(
    market: &Market,
    store: &Store,
    scratch: &mut Scratch,
    object: ObjId,
    inputs: &mut InputList,
) -> Result<Step, AllocError>
    requires lazy { is_lazy_at (market_in market.now) object ≡ true }
    requires kinds { IsKinded (market_in market.now) }
    requires linked { IsLinked (market_in market.now) }
    requires remembers { Remembers (market_in market.now) scratch.old.entries }
    requires single { (parts : List Part) → terms_at (market_in market.now) object ≢ Some (Composite parts) }
    ensures remembers { Remembers (market_in market.now) scratch.new.entries }
    ensures next { IfOk result (λ step. next_with inputs.new step ≡ next_of (is_at_hand store.now.kept) (answer_of store.now.kept) (uses (market_in market.now) object)) }
{
    inputs.truncate(0);
    let alloc = scratch.alloc();
    match market.objects.own_terms(object) {
        Terms::Stock { quote } => {
            let entry = read(market, scratch, *quote)?;
            next_entries(alloc, store, &[entry], inputs)
        }
        Terms::Implied { curve, .. } => {
            let entry = read(market, scratch, *curve)?;
            next_entries(alloc, store, &[entry], inputs)
        }
        Terms::Curve(curve) => {
            let helpers = curve.helpers.items();
            let entries = helper_entries(market, scratch, helpers)?;
            next_entries(alloc, store, &entries, inputs)
        }
        Terms::Flows(flows, engine) => {
            match only_entry(market, scratch, object, flows, *engine)? {
                Some(entry) => next_entries(alloc, store, &[entry], inputs),
                None => {
                    let entries = flow_entries(market, scratch, object, flows, *engine)?;
                    next_entries(alloc, store, &entries, inputs)
                }
            }
        }
        Terms::Composite(_)
        | Terms::Quote(_)
        | Terms::Derived { .. }
        | Terms::Handle { .. }
        | Terms::Index(..)
        | Terms::Engine { .. } => unreachable!(),
    }
}

/// The result of one step of an ask at an object.
#[derive(Clone, Copy)]
pub enum Turn {
    /// An input refuses with this cause.
    Stops(Cause),
    /// The object waits for this one.
    Waits(ObjId),
    /// The object was computed, or refused with this cause.
    Ran(Option<Cause>),
}

impl Books {
    // Takes one step at an object. A composite has an arm of its own: the values of its members are summed as they are read, and
    // the bench is asked for the price of the sum.
    #[inline(always)]
    pub(crate) fn turn<B: Bench>(
        &mut self,
        market: &Market,
        begun: &mut Begun,
        bench: &mut B,
    ) -> Result<Turn, AllocError>
        requires lazy { is_lazy_at (market_in market.now) begun.old.object ≡ true }
        requires role { role_at self.old.store.shape begun.old.object ≡ Some role.Lazy }
        requires kinds { IsKinded (market_in market.now) }
        requires linked { IsLinked (market_in market.now) }
        requires ranged { AreRanged (market_in market.now) }
        requires remembers { Remembers (market_in market.now) self.old.scratch.entries }
        requires begun { IsBegun (market_in market.now) self.old.store.kept begun.old }
        requires run { MayRun (market_in market.now) self.old.store.kept begun.old.object }
        ensures same { B.calc bench.new ≡ B.calc bench.old }
        ensures object { begun.new.object ≡ begun.old.object }
        ensures begun { IsBegun (market_in market.now) self.old.store.kept begun.new }
        ensures turns { IfOk result (λ turn. Turns (B.calc bench.old) (market_in market.now) begun.old.object self.old.store.kept self.new.store.kept turn
            (B.count bench.old) (B.count bench.new) (B.log bench.old) (B.log bench.new)) }
        ensures fails { OnErr result (Fails (market_in market.now) begun.old.object self.old.store.kept self.new.store.kept
            (B.count bench.old) (B.count bench.new) (B.log bench.old) (B.log bench.new)) }
        ensures shape { self.new.store.shape ≡ self.old.store.shape }
        ensures registry { registry_of self.new.store ≡ registry_of self.old.store }
        ensures remembers { Remembers (market_in market.now) self.new.scratch.entries }
    {
        let object = begun.object;
        match market.objects.own_terms(object) {
            Terms::Composite(parts) => match next_member(&self.store, parts.items(), begun) {
                Step::Stops(cause) => Ok(Turn::Stops(cause)),
                Step::First(needed) => Ok(Turn::Waits(needed)),
                Step::Ready => {
                    let cause = total(&mut self.store, object, begun.sum, bench)?;
                    Ok(Turn::Ran(cause))
                }
            },
            _ => self.single_turn(market, object, bench),
        }
    }

    // Takes one step at an object that is no composite: all its inputs are read at once.
    #[inline(never)]
    fn single_turn<B: Bench>(
        &mut self,
        market: &Market,
        object: ObjId,
        bench: &mut B,
    ) -> Result<Turn, AllocError>
        requires lazy { is_lazy_at (market_in market.now) object ≡ true }
        requires role { role_at self.old.store.shape object ≡ Some role.Lazy }
        requires kinds { IsKinded (market_in market.now) }
        requires linked { IsLinked (market_in market.now) }
        requires remembers { Remembers (market_in market.now) self.old.scratch.entries }
        requires single { (parts : List Part) → terms_at (market_in market.now) object ≢ Some (Composite parts) }
        requires run { MayRun (market_in market.now) self.old.store.kept object }
        ensures same { B.calc bench.new ≡ B.calc bench.old }
        ensures turns { IfOk result (λ turn. Turns (B.calc bench.old) (market_in market.now) object self.old.store.kept self.new.store.kept turn
            (B.count bench.old) (B.count bench.new) (B.log bench.old) (B.log bench.new)) }
        ensures fails { OnErr result (Fails (market_in market.now) object self.old.store.kept self.new.store.kept
            (B.count bench.old) (B.count bench.new) (B.log bench.old) (B.log bench.new)) }
        ensures shape { self.new.store.shape ≡ self.old.store.shape }
        ensures registry { registry_of self.new.store ≡ registry_of self.old.store }
        ensures remembers { Remembers (market_in market.now) self.new.scratch.entries }
    {
        let alloc = self.scratch.alloc();
        let step = next(
            market,
            &self.store,
            &mut self.scratch,
            object,
            &mut self.inputs,
        )?;
        match step {
            Step::Stops(cause) => Ok(Turn::Stops(cause)),
            Step::First(needed) => Ok(Turn::Waits(needed)),
            Step::Ready => {
                let inputs = &self.inputs;
                let cause = compute(alloc, market, &mut self.store, object, inputs, bench)?;
                Ok(Turn::Ran(cause))
            }
        }
    }
}
