// An ask: recomputes what it uses and is out of date, with a stack of its own.
ghost use Rattle.std.specs.Prelude.{◌≡◌, ◌≢◌, ◌⊎◌, ◌<◌, ◌^◌, true, false, length, None, Some, Ok, Err, IsOk, IfOk, OnErr, [], ◌∷◌, List, is_none, slice_index_or, is_some};
ghost use Rattle.desk_terms.specs.declared.terms.Terms.{Terms};
ghost use Rattle.desk_terms.specs.Bench.{counted, logged};
ghost use Rattle.desk_terms.specs.Sums.{summed, composite_reading};
ghost use Rattle.desk_terms.specs.declared.terms.Part.{Part};
ghost use Rattle.desk_terms.specs.declared.value.Input.{Input};
ghost use Rattle.desk_terms.specs.Reading.{IsWellFormed, index_reading, named_index};
ghost use Rattle.desk_model.specs.Market.{terms_at};
ghost use Rattle.desk_model.specs.Links.{is_lazy_at, IsLinked, IsWhole};
ghost use Rattle.desk_model.specs.Uses.{input_at, index_at, reading_at};
ghost use Rattle.desk_model.specs.State.{unpriced, held_outcome};
ghost use Rattle.object_store.specs.declared.market.Market.{Market};
ghost use Rattle.object_store.specs.Market.{market_in, state_in, state_after};
ghost use Rattle.object_store.specs.Slots.{is_now};
ghost use Rattle.object_store.specs.Store.{registry_of};
ghost use Rattle.object_store.specs.Scratch.{IsEmpty, AreClear};
ghost use Rattle.object_store.specs.Shape.{IsJoined, role_at};
ghost use Rattle.observer_graph.specs.declared.node.Role.TheVariants as role;
ghost use Rattle.ask_walk.specs.Reads.{Remembers};
ghost use Rattle.ask_walk.specs.Begun.{Keeps};
ghost use Rattle.ask_walk.specs.Asks.{Asks, Walks, Stops, MayAsk, Stays, Computes, IsComputed, ComesTo, lacking, held_answer};

use crate::reader::read;
use crate::turning::{Begun, Turn, begin, left};
use desk_model::Entry;
use desk_names::ObjId;
use desk_terms::{Asked, Bench, Cause, IndexUse, InputList, Job, Mark, Terms};
use object_store::{Market, Scratch, Store, index_of};
use std::alloc::{AllocError, Global};
use std::mem;

/// The values of a market's objects and the buffers of an ask: what it remembers, the inputs of a price, and the objects that
/// wait for others.
#[derive(Drop)]
pub struct Books {
    pub store: Store,
    pub scratch: Scratch,
    pub inputs: InputList,
    pub waiting: Vec<Begun>,
}

/// The result of an ask before anything is computed.
#[derive(Clone, Copy)]
pub enum AtOnce {
    /// The object is frozen, late or current, and this is the result.
    Answers(Asked),
    /// The object has to be computed, and the result will have this mark.
    Walks(Mark),
}

impl Books {
    /// Asks for the value of a lazy object. Recomputes only what it uses and is out of date, and works out each derived quote at
    /// most once.
    ///
    /// # Errors
    ///
    /// `AllocError` where memory runs out. Then objects that were recomputed keep their values.
    pub fn ask<B: Bench>(
        &mut self,
        market: &Market,
        object: ObjId,
        bench: &mut B,
    ) -> Result<Asked, AllocError>
        requires may { MayAsk (B.calc bench.old) (state_in market.now self.old.store) object }
        requires empty { IsEmpty (length market.now.objects) self.old.scratch }
        requires joined { IsJoined (market_in market.now) self.old.store.shape }
        ensures same { B.calc bench.new ≡ B.calc bench.old }
        ensures asks { IfOk result (λ answer. Asks (B.calc bench.old) object (state_in market.now self.old.store) (state_in market.now self.new.store) answer
            (B.count bench.old) (B.count bench.new) (B.log bench.old) (B.log bench.new)) }
        ensures stops { OnErr result (Stops (B.calc bench.old) object (state_in market.now self.old.store) (state_in market.now self.new.store)
            (B.count bench.old) (B.count bench.new) (B.log bench.old) (B.log bench.new)) }
        ensures stays { Stays (B.calc bench.old) (state_in market.now self.new.store) }
        ensures ready { (held_outcome (state_in market.now self.old.store) object ≢ None) ⊎ (is_now self.old.store.kept object ≡ true) → IsOk result }
        ensures few { IfOk result (λ answer. answer.runs < 2 ^ 17) }
        ensures empty { IsEmpty (length market.now.objects) self.new.scratch }
        ensures shape { self.new.store.shape ≡ self.old.store.shape }
        ensures registry { registry_of self.new.store ≡ registry_of self.old.store }
    {
        match self.at_once(object) {
            AtOnce::Answers(answer) => Ok(answer),
            AtOnce::Walks(mark) => {
                let answer = self.walk(market, object, mark, bench);
                self.clear();
                answer
            }
        }
    }

    /// Returns the result of an ask without a computation, exactly if the object is frozen, late or current. Takes no memory.
    #[inline(always)]
    pub fn at_once(&mut self, object: ObjId) -> AtOnce
        requires there { is_some (role_at self.old.store.shape object) ≡ true }
        ensures comes { (market : Market) → IsWhole (state_in market self.old.store)
            → IsJoined (market_in market) self.old.store.shape
            → ComesTo (state_in market self.old.store) object result }
        ensures same { self.new ≡ self.old }
    {
        let (mark, is_current) = self.store.met(object);
        match mark {
            Mark::Frozen | Mark::Late => AtOnce::Answers(last_answer(&self.store, object, mark)),
            Mark::Fresh | Mark::Held => {
                if is_current {
                    AtOnce::Answers(answered(None, mark, 0))
                } else {
                    AtOnce::Walks(mark)
                }
            }
            Mark::Recalc => unreachable!(),
        }
    }

    /// Returns what an object gives to those that name it: a quote its rate, a handle what its target gives, a lazy object itself.
    /// Works out each derived quote at most once.
    ///
    /// # Errors
    ///
    /// `AllocError` where memory runs out.
    pub fn given(&mut self, market: &Market, object: ObjId) -> Result<Entry, AllocError>
        requires linked { IsLinked (market_in market.now) }
        requires within { object < length market.now.objects }
        requires empty { IsEmpty (length market.now.objects) self.old.scratch }
        ensures entry { IfOk result (λ entry. entry ≡ input_at (market_in market.now) object) }
        ensures store { self.new.store ≡ self.old.store }
        ensures empty { IsEmpty (length market.now.objects) self.new.scratch }
    {
        let entry = read(market, &mut self.scratch, object);
        self.clear();
        entry
    }

    // Walks from an object that is neither frozen nor late nor current. The stack reuses the memory of the last walk.
    pub(crate) fn walk<B: Bench>(
        &mut self,
        market: &Market,
        object: ObjId,
        mark: Mark,
        bench: &mut B,
    ) -> Result<Asked, AllocError>
        requires may { MayAsk (B.calc bench.old) (state_in market.now self.old.store) object }
        requires free { held_outcome (state_in market.now self.old.store) object ≡ None }
        requires stale { is_now self.old.store.kept object ≡ false }
        requires remembers { Remembers (market_in market.now) self.old.scratch.entries }
        requires joined { IsJoined (market_in market.now) self.old.store.shape }
        ensures same { B.calc bench.new ≡ B.calc bench.old }
        ensures walks { IfOk result (λ answer. Walks (B.calc bench.old) object (state_in market.now self.old.store) (state_after market.now self.old.store self.new.store) mark answer
            (B.count bench.old) (B.count bench.new) (B.log bench.old) (B.log bench.new)) }
        ensures few { IfOk result (λ answer. answer.runs < 2 ^ 17) }
        ensures stops { OnErr result (Stops (B.calc bench.old) object (state_in market.now self.old.store) (state_after market.now self.old.store self.new.store)
            (B.count bench.old) (B.count bench.new) (B.log bench.old) (B.log bench.new)) }
        ensures stays { Stays (B.calc bench.old) (state_after market.now self.old.store self.new.store) }
        ensures shape { self.new.store.shape ≡ self.old.store.shape }
        ensures registry { registry_of self.new.store ≡ registry_of self.old.store }
        ensures remembers { Remembers (market_in market.now) self.new.scratch.entries }
        ensures keeps { Keeps self.old.store.kept self.new.store.kept }
    {
        let mut waiting = mem::replace(&mut self.waiting, Vec::new(self.scratch.alloc()));
        waiting.clear();
        let mut top = begin(object);
        let mut runs: u64 = 0;
        loop {
            match self.turn(market, &mut top, bench)? {
                Turn::Stops(cause) => {
                    self.waiting = waiting;
                    return Ok(answered(Some(cause), mark, runs));
                }
                Turn::Waits(needed) => {
                    waiting.push(left(&top))?;
                    top = begin(needed);
                }
                Turn::Ran(cause) => {
                    runs += 1;
                    if cause.is_some() {
                        self.waiting = waiting;
                        return Ok(answered(cause, mark, runs));
                    }
                    match waiting.pop() {
                        Some(under) => top = under,
                        None => {
                            self.waiting = waiting;
                            return Ok(answered(None, mark, runs));
                        }
                    }
                }
            }
        }
    }

    /// Forgets what an ask remembered, and frees the inputs of the last price.
    pub(crate) fn clear(&mut self)
        ensures scratch { AreClear self.old.scratch self.new.scratch }
        ensures store { self.new.store ≡ self.old.store }
    {
        self.scratch.clear();
        self.inputs.truncate(0);
    }
}

// Returns the last value of the object as a result, or that it has none.
fn last_answer(store: &Store, object: ObjId, mark: Mark) -> Asked
    ensures { result ≡ record { cause = lacking object (slice_index_or store.now.kept object unpriced).last; mark = mark; runs = 0 } }
{
    match store.last(object) {
        Some(_) => answered(None, mark, 0),
        None => answered(Some(Cause::Unpriced(object)), mark, 0),
    }
}

/// Computes one object. Stores its value, or returns the cause of a refusal.
///
/// # Errors
///
/// `AllocError` where memory runs out.
#[inline(always)]
pub fn compute<'a, B: Bench>(
    alloc: Global,
    market: &'a Market,
    store: &mut Store,
    object: ObjId,
    inputs: &'a InputList,
    bench: &mut B,
) -> Result<Option<Cause>, AllocError>
    requires lazy { is_lazy_at (market_in market.now) object ≡ true }
    requires role { role_at store.old.shape object ≡ Some role.Lazy }
    requires fits { (terms : Terms) → terms_at (market_in market.now) object ≡ Some terms → IsWellFormed (reading_at (market_in market.now) object terms inputs.now) }
    ensures same { B.calc bench.new ≡ B.calc bench.old }
    ensures computes { IfOk result (λ cause. Computes (B.calc bench.old) (market_in market.now) object inputs.now store.old.kept store.new.kept cause
        (B.count bench.old) (B.count bench.new) (B.log bench.old) (B.log bench.new)) }
    ensures err { OnErr result ((store.new.kept ≡ store.old.kept) × (B.count bench.new ≡ counted (B.count bench.old) 1) × (B.log bench.new ≡ B.log bench.old)) }
    ensures shape { store.new.shape ≡ store.old.shape }
    ensures registry { registry_of store.new ≡ registry_of store.old }
{
    let terms = market.objects.own_terms(object);
    let job = Job {
        object,
        terms,
        inputs,
        today: market.today,
        index: index_named(market, terms),
    };
    match bench.price(alloc, &job) {
        Ok(value) => {
            store.keep(object, value);
            Ok(None)
        }
        Err(fault) => match fault.cause() {
            Some(cause) => Ok(Some(cause)),
            None => Err(AllocError),
        },
    }
}

// Returns the index in terms as a price uses it.
fn index_named<'a>(market: &'a Market, terms: &Terms) -> Option<IndexUse<'a>>
    ensures { index_reading result ≡ index_at (market_in market.now) (named_index terms.now) }
{
    match terms {
        Terms::Flows(flows, _) => match flows.index {
            None => None,
            Some(index) => index_of(&market.objects, index),
        },
        Terms::Quote(_)
        | Terms::Derived { .. }
        | Terms::Handle { .. }
        | Terms::Index(..)
        | Terms::Engine { .. }
        | Terms::Curve(_)
        | Terms::Implied { .. }
        | Terms::Stock { .. }
        | Terms::Composite(_) => None,
    }
}

/// Prices a composite from its sum, in units of 10^-6. Stores the price, or returns the cause of a refusal.
///
/// # Errors
///
/// `AllocError` where memory runs out.
#[inline(always)]
pub fn total<B: Bench>(
    store: &mut Store,
    object: ObjId,
    units: i128,
    bench: &mut B,
) -> Result<Option<Cause>, AllocError>
    requires role { role_at store.old.shape object ≡ Some role.Lazy }
    ensures same { B.calc bench.new ≡ B.calc bench.old }
    ensures computes { IfOk result (λ cause. (parts : List Part) (inputs : List Input) → IsWellFormed (composite_reading object parts inputs) → units ≡ summed parts inputs
        → IsComputed (B.calc bench.old) (composite_reading object parts inputs) object store.old.kept store.new.kept cause) }
    ensures count { IfOk result (λ cause. B.count bench.new ≡ counted (B.count bench.old) 1) }
    ensures log { IfOk result (λ cause. B.log bench.new ≡ logged (B.log bench.old) ((object, is_none cause) ∷ [])) }
    ensures err { OnErr result ((store.new.kept ≡ store.old.kept) × (B.count bench.new ≡ counted (B.count bench.old) 1) × (B.log bench.new ≡ B.log bench.old)) }
    ensures shape { store.new.shape ≡ store.old.shape }
    ensures registry { registry_of store.new ≡ registry_of store.old }
{
    match bench.price_sum(object, units) {
        Ok(amount) => {
            store.keep_money(object, amount);
            Ok(None)
        }
        Err(fault) => match fault.cause() {
            Some(cause) => Ok(Some(cause)),
            None => Err(AllocError),
        },
    }
}

/// Makes the result of an ask.
pub fn answered(cause: Option<Cause>, mark: Mark, runs: u64) -> Asked
    ensures { result ≡ record { cause = cause; mark = mark; runs = runs } }
{
    Asked { cause, mark, runs }
}
