// The two benches, and what they price: the prices of this project by kind.
ghost use Rattle.std.specs.Prelude.{◌≡◌, []};
ghost use Rattle.desk_terms.specs.Bench.{Answers, counted};
ghost use Rattle.desk_terms.specs.Reading.{reading_of, IsWellFormed};
ghost use Rattle.desk_terms.specs.Sums.{money_answer};
ghost use Rattle.discount_engines.specs.Money.{money_of};
ghost use Rattle.discount_engines.specs.Price.{instrument_price};
ghost use Rattle.desk_bench.specs.Pricing.{priced_answer, desk_calc, MayWant, WantsOnly};

use crate::curves::{curve_price, implied_price};
use curve_bootstrap::CurvePlans;
use desk_names::ObjId;
use desk_terms::{Bench, BenchFault, Job, Terms, Value};
use discount_engines::{PriceFault, money_of, price};
use fixed_amount::Amount;
use std::alloc::{AllocError, Global};

/// Prices by the rules of this project, and counts its calls. It keeps the coupons of curves from one price to the next, for
/// 1,024 curves at most: what it answers does not depend on that.
#[derive(Drop)]
pub struct DeskBench {
    calls: u64,
    // What is kept of curves.
    plans: CurvePlans,
}

impl DeskBench {
    /// A bench that was never called.
    pub fn new() -> DeskBench
        ensures { result.calls ≡ 0 }
    {
        DeskBench {
            calls: 0,
            plans: CurvePlans::new(),
        }
    }
}

impl Bench for DeskBench {
    ghost use Rattle.std.specs.Prelude.{None, List};
    ghost use Rattle.desk_terms.specs.declared.terms.Part.{Part};
    ghost use Rattle.desk_terms.specs.declared.value.Input.{Input};
    ghost use Rattle.desk_terms.specs.Sums.{summed, composite_reading, money_answer};
    ghost use Rattle.desk_bench.specs.Pricing.{desk_calc, MayWant, WantsOnly};
    ghost use Rattle.desk_bench.specs.Fits.{desk_fits};

    ghost calc = { λ _. desk_calc };

    ghost count = { λ bench. bench.calls };

    ghost log = { λ _. None };

    ghost fits = { λ _ reading formed. desk_fits reading formed };

    // The trait's clauses for this bench, and where it may want memory.
    #[inline(always)]
    fn price(&mut self, alloc: Global, job: &Job<'_>) -> Result<Value, BenchFault>
        requires { IsWellFormed (reading_of job.now) }
        ensures answer { Answers (desk_calc (reading_of job.now)) result }
        ensures count { self.new.calls ≡ counted self.old.calls 1 }
        ensures memory { WantsOnly (MayWant job.now.object job.now.terms.now job.now.inputs.now) result }
    {
        self.calls = next_count(self.calls);
        price_of(alloc, job, &mut self.plans)
    }

    // The trait's clauses for this bench, which wants no memory for it.
    #[inline(always)]
    fn price_sum(&mut self, object: ObjId, units: i128) -> Result<Amount, BenchFault>
        ensures answer { (parts : List Part) (inputs : List Input) → IsWellFormed (composite_reading object parts inputs) → units ≡ summed parts inputs
            → Answers (desk_calc (composite_reading object parts inputs)) (money_answer result) }
        ensures count { self.new.calls ≡ counted self.old.calls 1 }
        ensures memory { WantsOnly ⊥ (money_answer result) }
    {
        self.calls = next_count(self.calls);
        sum_answer(object, units)
    }
}

/// One call of a bench: for which object, and whether it got a value.
#[derive(Clone, Copy)]
pub struct LogEntry {
    pub object: ObjId,
    pub priced: bool,
}

/// The calls of a bench, in order.
pub type LogList = Vec<LogEntry>;

/// Prices as `DeskBench` does, and keeps a log of its calls. Where the log has room for a call, this takes no more memory
/// than its price and what is kept of a curve.
#[derive(Drop)]
pub struct ListBench {
    calls: u64,
    log: LogList,
    plans: CurvePlans,
}

impl ListBench {
    ghost use Rattle.std.specs.Prelude.{IfOk, vec_capacity};

    /// A bench that was never called. Its log grows in this memory.
    pub fn new(alloc: Global) -> ListBench
        ensures calls { result.calls ≡ 0 }
        ensures log { result.log.items ≡ [] }
    {
        ListBench {
            calls: 0,
            log: LogList::new(alloc),
            plans: CurvePlans::new(),
        }
    }

    /// A bench that was never called, whose log has room for so many calls.
    pub fn with_room(alloc: Global, calls: usize) -> Result<ListBench, AllocError>
        ensures calls { IfOk result (λ bench. bench.calls ≡ 0) }
        ensures log { IfOk result (λ bench. bench.log.items ≡ []) }
        ensures room { IfOk result (λ bench. vec_capacity bench.log ≡ calls) }
    {
        let log = LogList::with_capacity(alloc, calls)?;
        Ok(ListBench {
            calls: 0,
            log,
            plans: CurvePlans::new(),
        })
    }

    /// The calls so far. A call for which memory ran out is not among them.
    pub fn log(&self) -> &LogList
        ensures { result.now ≡ self.now.log }
    {
        &self.log
    }
}

impl Bench for ListBench {
    ghost use Rattle.std.specs.Prelude.{Some, List, ◌<◌, ◌≤◌, vec_len, vec_capacity};
    ghost use Rattle.desk_terms.specs.declared.terms.Part.{Part};
    ghost use Rattle.desk_terms.specs.declared.value.Input.{Input};
    ghost use Rattle.desk_terms.specs.Sums.{summed, composite_reading, money_answer};
    ghost use Rattle.desk_terms.specs.Bench.{entries_of, logged};
    ghost use Rattle.desk_bench.specs.Pricing.{desk_calc, MayWant, WantsOnly};
    ghost use Rattle.desk_bench.specs.Log.{pairs_of};
    ghost use Rattle.desk_bench.specs.Fits.{desk_fits};

    ghost calc = { λ _. desk_calc };

    ghost count = { λ bench. bench.calls };

    ghost log = { λ bench. Some (pairs_of bench.log.items) };

    ghost fits = { λ _ reading formed. desk_fits reading formed };

    // The trait's clauses for this bench, and where it may want memory: where the log has no room, and where its price does.
    fn price(&mut self, alloc: Global, job: &Job<'_>) -> Result<Value, BenchFault>
        requires { IsWellFormed (reading_of job.now) }
        ensures answer { Answers (desk_calc (reading_of job.now)) result }
        ensures count { self.new.calls ≡ counted self.old.calls 1 }
        ensures log { Some (pairs_of self.new.log.items) ≡ logged (Some (pairs_of self.old.log.items)) (entries_of job.now.object result) }
        ensures memory { vec_len self.old.log < vec_capacity self.old.log
            → WantsOnly (MayWant job.now.object job.now.terms.now job.now.inputs.now) result }
        ensures room { vec_capacity self.old.log ≤ vec_capacity self.new.log }
    {
        self.calls = next_count(self.calls);
        match price_of(alloc, job, &mut self.plans) {
            Ok(value) => {
                self.log.push(entry(job.object, true))?;
                Ok(value)
            }
            Err(BenchFault::Refused(cause)) => {
                self.log.push(entry(job.object, false))?;
                Err(BenchFault::Refused(cause))
            }
            Err(BenchFault::NoMemory) => Err(BenchFault::NoMemory),
        }
    }

    // The trait's clauses for this bench, and where it may want memory: where the log has no room.
    fn price_sum(&mut self, object: ObjId, units: i128) -> Result<Amount, BenchFault>
        ensures answer { (parts : List Part) (inputs : List Input) → IsWellFormed (composite_reading object parts inputs) → units ≡ summed parts inputs
            → Answers (desk_calc (composite_reading object parts inputs)) (money_answer result) }
        ensures count { self.new.calls ≡ counted self.old.calls 1 }
        ensures log { Some (pairs_of self.new.log.items) ≡ logged (Some (pairs_of self.old.log.items)) (entries_of object (money_answer result)) }
        ensures memory { vec_len self.old.log < vec_capacity self.old.log → WantsOnly ⊥ (money_answer result) }
        ensures room { vec_capacity self.old.log ≤ vec_capacity self.new.log }
    {
        self.calls = next_count(self.calls);
        match sum_answer(object, units) {
            Ok(amount) => {
                self.log.push(entry(object, true))?;
                Ok(amount)
            }
            Err(BenchFault::Refused(cause)) => {
                self.log.push(entry(object, false))?;
                Err(BenchFault::Refused(cause))
            }
            Err(BenchFault::NoMemory) => Err(BenchFault::NoMemory),
        }
    }
}

// The price of a job by its kind. An instrument's takes no memory.
#[inline(always)]
fn price_of(alloc: Global, job: &Job<'_>, kept: &mut CurvePlans) -> Result<Value, BenchFault>
    requires { IsWellFormed (reading_of job.now) }
    ensures price { Answers (desk_calc (reading_of job.now)) result }
    ensures memory { WantsOnly (MayWant job.now.object job.now.terms.now job.now.inputs.now) result }
{
    let inputs = job.inputs.items();
    match job.terms {
        Terms::Curve(terms) => curve_price(alloc, job.object, terms, job.today, inputs, kept),
        Terms::Implied { reference, .. } => implied_price(alloc, job.object, *reference, inputs),
        Terms::Composite(_) => instrument_price(alloc, job),
        Terms::Stock { .. } => instrument_price(alloc, job),
        Terms::Flows(..)
        | Terms::Quote(_)
        | Terms::Derived { .. }
        | Terms::Handle { .. }
        | Terms::Index(..)
        | Terms::Engine { .. } => instrument_price(alloc, job),
    }
}

// The price of a composite of this sum.
#[inline(always)]
fn sum_answer(object: ObjId, units: i128) -> Result<Amount, BenchFault>
    ensures price { Answers (money_of object units) (money_answer result) }
    ensures memory { WantsOnly ⊥ (money_answer result) }
{
    match money_of(object, units) {
        Ok(amount) => Ok(amount),
        Err(cause) => Err(BenchFault::Refused(cause)),
    }
}

// The price of an instrument.
#[inline(always)]
fn instrument_price(alloc: Global, job: &Job<'_>) -> Result<Value, BenchFault>
    requires { IsWellFormed (reading_of job.now) }
    ensures price { Answers (instrument_price (reading_of job.now)) result }
    ensures memory { WantsOnly ⊥ result }
{
    priced_answer(price(alloc, job))
}

// The answer of a bench where an instrument is priced, or is not.
#[inline(always)]
fn priced_answer(priced: Result<Value, PriceFault>) -> Result<Value, BenchFault>
    ensures { result ≡ priced_answer priced }
{
    match priced {
        Ok(value) => Ok(value),
        Err(PriceFault::Refused(cause)) => Err(BenchFault::Refused(cause)),
        Err(PriceFault::NoMemory) => Err(BenchFault::NoMemory),
    }
}

// An entry of a log.
fn entry(object: ObjId, priced: bool) -> LogEntry
    ensures { result ≡ record { object = object; priced = priced } }
{
    LogEntry { object, priced }
}

// A count after one call more: it stands still at the last value of a u64.
fn next_count(calls: u64) -> u64
    ensures { result ≡ counted calls 1 }
{
    calls.saturating_add(1)
}
