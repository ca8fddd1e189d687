// A bench for tools that compute no price.
ghost use Rattle.std.specs.Prelude.{◌≡◌};

use desk_names::ObjId;
use desk_terms::{Bench, BenchFault, Cause, Job, Value};
use fixed_amount::Amount;
use std::alloc::Global;

/// A bench that prices nothing: each object is unpriced. It counts no call.
#[derive(Drop)]
pub struct IdleBench;

impl Bench for IdleBench {
    ghost use Rattle.std.specs.Prelude.{None};
    ghost use Rattle.tool_frame.specs.Idle.{idle_calc, idle_count, idle_fits};

    ghost calc = { λ _. idle_calc };

    ghost count = { λ _. idle_count };

    ghost log = { λ _. None };

    ghost fits = { λ _ reading formed. idle_fits reading formed };

    fn price(&mut self, _alloc: Global, job: &Job<'_>) -> Result<Value, BenchFault> {
        Err(BenchFault::Refused(Cause::Unpriced(job.object)))
    }

    fn price_sum(&mut self, object: ObjId, _units: i128) -> Result<Amount, BenchFault> {
        Err(BenchFault::Refused(Cause::Unpriced(object)))
    }
}
