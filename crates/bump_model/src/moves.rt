// What is moved: quotes that have values.
ghost use Rattle.std.specs.Prelude.{◌≡◌, true};
ghost use Rattle.bump_model.specs.Moves.{is_rate, moved, is_limit};

use desk_names::ObjId;
use fixed_amount::Rate;

// The most units of a rate, either way.
const MOST_RATE: i64 = 1_000_000_000_000_000_000;

/// A quote with the value that it has.
#[derive(Clone, Copy)]
pub struct Quoted {
    pub quote: ObjId,
    pub value: Rate,
}

// Whether a value that is moved by a shift stays within the limit of rates.
fn fits(shift: Rate, value: Rate) -> bool
    ensures { result ≡ is_rate (moved shift value) }
{
    let units = value.units() + shift.units();
    -MOST_RATE <= units && units <= MOST_RATE
}

/// A value moved by a shift.
pub fn moved(shift: Rate, value: Rate) -> Rate
    requires { is_rate (moved shift value) ≡ true }
    ensures { result ≡ moved shift value }
{
    Rate(value.units() + shift.units())
}

/// Whether one of these quotes would pass the limit of rates, moved by a shift.
pub fn is_limit(shift: Rate, group: &[Quoted]) -> bool
    ensures { result ≡ is_limit shift group.now }
{
    group.iter().any(|quoted| !fits(shift, quoted.value))
}
