// Theta: what an instrument gains by the next business day.
ghost use Rattle.std.specs.Prelude.{◌≡◌, ◌≤◌, ◌*◌, ◌^◌, ◌+ℤ◌, ◌-ℤ◌, [], Some, true, unsigned_abs, IfOk};
ghost use Rattle.desk_terms.specs.declared.kind.Wanted.TheVariants.{Member};
ghost use Rattle.desk_model.specs.Links.{serves_as};
ghost use Rattle.desk_model.specs.Market.{kind_at};
ghost use Rattle.desk_model.specs.Sound.{IsSound};
ghost use Rattle.desk_model.specs.Unheld.{HoldsNothing};
ghost use Rattle.bump_model.specs.Asking.{Asks, ladder_asking};
ghost use Rattle.bump_model.specs.Sides.{worth};
ghost use Rattle.tool_risk.specs.Given.{naming_in, curves_given, curves_asking};
ghost use Rattle.tool_risk.specs.Theta.{gain_of, gain_by, theta_of, on_day, later_asking, day_asking, asking_on, theta_asking};

use crate::dues::{Span, paid};
use crate::given::{GivenCurve, curves_given, naming_beneath};
use crate::tomorrow::tomorrow;
use bump_ladder::{LadderFault, ladder};
use day_number::Day;
use desk_names::ObjId;
use desk_terms::{Bench, Cause};
use fixed_amount::{Amount, Rate};
use lazy_objects::Desk;
use std::alloc::{AllocError, Global};

// What an instrument gains by a later day.
#[derive(Clone, Copy)]
pub(crate) enum Gain {
    // So many units of an amount.
    Is(i128),
    // It has no price on that day, for this cause.
    Tomorrow(Cause),
    // What it pays until then has no amount.
    Paid(Cause),
}

// The next business day, and what is gained by then; none behind 2199.
#[derive(Clone, Copy)]
pub(crate) enum Theta {
    On { day: Day, gain: Gain },
    Limit,
}

// A later day: what an instrument is worth, and the curves that are given.
#[derive(Drop)]
struct Later {
    amount: Result<Amount, Cause>,
    curves: Vec<GivenCurve>,
}

// The theta of an instrument that is worth so much today.
pub(crate) fn theta_of<B: Bench>(
    alloc: Global,
    desk: &mut Desk,
    size: Rate,
    object: ObjId,
    base: Amount,
    bench: &mut B,
) -> Result<Theta, AllocError>
    requires instrument { serves_as (kind_at desk.old.market object) Member ≡ true }
    requires sound { IsSound (B.calc bench.old) desk.old }
    requires unheld { HoldsNothing desk.old }
    ensures same { B.calc bench.new ≡ B.calc bench.old }
    ensures theta { IfOk result (λ theta. theta ≡ theta_of (B.calc bench.old) desk.old.market object base) }
    ensures asks { Asks (theta_asking (B.calc bench.old) size object desk.old) result desk.new
        (B.count bench.old) (B.count bench.new) (B.log bench.old) (B.log bench.new) }
    ensures market { desk.new.market ≡ desk.old.market }
    ensures sound { IsSound (B.calc bench.old) desk.new }
    ensures unheld { HoldsNothing desk.new }
{
    match tomorrow(alloc, desk, object)? {
        None => Ok(Theta::Limit),
        Some(day) => Ok(Theta::On {
            day,
            gain: gain_by(alloc, desk, size, object, base, day, bench)?,
        }),
    }
}

// What is gained by a day.
fn gain_by<B: Bench>(
    alloc: Global,
    desk: &mut Desk,
    size: Rate,
    object: ObjId,
    base: Amount,
    day: Day,
    bench: &mut B,
) -> Result<Gain, AllocError>
    requires instrument { serves_as (kind_at desk.old.market object) Member ≡ true }
    requires sound { IsSound (B.calc bench.old) desk.old }
    requires unheld { HoldsNothing desk.old }
    ensures same { B.calc bench.new ≡ B.calc bench.old }
    ensures gain { IfOk result (λ gain. gain ≡ gain_by (B.calc bench.old) desk.old.market object base day) }
    ensures asks { Asks (asking_on (B.calc bench.old) size object (Some day) desk.old) result desk.new
        (B.count bench.old) (B.count bench.new) (B.log bench.old) (B.log bench.new) }
    ensures market { desk.new.market ≡ desk.old.market }
    ensures sound { IsSound (B.calc bench.old) desk.new }
    ensures unheld { HoldsNothing desk.new }
{
    let names = naming_beneath(alloc, desk, object)?;
    let now = curves_given(alloc, desk, names.items(), bench)?;
    let later = later_on(alloc, desk, size, object, names.items(), day, bench)?;
    let span = Span {
        day,
        today: now.as_slice(),
        later: later.curves.as_slice(),
    };
    let due = paid(alloc, desk, object, &span)?;
    Ok(gain_of(base, later.amount, due))
}

// What is gained over a base, by what the instrument is worth then and pays until then.
fn gain_of(base: Amount, amount: Result<Amount, Cause>, due: Result<Amount, Cause>) -> Gain
    ensures { result ≡ gain_of base amount due }
{
    match (amount, due) {
        (Err(cause), _) => Gain::Tomorrow(cause),
        (Ok(_), Err(cause)) => Gain::Paid(cause),
        (Ok(amount), Ok(due)) => Gain::Is(plus(less(amount, base), due)),
    }
}

// An amount less another.
fn less(amount: Amount, base: Amount) -> i128
    ensures value { result ≡ amount -ℤ base }
    ensures bound { unsigned_abs result ≤ 2 * 10 ^ 26 }
{
    amount.units() - base.units()
}

// Units and an amount more.
fn plus(units: i128, due: Amount) -> i128
    requires { unsigned_abs units ≤ 2 * 10 ^ 26 }
    ensures { result ≡ units +ℤ due }
{
    units + due.units()
}

// What an instrument is worth on a later day, and the curves that are given then. Today is set back on every exit, which takes
// no memory.
fn later_on<B: Bench>(
    alloc: Global,
    desk: &mut Desk,
    size: Rate,
    object: ObjId,
    names: &[ObjId],
    day: Day,
    bench: &mut B,
) -> Result<Later, AllocError>
    requires instrument { serves_as (kind_at desk.old.market object) Member ≡ true }
    requires sound { IsSound (B.calc bench.old) desk.old }
    requires unheld { HoldsNothing desk.old }
    ensures same { B.calc bench.new ≡ B.calc bench.old }
    ensures amount { IfOk result (λ later. later.amount ≡ worth (B.calc bench.old) (on_day day desk.old.market) object) }
    ensures curves { IfOk result (λ later. later.curves.items ≡ curves_given (B.calc bench.old) (on_day day desk.old.market) names.now) }
    ensures asks { Asks (day_asking (B.calc bench.old) size object names.now day desk.old) result desk.new
        (B.count bench.old) (B.count bench.new) (B.log bench.old) (B.log bench.new) }
    ensures market { desk.new.market ≡ desk.old.market }
    ensures sound { IsSound (B.calc bench.old) desk.new }
    ensures unheld { HoldsNothing desk.new }
{
    let today = desk.today();
    desk.set_today(day);
    let later = later_now(alloc, desk, size, object, names, bench);
    desk.set_today(today);
    later
}

// The same on the day as it stands.
fn later_now<B: Bench>(
    alloc: Global,
    desk: &mut Desk,
    size: Rate,
    object: ObjId,
    names: &[ObjId],
    bench: &mut B,
) -> Result<Later, AllocError>
    requires instrument { serves_as (kind_at desk.old.market object) Member ≡ true }
    requires sound { IsSound (B.calc bench.old) desk.old }
    requires unheld { HoldsNothing desk.old }
    ensures same { B.calc bench.new ≡ B.calc bench.old }
    ensures amount { IfOk result (λ later. later.amount ≡ worth (B.calc bench.old) desk.old.market object) }
    ensures curves { IfOk result (λ later. later.curves.items ≡ curves_given (B.calc bench.old) desk.old.market names.now) }
    ensures asks { Asks (later_asking (B.calc bench.old) size object names.now desk.old) result desk.new
        (B.count bench.old) (B.count bench.new) (B.log bench.old) (B.log bench.new) }
    ensures market { desk.new.market ≡ desk.old.market }
    ensures sound { IsSound (B.calc bench.old) desk.new }
    ensures unheld { HoldsNothing desk.new }
{
    let amount = worth_now(alloc, desk, size, object, bench)?;
    let curves = curves_given(alloc, desk, names, bench)?;
    Ok(Later { amount, curves })
}

// What an instrument is worth: the base of a ladder without rungs.
fn worth_now<B: Bench>(
    alloc: Global,
    desk: &mut Desk,
    size: Rate,
    object: ObjId,
    bench: &mut B,
) -> Result<Result<Amount, Cause>, AllocError>
    requires instrument { serves_as (kind_at desk.old.market object) Member ≡ true }
    requires sound { IsSound (B.calc bench.old) desk.old }
    requires unheld { HoldsNothing desk.old }
    ensures same { B.calc bench.new ≡ B.calc bench.old }
    ensures amount { IfOk result (λ amount. amount ≡ worth (B.calc bench.old) desk.old.market object) }
    ensures asks { Asks (ladder_asking (B.calc bench.old) size object [] desk.old) result desk.new
        (B.count bench.old) (B.count bench.new) (B.log bench.old) (B.log bench.new) }
    ensures market { desk.new.market ≡ desk.old.market }
    ensures sound { IsSound (B.calc bench.old) desk.new }
    ensures unheld { HoldsNothing desk.new }
{
    match ladder(alloc, desk, object, size, &[], bench) {
        Ok(ladder) => Ok(Ok(ladder.base)),
        Err(LadderFault::Base { cause, .. }) => Ok(Err(cause)),
        Err(LadderFault::NoMemory) => Err(AllocError),
    }
}
