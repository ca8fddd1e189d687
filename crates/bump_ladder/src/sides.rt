// A rung of quotes that are moved together, and its two sides.
ghost use Rattle.std.specs.Prelude.{◌≡◌, ◌<◌, ◌≤◌, ◌^◌, ◌+ℤ◌, neg_ℤ, unsigned_abs, ℕ, false, true, length, Some, IfOk, OnOk, OnErr};
ghost use Rattle.desk_terms.specs.Reading.{Calc};
ghost use Rattle.desk_model.specs.Links.{is_lazy_at};
ghost use Rattle.desk_model.specs.Sound.{IsSound};
ghost use Rattle.desk_model.specs.Unheld.{HoldsNothing};
ghost use Rattle.bump_model.specs.Moves.{moved, all_set, is_limit, AreQuoted, AreLive, DifferAt};
ghost use Rattle.bump_model.specs.Sides.{side_of, rung_of, gain};
ghost use Rattle.bump_model.specs.Asking.{Asks, MadeFront, side_asking, sides_asking, rung_asking};

use crate::pricing::price;
use bump_model::{Missing, Quoted, Rung, Side, is_limit, moved};
use desk_names::ObjId;
use desk_terms::{Bench, Cause};
use fixed_amount::{Amount, Rate};
use lazy_objects::Desk;
use std::alloc::AllocError;

// One side, and how many times the bench was called for it.
#[derive(Clone, Copy)]
pub(crate) struct Sided {
    pub(crate) side: Side,
    pub(crate) runs: u64,
}

// One rung, and how many times the bench was called for it.
#[derive(Clone, Copy)]
pub(crate) struct Step {
    pub(crate) rung: Rung,
    pub(crate) runs: u64,
}

// The rung of these quotes, each of which has its value. They are set back on every exit, which takes no memory.
pub(crate) fn group_rung<B: Bench>(
    desk: &mut Desk,
    object: ObjId,
    base: Amount,
    size: Rate,
    label: Option<ObjId>,
    group: &[Quoted],
    bench: &mut B,
) -> Result<Step, AllocError>
    requires lazy { is_lazy_at desk.old.market object ≡ true }
    requires base { unsigned_abs base ≤ 10 ^ 24 }
    requires quoted { AreQuoted desk.old.market group.now }
    requires sound { IsSound (B.calc bench.old) desk.old }
    requires unheld { HoldsNothing desk.old }
    ensures same { B.calc bench.new ≡ B.calc bench.old }
    ensures rung { IfOk result (λ step. step.rung ≡ rung_of (B.calc bench.old) size desk.old.market object base label group.now) }
    ensures runs { IfOk result (λ step. step.runs ≡ length (rung_asking (B.calc bench.old) size object group.now desk.old).calls) }
    ensures few { IfOk result (λ step. step.runs < 2 ^ 18) }
    ensures asks { Asks (rung_asking (B.calc bench.old) size object group.now desk.old) result desk.new
        (B.count bench.old) (B.count bench.new) (B.log bench.old) (B.log bench.new) }
    ensures market { desk.new.market ≡ desk.old.market }
    ensures sound { IsSound (B.calc bench.old) desk.new }
    ensures unheld { HoldsNothing desk.new }
{
    let step = both_sides(desk, object, base, size, label, group, bench);
    set_back(desk, group);
    step
}

// The side up, then the side down. The quotes are left where the last move put them.
fn both_sides<B: Bench>(
    desk: &mut Desk,
    object: ObjId,
    base: Amount,
    size: Rate,
    label: Option<ObjId>,
    group: &[Quoted],
    bench: &mut B,
) -> Result<Step, AllocError>
    requires lazy { is_lazy_at desk.old.market object ≡ true }
    requires base { unsigned_abs base ≤ 10 ^ 24 }
    requires live { AreLive desk.old.market group.now }
    requires sound { IsSound (B.calc bench.old) desk.old }
    requires unheld { HoldsNothing desk.old }
    ensures same { B.calc bench.new ≡ B.calc bench.old }
    ensures rung { IfOk result (λ step. step.rung ≡ rung_of (B.calc bench.old) size desk.old.market object base label group.now) }
    ensures runs { IfOk result (λ step. step.runs ≡ length (sides_asking (B.calc bench.old) size object group.now desk.old).calls) }
    ensures few { IfOk result (λ step. step.runs < 2 ^ 18) }
    ensures asks { Asks (sides_asking (B.calc bench.old) size object group.now desk.old) result desk.new
        (B.count bench.old) (B.count bench.new) (B.log bench.old) (B.log bench.new) }
    ensures differ { DifferAt group.now desk.old.market desk.new.market }
    ensures sound { IsSound (B.calc bench.old) desk.new }
    ensures unheld { HoldsNothing desk.new }
{
    let up = one_side(desk, object, base, size, group, bench)?;
    let down = one_side(desk, object, base, opposite(size), group, bench)?;
    Ok(Step {
        rung: Rung {
            label,
            up: up.side,
            down: down.side,
        },
        runs: up.runs + down.runs,
    })
}

// The same shift the other way.
fn opposite(shift: Rate) -> Rate
    ensures { result ≡ neg_ℤ shift }
{
    Rate(-shift.units())
}

// One side: the quotes are moved and the instrument asked for, unless one of them would pass the limit of rates.
fn one_side<B: Bench>(
    desk: &mut Desk,
    object: ObjId,
    base: Amount,
    shift: Rate,
    group: &[Quoted],
    bench: &mut B,
) -> Result<Sided, AllocError>
    requires lazy { is_lazy_at desk.old.market object ≡ true }
    requires base { unsigned_abs base ≤ 10 ^ 24 }
    requires live { AreLive desk.old.market group.now }
    requires sound { IsSound (B.calc bench.old) desk.old }
    requires unheld { HoldsNothing desk.old }
    ensures same { B.calc bench.new ≡ B.calc bench.old }
    ensures side { IfOk result (λ sided. sided.side ≡ side_of (B.calc bench.old) desk.old.market object base shift group.now) }
    ensures runs { IfOk result (λ sided. sided.runs ≡ length (side_asking (B.calc bench.old) object shift group.now desk.old).calls) }
    ensures few { IfOk result (λ sided. sided.runs < 2 ^ 17) }
    ensures asks { Asks (side_asking (B.calc bench.old) object shift group.now desk.old) result desk.new
        (B.count bench.old) (B.count bench.new) (B.log bench.old) (B.log bench.new) }
    ensures differ { DifferAt group.now desk.old.market desk.new.market }
    ensures sound { IsSound (B.calc bench.old) desk.new }
    ensures unheld { HoldsNothing desk.new }
{
    if is_limit(shift, group) {
        return Ok(Sided {
            side: Side::NoPrice(Missing::Limit),
            runs: 0,
        });
    }
    move_all(desk, shift, group);
    let priced = price(desk, object, bench)?;
    Ok(Sided {
        side: gain(base, priced.amount),
        runs: priced.runs,
    })
}

// What is gained over a base.
fn gain(base: Amount, amount: Result<Amount, Cause>) -> Side
    requires base { unsigned_abs base ≤ 10 ^ 24 }
    requires amount { IfOk amount (λ units. unsigned_abs units ≤ 10 ^ 24) }
    ensures { result ≡ gain base amount }
{
    match amount {
        Ok(amount) => Side::Moved(Amount(amount.units() - base.units())),
        Err(cause) => Side::NoPrice(Missing::Refused(cause)),
    }
}

// Moves quotes by a shift from the values that they had, none of them past the limit of rates.
fn move_all(desk: &mut Desk, shift: Rate, group: &[Quoted])
    requires live { AreLive desk.old.market group.now }
    requires within { is_limit shift group.now ≡ false }
    ensures moved { desk.new ≡ all_set (moved shift) group.now desk.old }
    ensures sound { (calc : Calc) → IsSound calc desk.old → IsSound calc desk.new }
{
    for quoted in group {
        desk.set_quote(quoted.quote, Some(moved(shift, quoted.value)));
    }
}

// Sets quotes to the values that they had.
fn set_back(desk: &mut Desk, group: &[Quoted])
    requires live { AreLive desk.old.market group.now }
    ensures back { desk.new ≡ all_set (λ value. value) group.now desk.old }
    ensures sound { (calc : Calc) → IsSound calc desk.old → IsSound calc desk.new }
{
    for quoted in group {
        desk.set_quote(quoted.quote, Some(quoted.value));
    }
}
