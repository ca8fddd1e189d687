// What an instrument is worth now.
ghost use Rattle.std.specs.Prelude.{◌≡◌, ◌<◌, ◌≤◌, ◌^◌, unsigned_abs, true, length, IfOk, IfSome, option_copied};
ghost use Rattle.desk_model.specs.Visit.{runs};
ghost use Rattle.desk_model.specs.Links.{is_lazy_at};
ghost use Rattle.desk_model.specs.Sound.{IsSound};
ghost use Rattle.desk_model.specs.Unheld.{HoldsNothing};
ghost use Rattle.desk_terms.specs.Asked.{Shows};
ghost use Rattle.desk_terms.specs.Reading.{Outcome};
ghost use Rattle.bump_model.specs.Sides.{IsPaid, amount_of, worth};
ghost use Rattle.bump_model.specs.Asking.{Asks, ask_of};

use desk_names::ObjId;
use desk_terms::{Asked, Bench, Cause, Value};
use fixed_amount::Amount;
use lazy_objects::Desk;
use std::alloc::AllocError;

// What an ask gave: an amount or a cause, and how many times the bench was called.
#[derive(Clone, Copy)]
pub(crate) struct Priced {
    pub(crate) amount: Result<Amount, Cause>,
    pub(crate) runs: u64,
}

// Asks an instrument.
pub(crate) fn price<B: Bench>(
    desk: &mut Desk,
    object: ObjId,
    bench: &mut B,
) -> Result<Priced, AllocError>
    requires lazy { is_lazy_at desk.old.market object ≡ true }
    requires sound { IsSound (B.calc bench.old) desk.old }
    requires unheld { HoldsNothing desk.old }
    ensures same { B.calc bench.new ≡ B.calc bench.old }
    ensures amount { IfOk result (λ priced. priced.amount ≡ worth (B.calc bench.old) desk.old.market object) }
    ensures money { IfOk result (λ priced. IfOk priced.amount (λ amount. unsigned_abs amount ≤ 10 ^ 24)) }
    ensures runs { IfOk result (λ priced. priced.runs ≡ length (runs (B.calc bench.old) desk.old object)) }
    ensures few { IfOk result (λ priced. priced.runs < 2 ^ 17) }
    ensures asks { Asks (ask_of (B.calc bench.old) object desk.old) result desk.new
        (B.count bench.old) (B.count bench.new) (B.log bench.old) (B.log bench.new) }
    ensures market { desk.new.market ≡ desk.old.market }
    ensures sound { IsSound (B.calc bench.old) desk.new }
    ensures unheld { HoldsNothing desk.new }
{
    let asked = desk.ask(object, bench)?;
    Ok(Priced {
        amount: amount_of(object, &asked, desk.last(object)),
        runs: asked.runs,
    })
}

// The amount that an answer shows.
fn amount_of(object: ObjId, asked: &Asked, value: Option<&Value>) -> Result<Amount, Cause>
    requires given { (outcome : Outcome) × Shows asked.now.cause (option_copied value) outcome }
    requires paid { IfSome (option_copied value) IsPaid }
    ensures money { IfOk result (λ amount. unsigned_abs amount ≤ 10 ^ 24) }
    ensures amount { (outcome : Outcome) → Shows asked.now.cause (option_copied value.entry) outcome → result ≡ amount_of object outcome }
{
    match (&asked.cause, value) {
        (Some(cause), _) => Err(*cause),
        (None, Some(Value::Money(amount))) => Ok(*amount),
        (None, Some(Value::Curve(_))) => Err(Cause::Unpriced(object)),
        (None, None) => unreachable!(),
    }
}
