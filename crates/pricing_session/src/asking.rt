// Asks by number.
ghost use Rattle.std.specs.Prelude.{◌≡◌, Ok, Err, OnOk, option_copied};
ghost use Rattle.desk_model.specs.Sound.{IsSound};
ghost use Rattle.desk_terms.specs.Asked.{Shows};
ghost use Rattle.desk_terms.specs.Reading.{Outcome};
ghost use Rattle.session_commands.specs.declared.command.Command.TheVariants.{Ask};
ghost use Rattle.session_commands.specs.declared.refusal.Refusal.{Refusal};
ghost use Rattle.session_model.specs.Turn.{turn};
ghost use Rattle.pricing_session.specs.declared.fault.AskFault.TheVariants as ask;
ghost use Rattle.pricing_session.specs.declared.fault.PriceFault.TheVariants as price;
ghost use Rattle.pricing_session.specs.Asking.{AnswersAsk, AnswersPrice, price_in};

use crate::{AskFault, BenchSession, Beside, PriceFault};
use desk_names::NameId;
use desk_terms::{Asked, Bench, Value};
use fixed_amount::Amount;
use session_rounds::WatchedSession;
use std::alloc::AllocError;
use watch_rounds::Picker;

impl<P: Picker + Drop, B: Bench + Drop, L: Beside<P> + Drop> BenchSession<P, B, L> {
    /// Asks the live lazy object of a name. Returns its mark, the cause if it has no value, and how many times the bench was called.
    /// Its value is then `value(name)`. Recomputes only what it uses and is out of date. No watcher runs and no line is written. A
    /// stopped session can be asked, too.
    ///
    /// # Errors
    ///
    /// `Refused` where no live object has the name, or the object is never computed. Then nothing has changed. `NoMemory` where
    /// memory runs out. Then objects that were recomputed keep their values.
    pub fn ask(&mut self, name: NameId) -> Result<Asked, AskFault>
        ensures answers { AnswersAsk (B.calc self.old.bench) name self.old.running.standing self.new.running.standing result
            (B.count self.old.bench) (B.count self.new.bench) (B.log self.old.bench) (B.log self.new.bench) }
        // It does what a step of an ask does before its notifications are handed out.
        ensures turns { OnOk result (self.new.running.standing
            ≡ (turn (B.calc self.old.bench) self.old.running.standing (Ask name)).next) }
        ensures rounds { self.new.running ≡ record self.old.running { standing = self.new.running.standing } }
        ensures names { self.new.running.standing.names ≡ self.old.running.standing.names }
        ensures actions { self.new.running.standing.actions ≡ self.old.running.standing.actions }
        ensures calc { B.calc self.new.bench ≡ B.calc self.old.bench }
        ensures beside { self.new.beside ≡ self.old.beside }
        ensures same { (refusal : Refusal) → result ≡ Err (ask.Refused refusal) → self.new ≡ self.old }
    {
        asked(&mut self.session, &mut self.bench, name)
    }

    /// Returns the price of the live lazy object of a name, in units of 10^-6. A stopped session can be asked, too.
    ///
    /// # Errors
    ///
    /// Those of `ask`, `Unpriced` with the cause where the object has no value, and `NotMoney` where it is a curve.
    pub fn price(&mut self, name: NameId) -> Result<Amount, PriceFault>
        ensures answers { AnswersPrice (B.calc self.old.bench) name self.old.running.standing self.new.running.standing result
            (B.count self.old.bench) (B.count self.new.bench) (B.log self.old.bench) (B.log self.new.bench) }
        ensures rounds { self.new.running ≡ record self.old.running { standing = self.new.running.standing } }
        ensures names { self.new.running.standing.names ≡ self.old.running.standing.names }
        ensures actions { self.new.running.standing.actions ≡ self.old.running.standing.actions }
        ensures calc { B.calc self.new.bench ≡ B.calc self.old.bench }
        ensures beside { self.new.beside ≡ self.old.beside }
        ensures same { (refusal : Refusal) → result ≡ Err (price.Refused refusal) → self.new ≡ self.old }
    {
        match self.ask(name) {
            Ok(answer) => price_of(&answer, self.value(name)),
            Err(AskFault::Refused(refusal)) => Err(PriceFault::Refused(refusal)),
            Err(AskFault::NoMemory) => Err(PriceFault::NoMemory),
        }
    }
}

// Asks the live lazy object of a name.
#[tactic(auto, using(session_core::proofs::Resolved::found_lazy))]
fn asked<P: Picker + Drop, B: Bench + Drop>(
    session: &mut WatchedSession<P>,
    bench: &mut B,
    name: NameId,
) -> Result<Asked, AskFault>
    requires sound { IsSound (B.calc bench.old) session.old.standing.state }
    ensures answers { AnswersAsk (B.calc bench.old) name session.old.standing session.new.standing result
        (B.count bench.old) (B.count bench.new) (B.log bench.old) (B.log bench.new) }
    ensures turns { OnOk result (session.new.standing ≡ (turn (B.calc bench.old) session.old.standing (Ask name)).next) }
    ensures rounds { session.new ≡ record session.old { standing = session.new.standing } }
    ensures names { session.new.standing.names ≡ session.old.standing.names }
    ensures actions { session.new.standing.actions ≡ session.old.standing.actions }
    ensures calc { B.calc bench.new ≡ B.calc bench.old }
    ensures sound { IsSound (B.calc bench.old) session.new.standing.state }
    ensures same { (refusal : Refusal) → result ≡ Err (ask.Refused refusal) → (session.new ≡ session.old) × (bench.new ≡ bench.old) }
{
    match session.priced(name) {
        Ok(object) => match session.ask(object, bench) {
            Ok(answer) => Ok(answer),
            Err(AllocError) => Err(AskFault::NoMemory),
        },
        Err(refusal) => Err(AskFault::Refused(refusal)),
    }
}

// Returns the price of an ask that left this last value.
fn price_of(answer: &Asked, value: Option<&Value>) -> Result<Amount, PriceFault>
    requires given { (outcome : Outcome) × Shows answer.now.cause (option_copied value) outcome }
    ensures price { (outcome : Outcome) → Shows answer.now.cause (option_copied value.entry) outcome → result ≡ price_in outcome }
{
    match (&answer.cause, value) {
        (Some(cause), _) => Err(PriceFault::Unpriced(*cause)),
        (None, Some(Value::Money(amount))) => Ok(*amount),
        (None, Some(Value::Curve(_))) => Err(PriceFault::NotMoney),
        // An object without a cause has a value.
        (None, None) => unreachable!(),
    }
}
