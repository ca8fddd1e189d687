// An ask that returns the value with the rest.
ghost use Rattle.std.specs.Prelude.{◌≡◌, Err, IfOk, IsErrOf, option_copied};
ghost use Rattle.desk_terms.specs.Asked.{Shows};
ghost use Rattle.desk_terms.specs.Reading.{Outcome};
ghost use Rattle.session_commands.specs.declared.refusal.Refusal.{Refusal};
ghost use Rattle.session_model.specs.declared.place.Place.TheVariants.{Priced};
ghost use Rattle.session_model.specs.Resolve.{find};
ghost use Rattle.pricing_session.specs.declared.fault.AskFault.TheVariants as ask;
ghost use Rattle.pricing_session.specs.Asking.{IsAnswered, IsCutShort};
ghost use Rattle.pricing_session.specs.Worth.{worth_in};

use crate::{AskFault, BenchSession, Beside};
use desk_names::NameId;
use desk_terms::{Asked, Bench, Cause, Mark, Value};
use fixed_amount::Amount;
use watch_rounds::Picker;

/// The value of an object.
#[derive(Clone, Copy, Debug, PartialEq, Eq)]
pub enum Worth {
    /// An amount of money, in units of 10^-6.
    Money(Amount),
    /// A curve, which `value` returns.
    Curve,
}

/// The result of an ask.
#[derive(Clone, Copy, Debug, PartialEq, Eq)]
pub struct Answer {
    /// The value of the object, or why it has none.
    pub worth: Result<Worth, Cause>,
    /// How the value relates to the market: fresh, late, held or frozen.
    pub mark: Mark,
    /// How many times the bench was called, with refused calls.
    pub runs: u64,
}

impl<P: Picker + Drop, B: Bench + Drop, L: Beside<P> + Drop> BenchSession<P, B, L> {
    /// Asks the live lazy object of a name, as `ask` does, and returns its value with the rest.
    ///
    /// # Errors
    ///
    /// Those of `ask`.
    pub fn answer(&mut self, name: NameId) -> Result<Answer, AskFault>
        ensures answers { IfOk result (λ answer. IsAnswered (B.calc self.old.bench) name self.old.running.standing self.new.running.standing
            answer (B.count self.old.bench) (B.count self.new.bench) (B.log self.old.bench) (B.log self.new.bench)) }
        ensures refused { (refusal : Refusal) → result ≡ Err (ask.Refused refusal)
            → (find Priced self.old.running.standing name ≡ Err refusal) × (self.new ≡ self.old) }
        ensures short { IsErrOf result AskFault.NoMemory → IsCutShort (B.calc self.old.bench) name self.old.running.standing self.new.running.standing
            (B.count self.old.bench) (B.count self.new.bench) (B.log self.old.bench) (B.log self.new.bench) }
        ensures rounds { self.new.running ≡ record self.old.running { standing = self.new.running.standing } }
        ensures names { self.new.running.standing.names ≡ self.old.running.standing.names }
        ensures actions { self.new.running.standing.actions ≡ self.old.running.standing.actions }
        ensures calc { B.calc self.new.bench ≡ B.calc self.old.bench }
        ensures beside { self.new.beside ≡ self.old.beside }
    {
        match self.ask(name) {
            Ok(asked) => Ok(Answer {
                worth: worth_of(&asked, self.value(name)),
                mark: asked.mark,
                runs: asked.runs,
            }),
            Err(fault) => Err(fault),
        }
    }
}

// Returns the value of an ask that left this last value.
fn worth_of(asked: &Asked, value: Option<&Value>) -> Result<Worth, Cause>
    requires given { (outcome : Outcome) × Shows asked.now.cause (option_copied value) outcome }
    ensures { (outcome : Outcome) → Shows asked.now.cause (option_copied value.entry) outcome → result ≡ worth_in outcome }
{
    match (&asked.cause, value) {
        (Some(cause), _) => Err(*cause),
        (None, Some(Value::Money(amount))) => Ok(Worth::Money(*amount)),
        (None, Some(Value::Curve(_))) => Ok(Worth::Curve),
        // An object without a cause has a value.
        (None, None) => unreachable!(),
    }
}
