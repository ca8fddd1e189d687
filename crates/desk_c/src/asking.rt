// The asks of a session that is kept.
ghost use Rattle.std.specs.Prelude.{◌≡◌, ◌⊎◌, ◌↔◌, ◌^◌, ◌++◌, ◌<◌, ◌*ℤ◌, ◌+ℤ◌, pos, [], true, false, Ok, Err, IfOk, IfErr, OnOk, OnErr, option_copied, unsigned_abs};
ghost use Rattle.desk_names.specs.Names.{has_text};
ghost use Rattle.desk_terms.specs.Asked.{Shows};
ghost use Rattle.desk_terms.specs.Reading.{Outcome};
ghost use Rattle.desk_terms.specs.declared.value.Value.TheVariants.{Money};
ghost use Rattle.price_report.specs.Line.{asked_line, refusal_line};
ghost use Rattle.session_core.specs.Values.{value_of};
ghost use Rattle.desk_c.specs.Calls.{Asks, IsPriced, IsUnpriced, IsCurve, IsNotAsked, IsAskCut, standing_of, money_parts};
ghost use Rattle.desk_c.specs.declared.status.TheConstants.{DONE, NO_MEMORY, NO_NAME, REFUSED, UNPRICED, NOT_MONEY};

use crate::kept::Kept;
use crate::numbers::mark_number;
use crate::status::{DONE, NO_MEMORY, NO_NAME, NOT_MONEY, REFUSED, UNPRICED};
use desk_names::NameId;
use desk_terms::{Asked, Value};
use fixed_amount::Amount;
use price_report::{asked_line, refusal_line};
use pricing_session::AskFault;
use session_commands::Refusal;
use std::alloc::{AllocError, Global};

// How many units the first part of an amount counts.
const PART: i128 = 1_000_000_000_000_000_000;

impl Kept {
    // Asks what an object is worth. The line that a script's ask writes is the text.
    pub(crate) fn ask(
        &mut self,
        alloc: Global,
        name: &[u8],
        high: &mut i64,
        low: &mut i64,
        mark: &mut u32,
        runs: &mut u64,
    ) -> u32
        ensures prices { result ≡ DONE → Asks name.now (IsPriced high.new low.new mark.new runs.new) self.old self.new }
        ensures unpriced { result ≡ UNPRICED → Asks name.now IsUnpriced self.old self.new }
        ensures curve { result ≡ NOT_MONEY → Asks name.now IsCurve self.old self.new }
        ensures refused { result ≡ REFUSED → IsNotAsked name.now self.old self.new }
        ensures short { result ≡ NO_MEMORY → IsAskCut name.now self.old self.new }
        ensures no_name { result ≡ NO_NAME ↔ (has_text (standing_of self.old).names name.now ≡ false) }
        ensures same { result ≡ NO_NAME → self.new ≡ self.old }
        ensures quiet { (result ≡ DONE) ⊎ ((high.new ≡ high.old) × (low.new ≡ low.old) × (mark.new ≡ mark.old) × (runs.new ≡ runs.old)) }
        ensures ends { (result ≡ DONE) ⊎ ((result ≡ UNPRICED) ⊎ ((result ≡ NOT_MONEY) ⊎ ((result ≡ REFUSED) ⊎ ((result ≡ NO_MEMORY) ⊎ (result ≡ NO_NAME))))) }
    {
        let Some(name) = self.session.name(name) else {
            return NO_NAME;
        };
        self.text.clear();
        let asked = match self.session.ask(name) {
            Ok(asked) => asked,
            Err(AskFault::Refused(refusal)) => return self.refuse(alloc, b"ask", &refusal),
            Err(AskFault::NoMemory) => return NO_MEMORY,
        };
        let worth = worth_of(&asked, self.session.value(name));
        if self.report(alloc, name, &asked).is_err() {
            return NO_MEMORY;
        }
        match worth {
            Ok(parts) => {
                lay_parts(parts, high, low);
                *mark = mark_number(asked.mark);
                *runs = asked.runs;
                DONE
            }
            Err(status) => status,
        }
    }

    // Appends the line of an ask.
    pub(crate) fn report(
        &mut self,
        alloc: Global,
        name: NameId,
        asked: &Asked,
    ) -> Result<(), AllocError>
        requires given { (outcome : Outcome) × Shows asked.now.cause (value_of (standing_of self.old) name) outcome }
        ensures ok { (outcome : Outcome) → Shows asked.now.cause (value_of (standing_of self.old) name) outcome
            → OnOk result (self.new.text.items ≡ self.old.text.items
            ++ asked_line (standing_of self.old).names (standing_of self.old).of_object name outcome asked.now.mark asked.now.runs) }
        ensures err { OnErr result (self.new.text.items ≡ self.old.text.items) }
        ensures same { self.new.session ≡ self.old.session }
    {
        let last = self.session.value(name);
        let namer = self.session.namer();
        asked_line(alloc, name, asked, last, &namer, &mut self.text)
    }

    // Appends the line of a refused command.
    pub(crate) fn refuse(&mut self, alloc: Global, word: &[u8], refusal: &Refusal) -> u32
        ensures refused { result ≡ REFUSED → self.new.text.items ≡ self.old.text.items
            ++ refusal_line (standing_of self.old).names (standing_of self.old).of_object word.now refusal.now }
        ensures short { result ≡ NO_MEMORY → self.new.text.items ≡ self.old.text.items }
        ensures same { self.new.session ≡ self.old.session }
        ensures ends { (result ≡ REFUSED) ⊎ (result ≡ NO_MEMORY) }
    {
        let namer = self.session.namer();
        match refusal_line(alloc, word, refusal, &namer, &mut self.text) {
            Ok(()) => REFUSED,
            Err(AllocError) => NO_MEMORY,
        }
    }
}

// What an ask shows, in two parts, or why it has no price.
fn worth_of(asked: &Asked, value: Option<&Value>) -> Result<(i64, i64), u32>
    requires given { (outcome : Outcome) × Shows asked.now.cause (option_copied value) outcome }
    ensures worth { (outcome : Outcome) → Shows asked.now.cause (option_copied value.entry) outcome
        → IfOk result (λ parts. outcome ≡ Ok (Money (money_parts parts.0 parts.1))) }
    ensures small { IfOk result (λ parts. unsigned_abs parts.1 < 10 ^ 18) }
    ensures status { (outcome : Outcome) → Shows asked.now.cause (option_copied value.entry) outcome
        → IfErr result (λ status. ((status ≡ UNPRICED) × IsUnpriced outcome asked.now) ⊎ ((status ≡ NOT_MONEY) × IsCurve outcome asked.now)) }
{
    match (&asked.cause, value) {
        (Some(_), _) => Err(UNPRICED),
        (None, Some(Value::Money(amount))) => Ok(split(*amount)),
        (None, Some(Value::Curve(_))) => Err(NOT_MONEY),
        // What has no cause has a value.
        (None, None) => unreachable!(),
    }
}

// Writes the two parts of an amount.
fn lay_parts(parts: (i64, i64), high: &mut i64, low: &mut i64)
    ensures high { high.new ≡ parts.0 }
    ensures low { low.new ≡ parts.1 }
{
    *high = parts.0;
    *low = parts.1;
}

// An amount in two parts: `high * 10^18 + low` units.
fn split(amount: Amount) -> (i64, i64)
    ensures sum { money_parts result.0 result.1 ≡ amount }
    ensures small { unsigned_abs result.1 < 10 ^ 18 }
{
    let units = amount.units();
    ((units / PART) as i64, (units % PART) as i64)
}
