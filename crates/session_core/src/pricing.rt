// Prices by name and their lines: an ask, a discount factor, a recalculation.
ghost use Rattle.std.specs.Prelude.{◌≡◌, ◌++◌, true, option_copied, IfOk, OnOk, OnErr};
ghost use Rattle.desk_terms.specs.Asked.{Shows};
ghost use Rattle.desk_terms.specs.Reading.{Outcome};
ghost use Rattle.desk_model.specs.Sound.{IsSound};
ghost use Rattle.desk_model.specs.State.{kept_at};
ghost use Rattle.session_model.specs.declared.act.Act.TheVariants as act;
ghost use Rattle.session_model.specs.Pricing.{pricing_of, recalculating, discount_in, priced_line};
ghost use Rattle.session_core.specs.Allowed.{MayPrice, MayRecalc};
ghost use Rattle.session_core.specs.Pricing.{Prices, StopsShort};
ghost use Rattle.session_core.specs.Steps.{Carries, BreaksOff};

use crate::Session;
use day_number::Day;
use desk_names::{NameId, ObjId};
use desk_terms::{Asked, Bench, Cause, Value, discount_of};
use fixed_amount::Discount;
use lazy_objects::Recalced;
use price_report::{asked_line, df_line};
use session_model::How;
use std::alloc::AllocError;

impl Session {
    // Prices a lazy object and appends its line.
    #[inline(always)]
    pub(crate) fn price<B: Bench>(
        &mut self,
        name: NameId,
        object: ObjId,
        how: &How,
        bench: &mut B,
        lines: &mut Vec<u8>,
    ) -> Result<(), AllocError>
        requires may { MayPrice self.old.state object how.now }
        requires sound { IsSound (B.calc bench.old) self.old.state }
        ensures same { B.calc bench.new ≡ B.calc bench.old }
        ensures steps { OnOk result (Carries (B.calc bench.old) (act.Price name object how.now) self.old self.new
            lines.old.items lines.new.items (B.count bench.old) (B.count bench.new)
            (B.log bench.old) (B.log bench.new)) }
        ensures stops { OnErr result (BreaksOff (B.calc bench.old) (act.Price name object how.now) self.old self.new
            lines.old.items lines.new.items (B.count bench.old) (B.count bench.new)
            (B.log bench.old) (B.log bench.new)) }
        ensures sound { IsSound (B.calc bench.old) self.new.state }
    {
        let asked = self.answer(object, how, bench)?;
        self.report(name, object, how, &asked, lines)
    }

    // Asks a lazy object, or recalculates it whatever its flags are.
    fn answer<B: Bench>(
        &mut self,
        object: ObjId,
        how: &How,
        bench: &mut B,
    ) -> Result<Asked, AllocError>
        requires may { MayPrice self.old.state object how.now }
        requires sound { IsSound (B.calc bench.old) self.old.state }
        ensures same { B.calc bench.new ≡ B.calc bench.old }
        ensures prices { IfOk result (λ answer. Prices (pricing_of (B.calc bench.old) object self.old.state how.now)
            object self.old self.new answer (B.count bench.old) (B.count bench.new)
            (B.log bench.old) (B.log bench.new)) }
        ensures stops { OnErr result (StopsShort (pricing_of (B.calc bench.old) object self.old.state how.now)
            self.old self.new (B.count bench.old) (B.count bench.new)
            (B.log bench.old) (B.log bench.new)) }
        ensures sound { IsSound (B.calc bench.old) self.new.state }
    {
        match how {
            How::Ask | How::Df(_) => self.desk.ask(object, bench),
            How::Recalc => self.recalc(object, bench),
        }
    }

    // Recalculates a lazy object that is not late, whatever its flags are.
    fn recalc<B: Bench>(&mut self, object: ObjId, bench: &mut B) -> Result<Asked, AllocError>
        requires may { MayRecalc self.old.state object }
        requires sound { IsSound (B.calc bench.old) self.old.state }
        ensures same { B.calc bench.new ≡ B.calc bench.old }
        ensures prices { IfOk result (λ answer. Prices (recalculating (B.calc bench.old) object self.old.state)
            object self.old self.new answer (B.count bench.old) (B.count bench.new)
            (B.log bench.old) (B.log bench.new)) }
        ensures stops { OnErr result (StopsShort (recalculating (B.calc bench.old) object self.old.state)
            self.old self.new (B.count bench.old) (B.count bench.new)
            (B.log bench.old) (B.log bench.new)) }
        ensures sound { IsSound (B.calc bench.old) self.new.state }
    {
        match self.desk.recalc(object, bench)? {
            Recalced::Done(asked) => Ok(asked),
            Recalced::Deferred(_) => unreachable!(),
        }
    }

    // Appends the line of a priced object.
    fn report(
        &self,
        name: NameId,
        object: ObjId,
        how: &How,
        asked: &Asked,
        lines: &mut Vec<u8>,
    ) -> Result<(), AllocError>
        requires given { (outcome : Outcome) × Shows asked.now.cause (kept_at self.now.state object).last outcome }
        ensures ok { (outcome : Outcome) → Shows asked.now.cause (kept_at self.now.state object).last outcome
            → OnOk result (lines.new.items ≡ lines.old.items
            ++ priced_line self.now.names self.now.of_object name object how.now outcome asked.now.mark asked.now.runs) }
        ensures err { OnErr result (lines.new.items ≡ lines.old.items) }
    {
        let last = self.desk.last(object);
        let namer = self.namer();
        match how {
            How::Ask | How::Recalc => asked_line(self.alloc, name, asked, last, &namer, lines),
            How::Df(day) => {
                let found = discount_in(object, *day, asked, last);
                df_line(self.alloc, name, *day, &found, asked, &namer, lines)
            }
        }
    }
}

// Returns the discount factor on a day, from the result of an ask and the last value of the object.
#[tactic(auto, unfolding(session_model::specs::Pricing::discount_in))]
fn discount_in(
    object: ObjId,
    day: Day,
    asked: &Asked,
    last: Option<&Value>,
) -> Result<Discount, Cause>
    requires given { (outcome : Outcome) × Shows asked.now.cause (option_copied last) outcome }
    ensures { (outcome : Outcome) → Shows asked.now.cause (option_copied last.entry) outcome
        → result ≡ discount_in object day outcome }
{
    match (&asked.cause, last) {
        (Some(cause), _) => Err(*cause),
        (None, Some(Value::Curve(curve))) => discount_of(object, curve, day),
        (None, Some(Value::Money(_))) => Err(Cause::Unpriced(object)),
        (None, None) => unreachable!(),
    }
}
