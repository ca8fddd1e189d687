// What is asked of the curves of a session that is kept.
ghost use Rattle.std.specs.Prelude.{◌≡◌, ◌⊎◌, ◌↔◌, ◌++◌, ◌≤◌, [], true, false, Some, None, Err, IsSome, IsErr, OnOk, OnErr, length, slice_get, option_copied};
ghost use Rattle.curve_points.specs.Curve.{points};
ghost use Rattle.curve_points.specs.declared.curves.CurveNode.{CurveNode};
ghost use Rattle.desk_names.specs.Names.{has_text};
ghost use Rattle.desk_terms.specs.Asked.{Shows};
ghost use Rattle.desk_terms.specs.Reading.{Outcome};
ghost use Rattle.price_report.specs.Line.{df_line};
ghost use Rattle.session_model.specs.declared.place.Place.TheVariants.{Priced};
ghost use Rattle.session_model.specs.Place.{takes_found};
ghost use Rattle.session_model.specs.Pricing.{discount_in};
ghost use Rattle.session_model.specs.Resolve.{find, curve};
ghost use Rattle.desk_c.specs.Calls.{standing_of, number_of};
ghost use Rattle.desk_c.specs.Curves.{Discounts, IsFactor, IsNoFactor, IsNoCurve, IsDiscountCut, IsNode, IsPast, HasNone, HasMoney};
ghost use Rattle.desk_c.specs.Numbers.{IsDay, day_of, day_code};
ghost use Rattle.desk_c.specs.declared.status.TheConstants.{DONE, NO_MEMORY, NO_NAME, REFUSED, RANGE, UNPRICED, NOT_CURVE};

use crate::kept::Kept;
use crate::numbers::{day_code, day_of, mark_number};
use crate::status::{DONE, NO_MEMORY, NO_NAME, NOT_CURVE, RANGE, REFUSED, UNPRICED};
use curve_points::{CurveNode, CurveValue, ONE};
use day_number::Day;
use desk_names::{NameId, ObjId};
use desk_terms::{Asked, Cause, Kind, Value, Wanted, discount_of};
use fixed_amount::Discount;
use price_report::df_line;
use pricing_session::AskFault;
use session_commands::Refusal;
use std::alloc::{AllocError, Global};

impl Kept {
    // Asks for the discount factor of a curve at a day. The line that a script's `df` writes is the text.
    pub(crate) fn discount(
        &mut self,
        alloc: Global,
        name: &[u8],
        day: u32,
        units: &mut i64,
        mark: &mut u32,
        runs: &mut u64,
    ) -> u32
        ensures found { result ≡ DONE → Discounts name.now (day_of day) (IsFactor units.new mark.new runs.new) self.old self.new }
        ensures none { result ≡ UNPRICED → Discounts name.now (day_of day) IsNoFactor self.old self.new }
        ensures refused { result ≡ REFUSED → IsNoCurve name.now (day_of day) self.old self.new }
        ensures short { result ≡ NO_MEMORY → IsDiscountCut name.now self.old self.new }
        ensures no_name { result ≡ NO_NAME ↔ (has_text (standing_of self.old).names name.now ≡ false) }
        ensures range { result ≡ RANGE ↔ ((has_text (standing_of self.old).names name.now ≡ true) × (IsDay day → ⊥)) }
        ensures same { (result ≡ NO_NAME) ⊎ (result ≡ RANGE) → self.new ≡ self.old }
        ensures quiet { (result ≡ DONE) ⊎ ((units.new ≡ units.old) × (mark.new ≡ mark.old) × (runs.new ≡ runs.old)) }
        ensures ends { (result ≡ DONE) ⊎ ((result ≡ UNPRICED) ⊎ ((result ≡ REFUSED) ⊎ ((result ≡ NO_MEMORY) ⊎ ((result ≡ NO_NAME) ⊎ (result ≡ RANGE))))) }
    {
        let Some(name) = self.session.name(name) else {
            return NO_NAME;
        };
        let Some(day) = day_of(day) else {
            return RANGE;
        };
        self.text.clear();
        let object = match self.curve(name) {
            Ok(object) => object,
            Err(refusal) => return self.refuse(alloc, b"df", &refusal),
        };
        let asked = match self.session.ask(name) {
            Ok(asked) => asked,
            // A curve is priced.
            Err(AskFault::Refused(_)) => unreachable!(),
            Err(AskFault::NoMemory) => return NO_MEMORY,
        };
        let found = discount_in(object, day, &asked, self.session.value(name));
        if self
            .report_factor(alloc, name, day, &found, &asked)
            .is_err()
        {
            return NO_MEMORY;
        }
        match found {
            Ok(factor) => {
                lay_factor(factor, units);
                *mark = mark_number(asked.mark);
                *runs = asked.runs;
                DONE
            }
            Err(_) => UNPRICED,
        }
    }

    // The curve that has a name, or why a command that asks for it is refused.
    fn curve(&self, name: NameId) -> Result<ObjId, Refusal>
        ensures { result ≡ find curve (standing_of self.now) name }
    {
        match self.session.priced(name) {
            Ok(object) => {
                if is_curve(self.session.kind(object)) {
                    Ok(object)
                } else {
                    Err(Refusal::Kind(name))
                }
            }
            Err(refusal) => Err(refusal),
        }
    }

    // Appends the line of a discount factor.
    fn report_factor(
        &mut self,
        alloc: Global,
        name: NameId,
        day: Day,
        found: &Result<Discount, Cause>,
        asked: &Asked,
    ) -> Result<(), AllocError>
        ensures ok { OnOk result (self.new.text.items ≡ self.old.text.items
            ++ df_line (standing_of self.old).names (standing_of self.old).of_object name day found.now asked.now.mark asked.now.runs) }
        ensures err { OnErr result (self.new.text.items ≡ self.old.text.items) }
        ensures same { self.new.session ≡ self.old.session }
    {
        let namer = self.session.namer();
        df_line(alloc, name, day, found, asked, &namer, &mut self.text)
    }

    // The node of a curve at a place, and how many there are. Nothing is computed.
    pub(crate) fn node(
        &self,
        name: &[u8],
        at: usize,
        day: &mut u32,
        units: &mut i64,
        count: &mut usize,
    ) -> u32
        ensures there { result ≡ DONE → IsNode name.now at day.new units.new count.new self.now }
        ensures past { result ≡ RANGE → IsPast name.now at count.new self.now }
        ensures none { result ≡ UNPRICED → HasNone name.now self.now }
        ensures money { result ≡ NOT_CURVE → HasMoney name.now self.now }
        ensures refused { result ≡ REFUSED → IsErr (find Priced (standing_of self.now) (number_of name.now self.now)) }
        ensures no_name { result ≡ NO_NAME ↔ (has_text (standing_of self.now).names name.now ≡ false) }
        ensures quiet { (result ≡ DONE) ⊎ ((day.new ≡ day.old) × (units.new ≡ units.old)) }
        ensures uncounted { ((result ≡ DONE) ⊎ (result ≡ RANGE)) ⊎ (count.new ≡ count.old) }
        ensures ends { (result ≡ DONE) ⊎ ((result ≡ RANGE) ⊎ ((result ≡ UNPRICED) ⊎ ((result ≡ NOT_CURVE) ⊎ ((result ≡ REFUSED) ⊎ (result ≡ NO_NAME))))) }
    {
        let Some(name) = self.session.name(name) else {
            return NO_NAME;
        };
        if self.session.priced(name).is_err() {
            return REFUSED;
        }
        match self.session.value(name) {
            None => UNPRICED,
            Some(Value::Money(_)) => NOT_CURVE,
            Some(Value::Curve(curve)) => {
                *count = count_of(curve);
                match node_of(curve, at) {
                    Some(node) => {
                        *day = day_code(node.day);
                        *units = node.factor.units();
                        DONE
                    }
                    None => RANGE,
                }
            }
        }
    }
}

// Whether an object of this kind is a curve.
fn is_curve(kind: Option<Kind>) -> bool
    ensures { result ≡ takes_found curve kind }
{
    match kind {
        Some(kind) => kind.serves(Wanted::CurveTarget),
        None => false,
    }
}

// The discount factor at a day of what an ask of an object shows.
#[tactic(auto, unfolding(session_model::specs::Pricing::discount_in))]
fn discount_in(
    object: ObjId,
    day: Day,
    asked: &Asked,
    last: Option<&Value>,
) -> Result<Discount, Cause>
    requires given { (outcome : Outcome) × Shows asked.now.cause (option_copied last) outcome }
    ensures { (outcome : Outcome) → Shows asked.now.cause (option_copied last.entry) outcome
        → result ≡ discount_in object day outcome }
{
    match (&asked.cause, last) {
        (Some(cause), _) => Err(*cause),
        (None, Some(Value::Curve(curve))) => discount_of(object, curve, day),
        (None, Some(Value::Money(_))) => Err(Cause::Unpriced(object)),
        (None, None) => unreachable!(),
    }
}

// Writes a discount factor.
fn lay_factor(factor: Discount, units: &mut i64)
    ensures { units.new ≡ factor }
{
    *units = factor.units();
}

// How many nodes a curve has, its beginning included.
fn count_of(curve: &CurveValue) -> usize
    ensures { result ≡ length (points curve.now) }
{
    curve.nodes().len() + 1
}

// The node at a place; its beginning is at 0.
fn node_of(curve: &CurveValue, at: usize) -> Option<CurveNode>
    ensures { result ≡ slice_get (points curve.now) at }
{
    if at == 0 {
        return Some(CurveNode {
            day: curve.reference(),
            factor: Discount(ONE),
        });
    }
    curve.nodes().get(at - 1).copied()
}
