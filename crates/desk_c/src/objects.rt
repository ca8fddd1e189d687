// What stands at a number of a session that is kept.
ghost use Rattle.std.specs.Prelude.{◌≡◌, ◌⊎◌, ◌↔◌, Some, None};
ghost use Rattle.desk_model.specs.Market.{kind_at, terms_at};
ghost use Rattle.desk_model.specs.Changeable.{changeable};
ghost use Rattle.desk_c.specs.Calls.{standing_of};
ghost use Rattle.desk_c.specs.Objects.{IsObject, IsTold, quote_in};
ghost use Rattle.desk_c.specs.declared.status.TheConstants.{DONE, REFUSED};

use crate::kept::Kept;
use crate::numbers::kind_number;
use crate::status::{DONE, REFUSED};
use crate::texts::lay;
use desk_names::ObjId;
use desk_terms::Kind;
use lazy_objects::Desk;

impl Kept {
    // The live object that has a number: its kind, its name, and the value of a quote.
    pub(crate) fn object(
        &self,
        number: u32,
        name: &mut [u8],
        size: &mut usize,
        kind: &mut u32,
        is_set: &mut u32,
        units: &mut i64,
    ) -> u32
        ensures there { result ≡ DONE → IsObject number (standing_of self.now) name.old name.new size.new kind.new is_set.new units.new }
        ensures none { result ≡ REFUSED ↔ (kind_at (standing_of self.now).state.market number ≡ None) }
        ensures quiet { (result ≡ DONE) ⊎ ((name.new ≡ name.old) × (size.new ≡ size.old) × (kind.new ≡ kind.old)
            × (is_set.new ≡ is_set.old) × (units.new ≡ units.old)) }
        ensures ends { (result ≡ DONE) ⊎ (result ≡ REFUSED) }
    {
        let object = ObjId(number);
        let Some(known) = self.session.kind(object) else {
            return REFUSED;
        };
        let text = self.session.namer().object(object);
        lay(text, name);
        *size = text.len();
        *kind = kind_number(known);
        let value = quote_of(self.session.desk(), object, known);
        *is_set = value.0;
        *units = value.1;
        DONE
    }
}

// Whether an object of this kind is a quote that has a value, and the value.
fn quote_of(desk: &Desk, object: ObjId, kind: Kind) -> (u32, i64)
    requires { kind_at desk.now.market object ≡ Some kind }
    ensures { IsTold (quote_in (changeable (terms_at desk.now.market object))) result.0 result.1 }
{
    match kind {
        Kind::Quote => match desk.quote(object) {
            Some(rate) => (1, rate.units()),
            None => (0, 0),
        },
        Kind::Today
        | Kind::Derived
        | Kind::QuoteHandle
        | Kind::CurveHandle
        | Kind::Index
        | Kind::Engine
        | Kind::Curve
        | Kind::Implied
        | Kind::Stock
        | Kind::Composite
        | Kind::Flows
        | Kind::Watcher => (0, 0),
    }
}
