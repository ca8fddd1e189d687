// Forward rate agreements.
ghost use Rattle.std.specs.Prelude.{◌≡◌, Option, Some, [], IfOk};
ghost use Rattle.desk_terms.specs.Reading.{AreInRange};
ghost use Rattle.market_tables.specs.Given.{Gives};
ghost use Rattle.market_tables.specs.Refusals.{Refuses};
ghost use Rattle.market_fields.specs.Earlier.{seen};
ghost use Rattle.market_instruments.specs.Appended.{StayWithin};
ghost use Rattle.market_instruments.specs.Forwards.{settlement_of, forward_of};

use crate::appended::push_settlement;
use crate::limits::instrument_of;
use desk_names::ObjId;
use desk_terms::{FlowTermList, Terms};
use market_fields::{
    Earlier, Field, needed_day, needed_notional, needed_object, needed_rate, needed_sign, object_at,
};
use market_tables::TableFault;
use std::alloc::Global;

// Appends the settlement on an index, negative where the agreement is short; refused whatever the memory.
fn push_agreed(
    earlier: Earlier<'_>,
    fields: &[Option<Field>],
    index: ObjId,
    out: &mut FlowTermList,
) -> Result<(), TableFault>
    ensures flows { Gives (λ _. out.new) result (settlement_of (seen earlier.entry) fields.now index out.old) }
    ensures told { Refuses result (settlement_of (seen earlier.entry) fields.now index out.old) }
    ensures range { StayWithin (Some index) out.old out.new }
{
    let notional = needed_notional(fields, 1)?;
    let sign = needed_sign(fields, 2)?;
    let start = needed_day(fields, 4)?;
    let strike = needed_rate(fields, 5)?;
    let terms = earlier.index_terms(index)?;
    push_settlement(terms, start, notional.signed(sign), strike.rate(), out)
}

/// A forward rate agreement (QuantLib's `ForwardRateAgreement`): its settlement. `Range` where a day of it leaves the
/// range.
pub fn forward_agreement(
    alloc: Global,
    earlier: Earlier<'_>,
    fields: &[Option<Field>],
) -> Result<Terms, TableFault>
    ensures terms { Gives (λ terms. terms) result (forward_of (seen earlier.entry) fields.now) }
    ensures range { IfOk result AreInRange }
{
    let index = needed_object(fields, 3)?;
    let engine = object_at(fields, 6)?;
    let mut flows = FlowTermList::new(alloc);
    push_agreed(earlier, fields, index, &mut flows)?;
    instrument_of(flows, Some(index), engine)
}
