// Instruments of flows within the limits of terms.
ghost use Rattle.std.specs.Prelude.{◌≡◌, IfOk};
ghost use Rattle.desk_terms.specs.Reading.{AreInRange};
ghost use Rattle.market_tables.specs.Given.{Says};
ghost use Rattle.market_instruments.specs.Appended.{AreWithin};
ghost use Rattle.market_instruments.specs.Limits.{limit_kind, instrument_of};

use desk_names::ObjId;
use desk_terms::{FlowTermList, Terms};
use instrument_terms::{LimitFault, flows_terms};
use market_tables::{MarketKind, TableFault};

/// A fault of terms as the fault of a market.
pub fn limit_fault(fault: LimitFault) -> MarketKind
    ensures { result ≡ limit_kind fault }
{
    match fault {
        LimitFault::Weight(_) => MarketKind::Number,
        LimitFault::Repeated(_) => MarketKind::Parts,
        LimitFault::NoFlow | LimitFault::TooManyFlows => MarketKind::Flows,
    }
}

// An instrument of flows with its index and its engine, or `Flows`.
pub(crate) fn instrument_of(
    flows: FlowTermList,
    index: Option<ObjId>,
    engine: Option<ObjId>,
) -> Result<Terms, TableFault>
    requires { AreWithin index flows }
    ensures terms { Says (λ terms. terms) result (instrument_of flows index engine) }
    ensures range { IfOk result AreInRange }
{
    match flows_terms(flows, index, engine) {
        Ok(terms) => Ok(terms),
        Err(fault) => Err(TableFault::Kind(limit_fault(fault))),
    }
}
