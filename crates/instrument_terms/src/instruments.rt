// The terms of stocks and of instruments by their flows.
ghost use Rattle.std.specs.Prelude.{◌≡◌};
ghost use Rattle.desk_terms.specs.declared.terms.Terms.TheVariants.{Stock};
ghost use Rattle.instrument_terms.specs.Flows.{flows_or_fault};

use crate::LimitFault;
use desk_names::ObjId;
use desk_terms::{FlowTermList, FlowTerms, Terms};
use flow_terms::MOST_FLOWS;

/// A stock on a quote, or on what stands for one (QuantLib's `Stock`).
pub fn stock(quote: ObjId) -> Terms
    ensures { result ≡ Stock quote }
{
    Terms::Stock { quote }
}

/// An instrument by its flows, with the index that some of them are on and its engine, if it has one (QuantLib's
/// `Instrument`). `NoFlow` exactly where it has no flow, `TooManyFlows` exactly where it has more than 1,602. It
/// takes no memory.
pub fn flows_terms(
    flows: FlowTermList,
    index: Option<ObjId>,
    engine: Option<ObjId>,
) -> Result<Terms, LimitFault>
    ensures { result ≡ flows_or_fault flows index engine }
{
    let count = flows.len();
    if count == 0 {
        return Err(LimitFault::NoFlow);
    }
    if count > MOST_FLOWS {
        return Err(LimitFault::TooManyFlows);
    }
    Ok(Terms::Flows(FlowTerms { flows, index }, engine))
}
