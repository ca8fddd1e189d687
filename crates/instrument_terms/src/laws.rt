// Laws of the definitions, each the clause of a function with nothing to do.
ghost use Rattle.instrument_terms.specs.Laws.{FaultIsTheFirst, FaultlessPartsAreWithin, PartsWithinAreInRange};
ghost use Rattle.instrument_terms.specs.Examples.{AreWorked};

/// Law: the fault of parts is that of the first part that has one, by the parts before it; and parts have none exactly
/// where each weight is within its limit and no member stands twice, which is where each is in range.
pub fn composite_law()
    ensures first { FaultIsTheFirst }
    ensures none { FaultlessPartsAreWithin }
    ensures range { PartsWithinAreInRange }
{}

// The definitions give what a hand works out.
fn limits_are_worked_through()
    ensures { AreWorked }
{}
