// Laws of the definitions, each the clause of a function with nothing to do.
ghost use Rattle.discount_engines.specs.Laws.{FirstCauseDecides, WorthIsOfBoth};
ghost use Rattle.discount_engines.specs.Examples.{AreWorked};

/// Law: of flows that are each worth something in front, the next one's cause is the answer, whatever stands behind.
pub fn first_cause_law()
    ensures { FirstCauseDecides }
{}

/// Law: what flows and others behind them are worth is the sum of both.
pub fn worth_of_both_law()
    ensures { WorthIsOfBoth }
{}

// The definitions give what a hand works out.
fn prices_are_worked_through()
    ensures { AreWorked }
{}
