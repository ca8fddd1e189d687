// Laws of the definitions, each the clause of a function that does nothing.
ghost use Rattle.cash_flow_legs.specs.Days.{NoLagIsAdjusted};
ghost use Rattle.cash_flow_legs.specs.Examples.{AreWorked};

// Without a lag a payment is on the adjusted day.
fn no_lag_is_adjusted()
    ensures { NoLagIsAdjusted }
{}

// The definitions give results that were worked out by hand.
fn flows_are_worked_through()
    ensures { AreWorked }
{}
