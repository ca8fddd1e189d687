// Laws of the definitions, each the clause of a function with nothing to do.
ghost use Rattle.bond_yield.specs.Laws.{NoFactorGrows, PriceNeverGrows, YieldIsOne, IsAboveBelow, AreTheLimits};
ghost use Rattle.bond_yield.specs.Rows.{AreWorked};

/// Law: where the yield grows, no factor grows, and so the full price does not.
pub fn price_falls_law()
    ensures factors { NoFactorGrows }
    ensures price { PriceNeverGrows }
{}

/// Law: a price has at most one yield, and one unit below it the full price is above the one asked.
pub fn least_yield_law()
    ensures one { YieldIsOne }
    ensures below { IsAboveBelow }
{}

// The limits are the stated ones.
fn limits_are_stated()
    ensures { AreTheLimits }
{}

// The definitions give what a hand works out.
fn yields_are_worked_through()
    ensures { AreWorked }
{}
