// Spreads that are worked out by hand.
ghost use Rattle.bond_spread.specs.Rows.{AreWorked};

// The definitions give what a hand works out.
fn spreads_are_worked_through()
    ensures { AreWorked }
{}
