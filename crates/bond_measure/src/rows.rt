// Measures that are worked out by hand.
ghost use Rattle.bond_measure.specs.Rows.{AreWorked};

// The definitions give what a hand works out.
fn measures_are_worked_through()
    ensures { AreWorked }
{}
