// Rates that are worked out by hand.
ghost use Rattle.curve_drawing.specs.LineRows.{AreWorked};

// The definitions give the days and the rates that a hand works out.
fn rates_are_worked_through()
    ensures { AreWorked }
{}
