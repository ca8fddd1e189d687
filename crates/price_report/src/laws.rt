// Laws of the definitions, each the clause of a function with nothing to do.
ghost use Rattle.price_report.specs.Examples.{AreWorked};

// The definitions give the lines that a hand writes.
fn lines_are_worked_through()
    ensures { AreWorked }
{}
