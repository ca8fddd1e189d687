// Lines that are written out by hand.
ghost use Rattle.bump_ladder.specs.ReportRows.{AreWorked};

// The definitions give the lines that a hand writes.
fn lines_are_worked_through()
    ensures { AreWorked }
{}
