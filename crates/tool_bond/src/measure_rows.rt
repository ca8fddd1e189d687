// Rows that are worked through by hand.
ghost use Rattle.tool_bond.specs.MeasureRows.{AreWritten, AreSpread};

// The definitions give the lines that a hand writes.
fn measures_are_written()
    ensures { AreWritten }
{}

// The same of spreads over the curves of a small market.
fn spreads_are_written()
    ensures { AreSpread }
{}
