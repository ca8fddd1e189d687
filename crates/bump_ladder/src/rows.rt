// Rows that are worked through by hand.
ghost use Rattle.bump_ladder.specs.Rows.{IsWorked};

// The definitions give the lines that a hand writes.
fn a_small_market_is_worked_through()
    ensures { IsWorked }
{}
