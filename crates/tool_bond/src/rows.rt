// Rows that are worked through by hand.
ghost use Rattle.tool_bond.specs.Rows.{IsWorked, AreTaken};

// The definitions give the lines that a hand writes.
fn a_small_market_is_worked_through()
    ensures { IsWorked }
{}

// The words that are taken, and some that are not.
fn words_are_worked_through()
    ensures { AreTaken }
{}
