// Rows that are worked through by hand.
ghost use Rattle.curve_run.specs.Rows.{IsWorked, AreTold, AreTaken};

// The definitions give the text that a hand writes.
fn a_small_market_is_worked_through()
    ensures { IsWorked }
{}

// Each status has its code and its words.
fn statuses_are_worked_through()
    ensures { AreTold }
{}

// The words that are taken, and some that are not.
fn words_are_worked_through()
    ensures { AreTaken }
{}
