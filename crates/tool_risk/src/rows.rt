// Rows that are worked through by hand.
ghost use Rattle.tool_risk.specs.Rows.{IsWorked, IsTheta, AreTaken};

// The definitions give the rows that a hand writes.
fn a_small_market_is_worked_through()
    ensures { IsWorked }
{}

// What is paid until the next business day, and a theta.
fn a_theta_is_worked_through()
    ensures { IsTheta }
{}

// The words that are taken, and some that are not.
fn words_are_worked_through()
    ensures { AreTaken }
{}
