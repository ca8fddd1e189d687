// Explanations that are worked through by hand.
ghost use Rattle.tool_runs.specs.ExplainRows.{AreExplained, AreRefused};

// A stock under moves of its quote, one upon the other.
fn a_stock_is_explained()
    ensures { AreExplained }
{}

// Moves and asks that are refused.
fn refusals_are_worked_through()
    ensures { AreRefused }
{}
