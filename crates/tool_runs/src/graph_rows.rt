// Rows that are worked through by hand.
ghost use Rattle.tool_runs.specs.GraphRows.{AreTaken};

// The words that are taken, and some that are not.
fn words_are_worked_through()
    ensures { AreTaken }
{}
