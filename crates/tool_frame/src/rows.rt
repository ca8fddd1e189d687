// Rows that are worked through by hand.
ghost use Rattle.tool_frame.specs.Rows.{AreTold, AreTaken};

// Each status has its code and its words.
fn statuses_are_worked_through()
    ensures { AreTold }
{}

// The words that are taken, and some that are not.
fn words_are_worked_through()
    ensures { AreTaken }
{}
