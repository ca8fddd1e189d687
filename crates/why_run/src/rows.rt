// Rows that are worked through by hand.
ghost use Rattle.why_run.specs.Rows.{AreTaken};

// The words that are taken, and some that are not.
fn words_are_worked_through()
    ensures { AreTaken }
{}
