// Rows that are worked through by hand.
ghost use Rattle.tool_live.specs.Rows.{AreTaken, AreNotTaken};

// Words that are taken.
fn words_are_taken()
    ensures { AreTaken }
{}

// Words that are not.
fn other_words_are_not()
    ensures { AreNotTaken }
{}
