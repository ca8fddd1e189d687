// Conversations checked against the definitions.
ghost use Rattle.live_model.specs.Rows.{AreAnswered, AreFaulty, AreActions};

// Lines that are answered.
fn lines_are_answered()
    ensures { AreAnswered }
{}

// Lines that have a fault, which change nothing.
fn faults_are_told()
    ensures { AreFaulty }
{}

// Blocks that are said and run.
fn actions_are_run()
    ensures { AreActions }
{}
