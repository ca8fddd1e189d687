// Cases that are worked through by hand.
ghost use Rattle.tool_frame.specs.Named_runRows.{AreTold};

// Each status has its code and its words.
fn statuses_are_worked_through()
    ensures { AreTold }
{}
