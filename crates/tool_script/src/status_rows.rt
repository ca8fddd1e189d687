// The exit codes and the lines on standard error, written by hand.
ghost use Rattle.tool_script.specs.StatusRows.{AreStated};

// Each status has the code and the line that are stated.
fn statuses_are_stated()
    ensures { AreStated }
{}
