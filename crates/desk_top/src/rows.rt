// The lines of checks and of loads, written by hand.
ghost use Rattle.desk_top.specs.Rows.{AreWritten, AreSummedUp};

// The definition gives the lines that a hand writes.
fn checks_are_reported()
    ensures { AreWritten }
{}

// The definitions give the lines of loads that a hand writes.
fn loads_are_summed_up()
    ensures { AreSummedUp }
{}
