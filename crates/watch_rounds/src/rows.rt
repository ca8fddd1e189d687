// The definitions checked against rounds that were worked through by hand, and picks by other arithmetic.
ghost use Rattle.watch_rounds.specs.Rows.{ArePicks, AreDueByCreation, AreEightRuns};

/// The first, the last, and the generator from three seeds.
pub fn picks_are_worked_through()
    ensures { ArePicks }
{}

/// Who is due, and in which order.
pub fn due_watchers_are_worked_through()
    ensures { AreDueByCreation }
{}

/// Eight runs of a name, and the notices after them.
pub fn eight_runs_are_worked_through()
    ensures { AreEightRuns }
{}
