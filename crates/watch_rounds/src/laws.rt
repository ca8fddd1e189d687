// What holds of every round.
ghost use Rattle.watch_rounds.specs.Course.{AtMostEightRuns};

/// In a round at most eight runs of a name begin, whoever is told, runs or is dropped, in whatever order.
pub fn a_name_runs_at_most_eight_times()
    ensures { AtMostEightRuns }
{}
