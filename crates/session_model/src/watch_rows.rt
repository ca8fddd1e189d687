// The definitions of rounds checked against sessions with watchers that were worked through by hand.
ghost use Rattle.session_model.specs.WatchRows.{AreWatchersRefused, AreTold, AreRunEightTimes, AreEnded, ArePicked};

/// Each refusal of a command of watchers comes in its order.
pub fn watchers_are_refused_in_order()
    ensures { AreWatchersRefused }
{}

/// Who is told by a change, and by a resume.
pub fn notices_are_worked_through()
    ensures { AreTold }
{}

/// Eight runs of a name in a round, and what is written then.
pub fn eight_runs_are_worked_through()
    ensures { AreRunEightTimes }
{}

/// Rounds run to their end, with the names that run.
pub fn rounds_are_worked_to_their_end()
    ensures { AreEnded }
{}

/// The order of the due watchers, and watchers that are gone before they run.
pub fn picks_are_worked_through()
    ensures { ArePicked }
{}
