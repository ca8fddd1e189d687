// What is proved of whole sessions, for every bench.
ghost use Rattle.desk_terms.specs.Reading.{Calc};
ghost use Rattle.session_model.specs.Afresh.{AnswersAreOfTheirMoments, PlainSessionsAreFresh, SessionsBeginUnheld};
ghost use Rattle.session_model.specs.Ends.{EveryRoundEnds, EightRunsEach, MoreRunsChangeNothing};
ghost use Rattle.session_model.specs.Moments.{TranscriptsAreOfMoments};
ghost use Rattle.session_model.specs.Shows.{EverySessionShows};
ghost use Rattle.session_model.specs.Wider.{LaterChangesNothing};

use watch_rounds::Picker;

/// What a whole session shows, in one piece: its transcript is the lines of its moments; at each of them an object that is clear
/// is answered afresh from the market of that moment, or refused as that pricing refuses, and one that is frozen or late by its
/// last value, or that it has none; and every round ends, in which each name runs at most 8 times, and there are at most 8
/// runs for each name that the script gives to watchers.
pub fn every_session_shows<P: Picker>()
    ensures { (calc : Calc) → EverySessionShows (record { calc = calc; at = P.at; after = P.after }) }
{}

/// A transcript is the lines of its moments, which are the commands that are done, at the top and in the actions of
/// watchers. At each moment an ask of an object writes its price afresh from the market of that moment, where neither it
/// nor any object beneath it is frozen or a deferred source; and of one that is frozen or late its last value, or that it
/// has none.
pub fn each_answer_is_of_its_moment<P: Picker>()
    ensures moments { TranscriptsAreOfMoments P }
    ensures answers { AnswersAreOfTheirMoments P }
{}

/// Where no command freezes or defers, at the top or in an action, every answer of a session is the price afresh from the
/// market of its moment, and every mark is `fresh`. A session begins with nothing held back.
pub fn without_freezing_and_deferral_all_is_fresh<P: Picker>()
    ensures plain { PlainSessionsAreFresh P }
    ensures begins { SessionsBeginUnheld }
{}

/// Every round ends, of every session and whoever picks who of the due runs next: nobody is due after it. In it each name
/// runs at most 8 times, and there are at most 8 runs for each name that the script gives to watchers. As many runs as are
/// left are enough, of which each name has 8 at first, and more runs than these change nothing.
pub fn every_round_ends<P: Picker>()
    ensures ends { (calc : Calc) → EveryRoundEnds (record { calc = calc; at = P.at; after = P.after }) }
    ensures eight { EightRunsEach }
    ensures more { (calc : Calc) → MoreRunsChangeNothing (record { calc = calc; at = P.at; after = P.after }) }
{}

/// What comes later changes nothing, in every session and whoever picks who of the due runs next: of names, a market, actions
/// and commands, a session writes the same lines and makes the same computations where more names and more actions stand
/// behind its own.
pub fn what_comes_later_changes_nothing<P: Picker>()
    ensures { (calc : Calc) → LaterChangesNothing (record { calc = calc; at = P.at; after = P.after }) }
{}
