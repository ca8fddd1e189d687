// What is proved of live sessions, for every bench.
ghost use Rattle.desk_terms.specs.Reading.{Calc};
ghost use Rattle.live_model.specs.Laws.{CommandsAreRounds, FaultsChangeNothing, LongLinesAreFaults};
ghost use Rattle.live_model.specs.Log.{LogsAreScripts};

use watch_rounds::Picker;

/// A command outside of a block is its round, in the session that knows the names of its line. A line that has a fault
/// is told and changes nothing, and a line that is too long has one.
pub fn a_line_is_a_round_or_a_fault<P: Picker>()
    ensures round { CommandsAreRounds P }
    ensures fault { FaultsChangeNothing P }
    ensures long { LongLinesAreFaults }
{}

/// A log is a script: where a text, and this text with the input behind it, are scripts over a market's names, what a
/// session writes and computes for the one and then for the lines of the other is what the script of both writes and
/// computes.
pub fn a_log_is_a_script<P: Picker>()
    ensures { (calc : Calc) → LogsAreScripts (record { calc = calc; at = P.at; after = P.after }) }
{}
