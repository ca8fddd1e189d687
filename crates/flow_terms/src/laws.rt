// Laws of the definitions, each the clause of a function with nothing to do.
ghost use Rattle.flow_terms.specs.Laws.{OneDayChanges, EachIsTheAnswer, AreTheLimits};

/// Law: a rate that is stored is the answer on its day, and no other day's answer changes.
pub fn added_fixing_law()
    ensures { OneDayChanges }
{}

/// Law: of stored rates in the order of days each is the answer on its day, and there is no other answer.
pub fn stored_once_law()
    ensures { EachIsTheAnswer }
{}

// The limits of terms are the stated ones.
fn limits_are_stated()
    ensures { AreTheLimits }
{}
