// Laws of the definitions, each the clause of a function with nothing to do.
ghost use Rattle.rate_indexes.specs.Laws.{StoredWins, LaterIsForecast, NoFixingIsExact, CausesAreOfFixings, CausesName};
ghost use Rattle.rate_indexes.specs.Examples.{AreWorked};

/// Law: a rate that is stored for today or an earlier day is the answer there, whatever the curve.
pub fn stored_fixing_law()
    ensures { StoredWins }
{}

/// Law: of a later day no stored rate plays a part.
pub fn later_fixing_law()
    ensures { LaterIsForecast }
{}

/// Law: where a curve is given, there is no fixing exactly of a day before today without a stored rate.
pub fn no_fixing_law()
    ensures { NoFixingIsExact }
{}

/// Law: where a curve is given, the causes are those of [`crate::fixing`], and each names the index or the curve's owner.
pub fn causes_law()
    ensures kinds { CausesAreOfFixings }
    ensures names { CausesName }
{}

// The definitions give what a hand works out.
fn rates_are_worked_through()
    ensures { AreWorked }
{}
