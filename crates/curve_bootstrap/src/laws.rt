// Laws of the definitions, each the clause of a function that does nothing.
ghost use Rattle.curve_bootstrap.specs.Examples.{AreWorked};
ghost use Rattle.curve_bootstrap.specs.Laws.{NodesAreLeast, ExcessRises, TrialIsTheDiscount, FixedCurvesStay};

/// A law: at a node's factor, which is from 1 to 4 * 10^12 units, its helper is worth at least 1, and at each lower factor less.
pub fn nodes_are_least_law()
    ensures { NodesAreLeast }
{}

/// A law: the value of a helper rises strictly with the factor at its end, if its coupons do not outweigh the payment there.
pub fn excess_rises_law()
    ensures { ExcessRises }
{}

/// A law: the factor of a day for which a node is tried is the discount factor of the curve so far with that node added.
pub fn trial_law()
    ensures { TrialIsTheDiscount }
{}

/// A law: a curve with its own reference day is the same on each evaluation date.
pub fn fixed_curves_stay_law()
    ensures { FixedCurvesStay }
{}

// The definitions give results that were worked out by hand.
fn curves_are_worked_through()
    ensures { AreWorked }
{}
