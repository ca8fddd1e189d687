// Laws of the definitions, each the clause of a function with nothing to do.
ghost use Rattle.curve_points.specs.Laws.{SegmentGivesTheFactor, NodeDayGivesItsFactor, FactorLiesBetween, SeenFromItsStartIsTheCurve};

/// Law: the discount factor at a day after one node of a curve and not after the next, its beginning counted as a node,
/// is the one between these two; whatever segment holds the day.
pub fn segment_law()
    ensures { SegmentGivesTheFactor }
{}

/// Law: a node's own day gives the node's factor.
pub fn node_day_law()
    ensures { NodeDayGivesItsFactor }
{}

/// Law: between two nodes the discount factor lies between theirs.
pub fn between_nodes_law()
    ensures { FactorLiesBetween }
{}

/// Law: a curve seen from its own reference day is the curve with another owner.
pub fn implied_there_law()
    ensures { SeenFromItsStartIsTheCurve }
{}
