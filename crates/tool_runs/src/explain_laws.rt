// What is proved of the definitions, for every bench and every market.
ghost use Rattle.tool_runs.specs.ExplainLaws.{GainsAddUp, StepsAreAfresh, FrontsStandAlone, FrontsLeaveNumbers};

/// The gains of an ask add up to its total, without a remainder, whatever steps show for it; and where it has no total nothing
/// is told of it.
pub fn gains_add_up()
    ensures { GainsAddUp }
{}

/// Each ask of a step is answered by the price afresh from the market of that moment, and a step shows what a session of its
/// own would show behind all moves so far, in which nothing was asked before.
pub fn steps_are_priced_afresh()
    ensures { StepsAreAfresh }
{}

/// The lines, the values and the computations of a front of the steps are those of its own blocks and of the asks, whatever
/// blocks come behind it, and however two scripts number the names of which the front and the asks speak.
pub fn fronts_stand_alone()
    ensures alone { FrontsStandAlone }
    ensures numbers { FrontsLeaveNumbers }
{}
