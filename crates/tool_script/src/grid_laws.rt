// What is proved of the definitions, for every bench and every market.
ghost use Rattle.tool_script.specs.GridLaws.{OtherNamesChangeNothing, NumbersChangeNothing, PartsMakeTheGrid, ScenariosStandAlone, ScenariosAreAfresh, WorstIsLeast};

/// The lines of a scenario, its computations and the values that it shows are those of its own block and of the asks,
/// whatever other blocks a script has.
pub fn scenarios_stand_alone()
    ensures { ScenariosStandAlone }
{}

/// The lines of a scenario, its computations and the values that it shows are the same whatever names two scripts have
/// behind those of which the scenario and the asks speak.
pub fn other_names_change_no_scenario()
    ensures { OtherNamesChangeNothing }
{}

/// The text of scenarios, their computations and their worst values are the same however two scripts number the names of which
/// the scenarios and the asks speak, whatever else stands in them.
pub fn numbers_of_names_change_no_scenario()
    ensures { NumbersChangeNothing }
{}

/// A grid that is cut in parts, each a script of its own, which numbers its names its own way, is the grid: its text is that of the
/// parts one after the other, and of each ask the worst is the least of the parts', of equal ones the first.
pub fn a_grid_is_that_of_its_parts()
    ensures { PartsMakeTheGrid }
{}

/// Each ask of a scenario is answered by the price afresh from the market after the moves.
pub fn scenarios_are_priced_afresh()
    ensures { ScenariosAreAfresh }
{}

/// The worst value is one that is shown, none that is shown is less, and each before it is more.
pub fn a_worst_value_is_the_least()
    ensures { WorstIsLeast }
{}
