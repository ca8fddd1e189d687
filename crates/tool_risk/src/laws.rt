// What is proved of the definitions, for every bench and every market.
ghost use Rattle.tool_risk.specs.Laws.{DeltasAreOfPrices, GammasAreOfPrices, SumsAreOfPrices};

/// The figures of a ladder's rung are those of the prices afresh: the base that its gains are counted from plays no part in
/// a delta, and stands twice in a gamma.
pub fn figures_are_of_prices()
    ensures delta { DeltasAreOfPrices }
    ensures gamma { GammasAreOfPrices }
    ensures sum { SumsAreOfPrices }
{}
