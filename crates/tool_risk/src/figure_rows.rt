// The definitions on small markets: each gives what a hand works out.
ghost use Rattle.tool_risk.specs.FigureRows.{IsBent, IsMissing, IsHalved};

// A stock that is worth the square of its quote.
fn a_bent_price_is_worked_through()
    ensures { IsBent }
{}

// Sides without a price, and a quote without a value.
fn missing_sides_are_worked_through()
    ensures { IsMissing }
{}

// Halves of differences, and a sum of them.
fn halves_are_worked_through()
    ensures { IsHalved }
{}
