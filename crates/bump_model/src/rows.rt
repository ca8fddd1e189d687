// The definitions on small sessions: each gives what a hand works out.
ghost use Rattle.bump_model.specs.Rows.{IsTwoQuotes, IsBeside, IsAtLimit, IsRefusedAbove, IsTogether, IsWithout, IsBare};

// A stock on one of two quotes, the other without a value.
fn a_stock_is_worked_through()
    ensures { IsTwoQuotes }
{}

// A stock that is not above the quote that moves.
fn a_stock_beside_is_worked_through()
    ensures { IsBeside }
{}

// A quote at the limit of rates.
fn a_limit_is_worked_through()
    ensures { IsAtLimit }
{}

// A side that is refused where the other is not.
fn a_refused_side_is_worked_through()
    ensures { IsRefusedAbove }
{}

// Two quotes that move together, and back.
fn quotes_together_are_worked_through()
    ensures { IsTogether }
{}

// An instrument without an engine.
fn a_refused_base_is_worked_through()
    ensures { IsWithout }
{}

// A stock with no quote to move.
fn an_empty_ladder_is_worked_through()
    ensures { IsBare }
{}
