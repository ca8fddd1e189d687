// Grids that are worked through by hand.
ghost use Rattle.tool_script.specs.GridRows.{IsWorked, AreRefused, AreRenumbered};

// A stock under moves of its quote.
fn a_stock_is_worked_through()
    ensures { IsWorked }
{}

// Moves and asks that are refused.
fn refusals_are_worked_through()
    ensures { AreRefused }
{}

// The same scenarios by other numbers of names.
fn names_have_other_numbers()
    ensures { AreRenumbered }
{}
