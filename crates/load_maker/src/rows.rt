// The definitions checked against texts that were written by hand or by other arithmetic.
ghost use Rattle.load_maker.specs.Rows.{AreTexts};

/// The whole texts of the loads 1 and 2, and the quotes that the load 5 moves.
pub fn texts_are_worked_through()
    ensures { AreTexts }
{}
