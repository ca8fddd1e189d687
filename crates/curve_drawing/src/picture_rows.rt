// Texts that are written out by hand.
ghost use Rattle.curve_drawing.specs.PictureRows.{AreWorked, AreDrawn, AreTheConstants};

// The definitions give the scale and the rows that a hand works out.
fn a_curve_is_worked_through()
    ensures { AreWorked }
{}

// The definitions give the pieces of a picture that a hand writes.
fn pieces_are_drawn()
    ensures { AreDrawn }
{}

// What the definitions cite of the code is what is stated.
fn constants_are_the_stated()
    ensures { AreTheConstants }
{}
