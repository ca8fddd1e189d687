// Texts that are written out by hand, and what has not to be escaped.
ghost use Rattle.graph_dot.specs.Rows.{AreDrawn};
ghost use Rattle.graph_dot.specs.Plain.{NamesArePlain};

// The definitions give the nodes and arrows that a hand writes.
fn pieces_are_drawn()
    ensures { AreDrawn }
{}

// No name has a byte that would have to be escaped within quotes.
fn names_are_plain()
    ensures { NamesArePlain }
{}
