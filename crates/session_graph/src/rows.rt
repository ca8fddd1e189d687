// A session that is drawn by hand.
ghost use Rattle.session_graph.specs.Rows.{IsDrawn};

// The definitions give the nodes and edges that a hand writes.
fn a_session_is_drawn()
    ensures { IsDrawn }
{}
