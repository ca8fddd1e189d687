// Scripts that are worked through by hand.
ghost use Rattle.tool_script.specs.ShapeRows.{AreShaped};

// Each fault of a shape comes in its order.
fn shapes_are_worked_through()
    ensures { AreShaped }
{}
