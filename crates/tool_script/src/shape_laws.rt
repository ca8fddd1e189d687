// What is proved of the definitions.
ghost use Rattle.tool_script.specs.ShapeLaws.{ShapesAreTaken};

/// A script in which everything fits has blocks of moves alone, and asks outside of them, at most 1,000 of each.
pub fn a_shape_says_what_it_takes()
    ensures { ShapesAreTaken }
{}
