// Rows that are worked through by hand.
ghost use Rattle.tool_front.specs.Rows.{AreHelped, AreNoted, AreRead};

// What words ask for.
fn words_are_read()
    ensures { AreRead }
{}

// The lines of a command that is not done.
fn lines_are_noted()
    ensures { AreNoted }
{}

// How a command is used.
fn a_command_is_helped()
    ensures { AreHelped }
{}
