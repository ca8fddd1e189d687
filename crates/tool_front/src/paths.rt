// The paths among the words of a command.
ghost use Rattle.std.specs.Prelude.{◌≡◌, ◌++◌, map, OnOk};
ghost use Rattle.std.specs.String.{string_bytes};
ghost use Rattle.tool_front.specs.Note.{path_words, paths_of};

use crate::Command;
use std::alloc::AllocError;
use tool_frame::is_word;

// The most paths that the reader of faults takes of a command's words: a market, and a script where the command reads one.
pub(crate) fn paths_of(command: Command) -> u8
    ensures { result ≡ paths_of command }
{
    match command {
        Command::Run
        | Command::Live
        | Command::Why
        | Command::Explain
        | Command::Grid
        | Command::Graph => 2,
        Command::Check
        | Command::Bump
        | Command::Risk
        | Command::Curve
        | Command::Yield
        | Command::Measure => 1,
        Command::Load => 0,
    }
}

// The first words that are no option and no order of one, a space before each: so many at most.
pub(crate) fn push_paths(
    most: u8,
    waits: bool,
    words: &[String],
    out: &mut Vec<u8>,
) -> Result<(), AllocError>
    ensures { OnOk result (out.new.items ≡ out.old.items ++ path_words most waits (map string_bytes words.now)) }
{
    match words {
        [] => Ok(()),
        [_, rest @ ..] if waits => push_paths(most, false, rest, out),
        [word, rest @ ..] => {
            if most == 0 {
                return Ok(());
            }
            if word.as_str() == "--order" {
                return push_paths(most, true, rest, out);
            }
            if !is_word(word) {
                return push_paths(most, false, rest, out);
            }
            out.extend_from_slice(b" ")?;
            out.extend_from_slice(word.as_bytes())?;
            push_paths(most - 1, false, rest, out)
        }
    }
}
