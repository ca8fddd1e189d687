// Which commands a scenario takes.
ghost use Rattle.std.specs.Prelude.{◌≡◌};
ghost use Rattle.tool_script.specs.Kinds.{is_move, asked_name};

use desk_names::NameId;
use session_commands::Command;

/// Whether a command is a move of a scenario: `set`, `unset`, `link`, `unlink`, `engine`, `today`, `member` or `fixing`
/// (this project's profile).
pub fn is_move(command: &Command) -> bool
    ensures { result ≡ is_move command.now }
{
    match command {
        Command::Set(..)
        | Command::Unset(_)
        | Command::Link(..)
        | Command::Unlink(_)
        | Command::Engine(..)
        | Command::Today(_)
        | Command::Member(..)
        | Command::Fixing(..) => true,
        Command::Quote(..)
        | Command::Sum(..)
        | Command::Difference(..)
        | Command::Handle(..)
        | Command::Stock(..)
        | Command::Composite(_)
        | Command::Freeze(_)
        | Command::Thaw(_)
        | Command::Recalc(_)
        | Command::Forward(..)
        | Command::Defer
        | Command::Resume
        | Command::Watch(..)
        | Command::Register(..)
        | Command::Unregister(..)
        | Command::Drop(_)
        | Command::Ask(_)
        | Command::Df(..) => false,
    }
}

/// The name that an `ask` asks for; none of any other command.
pub fn asked_name(command: &Command) -> Option<NameId>
    ensures { result ≡ asked_name command.now }
{
    match command {
        Command::Ask(name) => Some(*name),
        Command::Quote(..)
        | Command::Sum(..)
        | Command::Difference(..)
        | Command::Handle(..)
        | Command::Stock(..)
        | Command::Composite(_)
        | Command::Member(..)
        | Command::Set(..)
        | Command::Unset(_)
        | Command::Link(..)
        | Command::Unlink(_)
        | Command::Engine(..)
        | Command::Today(_)
        | Command::Fixing(..)
        | Command::Freeze(_)
        | Command::Thaw(_)
        | Command::Recalc(_)
        | Command::Forward(..)
        | Command::Defer
        | Command::Resume
        | Command::Watch(..)
        | Command::Register(..)
        | Command::Unregister(..)
        | Command::Drop(_)
        | Command::Df(..) => None,
    }
}
