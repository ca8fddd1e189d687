// Which commands are quiet.
ghost use Rattle.std.specs.Prelude.{◌≡◌};
ghost use Rattle.session_model.specs.Quiet.{is_quiet};

use session_commands::Command;

/// Whether a command is quiet: it changes what is there, computes and makes nothing, and writes a line only where it is
/// refused.
pub fn is_quiet(command: &Command) -> bool
    ensures { result ≡ is_quiet command.now }
{
    match command {
        Command::Set(_, _)
        | Command::Unset(_)
        | Command::Link(_, _)
        | Command::Unlink(_)
        | Command::Engine(_, _)
        | Command::Today(_)
        | Command::Freeze(_)
        | Command::Thaw(_)
        | Command::Forward(_, _)
        | Command::Defer
        | Command::Resume
        | Command::Unregister(_, _)
        | Command::Drop(_) => true,
        Command::Quote(_, _)
        | Command::Sum(_, _, _)
        | Command::Difference(_, _, _)
        | Command::Handle(_, _)
        | Command::Stock(_, _)
        | Command::Composite(_)
        | Command::Member(_, _, _)
        | Command::Fixing(_, _, _)
        | Command::Recalc(_)
        | Command::Watch(_, _)
        | Command::Register(_, _)
        | Command::Ask(_)
        | Command::Df(_, _) => false,
    }
}
