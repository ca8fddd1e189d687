// The commands of the program.
ghost use Rattle.std.specs.Prelude.{◌≡◌};
ghost use Rattle.tool_front.specs.Table.{command_of};

/// A command: the first word says which.
#[derive(Clone, Copy, PartialEq, Eq)]
pub enum Command {
    Run,
    Check,
    Load,
    Live,
    Why,
    Explain,
    Grid,
    Bump,
    Risk,
    Curve,
    Graph,
    Yield,
    Measure,
}

/// All the commands, in the order in which the program lists them.
pub const COMMANDS: [Command; 13] = [
    Command::Run,
    Command::Check,
    Command::Load,
    Command::Live,
    Command::Why,
    Command::Explain,
    Command::Grid,
    Command::Bump,
    Command::Risk,
    Command::Curve,
    Command::Graph,
    Command::Yield,
    Command::Measure,
];

impl Command {
    /// The command with this name.
    #[tactic(auto, unfolding(crate::specs::Table::command_of))]
    pub fn of_word(word: &str) -> Option<Command>
        ensures { result ≡ command_of word.now }
    {
        COMMANDS
            .iter()
            .copied()
            .find(|command| command.row().name == word)
    }
}
