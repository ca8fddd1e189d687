// The table of commands.
ghost use Rattle.std.specs.Prelude.{◌≡◌};
ghost use Rattle.tool_front.specs.Table.{row_in, row_of};

use crate::Command;

/// A row of the table: what a user reads of a command.
#[derive(Clone, Copy)]
pub struct Row {
    /// Its name, the first word.
    pub name: &'static str,
    /// The arguments that follow.
    pub arguments: &'static str,
    /// What it does, in one line.
    pub summary: &'static str,
    /// What it does, in two or three lines.
    pub about: &'static str,
    /// A call of it.
    pub example: &'static str,
}

impl Command {
    /// The command's row of the table.
    #[tactic(auto, unfolding(crate::specs::Table::row_of))]
    pub fn row(self) -> Row
        ensures { row_in result ≡ row_of self }
    {
        match self {
            Command::Run => Row {
                name: "run",
                arguments: "MARKET SCRIPT [--order ORDER]",
                summary: "Runs a session script over a market and writes the transcript.",
                about: "Reads a market file and a script, does its commands in order and writes a line for\neach value that is asked for. ORDER is first, last or a seed from 0 to 18446744073709551615:\nthe order in which due watchers run.",
                example: "doqs run market.toml script.txt",
            },
            Command::Check => Row {
                name: "check",
                arguments: "MARKET",
                summary: "Checks a market file and its tables.",
                about: "Reads a market file and the tables that it names, and writes how many objects and\nfixings they hold, or where the first fault is.",
                example: "doqs check market.toml",
            },
            Command::Load => Row {
                name: "load",
                arguments: "N",
                summary: "Runs a generated session of size N and writes its summary.",
                about: "Generates a market and a script of size N, from 1 to 1000, runs them, and writes how\nmany lines and bytes the transcript has, and its last line.",
                example: "doqs load 100",
            },
            Command::Live => Row {
                name: "live",
                arguments: "MARKET [SCRIPT] [--order ORDER] [--ready]",
                summary: "Answers commands from standard input, line by line.",
                about: "Does the commands of SCRIPT, where one is named, and then each line of standard input\nas it comes. A line with a fault changes nothing. With --ready each line ends with ready N.",
                example: "doqs live market.toml < commands.txt",
            },
            Command::Why => Row {
                name: "why",
                arguments: "MARKET SCRIPT NAME",
                summary: "Shows what a value was computed from, down to the quotes.",
                about: "Runs a script and then writes the inputs, flows and curve points from which the value of\nNAME is computed, in numbers that add up.",
                example: "doqs why market.toml script.txt book",
            },
            Command::Explain => Row {
                name: "explain",
                arguments: "MARKET SCRIPT",
                summary: "Explains the gain of each step of a script.",
                about: "Runs the blocks of a script one after another in one session, and writes for each object\nthat is asked for what it gained in each step.",
                example: "doqs explain market.toml steps.txt",
            },
            Command::Grid => Row {
                name: "grid",
                arguments: "MARKET SCRIPT",
                summary: "Prices scenarios: each block of a script over the same market.",
                about: "Runs each block of a script over the market as it is read, writes the lines of its asks,\nand for each ask the scenario with the least money.",
                example: "doqs grid market.toml scenarios.txt",
            },
            Command::Bump => Row {
                name: "bump",
                arguments: "MARKET NAME",
                summary: "Shows how a price moves when each quote moves by one basis point.",
                about: "Prices NAME with each quote of the market moved up and down by one basis point, and\nthen with all of them moved together.",
                example: "doqs bump market.toml book",
            },
            Command::Risk => Row {
                name: "risk",
                arguments: "MARKET SIZE NAME..",
                summary: "Shows delta, gamma, cross gamma and theta of prices.",
                about: "Prices each NAME with its quotes and curves moved by SIZE either way, and on the next\nbusiness day.",
                example: "doqs risk market.toml 0.0001 book",
            },
            Command::Curve => Row {
                name: "curve",
                arguments: "[--csv] [--zero | --forward | --par] MARKET NAME [CURVE..]",
                summary: "Draws curves, or writes their points.",
                about: "Draws discount factors, or with an option zero, forward or par rates, as an SVG picture.\nWith --csv it writes their points as a table.",
                example: "doqs curve --zero market.toml euro > euro.svg",
            },
            Command::Graph => Row {
                name: "graph",
                arguments: "MARKET SCRIPT",
                summary: "Draws what depends on what, as Graphviz text.",
                about: "Runs a script and then writes the objects of the session, what each depends on, and\nwhich of them are current, frozen or deferred.",
                example: "doqs graph market.toml script.txt | dot -Tsvg > graph.svg",
            },
            Command::Yield => Row {
                name: "yield",
                arguments: "MARKET NAME DAY PRICE",
                summary: "Shows the yield of a bond at a clean price.",
                about: "Writes the accrued interest, the full price and the yield of the bond NAME on the\nsettlement day DAY at the clean price PRICE.",
                example: "doqs yield market.toml state 2024-01-17 990000",
            },
            Command::Measure => Row {
                name: "measure",
                arguments: "MARKET NAME DAY PRICE",
                summary: "Shows yield, duration, convexity and spread of a bond.",
                about: "Writes what yield writes, and then the gain of a basis point, duration, convexity and\nthe spread over the curve of the bond's engine.",
                example: "doqs measure market.toml state 2024-01-17 990000",
            },
        }
    }
}
