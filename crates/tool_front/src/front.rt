// What the words ask for.
ghost use Rattle.std.specs.Prelude.{◌≡◌, map};
ghost use Rattle.std.specs.String.{string_bytes};
ghost use Rattle.tool_front.specs.Front.{front_in, front_of, word_front, help_of, named_help, command_front, asks_help, is_help, is_version, is_help_option};

use crate::Command;

// What the words of a command line ask for.
#[derive(Clone, Copy)]
pub(crate) enum Front<'a> {
    // The list of commands.
    List,
    // The version.
    Version,
    // How a command is used.
    Help(Command),
    // Nothing: there are no words.
    Nothing,
    // A word that is no command.
    Unknown(&'a str),
    // A command over the words after it.
    Run(Command, &'a [String]),
}

// What the words ask for.
pub(crate) fn front_of(words: &[String]) -> Front<'_>
    ensures { front_in result ≡ front_of (map string_bytes words.now) }
{
    match words {
        [] => Front::Nothing,
        [word, rest @ ..] => word_front(word, rest),
    }
}

// The same of a first word and the words after it.
fn word_front<'a>(word: &'a str, rest: &'a [String]) -> Front<'a>
    ensures { front_in result ≡ word_front word.now (map string_bytes rest.now) }
{
    if is_help(word) {
        return help_of(rest);
    }
    if is_version(word) {
        return Front::Version;
    }
    match Command::of_word(word) {
        Some(command) => command_front(command, rest),
        None => Front::Unknown(word),
    }
}

// What `help` asks for with these words after it.
fn help_of(words: &[String]) -> Front<'_>
    ensures { front_in result ≡ help_of (map string_bytes words.now) }
{
    match words {
        [] => Front::List,
        [word, ..] => named_help(word),
    }
}

fn named_help(word: &str) -> Front<'_>
    ensures { front_in result ≡ named_help word.now }
{
    if is_help(word) {
        return Front::List;
    }
    match Command::of_word(word) {
        Some(command) => Front::Help(command),
        None => Front::Unknown(word),
    }
}

// What a command asks for with these words after it: help wins over all else.
fn command_front(command: Command, words: &[String]) -> Front<'_>
    ensures { front_in result ≡ command_front command (map string_bytes words.now) }
{
    if asks_help(words) {
        return Front::Help(command);
    }
    Front::Run(command, words)
}

// Whether an option for help is among the words.
fn asks_help(words: &[String]) -> bool
    ensures { result ≡ asks_help (map string_bytes words.now) }
{
    match words {
        [] => false,
        [word, rest @ ..] => is_help_option(word) || asks_help(rest),
    }
}

fn is_help(word: &str) -> bool
    ensures { result ≡ is_help word.now }
{
    word == "help" || is_help_option(word)
}

fn is_help_option(word: &str) -> bool
    ensures { result ≡ is_help_option word.now }
{
    word == "--help" || word == "-h"
}

fn is_version(word: &str) -> bool
    ensures { result ≡ is_version word.now }
{
    word == "--version" || word == "-V"
}
