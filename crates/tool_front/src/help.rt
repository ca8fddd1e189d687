// The texts that are made of the table.
ghost use Rattle.std.specs.Prelude.{◌≡◌, ◌++◌, OnOk, drop, codes};
ghost use Rattle.tool_front.specs.Help.{about_text, build, example_head, gap, help_text, line_text, lines_text, list_text, row_help, row_line, unknown_text, usage_line, version, version_text};
ghost use Rattle.tool_front.specs.Table.{row_in};

use crate::{BUILD, COMMANDS, Command, Row, VERSION};
use std::alloc::AllocError;

// Spaces up to the column of what a command does.
const GAP: &[u8] = b"         ";

// The list of commands.
pub(crate) fn push_list(out: &mut Vec<u8>) -> Result<(), AllocError>
    ensures { OnOk result (out.new.items ≡ out.old.items ++ list_text) }
{
    out.extend_from_slice(b"usage: doqs COMMAND ARGUMENTS\n\ncommands:\n")?;
    push_lines(&COMMANDS, out)?;
    out.extend_from_slice(
        b"  help     Shows this list, or how one command is used.\n\ndoqs help COMMAND shows its arguments and an example. doqs --version shows the version.\n",
    )
}

// These commands, a line each.
fn push_lines(commands: &[Command], out: &mut Vec<u8>) -> Result<(), AllocError>
    ensures { OnOk result (out.new.items ≡ out.old.items ++ lines_text commands.now) }
{
    match commands {
        [] => Ok(()),
        [command, rest @ ..] => {
            push_line(&command.row(), out)?;
            push_lines(rest, out)
        }
    }
}

// A command in the list.
fn push_line(row: &Row, out: &mut Vec<u8>) -> Result<(), AllocError>
    ensures { OnOk result (out.new.items ≡ out.old.items ++ row_line (row_in row.now)) }
{
    out.extend_from_slice(b"  ")?;
    out.extend_from_slice(row.name.as_bytes())?;
    out.extend_from_slice(gap(row.name.len()))?;
    out.extend_from_slice(row.summary.as_bytes())?;
    out.extend_from_slice(b"\n")
}

fn gap(length: usize) -> &'static [u8]
    ensures { result.now ≡ drop length (codes "         ") }
{
    GAP.get(length..).unwrap_or(b"")
}

// How a command is used, in one line.
pub(crate) fn push_usage(row: &Row, out: &mut Vec<u8>) -> Result<(), AllocError>
    ensures { OnOk result (out.new.items ≡ out.old.items ++ usage_line (row_in row.now)) }
{
    out.extend_from_slice(b"usage: doqs ")?;
    out.extend_from_slice(row.name.as_bytes())?;
    out.extend_from_slice(b" ")?;
    out.extend_from_slice(row.arguments.as_bytes())?;
    out.extend_from_slice(b"\n")
}

// How a command is used, what it does, and a call of it.
pub(crate) fn push_help(command: Command, out: &mut Vec<u8>) -> Result<(), AllocError>
    ensures { OnOk result (out.new.items ≡ out.old.items ++ help_text command) }
{
    push_row_help(&command.row(), out)
}

fn push_row_help(row: &Row, out: &mut Vec<u8>) -> Result<(), AllocError>
    ensures { OnOk result (out.new.items ≡ out.old.items ++ row_help (row_in row.now)) }
{
    push_usage(row, out)?;
    push_about(row, out)
}

// What a command does, and a call of it.
fn push_about(row: &Row, out: &mut Vec<u8>) -> Result<(), AllocError>
    ensures { OnOk result (out.new.items ≡ out.old.items ++ about_text (row_in row.now)) }
{
    out.extend_from_slice(b"\n")?;
    out.extend_from_slice(row.about.as_bytes())?;
    out.extend_from_slice(example_head())?;
    out.extend_from_slice(row.example.as_bytes())?;
    out.extend_from_slice(b"\n")
}

#[tactic(auto, unfolding(crate::specs::Help::example_head))]
fn example_head() -> &'static [u8]
    ensures { result.now ≡ example_head }
{
    b"\n\nexample: "
}

// The version, and what the program was built by.
pub(crate) fn push_version(out: &mut Vec<u8>) -> Result<(), AllocError>
    ensures { OnOk result (out.new.items ≡ out.old.items ++ version_text) }
{
    out.extend_from_slice(b"doqs ")?;
    out.extend_from_slice(version())?;
    out.extend_from_slice(b"\n")?;
    out.extend_from_slice(build())?;
    out.extend_from_slice(b"\n")
}

fn version() -> &'static [u8]
    ensures { result.now ≡ version }
{
    VERSION.as_bytes()
}

fn build() -> &'static [u8]
    ensures { result.now ≡ build }
{
    BUILD.as_bytes()
}

// What is said of a word that is no command.
pub(crate) fn push_unknown(word: &str, out: &mut Vec<u8>) -> Result<(), AllocError>
    ensures { OnOk result (out.new.items ≡ out.old.items ++ unknown_text word.now) }
{
    out.extend_from_slice(b"doqs: no command ")?;
    out.extend_from_slice(word.as_bytes())?;
    out.extend_from_slice(b"\n")?;
    push_list(out)
}
