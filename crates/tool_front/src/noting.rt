// The lines on standard error of a command that is not done.
ghost use Rattle.std.specs.Prelude.{◌≡◌, ◌++◌, map, Some, IfOk, OnOk};
ghost use Rattle.std.specs.String.{string_bytes};
ghost use Rattle.tool_frame.specs.Tool.{sink_turn};
ghost use Rattle.tool_front.specs.Command.{Ends};
ghost use Rattle.tool_front.specs.Note.{Notes, advice, fault_line, fault_tail, note_text, said_line};
ghost use Rattle.tool_front.specs.Table.{row_in};

use crate::help::push_usage;
use crate::paths::{paths_of, push_paths};
use crate::{Command, FrontStatus, Row};
use desk_edge::{Sink, write_whole};
use std::alloc::{AllocError, Global};
use tool_frame::Ending;

// Notes the lines of a run of a command on these words, and returns how the program ends.
pub(crate) fn ended<S: Ending, N: Sink>(
    alloc: Global,
    command: Command,
    words: &[String],
    status: S,
    notes: &mut N,
) -> FrontStatus
    ensures { Ends command (map string_bytes words.now) (S.code status) (S.line status) result
        (sink_turn N.bytes N.faults notes.old notes.new) }
{
    match note_of(alloc, command, words, status) {
        Ok(lines) => {
            note(notes, &lines);
            FrontStatus::Ended(status.code())
        }
        Err(_) => FrontStatus::NoMemory,
    }
}

// Notes lines. Where they cannot be written, the exit status tells all the same.
pub(crate) fn note<N: Sink>(notes: &mut N, lines: &[u8])
    ensures { Notes lines.now (N.bytes notes.old) (N.bytes notes.new) (N.faults notes.old) (N.faults notes.new) }
{
    let _ = write_whole(notes, lines);
}

// The lines of a run of a command on these words.
fn note_of<S: Ending>(
    alloc: Global,
    command: Command,
    words: &[String],
    status: S,
) -> Result<Vec<u8>, AllocError>
    ensures { IfOk result (λ lines. lines.items ≡ note_text command (map string_bytes words.now) (S.code status) (S.line status)) }
{
    match status.words() {
        Some(said) => {
            let said = format!(in alloc; "{said}")?;
            said_note(alloc, command, words, status.code(), said.as_bytes())
        }
        None => Ok(Vec::new(alloc)),
    }
}

// The same where it has a line.
fn said_note(
    alloc: Global,
    command: Command,
    words: &[String],
    code: u8,
    said: &[u8],
) -> Result<Vec<u8>, AllocError>
    ensures { IfOk result (λ lines. lines.items ≡ note_text command (map string_bytes words.now) code (Some said.now)) }
{
    let mut lines = Vec::new(alloc);
    push_said(&command.row(), said, &mut lines)?;
    push_advice(command, words, code, &mut lines)?;
    Ok(lines)
}

// The line of a command.
fn push_said(row: &Row, said: &[u8], out: &mut Vec<u8>) -> Result<(), AllocError>
    ensures { OnOk result (out.new.items ≡ out.old.items ++ said_line (row_in row.now) said.now) }
{
    out.extend_from_slice(b"doqs ")?;
    out.extend_from_slice(row.name.as_bytes())?;
    out.extend_from_slice(b": ")?;
    out.extend_from_slice(said)?;
    out.extend_from_slice(b"\n")
}

// What helps at an exit status: how the command is used, or where a fault is.
fn push_advice(
    command: Command,
    words: &[String],
    code: u8,
    out: &mut Vec<u8>,
) -> Result<(), AllocError>
    ensures { OnOk result (out.new.items ≡ out.old.items ++ advice command (map string_bytes words.now) code) }
{
    if code == 2 {
        return push_usage(&command.row(), out);
    }
    if code == 3 || code == 4 {
        return push_fault(command, words, out);
    }
    Ok(())
}

// Where to look for the place of a fault.
fn push_fault(command: Command, words: &[String], out: &mut Vec<u8>) -> Result<(), AllocError>
    ensures { OnOk result (out.new.items ≡ out.old.items ++ fault_line command (map string_bytes words.now)) }
{
    out.extend_from_slice(b"desk_fault")?;
    push_paths(paths_of(command), false, words, out)?;
    out.extend_from_slice(fault_tail())
}

#[tactic(auto, unfolding(crate::specs::Note::fault_tail))]
fn fault_tail() -> &'static [u8]
    ensures { result.now ≡ fault_tail }
{
    b" says in which line, and what would be taken\n"
}
