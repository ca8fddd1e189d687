// The call of the program.
ghost use Rattle.std.specs.Prelude.{◌≡◌, ℕ, List, map, IfOk, IfSome};
ghost use Rattle.std.specs.String.{string_bytes};
ghost use Rattle.tool_frame.specs.Tool.{shelf_turn, sink_turn, bench_turn};
ghost use Rattle.tool_front.specs.Command.{Commands};
ghost use Rattle.tool_front.specs.Front.{front_of};
ghost use Rattle.tool_front.specs.Help.{help_text, list_text, unknown_text, version_text};
ghost use Rattle.tool_front.specs.Run.{Shown, Refused, refused_text, shown_text};

use crate::carrying::carry_out;
use crate::front::{Front, front_of};
use crate::help::{push_help, push_list, push_unknown, push_version};
use crate::noting::note;
use crate::{Command, FrontStatus};
use desk_edge::{Feed, Shelf, Sink, write_whole};
use desk_terms::Bench;
use std::alloc::{AllocError, Global};

/// Does what the words ask for: a command over the words after it, or a text of help. The words are those after the program's
/// name. The prices are those of the bench.
///
/// A command's bytes on `out` and its exit status are those of its run. The line of a run that is not done goes to `notes`, with
/// what helps after it: at exit status 2 how the command is used, at 3 and 4 where to look for the fault. No words, and a first
/// word that is no command, end with 2 and the list of commands on `notes`.
pub fn run_doqs<H: Shelf, F: Feed, K: Sink, N: Sink, B: Bench>(
    alloc: Global,
    words: &[String],
    shelf: &mut H,
    feed: &mut F,
    out: &mut K,
    notes: &mut N,
    bench: &mut B,
) -> FrontStatus
    // Help and version are written to `out`, and nothing else is done.
    ensures shown { IfSome (shown_text (front_of (map string_bytes words.now))) (λ text.
        Shown text (K.bytes out.old) (K.bytes out.new) (K.faults out.old) (K.faults out.new) result
        × (notes.new ≡ notes.old) × (shelf.new ≡ shelf.old) × (feed.new ≡ feed.old) × (bench.new ≡ bench.old)) }
    // Words that name no command are told so on `notes`, and nothing else is done.
    ensures refused { IfSome (refused_text (front_of (map string_bytes words.now))) (λ text.
        Refused text (N.bytes notes.old) (N.bytes notes.new) (N.faults notes.old) (N.faults notes.new) result
        × (out.new ≡ out.old) × (shelf.new ≡ shelf.old) × (feed.new ≡ feed.old) × (bench.new ≡ bench.old)) }
    // A command does what its run does on the words after it, and its lines are noted.
    ensures commanded { Commands (map string_bytes words.now) result (record {
      shelf = shelf_turn H.contents H.faults H.misses H.calls shelf.old shelf.new;
      input = F.content feed.old;
      sink = sink_turn K.bytes K.faults out.old out.new;
      notes = sink_turn N.bytes N.faults notes.old notes.new;
      bench = bench_turn B.calc B.count B.log bench.old bench.new;
    }) (front_of (map string_bytes words.now)) }
{
    match front_of(words) {
        Front::Run(command, rest) => carry_out(
            alloc, command, rest, words, shelf, feed, out, notes, bench,
        ),
        Front::List => shown(list_text(alloc), out),
        Front::Version => shown(version_text(alloc), out),
        Front::Help(command) => shown(help_text(alloc, command), out),
        Front::Nothing => refused(list_text(alloc), notes),
        Front::Unknown(word) => refused(unknown_text(alloc, word), notes),
    }
}

// Writes a text that is asked for.
fn shown<K: Sink>(text: Result<Vec<u8>, AllocError>, out: &mut K) -> FrontStatus
    ensures { (asked : List ℕ) → IfOk text (λ bytes. bytes.items ≡ asked)
        → Shown asked (K.bytes out.old) (K.bytes out.new) (K.faults out.old) (K.faults out.new) result }
{
    match text {
        Ok(text) => match write_whole(out, &text) {
            Ok(()) => FrontStatus::Ended(0),
            Err(_) => FrontStatus::WriteFault,
        },
        Err(_) => FrontStatus::NoMemory,
    }
}

// Notes a text that says why nothing is done.
fn refused<N: Sink>(text: Result<Vec<u8>, AllocError>, notes: &mut N) -> FrontStatus
    ensures { (asked : List ℕ) → IfOk text (λ bytes. bytes.items ≡ asked)
        → Refused asked (N.bytes notes.old) (N.bytes notes.new) (N.faults notes.old) (N.faults notes.new) result }
{
    match text {
        Ok(text) => {
            note(notes, &text);
            FrontStatus::Ended(2)
        }
        Err(_) => FrontStatus::NoMemory,
    }
}

fn list_text(alloc: Global) -> Result<Vec<u8>, AllocError>
    ensures { IfOk result (λ text. text.items ≡ list_text) }
{
    let mut text = Vec::new(alloc);
    push_list(&mut text)?;
    Ok(text)
}

fn version_text(alloc: Global) -> Result<Vec<u8>, AllocError>
    ensures { IfOk result (λ text. text.items ≡ version_text) }
{
    let mut text = Vec::new(alloc);
    push_version(&mut text)?;
    Ok(text)
}

fn help_text(alloc: Global, command: Command) -> Result<Vec<u8>, AllocError>
    ensures { IfOk result (λ text. text.items ≡ help_text command) }
{
    let mut text = Vec::new(alloc);
    push_help(command, &mut text)?;
    Ok(text)
}

fn unknown_text(alloc: Global, word: &str) -> Result<Vec<u8>, AllocError>
    ensures { IfOk result (λ text. text.items ≡ unknown_text word.now) }
{
    let mut text = Vec::new(alloc);
    push_unknown(word, &mut text)?;
    Ok(text)
}
