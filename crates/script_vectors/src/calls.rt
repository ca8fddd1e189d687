// Runs with a call that fails, or with files that are not there.
ghost use Rattle.std.specs.Prelude.{◌≤◌};

use crate::cases::{Rows, compare_rows};
use crate::{files_of, push_word};
use desk_bench::DeskBench;
use desk_edge::{CallList, MemoryShelf, MemorySink};
use desk_top::{Status, run};
use std::alloc::{AllocError, Global};
use std::io;

// A script, and the lines that a whole run of it writes.
#[derive(Clone, Copy)]
pub(crate) struct Play {
    script: &'static [u8],
    lines: &'static [u8],
}

// A stock that is asked for twice: the second answer computes nothing.
const STOCK: Play = Play {
    script: b"quote q 1.5\nstock s q\nask s\nask s\n",
    lines: b"s 1.500000 fresh 1\ns 1.500000 fresh 0\n",
};

// A composite of two stocks, asked for again once one of its quotes moved.
const COMPOSITE: Play = Play {
    script: b"quote a 1.5\nquote b 0.5\nstock s a\nstock t b\ncomposite k\nmember k s 2\nmember k t -1\n\
        ask k\nset a 2\nask k\n",
    lines: b"k 2.500000 fresh 3\nk 3.500000 fresh 2\n",
};

// Two watchers of one quote, of which one moves it: the second round has ten lines.
const WATCHED: Play = Play {
    script: b"quote q 1\nstock s q\nstock t q\naction a\nask s\nset q 7\nset q 8\nend\naction b\nask t\nend\n\
        watch v a\nwatch w b\nregister v q\nregister w q\nask s\nset q 2\nask t\n",
    lines: b"s 1.000000 fresh 1\ns 2.000000 fresh 1\ns 8.000000 fresh 1\ns 8.000000 fresh 1\n\
        s 8.000000 fresh 1\ns 8.000000 fresh 1\ns 8.000000 fresh 1\ns 8.000000 fresh 1\n\
        s 8.000000 fresh 1\nover v\nt 8.000000 fresh 1\nt 8.000000 fresh 0\n",
};

// Compares the rows of each script and prints how many agree.
pub(crate) fn compare(rt: &HostRuntime) -> io::Result<()> {
    compare_rows(rt, Rows::Calls(STOCK), "calls")?;
    compare_rows(rt, Rows::Calls(COMPOSITE), "composite_calls")?;
    compare_rows(rt, Rows::Calls(WATCHED), "watched_calls")
}

/// Whether a row agrees: before the arrow what is given, behind it what is seen.
pub(crate) fn agrees(alloc: Global, play: Play, row: &str) -> Result<bool, AllocError> {
    let Some((given, wanted)) = row.split_once(" -> ") else {
        return Ok(false);
    };
    match seen(alloc, play, given)? {
        Some(text) => Ok(text.as_str() == wanted),
        None => Ok(false),
    }
}

// What is seen of a run of the words: the shelf's calls, faults and misses, the sink's calls and faults, how many bytes
// were written, the exit status, and the line of the status. Given are, before the words, the most bytes of a read and
// which call of the shelf fails, the room of the sink, the most bytes of a put and which fails, 0 for none.
fn seen(alloc: Global, play: Play, given: &str) -> Result<Option<String>, AllocError> {
    let parts: Vec<&str> = given.split(' ').collect(alloc)?;
    match parts.as_slice() {
        [read_most, read_fails, room, put_most, put_fails, words @ ..] => {
            let reads = Limits {
                most: number(read_most),
                call: number(read_fails),
            };
            let puts = Limits {
                most: number(put_most),
                call: number(put_fails),
            };
            played(
                alloc,
                play,
                &texts(alloc, words)?,
                reads,
                number(room),
                puts,
            )
        }
        _ => Ok(None),
    }
}

// How many bytes a call takes at most, and the number of the call that fails, 0 for none.
#[derive(Clone, Copy)]
struct Limits {
    most: usize,
    call: usize,
}

// What is seen of a run over this shelf and this sink; none where a call takes nothing, or other bytes were written.
fn played(
    alloc: Global,
    play: Play,
    words: &[String],
    reads: Limits,
    room: usize,
    puts: Limits,
) -> Result<Option<String>, AllocError> {
    if reads.most == 0 || puts.most == 0 {
        return Ok(None);
    }
    let mut shelf = shelf(alloc, play.script, reads)?;
    let mut out = MemorySink::new(alloc, room, puts.most, failing(alloc, puts.call)?)?;
    told(alloc, play, words, &mut shelf, &mut out)
}

// A shelf of the market `m` and this script `s`.
fn shelf(alloc: Global, script: &[u8], reads: Limits) -> Result<MemoryShelf, AllocError>
    requires { 1 ≤ reads.most }
{
    let calls = failing(alloc, reads.call)?;
    Ok(MemoryShelf::new(files_of(alloc, script)?, reads.most, calls))
}

// What is seen of a run over a shelf and a sink; none where other bytes were written.
fn told(
    alloc: Global,
    play: Play,
    words: &[String],
    shelf: &mut MemoryShelf,
    out: &mut MemorySink,
) -> Result<Option<String>, AllocError> {
    let status = run(alloc, words, shelf, out, &mut DeskBench::new());
    if play.lines.starts_with(out.bytes()) {
        Ok(Some(counts(alloc, shelf, out, status)?))
    } else {
        Ok(None)
    }
}

// The counts of shelf and sink, the exit status, and its line, or `done`.
fn counts(
    alloc: Global,
    shelf: &MemoryShelf,
    out: &MemorySink,
    status: Status,
) -> Result<String, AllocError> {
    let (taken, refused, missed) = (shelf.calls(), shelf.faults(), shelf.misses());
    let (put, failed, written) = (out.calls(), out.faults(), out.bytes().len());
    let code = status.code();
    if status == Status::Done {
        return format!(in alloc; "{taken} {refused} {missed} {put} {failed} {written} {code} done");
    }
    format!(in alloc; "{taken} {refused} {missed} {put} {failed} {written} {code} {status}")
}

// Words as texts of their own.
fn texts(alloc: Global, words: &[&str]) -> Result<Vec<String>, AllocError> {
    let mut texts = Vec::new(alloc);
    for word in words {
        push_word(alloc, word, &mut texts)?;
    }
    Ok(texts)
}

// A number, and 0 where there is none.
fn number(text: &str) -> usize {
    text.parse().unwrap_or(0)
}

// The call that fails, where one does.
fn failing(alloc: Global, call: usize) -> Result<CallList, AllocError> {
    let mut calls = CallList::new(alloc);
    if call > 0 {
        calls.push(call as u64)?;
    }
    Ok(calls)
}
