//! Runs scripts over the two-line market and over markets of every kind, and compares the bytes with those that an
//! independent model of the session writes: prints each case that differs, and how many agree.
//! Then runs one script with each call of the shelf and of the sink failing in turn, and compares how many calls were
//! made, failed and missed, how many bytes were written, and the exit status with its line. Then the tools over whole cases
//! of their own, the scripts said line by line, live sessions, what these answer by number, and scripts that are printed and read back.
#![tactic(auto)]

mod asked;
mod calls;
mod cases;
mod cuts;
mod endless;
mod lives;
mod printed;
mod spoken;
mod tools;
mod wholes;

use cases::{Cases, Rows};
use desk_bench::DeskBench;
use desk_edge::{CallList, FileList, MemoryFile, MemoryShelf, MemorySink, Shelf};
use desk_top::{Status, run};
use std::alloc::{AllocError, Global};
use std::io;
use wholes::Told;

pub(crate) const MARKET: &[u8] = b"version = 1\ntoday = \"2024-01-02\"\n";

// The most bytes that a case may write.
const ROOM: usize = 250_000;

// `scripts` has scripts of which no command is refused, `refused` those with refused commands or a fault, `faults`
// those that have a fault, `unset` those that take values away from quotes, `graphs` those of composites and derived
// quotes, and `handles` those of all commands that are built, 200 of them with links, cycles, drops of linked targets
// and names made again. `examples` has the folders of the repository's examples, `markets` and `desk` markets with
// scripts over them, `market_faults` those that have a fault, and `market_files` files that are not there or too long,
// and words. `freezing` has scripts with freezing, recalculation and notices that are held back, `deferral` those that
// relink and drop under deferral, and `frozen_markets` the same over markets. `month_ends` has markets whose curves
// start at a month's end, with spreads, ends on holidays and end conventions, that ask for every object on two days.
// `version_two` has markets of version 2, with payment lags and curves that start on days of their own, many of which are
// holidays, and scripts that move the evaluation date over them.
// `words` has lists of words, `loads` loads and words that are none, `rounds` rows of rounds, some of which write a line
// in each run, `watchers` a thousand scripts with watchers and `watched_markets` the same over markets, each of these in
// five orders, `hostile` sessions that work against themselves, `hostile_files` tables that are taken apart, and `large`
// sessions at their limits.
pub(crate) const FILES: [&str; 24] = [
    "scripts",
    "refused",
    "faults",
    "unset",
    "graphs",
    "handles",
    "examples",
    "markets",
    "desk",
    "market_faults",
    "market_files",
    "freezing",
    "deferral",
    "frozen_markets",
    "month_ends",
    "version_two",
    "words",
    "loads",
    "rounds",
    "watchers",
    "watched_markets",
    "hostile",
    "hostile_files",
    "large",
];

fn main(rt: HostRuntime) -> io::Result<()> {
    for file in FILES {
        cases::compare(&rt, Cases::Told(Told::Run), file)?;
    }
    cuts::compare(&rt)?;
    cases::compare_rows(&rt, Rows::Endless, "endless")?;
    calls::compare(&rt)?;
    tools::compare(&rt)?;
    spoken::compare(&rt)?;
    lives::compare_lives(&rt)?;
    asked::compare_answers(&rt)?;
    cases::compare(&rt, Cases::Printed, "printed")
}

/// Whether a script that is told shows the text of its case. What is given stands before a line `-- shown`, or else is
/// a script over the two-line market, and stands before `--` and a newline: so the script may lack its last newline.
pub(crate) fn agrees(
    alloc: Global,
    told: Told,
    common: &str,
    case: &str,
) -> Result<bool, AllocError> {
    if let Some((given, answers)) = case.split_once("-- shown") {
        return wholes::agree(alloc, told, common, given, answers);
    }
    match case.split_once("--\n") {
        Some((script, text)) => {
            let words = texts(alloc, "run m s")?;
            let mut shelf = shelf(alloc, script)?;
            told.shows(alloc, &words, &mut shelf, text.as_bytes())
        }
        None => Ok(false),
    }
}

// Whether a terminal shows these bytes of a run of the words.
pub(crate) fn shows<H: Shelf>(
    alloc: Global,
    words: &[String],
    shelf: &mut H,
    wanted: &[u8],
) -> Result<bool, AllocError> {
    Ok(shown(alloc, words, shelf)?.as_slice() == wanted)
}

// What a terminal shows of a run of the words: its output, and the line of a status that is not Done.
fn shown<H: Shelf>(alloc: Global, words: &[String], shelf: &mut H) -> Result<Vec<u8>, AllocError> {
    let mut out = MemorySink::new(alloc, ROOM, 4096, CallList::new(alloc))?;
    let status = run(alloc, words, shelf, &mut out, &mut DeskBench::new());
    ended(alloc, out.bytes(), status)
}

// Bytes with the line of the status behind them, if it is not Done.
fn ended(alloc: Global, bytes: &[u8], status: Status) -> Result<Vec<u8>, AllocError> {
    let mut text = bytes.to_vec(alloc)?;
    if status != Status::Done {
        text.extend_from_slice(format!(in alloc; "{status}\n")?.as_bytes())?;
    }
    Ok(text)
}

// A shelf of the market `m` and the script `s`.
pub(crate) fn shelf(alloc: Global, script: &str) -> Result<MemoryShelf, AllocError> {
    let files = files_of(alloc, script.as_bytes())?;
    Ok(MemoryShelf::new(files, 4096, CallList::new(alloc)))
}

// The two-line market `m` and the script `s`.
pub(crate) fn files_of(alloc: Global, script: &[u8]) -> Result<FileList, AllocError> {
    let mut files = FileList::new(alloc);
    push_file(alloc, "m", MARKET, &mut files)?;
    push_file(alloc, "s", script, &mut files)?;
    Ok(files)
}

pub(crate) fn push_file(
    alloc: Global,
    path: &str,
    bytes: &[u8],
    files: &mut FileList,
) -> Result<(), AllocError> {
    let path = String::from_str(alloc, path)?;
    files.push(MemoryFile::new(path, bytes.to_vec(alloc)?))?;
    Ok(())
}

// Words that one space parts.
pub(crate) fn texts(alloc: Global, line: &str) -> Result<Vec<String>, AllocError> {
    let mut words = Vec::new(alloc);
    for word in line.split(' ') {
        push_word(alloc, word, &mut words)?;
    }
    Ok(words)
}

pub(crate) fn push_word(
    alloc: Global,
    word: &str,
    words: &mut Vec<String>,
) -> Result<(), AllocError> {
    words.push(String::from_str(alloc, word)?)?;
    Ok(())
}
