// Market files, most of them faulty, with what an independent reading of the format answers of them.
mod case_text;
mod described;
mod described_terms;

use anyhow::Result;
use case_text::decoded;
use described::{push_market, push_paths};
use desk_names::Names;
use market_file::{market_paths, read_market};
use row_markets::Tally;
use std::alloc::{AllocError, Global};
use std::{fs, io};

// The files of cases, what their cases are called, and what they are called in version 2 where they are read in it too: the
// markets that have no key of it. There is a file for each section of a market, one of files that are too long, and one of
// the versions.
const FILES: [(&str, &str, Option<&str>); 9] = [
    ("market_files/top", "top", None),
    ("market_files/lengths", "lengths", None),
    (
        "market_files/calendars",
        "calendars",
        Some("calendars in version 2"),
    ),
    ("market_files/quotes", "quotes", Some("quotes in version 2")),
    (
        "market_files/objects",
        "objects",
        Some("objects in version 2"),
    ),
    ("market_files/curves", "curves", Some("curves in version 2")),
    (
        "market_files/instruments",
        "instruments",
        Some("instruments in version 2"),
    ),
    (
        "market_files/fixings",
        "fixings",
        Some("fixings in version 2"),
    ),
    ("market_files/versions", "versions", None),
];

/// Prints each case that differs and what was answered of it, and how many agree of each file.
pub(crate) fn compare(rt: &HostRuntime) -> Result<()> {
    for (file, kind, later) in FILES {
        let text = fs::read_to_string(rt, file)?;
        compare_cases(rt, &text, kind, false)?;
        if let Some(kind) = later {
            compare_cases(rt, &text, kind, true)?;
        }
    }
    compare_cuts(rt)?;
    Ok(())
}

// Compares the cases of a text, in version 2 if that is asked for, and prints how many agree. A line `==` stands between two
// cases. A case has a line that says what it shows, and then, each behind a line `--`, the quotes, the fixings and what is
// answered.
fn compare_cases(rt: &HostRuntime, text: &str, kind: &'static str, later: bool) -> io::Result<()> {
    let mut cases = Tally::new(kind);
    for case in text.split("==\n") {
        let (title, case) = parted(case, "\n");
        let (market, case) = parted(case, "--\n");
        let (quotes, case) = parted(case, "--\n");
        let (fixings, answer) = parted(case, "--\n");
        let market = market_of(rt.alloc(), market, later)?;
        let said = said_of(rt.alloc(), &market, quotes, fixings)?;
        count(rt, &mut cases, title, &said, answer)?;
    }
    cases.tell(rt)
}

// Counts a case, and prints what it shows and what was said where that is not the answer.
fn count(
    rt: &impl Print,
    cases: &mut Tally,
    title: &str,
    said: &[u8],
    answer: &str,
) -> io::Result<()> {
    let agrees = said == answer.as_bytes();
    cases.count(rt, title, agrees)?;
    if !agrees {
        let said = std::str::from_utf8(said).unwrap_or("no text");
        println!(rt; "this differs: {said}")?;
    }
    Ok(())
}

// The bytes of a case's market.
fn market_of(alloc: Global, market: &str, later: bool) -> Result<Vec<u8>, AllocError> {
    let market = in_version(alloc, market, later)?;
    decoded(alloc, &market)
}

// What is answered of a market, with the tables that a case gives.
fn said_of(
    alloc: Global,
    market: &[u8],
    quotes: &str,
    fixings: &str,
) -> Result<Vec<u8>, AllocError> {
    let quotes = decoded(alloc, quotes)?;
    let fixings = decoded(alloc, fixings)?;
    answered(alloc, market, &quotes, &fixings)
}

// A market of version 1 as it is, or as one of version 2.
fn in_version(alloc: Global, market: &str, later: bool) -> Result<String, AllocError> {
    let (before, behind) = parted(market, "version = 1\n");
    if later {
        return format!(in alloc; "{before}version = 2\n{behind}");
    }
    String::from_str(alloc, market)
}

// The text before a mark and the text behind it, which is empty where the mark is not there.
fn parted<'a>(text: &'a str, mark: &str) -> (&'a str, &'a str) {
    match text.split_once(mark) {
        Some(parts) => parts,
        None => (text, ""),
    }
}

// The paths that a market names, and the market, each as a text.
fn answered(
    alloc: Global,
    market: &[u8],
    quotes: &[u8],
    fixings: &[u8],
) -> Result<Vec<u8>, AllocError> {
    let mut out = Vec::new(alloc);
    push_paths_of(alloc, market, &mut out)?;
    push_read(alloc, market, quotes, fixings, &mut out)?;
    Ok(out)
}

// Appends the paths that a market names, or why there are none.
fn push_paths_of(alloc: Global, market: &[u8], out: &mut Vec<u8>) -> Result<(), AllocError> {
    match market_paths(alloc, market) {
        Ok(paths) => push_paths(alloc, &paths, out),
        Err(fault) => out.extend_from_slice(format!(in alloc; "paths {fault}\n")?.as_bytes()),
    }
}

// Appends the market, or why there is none.
fn push_read(
    alloc: Global,
    market: &[u8],
    quotes: &[u8],
    fixings: &[u8],
    out: &mut Vec<u8>,
) -> Result<(), AllocError> {
    let mut names = Names::new(alloc);
    match read_market(alloc, market, quotes, fixings, &mut names) {
        Ok(market) => push_market(alloc, &names, &market, out),
        Err(fault) => out.extend_from_slice(format!(in alloc; "{fault}\n")?.as_bytes()),
    }
}

// Compares what is answered of a market that is cut after each of its bytes, and prints how many cuts agree: the first
// line of the answers is that of no bytes, the last that of the whole market.
fn compare_cuts(rt: &HostRuntime) -> io::Result<()> {
    let market = fs::read_to_string(rt, "market_files/whole")?;
    let answers = fs::read_to_string(rt, "market_files/cuts")?;
    let mut cuts = Tally::new("cuts");
    for (length, answer) in answers.lines().enumerate() {
        let title = format!(in rt.alloc(); "cut after {length}")?;
        let said = answered_briefly(rt.alloc(), front(&market, length))?;
        count(rt, &mut cuts, title.as_str(), said.as_bytes(), answer)?;
    }
    cuts.tell(rt)
}

// The first bytes of a text, or all where it has fewer.
fn front(text: &str, length: usize) -> &[u8] {
    let bytes = text.as_bytes();
    &bytes[..length.min(bytes.len())]
}

// The number of a market's objects, or its fault, with one quote.
fn answered_briefly(alloc: Global, market: &[u8]) -> Result<String, AllocError> {
    let mut names = Names::new(alloc);
    match read_market(alloc, market, b"name,value\nr,0.036\n", b"", &mut names) {
        Ok(market) => {
            let count = market.made.len();
            format!(in alloc; "market {count}")
        }
        Err(fault) => format!(in alloc; "{fault}"),
    }
}
