// A market that is cut after each number of its bytes.
use crate::{push_file, shows, texts};
use desk_edge::{CallList, FileList, MemoryShelf};
use std::alloc::{AllocError, Global};
use std::{fs, io};

// A market, and the table of quotes that it names.
#[derive(Clone, Copy)]
struct Market<'a> {
    text: &'a str,
    quotes: &'a str,
}

// Compares what a check shows of each cut, and prints how many agree. The file has the market, its quotes, and rows of two
// numbers and a line: where so many bytes stand, from the one to the other, the line is shown.
pub(crate) fn compare(rt: &HostRuntime) -> io::Result<()> {
    let text = fs::read_to_string(rt, "cuts")?;
    let (market, behind) = text.split_once("==\n").unwrap_or(("", ""));
    let (quotes, rows) = behind.split_once("==\n").unwrap_or(("", ""));
    let market = Market {
        text: market,
        quotes,
    };
    let mut agree = 0u32;
    let mut differ = 0u32;
    for row in rows.lines() {
        let (right, wrong) = cuts_that_agree(rt.alloc(), market, row)?;
        agree = agree.saturating_add(right);
        differ = differ.saturating_add(wrong);
    }
    println!(rt; "cuts: {agree} agree, {differ} differ")
}

// How many cuts of a row agree, and how many do not.
fn cuts_that_agree(alloc: Global, market: Market<'_>, row: &str) -> Result<(u32, u32), AllocError> {
    let (first, behind) = row.split_once(' ').unwrap_or(("", ""));
    let (last, line) = behind.split_once(' ').unwrap_or(("", ""));
    let mut agree = 0u32;
    let mut differ = 0u32;
    for cut in number(first)..=number(last) {
        if agrees(alloc, market, cut, line)? {
            agree = agree.saturating_add(1);
        } else {
            differ = differ.saturating_add(1);
        }
    }
    Ok((agree, differ))
}

// Whether a check of the first bytes of the market shows the line.
fn agrees(alloc: Global, market: Market<'_>, cut: usize, line: &str) -> Result<bool, AllocError> {
    let Some(front) = market.text.as_bytes().get(..cut) else {
        return Ok(false);
    };
    let words = texts(alloc, "check m")?;
    let wanted = format!(in alloc; "{line}\n")?;
    let mut shelf = shelf(alloc, front, market.quotes)?;
    shows(alloc, &words, &mut shelf, wanted.as_bytes())
}

// A shelf of the market `m` and its quotes.
fn shelf(alloc: Global, market: &[u8], quotes: &str) -> Result<MemoryShelf, AllocError> {
    let mut files = FileList::new(alloc);
    push_file(alloc, "m", market, &mut files)?;
    push_file(alloc, "quotes.csv", quotes.as_bytes(), &mut files)?;
    Ok(MemoryShelf::new(files, 4096, CallList::new(alloc)))
}

// A whole number, and a number past all others where there is none.
fn number(text: &str) -> usize {
    text.parse().unwrap_or(usize::MAX)
}
