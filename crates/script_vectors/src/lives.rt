// Live sessions: runs `doqs live` over whole cases, the input of each in pieces of several sizes, and compares the bytes with those that
// an independent model writes. Given are a line that says what is tried, the words, the files, and the input behind a line `-- lines`.
//
// In the input `\*` stands for repeated lines, as in the other whole cases, and `\=`, a number, a space, a byte's number and a `;` for
// that byte so often.
use crate::cases::{Cases, compare};
use crate::tools;
use crate::wholes::{number, parted, push_repeated, shelf_of, words_of};
use desk_edge::{CallList, MemoryFeed, SizeList};
use std::alloc::{AllocError, Global};
use std::io;

// The most bytes of a piece of the input; 0 stands for sizes that differ, up to 63.
const SIZES: [usize; 5] = [1, 2, 7, 4096, 0];

// `live_by_hand` has faults of each kind, lines at the limit and one byte longer, ends of lines, blocks that stand open, actions that are
// begun twice, names and sessions that are full, and watchers that are dropped and made again; `live_sessions` is made at random, with
// scripts, orders and told lines, and `live_markets` the same over a market of every kind.
pub(crate) fn compare_lives(rt: &HostRuntime) -> io::Result<()> {
    compare(rt, Cases::Live, "live_by_hand")?;
    compare(rt, Cases::Live, "live_sessions")?;
    compare(rt, Cases::Live, "live_markets")
}

/// Whether the run that a case asks for shows the text behind its line `-- shown`, whatever the sizes of the pieces.
pub(crate) fn agrees(alloc: Global, case: &str) -> Result<bool, AllocError> {
    let (given, text) = parted(case, "-- shown\n");
    let (files, lines) = parted(given, "-- lines\n");
    let input = input_of(alloc, lines)?;
    for size in &SIZES {
        if shown(alloc, files, &input, *size)?.as_slice() != text.as_bytes() {
            return Ok(false);
        }
    }
    Ok(true)
}

// What a terminal shows of a run over this input, in pieces of this size.
fn shown(alloc: Global, files: &str, input: &[u8], size: usize) -> Result<Vec<u8>, AllocError> {
    let sizes = sizes_of(alloc, input.len(), size)?;
    let mut feed = MemoryFeed::new(input.to_vec(alloc)?, sizes, CallList::new(alloc));
    let mut shelf = shelf_of(alloc, files)?;
    let words = words_of(alloc, files)?;
    tools::shown(alloc, "live", &words, &mut shelf, &mut feed)
}

// As many sizes as the pieces of an input of this length may need.
fn sizes_of(alloc: Global, length: usize, size: usize) -> Result<SizeList, AllocError> {
    let mut sizes = SizeList::new(alloc);
    let mut seed = 7u32;
    for _ in 0..length / size.max(1) {
        seed = seed.wrapping_mul(1_664_525).wrapping_add(1_013_904_223);
        let other = (seed >> 26) as usize;
        sizes.push(if size == 0 { other } else { size })?;
    }
    Ok(sizes)
}

// The bytes of an input.
fn input_of(alloc: Global, text: &str) -> Result<Vec<u8>, AllocError> {
    let mut input = Vec::new(alloc);
    let (front, marks) = parted(text, "\\");
    input.extend_from_slice(front.as_bytes())?;
    for mark in marks.split("\\") {
        push_marked(alloc, mark, &mut input)?;
    }
    Ok(input)
}

// Appends what a mark stands for, and the text behind it.
fn push_marked(alloc: Global, mark: &str, out: &mut Vec<u8>) -> Result<(), AllocError> {
    if let Some(lines) = mark.strip_prefix("*") {
        let (line, behind) = parted(lines, "\n");
        push_repeated(alloc, line, out)?;
        out.extend_from_slice(behind.as_bytes())
    } else if let Some(bytes) = mark.strip_prefix("=") {
        let (numbers, behind) = parted(bytes, ";");
        let (count, byte) = parted(numbers, " ");
        push_same(number(count), byte.parse().unwrap_or(0), out)?;
        out.extend_from_slice(behind.as_bytes())
    } else {
        out.extend_from_slice(mark.as_bytes())
    }
}

// Appends a byte so often.
fn push_same(count: usize, byte: u8, out: &mut Vec<u8>) -> Result<(), AllocError> {
    for _ in 0..count {
        out.push(byte)?;
    }
    Ok(())
}
