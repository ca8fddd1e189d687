// Whole cases. Given are a line that says what is tried, lines of words, and each file behind a line `-- PATH`. Behind each
// line `-- shown` stands what each of these lines of words shows; numbers and names on it are orders, in each of which the
// words are run then. A case of files alone gives its files to all cases behind it, until the next one.
//
// At the end of a file `\+` and a number stand for as many newlines as make it so long. In a file and in what is shown `\*`,
// two whole numbers and a line stand for this line once for each number from the one to the other: in it `@` is the number,
// `<` the one before it, and `;` a newline.
use crate::spoken::says;
use crate::{push_word, shows, texts};
use desk_edge::{CallList, FileList, MemoryFile, MemoryShelf};
use std::alloc::{AllocError, Global};

// How a script is told: it is run, or said line by line.
#[derive(Clone, Copy)]
pub(crate) enum Told {
    Run,
    Said,
}

impl Told {
    /// Whether the words show these bytes where they are told so.
    pub(crate) fn shows(
        self,
        alloc: Global,
        words: &[String],
        shelf: &mut MemoryShelf,
        wanted: &[u8],
    ) -> Result<bool, AllocError> {
        match self {
            Told::Run => shows(alloc, words, shelf, wanted),
            Told::Said => says(alloc, words, shelf, wanted),
        }
    }
}

// What is given of a case.
#[derive(Clone, Copy)]
struct Given<'a> {
    told: Told,
    // The lines of words.
    lines: &'a str,
    // Its own files, and then those for all cases.
    own: &'a str,
    common: &'a str,
}

// Whether each run that a case asks for shows what the case says. `answers` begins behind the first `-- shown`.
pub(crate) fn agree(
    alloc: Global,
    told: Told,
    common: &str,
    given: &str,
    answers: &str,
) -> Result<bool, AllocError> {
    let (head, own) = parted(given, "\n-- ");
    let (_, lines) = parted(head, "\n");
    if lines.is_empty() {
        return Ok(false);
    }
    let given = Given {
        told,
        lines,
        own,
        common,
    };
    for answer in answers.split("-- shown") {
        let (orders, text) = parted(answer, "\n");
        if !orders_agree(alloc, given, orders, text)? {
            return Ok(false);
        }
    }
    Ok(true)
}

// Whether the words show the text in each of these orders, or as they are where no order is named.
fn orders_agree(
    alloc: Global,
    given: Given<'_>,
    orders: &str,
    text: &str,
) -> Result<bool, AllocError> {
    let mut wanted = Vec::new(alloc);
    push_expanded(alloc, text, &mut wanted)?;
    for order in orders.trim().split(' ') {
        if !lines_agree(alloc, given, order, &wanted)? {
            return Ok(false);
        }
    }
    Ok(true)
}

// Whether each line of words shows these bytes in an order, or as it is where that is empty.
fn lines_agree(
    alloc: Global,
    given: Given<'_>,
    order: &str,
    wanted: &[u8],
) -> Result<bool, AllocError> {
    for line in given.lines.lines() {
        let words = words(alloc, line, order)?;
        if !words_agree(alloc, given, &words, wanted)? {
            return Ok(false);
        }
    }
    Ok(true)
}

// Whether these words show these bytes.
fn words_agree(
    alloc: Global,
    given: Given<'_>,
    words: &[String],
    wanted: &[u8],
) -> Result<bool, AllocError> {
    let mut shelf = shelf_with(alloc, given.own, given.common)?;
    given.told.shows(alloc, words, &mut shelf, wanted)
}

// The words of a line, with an order behind them where one is named.
fn words(alloc: Global, line: &str, order: &str) -> Result<Vec<String>, AllocError> {
    let mut words = texts(alloc, line)?;
    if !order.is_empty() {
        push_word(alloc, "--order", &mut words)?;
        push_word(alloc, order, &mut words)?;
    }
    Ok(words)
}

/// The words of a case, which stand in its second line.
pub(crate) fn words_of(alloc: Global, given: &str) -> Result<Vec<String>, AllocError> {
    let (_, behind) = parted(given, "\n");
    let (line, _) = parted(behind, "\n");
    texts(alloc, line)
}

/// A shelf of the files of a case, and of no others: each stands behind a line `-- PATH`.
pub(crate) fn shelf_of(alloc: Global, given: &str) -> Result<MemoryShelf, AllocError> {
    let (_, parts) = parted(given, "-- ");
    shelf_with(alloc, parts, "")
}

// A shelf of a case's own files and those for all cases.
fn shelf_with(alloc: Global, own: &str, common: &str) -> Result<MemoryShelf, AllocError> {
    let mut files = FileList::new(alloc);
    push_files(alloc, own, &mut files)?;
    push_files(alloc, common, &mut files)?;
    Ok(MemoryShelf::new(files, 4096, CallList::new(alloc)))
}

// Appends the files of a text in which `-- ` parts them.
fn push_files(alloc: Global, parts: &str, files: &mut FileList) -> Result<(), AllocError> {
    if parts.is_empty() {
        return Ok(());
    }
    for part in parts.split("-- ") {
        let (path, text) = parted(part, "\n");
        let path = String::from_str(alloc, path)?;
        files.push(MemoryFile::new(path, expanded(alloc, text)?))?;
    }
    Ok(())
}

// The bytes of a file.
fn expanded(alloc: Global, text: &str) -> Result<Vec<u8>, AllocError> {
    let (front, length) = parted(text, "\\+");
    let mut bytes = Vec::new(alloc);
    push_expanded(alloc, front, &mut bytes)?;
    push_newlines(number(length.trim()), &mut bytes)?;
    Ok(bytes)
}

// Appends a text, in which `\*` stands for repeated lines.
fn push_expanded(alloc: Global, text: &str, out: &mut Vec<u8>) -> Result<(), AllocError> {
    let (front, parts) = parted(text, "\\*");
    out.extend_from_slice(front.as_bytes())?;
    if parts.is_empty() {
        return Ok(());
    }
    for part in parts.split("\\*") {
        let (line, behind) = parted(part, "\n");
        push_repeated(alloc, line, out)?;
        out.extend_from_slice(behind.as_bytes())?;
    }
    Ok(())
}

// Appends a line once for each number: before it stand the first and the last.
pub(crate) fn push_repeated(
    alloc: Global,
    line: &str,
    out: &mut Vec<u8>,
) -> Result<(), AllocError> {
    let (first, behind) = parted(line, " ");
    let (last, pattern) = parted(behind, " ");
    for at in number(first)..=number(last) {
        push_filled(alloc, pattern, at, out)?;
    }
    Ok(())
}

// Appends a line in which a number is filled in.
fn push_filled(
    alloc: Global,
    pattern: &str,
    at: usize,
    out: &mut Vec<u8>,
) -> Result<(), AllocError> {
    for byte in pattern.bytes() {
        match byte {
            b'@' => out.extend_from_slice(format!(in alloc; "{at}")?.as_bytes())?,
            b'<' => {
                let before = at.saturating_sub(1);
                out.extend_from_slice(format!(in alloc; "{before}")?.as_bytes())?
            }
            b';' => out.push(b'\n')?,
            _ => out.push(byte)?,
        }
    }
    out.push(b'\n')?;
    Ok(())
}

// The text before a mark and the text behind it, which is empty where the mark is not there.
pub(crate) fn parted<'a>(text: &'a str, mark: &str) -> (&'a str, &'a str) {
    match text.split_once(mark) {
        Some(parts) => parts,
        None => (text, ""),
    }
}

// The whole number that a text writes, or 0.
pub(crate) fn number(text: &str) -> usize {
    text.parse().unwrap_or(0)
}

// Appends newlines up to a length.
fn push_newlines(length: usize, out: &mut Vec<u8>) -> Result<(), AllocError> {
    for _ in out.len()..length {
        out.push(b'\n')?;
    }
    Ok(())
}
