// Files that never end.
use crate::{shows, texts};
use desk_edge::EndlessShelf;
use std::alloc::{AllocError, Global};

/// Whether what is shown where each file is one byte without end is what a row says: it has the byte, the words, and the line behind
/// an arrow.
pub(crate) fn agrees(alloc: Global, row: &str) -> Result<bool, AllocError> {
    let Some((given, line)) = row.split_once(" -> ") else {
        return Ok(false);
    };
    let Some((byte, words)) = given.split_once(' ') else {
        return Ok(false);
    };
    let words = texts(alloc, words)?;
    let wanted = format!(in alloc; "{line}\n")?;
    let mut shelf = EndlessShelf::new(byte.parse().unwrap_or(0));
    shows(alloc, &words, &mut shelf, wanted.as_bytes())
}
