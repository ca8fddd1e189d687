// The lines of a load.
ghost use Rattle.std.specs.Prelude.{◌≡◌, IfOk};
ghost use Rattle.desk_top.specs.Summary.{summary};

use crate::tally::Tally;
use std::alloc::{AllocError, Global};

/// The summary of a load of this size, whose transcript has this tally: the line `load SIZE lines LINES bytes BYTES`, and the
/// last line of the transcript. An error is want of memory.
pub fn summary(alloc: Global, size: u32, tally: &Tally) -> Result<Vec<u8>, AllocError>
    ensures { IfOk result (λ text. text.items ≡ summary size tally.now) }
{
    let mut text = Vec::new(alloc);
    text.extend_from_slice(b"load ")?;
    text.extend_from_slice(format!(in alloc; "{size}")?.as_bytes())?;
    text.extend_from_slice(b" lines ")?;
    text.extend_from_slice(format!(in alloc; "{}", tally.lines)?.as_bytes())?;
    text.extend_from_slice(b" bytes ")?;
    text.extend_from_slice(format!(in alloc; "{}", tally.bytes)?.as_bytes())?;
    text.push(b'\n')?;
    text.extend_from_slice(&tally.last)?;
    Ok(text)
}
