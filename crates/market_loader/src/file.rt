// The whole of a file.
ghost use Rattle.std.specs.Prelude.{◌≡◌, IfSome, IsErrOf, IsSome};
ghost use Rattle.desk_edge.specs.Shelf.{file_at, files_of};
ghost use Rattle.market_loader.specs.Ends.{file_end};
ghost use Rattle.market_loader.specs.Files.{file_of, file_calls};
ghost use Rattle.market_loader.specs.Reads.{Reads, seen};

use crate::FileFault;
use crate::faults::file_fault;
use desk_edge::{Shelf, read_whole};
use std::alloc::Global;

/// The bytes of the file at a path, or why it was not read whole: there is no such file, it has more than
/// `text_limits::MOST_BYTES` bytes, a call of the shelf failed, or memory ran out. The shelf's counts say which calls were
/// made.
pub fn load_file<H: Shelf>(alloc: Global, path: &str, shelf: &mut H) -> Result<Vec<u8>, FileFault>
    ensures reads { Reads file_end (λ text. text.items) (file_of path.now) (file_calls path.now)
        (seen (H.contents shelf.old) (H.faults shelf.old) (H.misses shelf.old) (H.calls shelf.old))
        (seen (H.contents shelf.new) (H.faults shelf.new) (H.misses shelf.new) (H.calls shelf.new)) result }
    // Memory is wanted for a file that is there, and for no other.
    ensures there { IfSome (files_of (H.contents shelf.old))
        (λ files. IsErrOf result FileFault.NoMemory → IsSome (file_at files path.now)) }
{
    let mut text = Vec::new(alloc);
    match read_whole(shelf, path, &mut text) {
        Ok(true) => Ok(text),
        Ok(false) => Err(FileFault::Absent),
        Err(fault) => Err(file_fault(fault)),
    }
}
