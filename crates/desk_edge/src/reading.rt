// Reads whole files.
ghost use Rattle.std.specs.Prelude.{◌≡◌, ◌⊎◌, ◌+◌, ◌-◌, ◌<◌, ◌≤◌, ℕ, true, false, [], length, IfOk, IfSome, OnOk, OnErr, IsErrOf};
ghost use Rattle.std.specs.Option.{option_map};
ghost use Rattle.desk_edge.specs.Count.{Rose};
ghost use Rattle.desk_edge.specs.declared.reading.ReadFault.TheVariants.{Failed as ReadFailed, NoMemory};
ghost use Rattle.desk_edge.specs.Shelf.{file_at, bytes_at, files_of, faults_after, passed, put_back, Took, IsFront, Reads, Leaves};
ghost use Rattle.text_limits.specs.declared.limit.TheConstants.{MOST_BYTES};

use crate::{Failed, Shelf};
use std::alloc::AllocError;
use text_limits::MOST_BYTES;
use thiserror::Error;

// How many bytes a call of the shelf asks for.
const PIECE: usize = 4096;

/// Why a file was not read whole.
#[derive(Clone, Copy, Debug, PartialEq, Eq, Error)]
pub enum ReadFault {
    /// A call of the shelf failed.
    #[error("the read failed")]
    Failed,
    /// The file has more than `MOST_BYTES` bytes.
    #[error("the file is too long")]
    TooLong,
    #[error("out of memory")]
    NoMemory,
}

impl From<Failed> for ReadFault {
    ghost from_gives = { λ _ e. e ≡ ReadFailed };

    fn from(_: Failed) -> Self {
        ReadFault::Failed
    }
}

impl From<AllocError> for ReadFault {
    ghost from_gives = { λ _ e. e ≡ NoMemory };

    fn from(_: AllocError) -> Self {
        ReadFault::NoMemory
    }
}

/// Appends the whole file with this path to `out`. Returns false if there is no such file. On every exit at most `MOST_BYTES` + 1
/// bytes were taken of the file, and each `take` but the last gave at least one byte of `out`.
///
/// # Errors
///
/// `Failed` where a call of the shelf failed, `TooLong` where the file has more than `MOST_BYTES` (8,388,608) bytes, `NoMemory`
/// where memory runs out. Then `out` has a prefix of the file.
pub fn read_whole<H: Shelf>(shelf: &mut H, path: &str, out: &mut Vec<u8>) -> Result<bool, ReadFault>
    requires { out.old.items ≡ [] }
    ensures files { files_of (H.contents shelf.new) ≡ files_of (H.contents shelf.old) }
    ensures reads { IfSome (files_of (H.contents shelf.old))
        (λ files. Reads files path.now result out.new.items) }
    ensures taken { IfSome (H.contents shelf.new) (Leaves path.now result) }
    // On every exit: `find` failed and was the only call, or it opened the file and so many bytes of it were taken.
    ensures few { ((H.contents shelf.new ≡ H.contents shelf.old) × (H.calls shelf.new ≤ H.calls shelf.old + 1))
        ⊎ ((count : ℕ) × (count ≤ MOST_BYTES + 1) × Took count path.now (H.contents shelf.old) (H.contents shelf.new)) }
    // On every exit: apart from `find` and the last call, each call took a byte that is in `out`.
    ensures calls { H.calls shelf.new ≤ H.calls shelf.old + length out.new.items + 2 }
    ensures once { result ≡ Ok false → H.calls shelf.new ≤ H.calls shelf.old + 1 }
    // On every exit: a missing file was looked for once.
    ensures absent { IfSome (H.contents shelf.old) (λ c. file_at c.files path.now ≡ None
        → H.calls shelf.new ≤ H.calls shelf.old + 1) }
    ensures stops { IsErrOf result ReadFault.Failed → (H.contents shelf.new ≡ H.contents shelf.old)
        ⊎ Took (length out.new.items) path.now (H.contents shelf.old) (H.contents shelf.new) }
    // Out of memory only if bytes were taken that `out` had no room for, at most MOST_BYTES in all.
    ensures halts { IsErrOf result ReadFault.NoMemory → (count : ℕ) × (0 < count) × (count ≤ PIECE)
        × (length out.new.items + count ≤ MOST_BYTES)
        × IfSome (H.contents shelf.old) (λ c. length out.new.items + count ≤ length (bytes_at c.files path.now))
        × Took (length out.new.items + count) path.now (H.contents shelf.old) (H.contents shelf.new) }
    ensures most { length out.new.items ≤ MOST_BYTES }
    ensures nothing { result ≡ Ok false → out.new.items ≡ [] }
    ensures missed { result ≡ Ok false → Rose (H.misses shelf.old) (H.misses shelf.new) }
    ensures failed { IsErrOf result ReadFault.Failed → Rose (H.faults shelf.old) (H.faults shelf.new) }
    // A call that failed was the last one, and only then the result is `Failed`.
    ensures counted { H.faults shelf.new ≡ faults_after result (H.faults shelf.old) }
    ensures faults { H.faults shelf.old ≤ H.faults shelf.new }
    ensures misses { H.misses shelf.old ≤ H.misses shelf.new }
{
    if !shelf.find(path)? {
        return Ok(false);
    }
    read_begun(shelf, out)?;
    Ok(true)
}

// Appends the rest of the open file to `out`. Takes at most `MOST_BYTES` + 1 bytes on every exit.
fn read_begun<H: Shelf>(shelf: &mut H, out: &mut Vec<u8>) -> Result<(), ReadFault>
    requires { out.old.items ≡ [] }
    ensures whole { OnOk result (IfSome (H.contents shelf.old) (λ c. out.new.items ≡ c.rest)) }
    ensures end { OnOk result (IfSome (H.contents shelf.new) (λ c. c.rest ≡ [])) }
    ensures front { IfSome (H.contents shelf.old) (λ c. IsFront out.new.items c.rest) }
    ensures long { IsErrOf result ReadFault.TooLong → IfSome (H.contents shelf.old)
        (λ c. (MOST_BYTES < length c.rest) × (H.contents shelf.new ≡ Some (passed (MOST_BYTES + 1) c))) }
    ensures files { files_of (H.contents shelf.new) ≡ files_of (H.contents shelf.old) }
    ensures few { (count : ℕ) × (count ≤ MOST_BYTES + 1)
        × (H.contents shelf.new ≡ option_map (passed count) (H.contents shelf.old)) }
    ensures stops { IsErrOf result ReadFault.Failed
        → H.contents shelf.new ≡ option_map (passed (length out.new.items)) (H.contents shelf.old) }
    // Bytes were taken that `out` had no room for, at most MOST_BYTES in all.
    ensures halts { IsErrOf result ReadFault.NoMemory → (count : ℕ) × (0 < count) × (count ≤ PIECE)
        × (length out.new.items + count ≤ MOST_BYTES)
        × IfSome (H.contents shelf.old) (λ c. length out.new.items + count ≤ length c.rest)
        × (H.contents shelf.new ≡ option_map (passed (length out.new.items + count)) (H.contents shelf.old)) }
    ensures most { length out.new.items ≤ MOST_BYTES }
    ensures calls { H.calls shelf.new ≤ H.calls shelf.old + length out.new.items + 1 }
    ensures failed { IsErrOf result ReadFault.Failed → Rose (H.faults shelf.old) (H.faults shelf.new) }
    // A call that failed was the last one, and only then the result is `Failed`.
    ensures counted { H.faults shelf.new ≡ faults_after result (H.faults shelf.old) }
    ensures faults { H.faults shelf.old ≤ H.faults shelf.new }
    ensures misses { H.misses shelf.old ≤ H.misses shelf.new }
{
    let mut buf = [0u8; PIECE];
    while take_more(shelf, &mut buf, out)? {}
    Ok(())
}

// Appends the next bytes of the open file to `out` by way of `buf`. Returns false at the end of the file.
fn take_more<H: Shelf>(shelf: &mut H, buf: &mut [u8], out: &mut Vec<u8>) -> Result<bool, ReadFault>
    requires some { 0 < length buf.old }
    requires most { length out.old.items ≤ MOST_BYTES }
    // `out` and what is left make up the file.
    ensures kept { OnOk result (put_back out.new.items (H.contents shelf.new)
        ≡ put_back out.old.items (H.contents shelf.old)) }
    ensures more { IfOk result (λ more. more ≡ true → length out.old.items < length out.new.items) }
    ensures end { IfOk result (λ more. more ≡ false → IfSome (H.contents shelf.new) (λ c. c.rest ≡ [])) }
    ensures same { OnErr result (out.new.items ≡ out.old.items) }
    ensures long { IsErrOf result ReadFault.TooLong → IfSome (H.contents shelf.old)
        (λ c. (MOST_BYTES < length out.old.items + length c.rest)
        × (H.contents shelf.new ≡ Some (passed (MOST_BYTES + 1 - length out.old.items) c))) }
    ensures files { files_of (H.contents shelf.new) ≡ files_of (H.contents shelf.old) }
    ensures few { (count : ℕ) × (count ≤ length buf.old) × (length out.old.items + count ≤ MOST_BYTES + 1)
        × (H.contents shelf.new ≡ option_map (passed count) (H.contents shelf.old)) }
    ensures stops { IsErrOf result ReadFault.Failed → H.contents shelf.new ≡ H.contents shelf.old }
    // Bytes were taken that `out` had no room for, at most MOST_BYTES in all.
    ensures halts { IsErrOf result ReadFault.NoMemory → (count : ℕ) × (0 < count) × (count ≤ length buf.old)
        × (length out.old.items + count ≤ MOST_BYTES)
        × IfSome (H.contents shelf.old) (λ c. count ≤ length c.rest)
        × (H.contents shelf.new ≡ option_map (passed count) (H.contents shelf.old)) }
    ensures most { length out.new.items ≤ MOST_BYTES }
    ensures grows { length out.old.items ≤ length out.new.items }
    ensures calls { H.calls shelf.new ≤ H.calls shelf.old + 1 }
    ensures failed { IsErrOf result ReadFault.Failed → Rose (H.faults shelf.old) (H.faults shelf.new) }
    // A call that failed was the last one, and only then the result is `Failed`.
    ensures counted { H.faults shelf.new ≡ faults_after result (H.faults shelf.old) }
    ensures faults { H.faults shelf.old ≤ H.faults shelf.new }
    ensures misses { H.misses shelf.old ≤ H.misses shelf.new }
{
    let room = (MOST_BYTES + 1 - out.len()).min(buf.len());
    let piece = &mut buf[..room];
    let count = shelf.take(piece)?;
    if count > MOST_BYTES - out.len() {
        return Err(ReadFault::TooLong);
    }
    out.extend_from_slice(&piece[..count])?;
    Ok(count > 0)
}
