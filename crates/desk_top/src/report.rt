// The report of a market.
ghost use Rattle.std.specs.Prelude.{◌≡◌, ◌≤◌, ◌<◌, ℕ, length, take, IfOk, OnOk, IfErr, IsErrOf};
ghost use Rattle.desk_edge.specs.Count.{Rose, raised};
ghost use Rattle.desk_edge.specs.Sink.{appended};
ghost use Rattle.desk_top.specs.Report.{check_line};
ghost use Rattle.desk_top.specs.Written.{IsLate};

use desk_edge::{Sink, write_whole};
use std::alloc::{AllocError, Global};
use tool_script::Status;

// Writes the report's line.
pub(crate) fn report<K: Sink>(
    alloc: Global,
    objects: usize,
    fixings: u128,
    out: &mut K,
) -> Result<(), Status>
    ensures written { OnOk result (K.bytes out.new ≡ appended (check_line objects fixings) (K.bytes out.old)) }
    ensures front { IsErrOf result Status.WriteFault → (count : ℕ) × (count < length (check_line objects fixings))
        × (K.bytes out.new ≡ appended (take count (check_line objects fixings)) (K.bytes out.old)) }
    ensures nothing { IsErrOf result Status.NoMemory → K.bytes out.new ≡ K.bytes out.old }
    ensures late { IfErr result IsLate }
    ensures write { IsErrOf result Status.WriteFault → Rose (K.faults out.old) (K.faults out.new) }
    ensures clean { OnOk result (K.faults out.new ≡ K.faults out.old) }
    ensures once { IsErrOf result Status.WriteFault → K.faults out.new ≡ raised (K.faults out.old) }
    ensures at_most { IsErrOf result Status.NoMemory → K.faults out.new ≡ K.faults out.old }
    ensures faults { K.faults out.old ≤ K.faults out.new }
{
    let line = check_line(alloc, objects, fixings)?;
    match write_whole(out, &line) {
        Ok(()) => Ok(()),
        Err(_) => Err(Status::WriteFault),
    }
}

// The line of a market with so many objects and so many stored fixings.
fn check_line(alloc: Global, objects: usize, fixings: u128) -> Result<Vec<u8>, AllocError>
    ensures { IfOk result (λ line. line.items ≡ check_line objects fixings) }
{
    let mut line = Vec::new(alloc);
    line.extend_from_slice(b"market ok objects ")?;
    line.extend_from_slice(format!(in alloc; "{objects}")?.as_bytes())?;
    line.extend_from_slice(b" fixings ")?;
    line.extend_from_slice(format!(in alloc; "{fixings}")?.as_bytes())?;
    line.push(b'\n')?;
    Ok(line)
}
