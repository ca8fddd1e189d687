// Writes whole texts.
ghost use Rattle.std.specs.Prelude.{◌≡◌, ◌<◌, ◌≤◌, ℕ, [], length, take, IsOk, OnOk, OnErr};
ghost use Rattle.desk_edge.specs.Count.{Rose, raised};
ghost use Rattle.desk_edge.specs.Sink.{appended};

use crate::{Failed, Sink};

/// Puts all the bytes in order. An empty text makes no call.
///
/// # Errors
///
/// `Failed` where a put failed. A prefix of the bytes was put. No call follows a failed put.
pub fn write_whole<K: Sink>(sink: &mut K, bytes: &[u8]) -> Result<(), Failed>
    ensures written { OnOk result (K.bytes sink.new ≡ appended bytes.now (K.bytes sink.old)) }
    ensures front { OnErr result ((count : ℕ) × (count < length bytes.now)
        × (K.bytes sink.new ≡ appended (take count bytes.now) (K.bytes sink.old))) }
    ensures quiet { OnOk result (K.faults sink.new ≡ K.faults sink.old) }
    ensures failed { OnErr result (Rose (K.faults sink.old) (K.faults sink.new)) }
    // Exactly one put failed. As any put may fail, none followed it, not even one of 0 bytes.
    ensures once { OnErr result (K.faults sink.new ≡ raised (K.faults sink.old)) }
    ensures faults { K.faults sink.old ≤ K.faults sink.new }
    ensures nothing { bytes.now ≡ [] → IsOk result × (sink.new ≡ sink.old) }
{
    let mut at = 0;
    while at < bytes.len() {
        at += sink.put(&bytes[at..])?;
    }
    Ok(())
}
