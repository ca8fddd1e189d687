// The line of a fault.
ghost use Rattle.std.specs.Prelude.{◌≡◌, ◌++◌, OnOk, OnErr};
ghost use Rattle.live_model.specs.Live.{fault_line};

use session_lang::ScriptKind;
use std::alloc::{AllocError, Global};

// Appends the line of a fault. Out of memory, `out` is as before.
#[tactic(auto, unfolding(live_model::specs::Live::fault_line))]
pub(crate) fn fault_line(
    alloc: Global,
    line: u64,
    kind: ScriptKind,
    out: &mut Vec<u8>,
) -> Result<(), AllocError>
    ensures ok { OnOk result (out.new.items ≡ out.old.items ++ fault_line line kind) }
    ensures err { OnErr result (out.new.items ≡ out.old.items) }
{
    let text = format!(in alloc; "fault {line} {kind}\n")?;
    out.extend_from_slice(text.as_bytes())
}
