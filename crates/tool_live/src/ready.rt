// The lines that a session does not write itself.
ghost use Rattle.std.specs.Prelude.{◌≡◌, ◌++◌, Some, OnOk, OnErr};
ghost use Rattle.session_commands.specs.declared.script_kind.ScriptKind.{ScriptKind};
ghost use Rattle.live_model.specs.Live.{ready_text, fault_line};

use session_commands::ScriptKind;
use std::alloc::{AllocError, Global};

// Appends the line that tells that a line is done, where that is asked for. After want of memory `answers` has its old bytes.
pub(crate) fn tell_ready(
    alloc: Global,
    ready: bool,
    line: u64,
    answers: &mut Vec<u8>,
) -> Result<(), AllocError>
    ensures ok { OnOk result (answers.new.items ≡ answers.old.items ++ ready_text ready line) }
    ensures err { OnErr result (answers.new.items ≡ answers.old.items) }
{
    if !ready {
        return Ok(());
    }
    let text = format!(in alloc; "ready {line}\n")?;
    answers.extend_from_slice(text.as_bytes())
}

// Appends the line that tells that the block is open that began at a line. After want of memory `answers` has its old bytes.
#[tactic(auto, unfolding(live_model::specs::Live::fault_line))]
pub(crate) fn tell_unclosed(
    alloc: Global,
    line: u64,
    answers: &mut Vec<u8>,
) -> Result<(), AllocError>
    ensures ok { OnOk result (answers.new.items ≡ answers.old.items ++ fault_line line ScriptKind.Unclosed) }
    ensures err { OnErr result (answers.new.items ≡ answers.old.items) }
{
    let kind = ScriptKind::Unclosed;
    let text = format!(in alloc; "fault {line} {kind}\n")?;
    answers.extend_from_slice(text.as_bytes())
}
