// The names that lines are read over.
ghost use Rattle.std.specs.Prelude.{◌≡◌, [], IfOk, OnOk, OnErr};
ghost use Rattle.desk_names.specs.Names.{IsNames};
ghost use Rattle.script_words.specs.Given.{Gives};
ghost use Rattle.live_model.specs.Live.{meaning};
ghost use Rattle.live_session.specs.Standing.{IsCopy, IsRead};

use desk_names::Names;
use live_model::MOST_LINE;
use script_words::LineFault;
use session_lang::{Met, ScriptKind, Statement, lacks, read_line};
use std::alloc::{AllocError, Global};

// The names that lines are read over: copies of those of a session and of its actions. A line may add names to the copies, and
// is known to have no fault only then. Beside them are the names of the latest lines.
#[derive(Drop)]
pub(crate) struct Reader {
    pub(crate) names: Names,
    pub(crate) begun: Names,
    pub(crate) met: Met,
}

impl Reader {
    // Starts without names.
    pub(crate) fn new(alloc: Global) -> Reader
        ensures names { result.names ≡ [] }
        ensures begun { result.begun ≡ [] }
    {
        Reader {
            names: Names::new(alloc),
            begun: Names::new(alloc),
            met: Met::new(),
        }
    }
}

// Returns the statement of a line over these names and names of actions, inside a block or not, or its first fault. The line
// is read over copies, which keep its names.
#[tactic(auto, unfolding(live_model::specs::Live::meaning))]
pub(crate) fn read<'a>(
    alloc: Global,
    line: &'a [u8],
    words: &mut Vec<&'a [u8]>,
    copy: &mut Names,
    copy_begun: &mut Names,
    met: &mut Met,
    names: &Names,
    begun: &Names,
    inside: bool,
) -> Result<Statement, LineFault>
    requires copied { IsCopy copy.old names.now }
    requires begun { IsCopy copy_begun.old begun.now }
    ensures gives { Gives (λ s. (s, record { names = copy.new; begun = copy_begun.new })) result
        (meaning (record { names = names.now; begun = begun.now }) inside line.now) }
    ensures read { IfOk result (λ s. IsRead inside (record { names = names.now; begun = begun.now })
        (record { names = copy.new; begun = copy_begun.new }) s) }
    ensures copied { IsCopy copy.new names.now }
    ensures begun { IsCopy copy_begun.new begun.now }
{
    if line.len() > MOST_LINE {
        return Err(LineFault::Kind(ScriptKind::TooLong));
    }
    copy_of(alloc, copy, names)?;
    copy_of(alloc, copy_begun, begun)?;
    let statement = &read_line(line, words, copy, copy_begun, met, inside)?;
    if lacks(copy, copy_begun, *statement) {
        return Err(LineFault::Kind(ScriptKind::NoAction));
    }
    Ok(*statement)
}

// Makes `copy` a copy of these names, unless it is one. It is one if it is as long.
#[inline(always)]
fn copy_of(alloc: Global, copy: &mut Names, names: &Names) -> Result<(), AllocError>
    requires kept { IsCopy copy.old names.now }
    ensures ok { OnOk result (copy.new ≡ names.now) }
    ensures err { OnErr result (copy.new ≡ copy.old) }
    ensures named { IsNames names.now }
{
    if copy.len() != names.len() {
        *copy = names.copy(alloc)?;
    }
    Ok(())
}
