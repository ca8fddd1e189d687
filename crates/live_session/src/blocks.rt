// The actions of a session that takes lines.
ghost use Rattle.std.specs.Prelude.{◌≡◌, ◌+◌, ℕ, [], length, Some, IfOk, OnOk, OnErr};
ghost use Rattle.script_words.specs.Given.{Grows};
ghost use Rattle.live_model.specs.Live.{block_ended};
ghost use Rattle.live_session.specs.Standing.{BlockFits};

use crate::learning::add_next;
use desk_names::Names;
use session_commands::{Command, CommandList};
use session_core::ActionFault;
use session_rounds::WatchedSession;
use std::alloc::{AllocError, Global};
use std::marker::Model;
use watch_rounds::Picker;

// A block that has not ended: the number of its first line, and its commands so far.
#[derive(Drop)]
pub(crate) struct OpenBlock {
    pub(crate) line: u64,
    pub(crate) commands: CommandList,
}

impl Model for OpenBlock {
    ghost use Rattle.live_model.specs.Live.{Block};

    ghost Value = { Block };

    ghost view = { λ b. record { line = b.line; commands = b.commands } };
}

// The names of the actions in order, and the open block.
#[derive(Drop)]
pub(crate) struct Blocks {
    pub(crate) begun: Names,
    pub(crate) block: Option<OpenBlock>,
}

impl Blocks {
    // Begins a block at this line. The last of these names is the name of its action.
    pub(crate) fn begin(
        &mut self,
        alloc: Global,
        names: &Names,
        line: u64,
    ) -> Result<(), AllocError>
        requires more { Grows self.old.begun names.now }
        requires one { length names.now ≡ length self.old.begun + 1 }
        ensures ok { OnOk result (self.new ≡ record { begun = names.now; block = Some (record { line = line; commands = [] }) }) }
        ensures err { OnErr result (self.new ≡ self.old) }
    {
        add_next(&mut self.begun, names)?;
        self.block = Some(OpenBlock {
            line,
            commands: CommandList::new(alloc),
        });
        Ok(())
    }

    // Ends the open block, if there is one, and makes it an action of the session.
    pub(crate) fn end<P: Picker>(
        &mut self,
        alloc: Global,
        session: &mut WatchedSession<P>,
    ) -> Result<(), AllocError>
        requires block { BlockFits self.old.block (length session.old.standing.names) (length self.old.begun) (length session.old.standing.actions) }
        ensures ok { OnOk result ((line : ℕ) → record { running = session.new; begun = self.new.begun; block = self.new.block; line = line }
            ≡ block_ended self.old.block (record { running = session.old; begun = self.old.begun; block = self.old.block; line = line })) }
        ensures err { OnErr result ((self.new ≡ self.old) × (session.new ≡ session.old)) }
        ensures rest { session.new ≡ record session.old { standing = record session.old.standing { actions = session.new.standing.actions } } }
        ensures block { BlockFits self.new.block (length session.new.standing.names) (length self.new.begun) (length session.new.standing.actions) }
    {
        let Some(block) = &self.block else {
            return Ok(());
        };
        let commands = copied(alloc, block.commands.items())?;
        let _ = self.begun.len();
        match session.add_action(commands) {
            Ok(_) => {
                self.block = None;
                Ok(())
            }
            Err(ActionFault::NoMemory) => Err(AllocError),
            // There are at most as many actions as names.
            Err(ActionFault::Full) => unreachable!(),
        }
    }
}

// Copies the commands.
fn copied(alloc: Global, commands: &[Command]) -> Result<CommandList, AllocError>
    ensures { IfOk result (λ list. list ≡ commands.now) }
{
    let mut list = CommandList::new(alloc);
    for command in commands {
        list.push(*command)?;
    }
    Ok(list)
}
