// The shape of a script.
ghost use Rattle.std.specs.Prelude.{◌≡◌, ◌==◌};
ghost use Rattle.std.specs.List.{list_all, list_any};
ghost use Rattle.tool_script.specs.Kinds.{is_ask};
ghost use Rattle.tool_script.specs.Shape.{are_moves, is_block_name, is_over, scenarios_shape, steps_shape, shape_of};

use crate::{asked_name, is_move};
use desk_names::{NameId, Names};
use session_commands::{Command, CommandList, Script};

/// What the blocks of a script are.
#[derive(Clone, Copy)]
pub enum Blocks {
    /// Scenarios beside each other.
    Scenarios,
    /// Steps one after the other.
    Steps,
}

/// The name of the scenario without moves, and of the step before the first block.
pub const BASE: &[u8] = b"base";

/// The name of the sum of what steps gain.
pub const TOTAL: &[u8] = b"total";

/// The most blocks of a script, and the most asks.
pub const MOST_EACH: usize = 1000;

/// What does not fit in a script of such blocks over these names, the first of these: 1 where a command of a block is no
/// move, 2 where a command outside of blocks is no ask, 3 where a block is named `base`, 4 where there are more than 1,000
/// blocks or asks; and then, of steps alone, 3 where a block is named `total`. None where all fits.
pub fn check_shape(blocks: Blocks, script: &Script, names: &Names) -> Option<u32>
    ensures { result ≡ shape_of blocks names.now script.now }
{
    match blocks {
        Blocks::Scenarios => scenarios_shape(script, names),
        Blocks::Steps => steps_shape(script, names),
    }
}

// What does not fit in a script of steps.
#[tactic(auto, unfolding(crate::specs::Shape::steps_shape))]
fn steps_shape(script: &Script, names: &Names) -> Option<u32>
    ensures { result ≡ steps_shape names.now script.now }
{
    match scenarios_shape(script, names) {
        Some(fault) => Some(fault),
        None if is_block_name(names, script.action_names.items(), TOTAL) => Some(3),
        None => None,
    }
}

// What does not fit in a script of scenarios.
#[tactic(auto, unfolding(crate::specs::Shape::scenarios_shape))]
fn scenarios_shape(script: &Script, names: &Names) -> Option<u32>
    ensures { result ≡ scenarios_shape names.now script.now }
{
    if !are_blocks_of_moves(script.actions.items()) {
        Some(1)
    } else if !are_asks(script.commands.items()) {
        Some(2)
    } else if is_block_name(names, script.action_names.items(), BASE) {
        Some(3)
    } else if is_over(script) {
        Some(4)
    } else {
        None
    }
}

// Whether each block holds moves alone.
fn are_blocks_of_moves(blocks: &[CommandList]) -> bool
    ensures { result ≡ list_all are_moves blocks.now }
{
    blocks.iter().all(|block| are_moves(block.items()))
}

// Whether each command is a move.
fn are_moves(block: &[Command]) -> bool
    ensures { result ≡ are_moves block.now }
{
    block.iter().all(|command| is_move(command))
}

// Whether each command is an ask.
fn are_asks(commands: &[Command]) -> bool
    ensures { result ≡ list_all is_ask commands.now }
{
    commands.iter().all(|command| asked_name(command).is_some())
}

// Whether a block has this name.
fn is_block_name(names: &Names, blocks: &[NameId], text: &[u8]) -> bool
    ensures { result ≡ is_block_name names.now blocks.now text.now }
{
    match names.find(text) {
        Some(name) => is_among(blocks, name),
        None => false,
    }
}

// Whether a name is one of these.
fn is_among(names: &[NameId], wanted: NameId) -> bool
    ensures { result ≡ list_any (λ name. name == wanted) names.now }
{
    names.iter().any(|name| *name == wanted)
}

// Whether there are too many blocks or asks.
fn is_over(script: &Script) -> bool
    ensures { result ≡ is_over script.now }
{
    script.actions.len() > MOST_EACH || script.commands.len() > MOST_EACH
}
