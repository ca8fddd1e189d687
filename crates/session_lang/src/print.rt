// Prints scripts.
ghost use Rattle.std.specs.Prelude.{◌≡◌, ◌≤◌, ◌++◌, Ok, OnOk, OnErr, IfOk, length};
ghost use Rattle.session_lang.specs.Reading.{most_bytes, script_meaning};
ghost use Rattle.session_commands.specs.Whole.{IsScript};
ghost use Rattle.session_commands.specs.Table.{row_of};
ghost use Rattle.session_commands.specs.Parts.{parts_of};
ghost use Rattle.script_words.specs.WordText.{word_text};
ghost use Rattle.session_lang.specs.Printing.{row_text, command_text, commands_text, block_text, blocks_text, script_text};

use desk_names::{NameList, Names};
use script_words::{action_text, push_word};
use session_commands::{Actions, Command, Parts, Script};
use std::alloc::{AllocError, Global};

// Appends the line of a command.
#[tactic(auto, unfolding(crate::specs::Printing::command_text))]
fn push_command(
    alloc: Global,
    names: &Names,
    actions: &NameList,
    command: Command,
    out: &mut Vec<u8>,
) -> Result<(), AllocError>
    ensures { OnOk result (out.new.items ≡ out.old.items ++ command_text names.now actions.now command) }
{
    let parts = Parts::of(command);
    let (word, first, second, third) = parts.verb.row();
    out.extend_from_slice(word)?;
    push_word(alloc, names, actions, first, parts.first, out)?;
    push_word(alloc, names, actions, second, parts.second, out)?;
    push_word(alloc, names, actions, third, parts.third, out)?;
    out.extend_from_slice(b"\n")
}

// Appends the lines of commands.
fn push_commands(
    alloc: Global,
    names: &Names,
    actions: &NameList,
    commands: &[Command],
    out: &mut Vec<u8>,
) -> Result<(), AllocError>
    ensures { OnOk result (out.new.items ≡ out.old.items ++ commands_text names.now actions.now commands.now) }
{
    for command in commands {
        push_command(alloc, names, actions, *command, out)?;
    }
    Ok(())
}

// Appends the lines of a block.
#[tactic(auto, unfolding(crate::specs::Printing::block_text))]
fn push_block(
    alloc: Global,
    names: &Names,
    actions: &NameList,
    action: usize,
    commands: &[Command],
    out: &mut Vec<u8>,
) -> Result<(), AllocError>
    ensures { OnOk result (out.new.items ≡ out.old.items ++ block_text names.now actions.now action commands.now) }
{
    out.extend_from_slice(b"action ")?;
    out.extend_from_slice(action_text(names, actions, action))?;
    out.extend_from_slice(b"\n")?;
    push_commands(alloc, names, actions, commands, out)?;
    out.extend_from_slice(b"end\n")
}

// Appends the lines of all blocks.
#[tactic(auto, unfolding(crate::specs::Printing::blocks_text))]
fn push_blocks(
    alloc: Global,
    names: &Names,
    action_names: &NameList,
    actions: &Actions,
    out: &mut Vec<u8>,
) -> Result<(), AllocError>
    ensures { OnOk result (out.new.items ≡ out.old.items ++ blocks_text names.now action_names.now 0 actions.now) }
{
    for at in 0..actions.len() {
        push_block(alloc, names, action_names, at, actions.get(at).items(), out)?;
    }
    Ok(())
}

// Returns the text of a script in a new vector.
#[tactic(auto, unfolding(crate::specs::Printing::script_text))]
fn script_bytes(alloc: Global, script: &Script, names: &Names) -> Result<Vec<u8>, AllocError>
    ensures { IfOk result (λ text. text.items ≡ script_text names.now script.now) }
{
    let mut text = Vec::new(alloc);
    push_blocks(
        alloc,
        names,
        &script.action_names,
        &script.actions,
        &mut text,
    )?;
    push_commands(
        alloc,
        names,
        &script.action_names,
        script.commands.items(),
        &mut text,
    )?;
    Ok(text)
}

/// Appends the text of a script: its actions in order of their blocks, each as `action A`, its commands and `end`, and then
/// its commands. One space separates words, decimals have nine places, and each line ends with a newline (this project's
/// profile). A number that stands for no name of the lists is printed as no bytes.
///
/// # Errors
///
/// `AllocError` where memory runs out. Then `out` is as before.
#[tactic(auto, using(crate::proofs::ScriptBack::script_back))]
pub fn print_script(
    alloc: Global,
    script: &Script,
    names: &Names,
    out: &mut Vec<u8>,
) -> Result<(), AllocError>
    ensures ok { OnOk result (out.new.items ≡ out.old.items ++ script_text names.now script.now) }
    ensures err { OnErr result (out.new.items ≡ out.old.items) }
    ensures read_back { IsScript names.now script.now → length (script_text names.now script.now) ≤ most_bytes
        → script_meaning names.now (script_text names.now script.now) ≡ Ok (script.now, names.now) }
{
    let text = script_bytes(alloc, script, names)?;
    out.extend_from_slice(text.as_slice())
}
