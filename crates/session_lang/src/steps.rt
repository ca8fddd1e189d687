// The statements of a script, and the script that they make.
ghost use Rattle.std.specs.Prelude.{◌≡◌, ◌∷◌, ◌++◌, [], List, IfOk, OnOk, slice_index_or, cond, is_some, map};
ghost use Rattle.std.specs.List.{find, list_any};
ghost use Rattle.desk_names.specs.Names.{place_of};
ghost use Rattle.session_lang.specs.Statement.{Known};
ghost use Rattle.session_lang.specs.Reading.{opened, text_of, action_of, lacks, linked, line_of, block_of, actions_of, action_with, action_names_of};
ghost use Rattle.session_lang.specs.Gathered.{is_later, later_with, outside_with};
ghost use Rattle.session_commands.specs.declared.command.Command.{Command};

use crate::statement::Statement;
use desk_names::{NameId, NameList, Names};
use script_words::text_at;
use session_commands::{ActionId, Actions, Command, CommandList};
use std::alloc::{AllocError, Global};

/// A statement with the number of its line.
#[derive(Clone, Copy)]
pub struct Step {
    /// The line, from 1.
    pub line: u32,
    /// The statement of the line.
    pub what: Statement,
}

/// Returns the line of the block that is open after a statement.
pub(crate) fn opened(statement: &Statement, line: u32, open_at: Option<u32>) -> Option<u32>
    ensures { result ≡ opened statement.now line open_at }
{
    match statement {
        Statement::Begin(_) => Some(line),
        Statement::End => None,
        Statement::Blank | Statement::Run(_) => open_at,
    }
}

/// Returns whether a block is open.
pub(crate) fn is_open(open_at: Option<u32>) -> bool
    ensures { result ≡ is_some open_at }
{
    match open_at {
        Some(_) => true,
        None => false,
    }
}

fn step_at(line: u32, what: Statement) -> Step
    ensures { result ≡ record { line = line; what = what } }
{
    Step { line, what }
}

// Returns the action that a command names.
#[tactic(auto, unfolding(session_commands::specs::Parts::parts_of))]
fn action_of(command: Command) -> Option<ActionId>
    ensures { result ≡ action_of command }
{
    match command {
        Command::Watch(_, action) => Some(action),
        _ => None,
    }
}

// Returns whether a statement is needed after all lines.
fn is_later(inside: bool, statement: &Statement) -> bool
    ensures { result ≡ is_later inside statement.now }
{
    match statement {
        Statement::Run(command) => inside || action_of(*command).is_some(),
        Statement::Begin(_) | Statement::End => true,
        Statement::Blank => false,
    }
}

// Appends a statement if it is needed after all lines.
fn hold(
    steps: &mut Vec<Step>,
    line: u32,
    statement: Statement,
    inside: bool,
) -> Result<(), AllocError>
    ensures { OnOk result (steps.new.items ≡ steps.old.items ++ later_with inside (record { line = line; what = statement }) []) }
{
    if !is_later(inside, &statement) {
        return Ok(());
    }
    steps.extend_from_slice(&[step_at(line, statement)])
}

// Appends commands.
fn push_each(commands: &mut CommandList, more: &[Command]) -> Result<(), AllocError>
    ensures { OnOk result (commands.new ≡ commands.old ++ more.now) }
{
    for command in more {
        commands.push(*command)?;
    }
    Ok(())
}

// Appends a command if it is outside blocks.
fn put_outside(
    commands: &mut CommandList,
    statement: Statement,
    inside: bool,
) -> Result<(), AllocError>
    ensures { OnOk result (commands.new ≡ commands.old ++ outside_with inside statement []) }
{
    if inside {
        return Ok(());
    }
    match statement {
        Statement::Run(command) => push_each(commands, &[command]),
        Statement::Blank | Statement::Begin(_) | Statement::End => Ok(()),
    }
}

/// Appends a statement and returns the line of the block that is open after it. A command outside blocks goes to `commands`.
/// `steps` gets only what is needed after all lines, so that a long script of commands is kept once.
pub(crate) fn add(
    commands: &mut CommandList,
    steps: &mut Vec<Step>,
    line: u32,
    statement: Statement,
    open_at: Option<u32>,
) -> Result<Option<u32>, AllocError>
    ensures later { OnOk result (steps.new.items ≡ steps.old.items ++ later_with (is_some open_at) (record { line = line; what = statement }) []) }
    ensures outside { OnOk result (commands.new ≡ commands.old ++ outside_with (is_some open_at) statement []) }
    ensures open_at { IfOk result (λ o. o ≡ opened statement line open_at) }
{
    let inside = is_open(open_at);
    hold(steps, line, statement, inside)?;
    put_outside(commands, statement, inside)?;
    Ok(opened(&statement, line, open_at))
}

/// Returns whether a statement names an action that has no block.
pub fn lacks(names: &Names, begun: &Names, statement: Statement) -> bool
    ensures { result ≡ lacks (record { names = names.now; begun = begun.now }) statement }
{
    match statement {
        Statement::Run(command) => match action_of(command) {
            Some(action) => begun.find(text_at(names, NameId(action.0))).is_none(),
            None => false,
        },
        Statement::Blank | Statement::Begin(_) | Statement::End => false,
    }
}

// Returns the place of an action's block, by the number of its name.
fn linked_action(names: &Names, begun: &Names, action: ActionId) -> ActionId
    ensures { result ≡ place_of begun.now (slice_index_or names.now action []) }
{
    match begun.find(text_at(names, NameId(action.0))) {
        Some(place) => ActionId(place.0),
        None => ActionId(begun.len()),
    }
}

/// Returns the command, where a watch has the place of its action's block.
pub fn linked(names: &Names, begun: &Names, command: Command) -> Command
    ensures { result ≡ linked (record { names = names.now; begun = begun.now }) command }
{
    match command {
        Command::Watch(watcher, action) => Command::Watch(
            watcher,
            linked_action(names, begun, action),
        ),
        _ => command,
    }
}

/// Returns the first line that names an action without a block.
pub(crate) fn first_lacking(names: &Names, begun: &Names, steps: &[Step]) -> Option<u32>
    ensures { result ≡ line_of (find (λ step. lacks (record { names = names.now; begun = begun.now }) step.what) steps.now) }
{
    for step in steps {
        if lacks(names, begun, step.what) {
            return Some(step.line);
        }
    }
    None
}

// Returns the commands of a block, up to its `end`.
#[tactic(auto, unfolding(crate::specs::Reading::block_of))]
fn block_of(
    alloc: Global,
    names: &Names,
    begun: &Names,
    steps: &[Step],
) -> Result<CommandList, AllocError>
    ensures { IfOk result (λ block. block ≡ block_of (record { names = names.now; begun = begun.now }) steps.now) }
{
    let mut block = CommandList::new(alloc);
    for step in steps {
        match step.what {
            Statement::Run(command) => block.push(linked(names, begun, command))?,
            Statement::End => return Ok(block),
            Statement::Blank | Statement::Begin(_) => {}
        }
    }
    Ok(block)
}

fn begins(statement: Statement) -> bool
    ensures { (block : List Command) (more : List (List Command)) → action_with statement block more ≡ cond result (block ∷ more) more }
{
    match statement {
        Statement::Begin(_) => true,
        Statement::Blank | Statement::End | Statement::Run(_) => false,
    }
}

/// Returns the commands of all blocks in order.
#[tactic(auto, unfolding(crate::specs::Reading::actions_of))]
pub(crate) fn actions_of(
    alloc: Global,
    names: &Names,
    begun: &Names,
    steps: &[Step],
) -> Result<Actions, AllocError>
    ensures { IfOk result (λ actions. actions ≡ actions_of (record { names = names.now; begun = begun.now }) steps.now) }
{
    let mut actions = Actions::new(alloc);
    for at in 0..steps.len() {
        if begins(steps[at].what) {
            let (_, after) = steps.split_at(at + 1);
            actions.push(block_of(alloc, names, begun, after)?)?;
        }
    }
    Ok(actions)
}

/// Returns the names of all blocks in order.
#[tactic(auto, unfolding(crate::specs::Reading::action_names_of))]
pub(crate) fn action_names_of(alloc: Global, steps: &[Step]) -> Result<NameList, AllocError>
    ensures { IfOk result (λ names. names ≡ action_names_of steps.now) }
{
    let mut names = NameList::new(alloc);
    for step in steps {
        if let Statement::Begin(name) = step.what {
            names.push(name)?;
        }
    }
    Ok(names)
}

// Returns whether a command names an action.
fn has_watch(commands: &[Command]) -> bool
    ensures { result ≡ list_any (λ command. is_some (action_of command)) commands.now }
{
    commands.iter().any(|command| action_of(*command).is_some())
}

// Copies the commands, where each watch gets the place of its action's block.
fn linked_each(
    alloc: Global,
    names: &Names,
    begun: &Names,
    commands: &[Command],
) -> Result<CommandList, AllocError>
    ensures { IfOk result (λ list. list ≡ map (linked (record { names = names.now; begun = begun.now })) commands.now) }
{
    let mut list = CommandList::new(alloc);
    for command in commands {
        list.push(linked(names, begun, *command))?;
    }
    Ok(list)
}

/// Returns the commands, where each watch has the place of its action's block. Commands without a watch stay in their list, so
/// that they take no second one.
pub(crate) fn all_linked(
    alloc: Global,
    names: &Names,
    begun: &Names,
    commands: CommandList,
) -> Result<CommandList, AllocError>
    ensures { IfOk result (λ list. list ≡ map (linked (record { names = names.now; begun = begun.now })) commands) }
{
    if !has_watch(commands.items()) {
        return Ok(commands);
    }
    linked_each(alloc, names, begun, commands.items())
}
