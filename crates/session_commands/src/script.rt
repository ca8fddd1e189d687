// Scripts as lists of commands.
use crate::Command;
use desk_names::NameList;
use item_lists::Items;

/// A list of commands. Clauses see the list.
pub type CommandList = Items<Command>;

/// The actions of a script in order of their blocks, each a list of commands. Clauses see the list of lists.
pub type Actions = Items<CommandList>;

/// A script: its actions in order of their blocks, the names of the actions in the same order, and the commands outside
/// blocks.
#[derive(Drop)]
pub struct Script {
    pub actions: Actions,
    pub commands: CommandList,
    pub action_names: NameList,
}
