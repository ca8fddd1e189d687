// Laws of the table of commands, each the clause of a function that does nothing.
ghost use Rattle.std.specs.Prelude.{◌≡◌, Some};
ghost use Rattle.session_commands.specs.Sorts.{IsOf};
ghost use Rattle.session_commands.specs.declared.field.Field.{Field};
ghost use Rattle.session_commands.specs.declared.table.Verb.{Verb};
ghost use Rattle.session_commands.specs.declared.command.Command.{Command};
ghost use Rattle.session_commands.specs.Table.{row_of, verb_of};
ghost use Rattle.session_commands.specs.Parts.{command_of, parts_of, together};

/// A law: no two rows have the same first word, the parts of a command make that command again, and fields of a row's kinds
/// make a command.
pub fn table_law()
    ensures words { (verb : Verb) → verb_of (row_of verb).word ≡ Some verb }
    ensures parts { (command : Command) → command_of (parts_of command) ≡ Some command }
    ensures made { (v : Verb) (a b c : Field) → IsOf (row_of v).first a → IsOf (row_of v).second b → IsOf (row_of v).third c
        → (made : Command) × (command_of (together v a b c) ≡ Some made) }
{}
