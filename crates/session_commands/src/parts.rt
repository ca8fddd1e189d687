// A command as its first word and its fields, and back.
ghost use Rattle.std.specs.Prelude.{◌≡◌, Some};
ghost use Rattle.session_commands.specs.Table.{row_of};
ghost use Rattle.session_commands.specs.Sorts.{Sorted};
ghost use Rattle.session_commands.specs.Parts.{made_of, command_of, parts_of, together};
ghost use Rattle.session_commands.specs.declared.field.Field.TheVariants.{Nothing, Name};

use crate::Command;
use crate::field::Field;
use crate::table::Verb;
use desk_names::NameId;

/// The parts of a command: its first word and its fields, at most three.
#[derive(Clone, Copy)]
pub struct Parts {
    pub verb: Verb,
    pub first: Field,
    pub second: Field,
    pub third: Field,
}

impl Parts {
    /// Returns the command of the parts. Their fields must be of the kinds in the row of the first word.
    pub fn command(self) -> Command
        requires { Sorted (row_of self.verb) self }
        ensures { command_of self ≡ Some result }
    {
        match self.made() {
            Some(command) => command,
            None => unreachable!(),
        }
    }

    // Returns the command of the parts, if their fields are of the kinds in its row.
    #[tactic(auto, unfolding(crate::specs::Parts::command_of))]
    fn made(self) -> Option<Command>
        ensures { result ≡ command_of self }
    {
        match self.verb {
            Verb::Today => Some(Command::Today(self.first.day()?)),
            Verb::Defer => Some(Command::Defer),
            Verb::Resume => Some(Command::Resume),
            Verb::Quote
            | Verb::Sum
            | Verb::Difference
            | Verb::Handle
            | Verb::Stock
            | Verb::Composite
            | Verb::Member
            | Verb::Set
            | Verb::Unset
            | Verb::Link
            | Verb::Unlink
            | Verb::Engine
            | Verb::Fixing
            | Verb::Freeze
            | Verb::Thaw
            | Verb::Recalc
            | Verb::Forward
            | Verb::Watch
            | Verb::Register
            | Verb::Unregister
            | Verb::Drop
            | Verb::Ask
            | Verb::Df => { named(self.verb, self.first.name()?, self.second, self.third) }
        }
    }

    /// Returns the parts of a command.
    #[tactic(auto, unfolding(crate::specs::Parts::parts_of))]
    pub fn of(command: Command) -> Parts
        ensures { result ≡ parts_of command }
    {
        match command {
            Command::Quote(a, b) => two(Verb::Quote, a, Field::Value(b)),
            Command::Sum(a, b, c) => three(Verb::Sum, a, Field::Name(b), Field::Name(c)),
            Command::Difference(a, b, c) => three(
                Verb::Difference,
                a,
                Field::Name(b),
                Field::Name(c),
            ),
            Command::Handle(a, b) => two(Verb::Handle, a, Field::Flag(b)),
            Command::Stock(a, b) => two(Verb::Stock, a, Field::Name(b)),
            Command::Composite(a) => one(Verb::Composite, Field::Name(a)),
            Command::Member(a, b, c) => three(Verb::Member, a, Field::Name(b), Field::Weight(c)),
            Command::Set(a, b) => two(Verb::Set, a, Field::Number(b)),
            Command::Unset(a) => one(Verb::Unset, Field::Name(a)),
            Command::Link(a, b) => two(Verb::Link, a, Field::Name(b)),
            Command::Unlink(a) => one(Verb::Unlink, Field::Name(a)),
            Command::Engine(a, b) => two(Verb::Engine, a, Field::Engine(b)),
            Command::Today(a) => one(Verb::Today, Field::Day(a)),
            Command::Fixing(a, b, c) => three(Verb::Fixing, a, Field::Day(b), Field::Number(c)),
            Command::Freeze(a) => one(Verb::Freeze, Field::Name(a)),
            Command::Thaw(a) => one(Verb::Thaw, Field::Name(a)),
            Command::Recalc(a) => one(Verb::Recalc, Field::Name(a)),
            Command::Forward(a, b) => two(Verb::Forward, a, Field::Flag(b)),
            Command::Defer => one(Verb::Defer, Field::Nothing),
            Command::Resume => one(Verb::Resume, Field::Nothing),
            Command::Watch(a, b) => two(Verb::Watch, a, Field::Action(b)),
            Command::Register(a, b) => two(Verb::Register, a, Field::Name(b)),
            Command::Unregister(a, b) => two(Verb::Unregister, a, Field::Name(b)),
            Command::Drop(a) => one(Verb::Drop, Field::Name(a)),
            Command::Ask(a) => one(Verb::Ask, Field::Name(a)),
            Command::Df(a, b) => two(Verb::Df, a, Field::Day(b)),
        }
    }
}

// Returns the command of a first word with a name and two fields, if they are of the kinds in its row.
fn named(verb: Verb, name: NameId, second: Field, third: Field) -> Option<Command>
    ensures { result ≡ made_of verb (Name name) second third }
{
    match verb {
        Verb::Quote => Some(Command::Quote(name, second.value()?)),
        Verb::Sum => Some(Command::Sum(name, second.name()?, third.name()?)),
        Verb::Difference => Some(Command::Difference(name, second.name()?, third.name()?)),
        Verb::Handle => Some(Command::Handle(name, second.flag()?)),
        Verb::Stock => Some(Command::Stock(name, second.name()?)),
        Verb::Composite => Some(Command::Composite(name)),
        Verb::Member => Some(Command::Member(name, second.name()?, third.weight()?)),
        Verb::Set => Some(Command::Set(name, second.number()?)),
        Verb::Unset => Some(Command::Unset(name)),
        Verb::Link => Some(Command::Link(name, second.name()?)),
        Verb::Unlink => Some(Command::Unlink(name)),
        Verb::Engine => Some(Command::Engine(name, second.engine()?)),
        Verb::Today => None,
        Verb::Fixing => Some(Command::Fixing(name, second.day()?, third.number()?)),
        Verb::Freeze => Some(Command::Freeze(name)),
        Verb::Thaw => Some(Command::Thaw(name)),
        Verb::Recalc => Some(Command::Recalc(name)),
        Verb::Forward => Some(Command::Forward(name, second.flag()?)),
        Verb::Defer => Some(Command::Defer),
        Verb::Resume => Some(Command::Resume),
        Verb::Watch => Some(Command::Watch(name, second.action()?)),
        Verb::Register => Some(Command::Register(name, second.name()?)),
        Verb::Unregister => Some(Command::Unregister(name, second.name()?)),
        Verb::Drop => Some(Command::Drop(name)),
        Verb::Ask => Some(Command::Ask(name)),
        Verb::Df => Some(Command::Df(name, second.day()?)),
    }
}

// Returns a first word with at most one field.
fn one(verb: Verb, first: Field) -> Parts
    ensures { result ≡ together verb first Nothing Nothing }
{
    Parts {
        verb,
        first,
        second: Field::Nothing,
        third: Field::Nothing,
    }
}

// Returns a first word with a name and a field.
fn two(verb: Verb, name: NameId, second: Field) -> Parts
    ensures { result ≡ together verb (Name name) second Nothing }
{
    Parts {
        verb,
        first: Field::Name(name),
        second,
        third: Field::Nothing,
    }
}

// Returns a first word with a name and two fields.
fn three(verb: Verb, name: NameId, second: Field, third: Field) -> Parts
    ensures { result ≡ together verb (Name name) second third }
{
    Parts {
        verb,
        first: Field::Name(name),
        second,
        third,
    }
}
