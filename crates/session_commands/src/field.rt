// The arguments of a command.
ghost use Rattle.std.specs.Prelude.{◌≡◌};
ghost use Rattle.session_commands.specs.Field.{name_in, value_in, number_in, day_in, weight_in, engine_in, flag_in, action_in};

use day_number::Day;
use desk_names::{ActionId, NameId};
use fixed_amount::Rate;

/// The value of an argument. An action is the number of its name until the whole script is read.
#[derive(Clone, Copy)]
pub enum Field {
    Nothing,
    Name(NameId),
    Value(Option<Rate>),
    Number(Rate),
    Day(Day),
    Weight(i64),
    Engine(Option<NameId>),
    Flag(bool),
    Action(ActionId),
}

impl Field {
    pub fn name(self) -> Option<NameId>
        ensures { result ≡ name_in self }
    {
        match self {
            Field::Name(name) => Some(name),
            _ => None,
        }
    }

    pub fn value(self) -> Option<Option<Rate>>
        ensures { result ≡ value_in self }
    {
        match self {
            Field::Value(value) => Some(value),
            _ => None,
        }
    }

    pub fn number(self) -> Option<Rate>
        ensures { result ≡ number_in self }
    {
        match self {
            Field::Number(units) => Some(units),
            _ => None,
        }
    }

    pub fn day(self) -> Option<Day>
        ensures { result ≡ day_in self }
    {
        match self {
            Field::Day(day) => Some(day),
            _ => None,
        }
    }

    pub fn weight(self) -> Option<i64>
        ensures { result ≡ weight_in self }
    {
        match self {
            Field::Weight(weight) => Some(weight),
            _ => None,
        }
    }

    pub fn engine(self) -> Option<Option<NameId>>
        ensures { result ≡ engine_in self }
    {
        match self {
            Field::Engine(engine) => Some(engine),
            _ => None,
        }
    }

    pub fn flag(self) -> Option<bool>
        ensures { result ≡ flag_in self }
    {
        match self {
            Field::Flag(flag) => Some(flag),
            _ => None,
        }
    }

    pub fn action(self) -> Option<ActionId>
        ensures { result ≡ action_in self }
    {
        match self {
            Field::Action(action) => Some(action),
            _ => None,
        }
    }
}
