// The commands that a session knows.
ghost use Rattle.std.specs.Prelude.{◌≡◌, ◌≤◌, ◌↔◌, IsTrue, unsigned_abs};
ghost use Rattle.day_number.specs.Day.{IsDayNumber};
ghost use Rattle.session_commands.specs.Whole.{Fits, IsCommand, IsValue, IsEngine, most_units};

use day_number::Day;
use desk_names::NameId;
use fixed_amount::Rate;
use session_commands::{Command, Field, Kind, Parts};

/// The greatest size of a number, in units, but for a rate.
const MOST_UNITS: u64 = 1_000_000_000_000_000_000;

/// The greatest size of a rate, in units.
const MOST_RATE: u64 = 10_000_000_000;

/// The greatest weight.
const MOST_WEIGHT: u64 = 1_000_000;

// Returns whether a command has only so many names and actions, and numbers within their limits.
#[tactic(auto, unfolding(session_commands::specs::Whole::IsCommand))]
pub(crate) fn is_known(names: u32, actions: usize, command: &Command) -> bool
    ensures { IsTrue result ↔ IsCommand names actions command.now }
{
    let parts = Parts::of(*command);
    let (_, first, second, third) = parts.verb.row();
    fits(names, actions, first, parts.first)
        && fits(names, actions, second, parts.second)
        && fits(names, actions, third, parts.third)
}

// Returns whether a field is among so many names and actions, or within the limit of its kind.
fn fits(names: u32, actions: usize, kind: Kind, field: Field) -> bool
    ensures { IsTrue result ↔ Fits names actions kind field }
{
    match field {
        Field::Nothing => true,
        Field::Name(name) => name.0 < names,
        Field::Value(value) => is_value(value),
        Field::Number(units) => is_within(units, most_units(kind)),
        Field::Day(day) => is_day(day),
        Field::Weight(weight) => weight.unsigned_abs() <= MOST_WEIGHT,
        Field::Engine(engine) => is_engine(names, engine),
        Field::Flag(_) => true,
        Field::Action(action) => action.place() < actions,
    }
}

// Returns the greatest size of a number of a kind, in units.
fn most_units(kind: Kind) -> u64
    ensures { result ≡ most_units kind }
{
    match kind {
        Kind::Rate => MOST_RATE,
        Kind::Nothing
        | Kind::Name
        | Kind::Value
        | Kind::Number
        | Kind::Day
        | Kind::Weight
        | Kind::Engine
        | Kind::Target
        | Kind::Switch
        | Kind::Action => MOST_UNITS,
    }
}

// Returns whether a number has at most so many units in size.
fn is_within(number: Rate, most: u64) -> bool
    ensures { IsTrue result ↔ (unsigned_abs number ≤ most) }
{
    number.units().unsigned_abs() <= most
}

// Returns whether a quote's value, if there is one, is within the limit.
fn is_value(value: Option<Rate>) -> bool
    ensures { IsTrue result ↔ IsValue value }
{
    match value {
        Some(value) => is_within(value, MOST_UNITS),
        None => true,
    }
}

// Returns whether an engine, if there is one, is a name.
fn is_engine(names: u32, engine: Option<NameId>) -> bool
    ensures { IsTrue result ↔ IsEngine names engine }
{
    match engine {
        Some(engine) => engine.0 < names,
        None => true,
    }
}

// Returns whether a day is in the range of days, which each is.
fn is_day(day: Day) -> bool
    ensures { IsTrue result ↔ IsDayNumber day }
{
    let _ = day.number();
    true
}
