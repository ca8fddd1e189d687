// The words of a line, printed.
ghost use Rattle.std.specs.Prelude.{◌≡◌, ◌≤◌, ◌++◌, [], OnOk, slice_index_or};
ghost use Rattle.fixed_amount.specs.Decimal.{decimal_text};
ghost use Rattle.script_words.specs.WordText.{action_text, value_text, engine_text, flag_text, field_text, word_text};

use day_number::print_day;
use desk_names::{NameId, NameList, Names};
use fixed_amount::{Rate, print_decimal};
use session_commands::{Field, Kind};
use std::alloc::{AllocError, Global};

/// The text of a name, or no bytes where there is no name of that number.
pub fn text_at(names: &Names, name: NameId) -> &[u8]
    ensures { result.now ≡ slice_index_or names.now name [] }
{
    if name.0 < names.len() {
        names.text(name)
    } else {
        &[]
    }
}

/// The name of the action at this place among the actions, or no bytes where there is none.
pub fn action_text<'a>(names: &'a Names, actions: &NameList, action: usize) -> &'a [u8]
    ensures { result.now ≡ action_text names.now actions.now action }
{
    match actions.items().get(action) {
        Some(name) => text_at(names, *name),
        None => &[],
    }
}

fn push_units(alloc: Global, units: i64, places: u8, out: &mut Vec<u8>) -> Result<(), AllocError>
    requires { places ≤ 18 }
    ensures { OnOk result (out.new.items ≡ out.old.items ++ decimal_text units places) }
{
    print_decimal(alloc, i128::from(units), places, out)
}

fn push_rate(alloc: Global, rate: Rate, out: &mut Vec<u8>) -> Result<(), AllocError>
    ensures { OnOk result (out.new.items ≡ out.old.items ++ decimal_text rate 9) }
{
    push_units(alloc, rate.0, 9, out)
}

fn push_value(alloc: Global, value: Option<Rate>, out: &mut Vec<u8>) -> Result<(), AllocError>
    ensures { OnOk result (out.new.items ≡ out.old.items ++ value_text value) }
{
    match value {
        Some(rate) => push_rate(alloc, rate, out),
        None => out.extend_from_slice(b"unset"),
    }
}

fn push_engine(names: &Names, engine: Option<NameId>, out: &mut Vec<u8>) -> Result<(), AllocError>
    ensures { OnOk result (out.new.items ≡ out.old.items ++ engine_text names.now engine) }
{
    match engine {
        Some(name) => out.extend_from_slice(text_at(names, name)),
        None => out.extend_from_slice(b"none"),
    }
}

// The word of a flag: no bytes where the kind has none.
fn flag_text(kind: Kind, flag: bool) -> &'static [u8]
    ensures { result.now ≡ flag_text kind flag }
{
    match kind {
        Kind::Target if flag => b"curve",
        Kind::Target => b"quote",
        Kind::Switch if flag => b"on",
        Kind::Switch => b"off",
        Kind::Nothing
        | Kind::Name
        | Kind::Value
        | Kind::Number
        | Kind::Rate
        | Kind::Day
        | Kind::Weight
        | Kind::Engine
        | Kind::Action => b"",
    }
}

// The word of a field.
fn push_field(
    alloc: Global,
    names: &Names,
    actions: &NameList,
    kind: Kind,
    field: Field,
    out: &mut Vec<u8>,
) -> Result<(), AllocError>
    ensures { OnOk result (out.new.items ≡ out.old.items ++ field_text names.now actions.now kind field) }
{
    match field {
        Field::Nothing => Ok(()),
        Field::Name(name) => out.extend_from_slice(text_at(names, name)),
        Field::Value(value) => push_value(alloc, value, out),
        Field::Number(rate) => push_rate(alloc, rate, out),
        Field::Day(day) => print_day(alloc, day, out),
        Field::Weight(weight) => push_units(alloc, weight, 0, out),
        Field::Engine(engine) => push_engine(names, engine, out),
        Field::Flag(flag) => out.extend_from_slice(flag_text(kind, flag)),
        Field::Action(action) => out.extend_from_slice(action_text(names, actions, action.place())),
    }
}

/// Appends the word of a field with a space before it, where its row has one there.
#[tactic(auto, unfolding(crate::specs::WordText::word_text))]
pub fn push_word(
    alloc: Global,
    names: &Names,
    actions: &NameList,
    kind: Kind,
    field: Field,
    out: &mut Vec<u8>,
) -> Result<(), AllocError>
    ensures { OnOk result (out.new.items ≡ out.old.items ++ word_text names.now actions.now kind field) }
{
    if kind == Kind::Nothing {
        return Ok(());
    }
    out.push(b' ')?;
    push_field(alloc, names, actions, kind, field, out)
}
