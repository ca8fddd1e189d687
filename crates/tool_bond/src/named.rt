// Where a market has what a name stands for.
ghost use Rattle.std.specs.Prelude.{◌≡◌};
ghost use Rattle.tool_bond.specs.Named.{place_of_number, place_named};

use desk_names::{NameId, Names};

// What a name stands for in a market.
#[derive(Clone, Copy)]
pub(crate) enum Place {
    // No object has it.
    Nowhere,
    // It is the name of the evaluation date.
    Today,
    // The object at this place, counted from 0.
    Object(usize),
}

// What a name stands for. The first name of a market is `today`, and then comes that of each object.
pub(crate) fn place_named(names: &Names, name: &[u8]) -> Place
    ensures { result ≡ place_named names.now name.now }
{
    match names.find(name) {
        None => Place::Nowhere,
        Some(number) => place_of_number(number),
    }
}

fn place_of_number(number: NameId) -> Place
    ensures { result ≡ place_of_number number }
{
    let number = number.0 as usize;
    if number == 0 {
        return Place::Today;
    }
    Place::Object(number - 1)
}
