// The scenario in which an ask shows the least money.
ghost use Rattle.std.specs.Prelude.{◌≡◌, option_map};
ghost use Rattle.tool_script.specs.Grid.{column};
ghost use Rattle.tool_script.specs.Worst.{lower, with_value, worst_of};
ghost use Rattle.tool_script.specs.Shown.{rows_in, worst_in};

use crate::{Shown, value_at};
use desk_names::NameId;
use fixed_amount::Amount;

// A scenario, by its name, none for the one without moves, and the money that an ask shows in it.
#[derive(Clone, Copy)]
pub(crate) struct Worst {
    pub(crate) name: Option<NameId>,
    pub(crate) amount: Amount,
}

// The worst of what scenarios show for the ask at a place: of equal amounts the first.
pub(crate) fn worst_of(rows: &[Shown], at: usize) -> Option<Worst>
    ensures { option_map worst_in result ≡ worst_of (column at (rows_in rows.now)) }
{
    let mut worst = None;
    let mut left = rows.len();
    while left > 0 {
        left -= 1;
        worst = with_value(rows[left].name, value_at(&rows[left], at), worst);
    }
    worst
}

// The worst of what one scenario shows and of those behind it.
fn with_value(name: Option<NameId>, value: Option<Amount>, worst: Option<Worst>) -> Option<Worst>
    ensures { option_map worst_in result ≡ with_value name value (option_map worst_in worst) }
{
    match value {
        Some(amount) => lower(Worst { name, amount }, worst),
        None => worst,
    }
}

// The lower of two, of equal ones the first.
fn lower(first: Worst, other: Option<Worst>) -> Option<Worst>
    ensures { option_map worst_in result ≡ lower (worst_in first) (option_map worst_in other) }
{
    match other {
        Some(other) if first.amount > other.amount => Some(other),
        Some(_) => Some(first),
        None => Some(first),
    }
}
