// Sums of single deltas, and what a delta of quotes together has beyond them.
ghost use Rattle.std.specs.Prelude.{◌≡◌, ◌≤◌, ◌^◌, length};
ghost use Rattle.tool_risk.specs.declared.figures.Figure.TheVariants.{Is};
ghost use Rattle.tool_risk.specs.Figures.{delta_in};
ghost use Rattle.tool_risk.specs.FigureSums.{is_label, delta_at, sum_at, beyond, IsSmall, IsBounded};

use crate::{Figure, delta};
use bump_model::Rung;
use desk_names::ObjId;

/// The sum of the deltas that these quotes have among the rungs: a quote without a value adds nothing. Where one is no
/// amount, the first of these.
pub fn sum_at(rungs: &[Rung], quotes: &[ObjId]) -> Figure
    requires few { length quotes.now ≤ 2 ^ 16 }
    ensures sum { result ≡ sum_at rungs.now quotes.now }
    ensures bounded { IsBounded result }
{
    let mut units = 0;
    for quote in quotes {
        match delta_at(rungs, *quote) {
            Figure::Is(more) => units += more,
            Figure::Unset => {}
            Figure::Up(missing) => return Figure::Up(missing),
            Figure::Down(missing) => return Figure::Down(missing),
        }
    }
    Figure::Is(units)
}

// The delta of the first rung of this object's.
fn delta_at(rungs: &[Rung], object: ObjId) -> Figure
    ensures delta { result ≡ delta_at rungs.now object }
    ensures small { IsSmall result }
{
    for rung in rungs {
        if is_label(rung.label, object) {
            return delta(rung);
        }
    }
    Figure::Unset
}

fn is_label(label: Option<ObjId>, object: ObjId) -> bool
    ensures { result ≡ is_label label object }
{
    match label {
        Some(label) => label == object,
        None => false,
    }
}

/// What the delta of a rung has beyond a sum.
pub fn cross(rung: &Rung, sum: &Figure) -> Figure
    requires bounded { IsBounded sum.now }
    ensures { result ≡ beyond (delta_in rung.now) sum.now }
{
    match delta(rung) {
        Figure::Is(units) => beyond(units, sum),
        Figure::Unset => Figure::Unset,
        Figure::Up(missing) => Figure::Up(missing),
        Figure::Down(missing) => Figure::Down(missing),
    }
}

fn beyond(units: i128, sum: &Figure) -> Figure
    requires units { IsSmall (Is units) }
    requires bounded { IsBounded sum.now }
    ensures { result ≡ beyond (Is units) sum.now }
{
    match sum {
        Figure::Is(sum) => Figure::Is(units - *sum),
        Figure::Unset => Figure::Unset,
        Figure::Up(missing) => Figure::Up(*missing),
        Figure::Down(missing) => Figure::Down(*missing),
    }
}
