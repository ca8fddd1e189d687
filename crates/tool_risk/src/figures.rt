// Figures of two prices.
ghost use Rattle.std.specs.Prelude.{◌≡◌, ◌≤◌, ◌*◌, ◌^◌, unsigned_abs};
ghost use Rattle.fixed_amount.specs.Rounding.{closest};
ghost use Rattle.tool_risk.specs.Figures.{with_down, both_in, delta_in, gamma_in};
ghost use Rattle.tool_risk.specs.FigureSums.{IsSmall};

use bump_model::{Missing, Rung, Side};
use fixed_amount::{Amount, Rounding, div_round};

/// A figure of two prices: that where quotes are moved up, and that where they are moved down.
#[derive(Clone, Copy)]
pub enum Figure {
    /// So many units of an amount, within 2 * 10^26 either way.
    Is(i128),
    /// The quote has no value.
    Unset,
    /// There is no price where they are moved up.
    Up(Missing),
    /// There is none where they are moved down.
    Down(Missing),
}

// What an instrument gains on both sides of a rung.
#[derive(Clone, Copy)]
pub(crate) struct Gains {
    pub(crate) up: Amount,
    pub(crate) down: Amount,
}

/// The delta of a rung: half of the price up less the price down, rounded once, a half away from zero.
pub fn delta(rung: &Rung) -> Figure
    ensures delta { result ≡ delta_in rung.now }
    ensures small { IsSmall result }
{
    match both(rung.up, rung.down) {
        Ok(gains) => Figure::Is(half(gains.up.units() - gains.down.units())),
        Err(figure) => figure,
    }
}

/// The gamma of a rung: the price up and the price down, less twice the base; the change of the delta over a move of the size.
pub fn gamma(rung: &Rung) -> Figure
    ensures { result ≡ gamma_in rung.now }
{
    match both(rung.up, rung.down) {
        Ok(gains) => Figure::Is(gains.up.units() + gains.down.units()),
        Err(figure) => figure,
    }
}

// Half of so many units.
fn half(units: i128) -> i128
    requires { unsigned_abs units ≤ 2 * 10 ^ 26 }
    ensures value { result ≡ closest units 2 }
    ensures bound { unsigned_abs result ≤ 2 * 10 ^ 26 }
{
    div_round(units, 2, Rounding::Closest)
}

// The gains of both sides, or which one has none.
fn both(up: Side, down: Side) -> Result<Gains, Figure>
    ensures { result ≡ both_in up down }
{
    match up {
        Side::Moved(up) => with_down(up, down),
        Side::NoPrice(why) => Err(Figure::Up(why)),
        Side::Unset => Err(Figure::Unset),
    }
}

fn with_down(up: Amount, down: Side) -> Result<Gains, Figure>
    ensures { result ≡ with_down up down }
{
    match down {
        Side::Moved(down) => Ok(Gains { up, down }),
        Side::NoPrice(why) => Err(Figure::Down(why)),
        Side::Unset => Err(Figure::Unset),
    }
}
