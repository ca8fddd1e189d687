// Whole numbers of a row.
ghost use Rattle.std.specs.Prelude.{◌≡◌, IfSome};
ghost use Rattle.flow_terms.specs.Fixings.{IsRate};
ghost use Rattle.row_markets.specs.Numbers.{factor_of, rate_of};

use fixed_amount::{Discount, Rate, read_decimal};

/// A discount factor in units of 10^-12, from 1 to 4 times 10^12.
pub fn whole_factor(text: &str) -> Option<Discount>
    ensures { result ≡ factor_of text.now }
{
    let units = read_decimal(text.as_bytes(), 0).ok()?;
    if units < 1 || units > 4_000_000_000_000 {
        return None;
    }
    Some(Discount(units))
}

/// A rate within 10 either way, in units of 10^-9.
pub fn whole_rate(text: &str) -> Option<Rate>
    ensures rate { result ≡ rate_of text.now }
    ensures ranged { IfSome result IsRate }
{
    let units = read_decimal(text.as_bytes(), 0).ok()?;
    if units < -10_000_000_000 || units > 10_000_000_000 {
        return None;
    }
    Some(Rate(units))
}
