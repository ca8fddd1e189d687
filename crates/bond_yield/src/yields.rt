// The least yield that meets a price.
ghost use Rattle.std.specs.Prelude.{◌≡◌, true, ℕ, length, ◌<◌, ◌≤◌, ◌≤ℤ◌, ◌<ℤ◌, pos};
ghost use Rattle.flow_terms.specs.declared.limits.TheConstants.{MOST_FLOWS};
ghost use Rattle.bond_yield.specs.declared.yields.TheConstants.{MOST_YIELD};
ghost use Rattle.bond_yield.specs.Fixed.{are_known};
ghost use Rattle.bond_yield.specs.Price.{full_price};

use crate::prices::price_at;
use day_number::Day;
use fixed_amount::{Amount, Rate};
use flow_terms::FlowTerm;

/// The greatest yield, in units of 10^-9: 10.
pub const MOST_YIELD: u64 = 10_000_000_000;

/// The greatest clean price either way, in units of 10^-6.
pub const MOST_CLEAN: u128 = 10_000_000_000_000_000_000;

/// The least yield at which the full price is not above a price, found by halving.
pub(crate) fn least_yield(flows: &[FlowTerm], settle: Day, price: Amount) -> u64
    requires known { are_known flows.now ≡ true }
    requires count { length flows.now ≤ MOST_FLOWS }
    requires met { full_price flows.now settle MOST_YIELD ≤ℤ price }
    ensures high { result ≤ MOST_YIELD }
    ensures meets { full_price flows.now settle result ≤ℤ price }
    ensures least { (y : ℕ) → y < result → price <ℤ full_price flows.now settle y }
{
    let mut low: u64 = 0;
    let mut high = MOST_YIELD;
    while low < high {
        let middle = low + (high - low) / 2;
        if price_at(flows, settle, middle) <= price {
            high = middle;
        } else {
            low = middle + 1;
        }
    }
    high
}

/// A rate of so many units.
pub(crate) fn rate(units: u64) -> Rate
    requires { units ≤ MOST_YIELD }
    ensures { result ≡ pos units }
{
    Rate(units as i64)
}
