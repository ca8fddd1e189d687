// What steps gain.
ghost use Rattle.std.specs.Prelude.{◌≡◌, ◌-ℤ◌};
ghost use Rattle.tool_runs.specs.Gains.{latter, told, difference};

use crate::told::Told;
use fixed_amount::Amount;

// What a step tells that shows this, over the last money that a step before it showed.
pub(crate) fn told(last: &Option<Amount>, shown: &Option<Amount>) -> Told
    ensures { result ≡ told last.now shown.now }
{
    match (last, shown) {
        (_, None) => Told::Nothing,
        (None, Some(amount)) => Told::Value(amount.units()),
        (Some(before), Some(amount)) => Told::Gain(gained(*before, *amount)),
    }
}

// The latter of two, where it is money.
pub(crate) fn latter(before: &Option<Amount>, shown: &Option<Amount>) -> Option<Amount>
    ensures { result ≡ latter before.now shown.now }
{
    match shown {
        Some(amount) => Some(*amount),
        None => *before,
    }
}

// The last money less the first.
pub(crate) fn difference(first: &Option<Amount>, last: &Option<Amount>) -> Option<i128>
    ensures { result ≡ difference first.now last.now }
{
    match (first, last) {
        (_, None) => None,
        (None, Some(_)) => None,
        (Some(first), Some(last)) => Some(gained(*first, *last)),
    }
}

// An amount less one before it.
fn gained(before: Amount, amount: Amount) -> i128
    ensures { result ≡ amount -ℤ before }
{
    amount.units() - before.units()
}
