// The three fixed-point types, and the rounded quotient of their units. A clause sees each as the whole number of its units.
ghost use Rattle.std.specs.Prelude.{◌≡◌, ℕ, ◌≤◌, ◌*◌, ◌^◌, ℤ, pos, ◌≤ℤ◌, ◌+◌, ◌+ℤ◌, ◌*ℤ◌, unsigned_abs};
ghost use Rattle.fixed_amount.specs.Rounding.{rounded, down, up, closest, IsDown, IsUp, IsClosest};

use std::marker::Model;

/// A rate or the value of a quote, in units of 10^-9, within 10^18 units either way.
#[derive(Clone, Copy, Debug, PartialEq, Eq, PartialOrd, Ord)]
pub struct Rate(pub i64);

impl Model for Rate {
    ghost use Rattle.std.specs.Prelude.{ℤ, pos, neg_ℤ, ◌≤ℤ◌, ◌^◌};

    ghost Value = { ℤ };

    ghost view = { λ r. r.0 };

    ghost invariant = { λ r. (neg_ℤ (pos (10 ^ 18)) ≤ℤ r.0) × (r.0 ≤ℤ pos (10 ^ 18)) };

    ghost inverse = { λ units. record { 0 = units } };
}

impl Rate {
    /// How many units it is.
    pub fn units(self) -> i64
        ensures { result ≡ self }
    {
        self.0
    }
}

/// An amount of money, in units of 10^-6, within 10^26 units either way.
#[derive(Clone, Copy, Debug, PartialEq, Eq, PartialOrd, Ord)]
pub struct Amount(pub i128);

impl Model for Amount {
    ghost use Rattle.std.specs.Prelude.{ℤ, pos, neg_ℤ, ◌≤ℤ◌, ◌^◌};

    ghost Value = { ℤ };

    ghost view = { λ a. a.0 };

    ghost invariant = { λ a. (neg_ℤ (pos (10 ^ 26)) ≤ℤ a.0) × (a.0 ≤ℤ pos (10 ^ 26)) };

    ghost inverse = { λ units. record { 0 = units } };
}

impl Amount {
    /// How many units it is.
    pub fn units(self) -> i128
        ensures { result ≡ self }
    {
        self.0
    }
}

/// A discount factor, in units of 10^-12, from 1 to 4 * 10^12 units.
#[derive(Clone, Copy, Debug, PartialEq, Eq, PartialOrd, Ord)]
pub struct Discount(pub i64);

impl Model for Discount {
    ghost use Rattle.std.specs.Prelude.{ℤ, pos, ◌≤ℤ◌, ◌*◌, ◌^◌};

    ghost Value = { ℤ };

    ghost view = { λ d. d.0 };

    ghost invariant = { λ d. (pos 1 ≤ℤ d.0) × (d.0 ≤ℤ pos (4 * 10 ^ 12)) };

    ghost inverse = { λ units. record { 0 = units } };
}

impl Discount {
    /// How many units it is.
    pub fn units(self) -> i64
        ensures value { result ≡ self }
        ensures low { pos 1 ≤ℤ result }
        ensures high { result ≤ℤ pos (4 * 10 ^ 12) }
    {
        self.0
    }
}

/// How a quotient becomes a whole number: towards zero, away from zero, or to the nearest, a half away from zero
/// (QuantLib's `Rounding`).
#[derive(Clone, Copy, PartialEq, Eq)]
pub enum Rounding {
    Down,
    Up,
    Closest,
}

/// `num / den`, rounded to a whole number. Any `num` will do, `i128::MIN` too.
pub fn div_round(num: i128, den: i128, how: Rounding) -> i128
    requires { pos 1 ≤ℤ den }
    ensures { result ≡ rounded how num (unsigned_abs den) }
{
    let size = rounded_size(num.unsigned_abs(), den.unsigned_abs(), how);
    if num >= 0 {
        return size as i128;
    }
    if size == 0 {
        return 0;
    }
    -((size - 1) as i128) - 1
}

// The magnitude of a rounded quotient, which is at most the numerator's.
fn rounded_size(num: u128, den: u128, how: Rounding) -> u128
    requires { 1 ≤ den }
    ensures value { pos result ≡ rounded how (pos num) den }
    ensures bound { result ≤ num }
{
    let whole = num / den;
    let rest = num % den;
    let more = match how {
        Rounding::Down => false,
        Rounding::Up => rest > 0,
        Rounding::Closest => rest >= den - rest,
    };
    if more { whole + 1 } else { whole }
}

/// Law: each rounding in its own words, and the nearest quotient never exceeds its numerator.
pub fn rounding_law()
    ensures down { (n : ℤ) (d : ℕ) → 1 ≤ d → IsDown n d (down n d) }
    ensures up { (n : ℤ) (d : ℕ) → 1 ≤ d → IsUp n d (up n d) }
    ensures closest { (n : ℤ) (d : ℕ) → 1 ≤ d → IsClosest n d (closest n d) }
    ensures bound { (n : ℤ) (d : ℕ) → 1 ≤ d → unsigned_abs (closest n d) ≤ unsigned_abs n }
{}

/// Law: a numerator from zero on that grows by at most the divisor moves the nearest quotient up by 0 or 1, and a
/// quotient between two whole numbers stays between them when it is rounded to the nearest.
pub fn closest_steps_law()
    ensures rises { (n d u : ℕ) → 1 ≤ d → closest (pos n) d ≤ℤ closest (pos (n + u)) d }
    ensures by_one { (n d u : ℕ) → 1 ≤ d → u ≤ d → closest (pos (n + u)) d ≤ℤ (closest (pos n) d +ℤ pos 1) }
    ensures from { (n low : ℤ) (d : ℕ) → 1 ≤ d → (low *ℤ pos d) ≤ℤ n → low ≤ℤ closest n d }
    ensures to { (n high : ℤ) (d : ℕ) → 1 ≤ d → n ≤ℤ (high *ℤ pos d) → closest n d ≤ℤ high }
{}
