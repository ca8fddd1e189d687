// Decimal text read as a whole number of units.
ghost use Rattle.std.specs.Prelude.{◌≡◌, ℕ, ℤ, List, [], ◌↔◌, Ok, Err, ◌+◌, ◌-◌, ◌^◌, ◌<◌, ◌≤◌, ◌++◌, min, length, take};
ghost use Rattle.std.specs.Str.Parse.{digits_value};
ghost use Rattle.fixed_amount.specs.declared.decimal.DecimalFault.TheVariants.{Empty, Char, Places, Range};
ghost use Rattle.fixed_amount.specs.Decimal.{WritesUnits, HasManyPlaces, IsOutOfRange, IsFirstFault};
ghost use Rattle.fixed_amount.specs.Decimal.{all_digits, digit_count, decimal_value, whole_value, point_value, fraction_value, in_units, in_range, signed};

use crate::decimal::DecimalFault;
use crate::print::power_of_ten;

// A number below this takes one digit more and stays below `FAR`.
const NEAR: u64 = 1_000_000_000_000_000_000;

// Stands for every number from 10^19 on: times any power of ten, each of them is out of range.
const FAR: u64 = 10_000_000_000_000_000_000;

/// The number that a decimal writes, times 10^places: an optional `-`, one or more digits, and optionally a `.` with
/// one or more digits, at most `places` of them. Leading zeros are accepted, and `-0` is 0. The first fault in the
/// order of [`DecimalFault`] is the error. It takes no memory, and time in proportion to the text.
#[tactic(auto, unfolding(crate::specs::Decimal::decimal_value))]
pub fn read_decimal(text: &[u8], places: u8) -> Result<i64, DecimalFault>
    requires { places ≤ 18 }
    ensures { result ≡ decimal_value text.now places }
{
    match text {
        [] => Err(DecimalFault::Empty),
        [b'-', rest @ ..] => read_whole(1, true, rest, places),
        _ => read_whole(0, false, text, places),
    }
}

// What stands behind the sign, `at` bytes into the text.
fn read_whole(at: usize, negative: bool, text: &[u8], places: u8) -> Result<i64, DecimalFault>
    requires few { places ≤ 18 }
    requires room { at + length text.now < 2 ^ 64 }
    ensures { result ≡ whole_value at negative text.now places }
{
    let (count, number) = leading_number(0, text);
    if count == 0 {
        return Err(DecimalFault::Char(at));
    }
    let (_, rest) = text.split_at(count);
    read_point(at + count, negative, number, rest, places)
}

// What stands behind the whole part, `at` bytes into the text. The digits of that part write the number `whole`.
fn read_point(
    at: usize,
    negative: bool,
    whole: u64,
    text: &[u8],
    places: u8,
) -> Result<i64, DecimalFault>
    requires few { places ≤ 18 }
    requires room { at + length text.now < 2 ^ 64 }
    ensures { (digits : List ℕ) → whole ≡ min (digits_value 10 digits) (10 ^ 19) → result ≡ point_value at negative digits text.now places }
{
    match text {
        [] => units(negative, whole, 0, places),
        [b'.', fraction @ ..] => read_fraction(at + 1, negative, whole, fraction, places),
        _ => Err(DecimalFault::Char(at)),
    }
}

// What stands behind the point, `at` bytes into the text. Its digits are read on behind those of the number `whole`.
fn read_fraction(
    at: usize,
    negative: bool,
    whole: u64,
    text: &[u8],
    places: u8,
) -> Result<i64, DecimalFault>
    requires few { places ≤ 18 }
    requires room { at + length text.now < 2 ^ 64 }
    ensures { (digits : List ℕ) → whole ≡ min (digits_value 10 digits) (10 ^ 19) → result ≡ fraction_value at negative digits text.now places }
{
    let (count, number) = leading_number(whole, text);
    if count < text.len() {
        return Err(DecimalFault::Char(at + count));
    }
    if count == 0 {
        return Err(DecimalFault::Char(at));
    }
    units(negative, number, count, places)
}

// How many digits the text begins with, and the number that they write behind those of `before`, or `FAR` where it is that
// or more. Each digit is looked at once.
fn leading_number(before: u64, text: &[u8]) -> (usize, u64)
    ensures count { result.0 ≡ digit_count text.now }
    ensures bound { result.0 ≤ length text.now }
    ensures number { (digits : List ℕ) → before ≡ min (digits_value 10 digits) (10 ^ 19)
        → result.1 ≡ min (digits_value 10 (digits ++ take (digit_count text.now) text.now)) (10 ^ 19) }
{
    let mut count = 0;
    let mut number = before;
    for byte in text {
        if !byte.is_ascii_digit() {
            return (count, number);
        }
        number = if number < NEAR {
            number * 10 + (*byte - b'0') as u64
        } else {
            FAR
        };
        count += 1;
    }
    (count, number)
}

// The units that the digits of a whole part and of a fraction write together, the fraction of so many digits.
fn units(negative: bool, number: u64, count: usize, places: u8) -> Result<i64, DecimalFault>
    requires few { places ≤ 18 }
    ensures { (digits fraction : List ℕ) → number ≡ min (digits_value 10 (digits ++ fraction)) (10 ^ 19) → count ≡ length fraction
        → result ≡ in_units negative digits fraction places }
{
    if count > places as usize {
        return Err(DecimalFault::Places);
    }
    ranged(
        negative,
        number.saturating_mul(power_of_ten(places - count as u8)),
    )
}

// The number of this size and sign, where 64 bits hold it.
fn ranged(negative: bool, size: u64) -> Result<i64, DecimalFault>
    ensures { result ≡ in_range (signed negative size) }
{
    if negative {
        if size > 1 << 63 {
            return Err(DecimalFault::Range);
        }
        return Ok(if size == 0 {
            0
        } else {
            -((size - 1) as i64) - 1
        });
    }
    if size >= 1 << 63 {
        return Err(DecimalFault::Range);
    }
    Ok(size as i64)
}

/// Law: what `decimal_value` answers, by the grammar. Each answer comes exactly where the text is of its kind.
pub fn reading_law()
    ensures value { (text : List ℕ) (places : ℕ) (units : ℤ)
        → (decimal_value text places ≡ Ok units) ↔ WritesUnits text places units }
    ensures empty { (text : List ℕ) (places : ℕ)
        → (decimal_value text places ≡ Err Empty) ↔ (text ≡ []) }
    ensures character { (text : List ℕ) (places at : ℕ)
        → (decimal_value text places ≡ Err (Char at)) ↔ IsFirstFault text at }
    ensures many_places { (text : List ℕ) (places : ℕ)
        → (decimal_value text places ≡ Err Places) ↔ HasManyPlaces text places }
    ensures out_of_range { (text : List ℕ) (places : ℕ)
        → (decimal_value text places ≡ Err Range) ↔ IsOutOfRange text places }
{}
