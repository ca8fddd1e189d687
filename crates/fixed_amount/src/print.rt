// Whole numbers of units printed as decimal text.
ghost use Rattle.std.specs.Prelude.{◌≡◌, ℕ, ℤ, pos, neg_ℤ, ◌≤ℤ◌, ◌<ℤ◌, Ok, ◌/◌, ◌%◌, ◌^◌, ◌<◌, ◌≤◌, ◌++◌, ◌↔◌, List, drop, decimal, unsigned_abs, OnOk, OnErr};
ghost use Rattle.fixed_amount.specs.Decimal.{IsExactDecimal, decimal_value, decimal_text, last_digits, point_text};

use itoa::write_digits;
use std::alloc::{AllocError, Global};

// The most bytes of a decimal: a sign, the 39 digits of 2^127, a point and 18 digits.
const MOST_BYTES: usize = 59;

// Ten times a number below this, and a digit more, is one of 64 bits.
const NEAR: u128 = 1_000_000_000_000_000_000;

// The powers of ten, up to the most places of a decimal.
static POWERS: [u64; 19] = [
    1,
    10,
    100,
    1_000,
    10_000,
    100_000,
    1_000_000,
    10_000_000,
    100_000_000,
    1_000_000_000,
    10_000_000_000,
    100_000_000_000,
    1_000_000_000_000,
    10_000_000_000_000,
    100_000_000_000_000,
    1_000_000_000_000_000,
    10_000_000_000_000_000,
    100_000_000_000_000_000,
    1_000_000_000_000_000_000,
];

/// Appends the decimal that writes `value / 10^places`: `-` for a negative value, the whole part without leading
/// zeros, and, where `places` is above 0, a `.` and exactly that many digits. Any value will do, `i128::MIN` too.
/// Memory is taken for `out` alone, and after want of it `out` has its old bytes.
pub fn print_decimal(
    _alloc: Global,
    value: i128,
    places: u8,
    out: &mut Vec<u8>,
) -> Result<(), AllocError>
    requires { places ≤ 18 }
    ensures ok { OnOk result (out.new.items ≡ out.old.items ++ decimal_text value places) }
    ensures err { OnErr result (out.new.items ≡ out.old.items) }
{
    let mut text = [0; MOST_BYTES];
    let start = write_decimal(value, places, &mut text);
    out.extend_from_slice(&text[start..])
}

// Writes the decimal at the end of the buffer, and tells where it starts.
#[tactic(auto, unfolding(crate::specs::Decimal::decimal_text))]
fn write_decimal(value: i128, places: u8, text: &mut [u8; MOST_BYTES]) -> usize
    requires { places ≤ 18 }
    ensures within { result ≤ 59 }
    ensures written { drop result text.new ≡ decimal_text value places }
{
    let size = value.unsigned_abs();
    let start = if size < NEAR {
        write_near(size as u64, places, text)
    } else {
        write_far(size, places, text)
    };
    if value >= 0 {
        return start;
    }
    text[start - 1] = b'-';
    start - 1
}

// Writes the decimal of a number below `NEAR` at the end of the buffer, and tells where it starts: all digits at once, with
// one between the whole part and the fraction that the point takes the place of.
fn write_near(size: u64, places: u8, text: &mut [u8; MOST_BYTES]) -> usize
    requires few { places ≤ 18 }
    requires near { size < 10 ^ 18 }
    ensures start { (1 ≤ result) × (result ≤ 59) }
    ensures written { drop result text.new ≡ decimal (size / 10 ^ places) ++ point_text (last_digits places size) }
{
    if places == 0 {
        return write_digits(size, text, MOST_BYTES);
    }
    let power = power_of_ten(places);
    if size < power {
        let start = write_digits(power * 10 + size, text, MOST_BYTES);
        text[start] = b'0';
        text[start + 1] = b'.';
        return start;
    }
    let part = size % power;
    let start = write_digits((size - part) * 10 + part, text, MOST_BYTES);
    text[MOST_BYTES - 1 - places as usize] = b'.';
    start
}

// The same of any number.
#[inline(never)]
fn write_far(size: u128, places: u8, text: &mut [u8; MOST_BYTES]) -> usize
    requires few { places ≤ 18 }
    ensures start { (1 ≤ result) × (result ≤ 59) }
    ensures written { drop result text.new ≡ decimal (size / 10 ^ places) ++ point_text (last_digits places size) }
{
    let power = power_of_ten(places) as u128;
    let point = write_fraction((size % power) as u64, places, text);
    write_whole(size / power, text, point)
}

// Writes the point and the digits behind it at the end of the buffer, or nothing where there are no places. The digits of
// the part and of the power of ten together begin with a one: the point goes there.
fn write_fraction(part: u64, places: u8, text: &mut [u8; MOST_BYTES]) -> usize
    requires few { places ≤ 18 }
    requires below { part < 10 ^ places }
    ensures start { (40 ≤ result) × (result ≤ 59) }
    ensures written { (number : ℕ) → number % 10 ^ places ≡ part
        → drop result text.new ≡ point_text (last_digits places number) }
{
    if places == 0 {
        return MOST_BYTES;
    }
    let start = write_digits(power_of_ten(places) + part, text, MOST_BYTES);
    text[start] = b'.';
    start
}

// Writes the number so that its digits end at `end`, and tells where they start. Digits past 64 bits go one at a time.
fn write_whole(number: u128, text: &mut [u8; MOST_BYTES], end: usize) -> usize
    requires { (40 ≤ end) × (end ≤ 59) }
    ensures start { (1 ≤ result) × (result ≤ 59) }
    ensures written { drop result text.new ≡ decimal number ++ drop end text.old }
{
    let mut left = number;
    let mut at = end;
    while left > u64::MAX as u128 {
        at -= 1;
        text[at] = b'0' + (left % 10) as u8;
        left /= 10;
    }
    write_digits(left as u64, text, at)
}

/// 10^places, which is positive and at most 10^18.
pub(crate) fn power_of_ten(places: u8) -> u64
    requires { places ≤ 18 }
    ensures value { result ≡ 10 ^ places }
    ensures positive { 0 < result }
    ensures bound { result ≤ 10 ^ 18 }
{
    POWERS[places as usize]
}

/// Law: what is printed of a number of 64 bits is read back as that number.
pub fn round_trip_law()
    ensures { (units : ℤ) (places : ℕ) → neg_ℤ (pos (2 ^ 63)) ≤ℤ units → units <ℤ pos (2 ^ 63)
        → decimal_value (decimal_text units places) places ≡ Ok units }
{}

/// Law: of every number of 128 bits the text that is printed is a decimal with exactly so many places, no surplus zero,
/// no sign before zero and that value, and no other text is.
pub fn exact_decimal_law()
    ensures { (text : List ℕ) (units : ℤ) (places : ℕ) → unsigned_abs units ≤ 2 ^ 127
        → (text ≡ decimal_text units places) ↔ IsExactDecimal text units places }
{}
