// Decimal digits.
ghost use Rattle.std.specs.Prelude.{◌≡◌, ◌≤◌, ◌<◌, ◌^◌, length, IfSome};
ghost use Rattle.day_number.specs.Text.{number_of_text};

/// The number that one to five decimal digits write.
pub(crate) fn number_of(text: &[u8]) -> Option<u32>
    requires { length text.now ≤ 5 }
    ensures value { result ≡ number_of_text text.now }
    ensures small { IfSome result (λ n. n < 10 ^ length text.now) }
{
    if text.is_empty() {
        return None;
    }
    let mut number = 0;
    for byte in text {
        if !byte.is_ascii_digit() {
            return None;
        }
        number = number * 10 + u32::from(*byte - b'0');
    }
    Some(number)
}
