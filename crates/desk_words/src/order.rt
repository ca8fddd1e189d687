// The order of a run, as a word names it, and the numbers in words.
ghost use Rattle.std.specs.Prelude.{◌≡◌, option_map};
ghost use Rattle.std.specs.Char.{is_ascii_digit};
ghost use Rattle.std.specs.List.{list_all};
ghost use Rattle.desk_words.specs.Words.{is_number, number_of, order_of, joined_order};

use watch_rounds::Order;

/// The order that a text names: `first`, `last`, or the seed of a generator.
pub fn order_of(text: &str) -> Option<Order>
    ensures { result ≡ order_of text.now }
{
    match text {
        "first" => Some(Order::First),
        "last" => Some(Order::Last),
        _ => match number_of(text) {
            Some(seed) => Some(Order::Seed(seed)),
            None => None,
        },
    }
}

/// The text behind `--order=`, where the word begins with it.
pub fn joined_order(word: &str) -> Option<&str>
    ensures { option_map (λ order. order.now) result ≡ joined_order word.now }
{
    word.strip_prefix("--order=")
}

/// The number that decimal digits without leading zeros write, where it fits 64 bits.
pub(crate) fn number_of(text: &str) -> Option<u64>
    ensures { result ≡ number_of text.now }
{
    if !is_number(text.as_bytes()) {
        return None;
    }
    match text.parse::<u64>() {
        Ok(number) => Some(number),
        Err(_) => None,
    }
}

// Whether a text is decimal digits, the first of several not a zero.
fn is_number(text: &[u8]) -> bool
    ensures { result ≡ is_number text.now }
{
    match text {
        [] => false,
        [first, rest @ ..] => { are_digits(text) && (*first != b'0' || rest.is_empty()) }
    }
}

// Whether each byte is a decimal digit.
fn are_digits(text: &[u8]) -> bool
    ensures { result ≡ list_all is_ascii_digit text.now }
{
    text.iter().all(|byte| byte.is_ascii_digit())
}
