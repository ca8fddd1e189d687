// The words of the command line.
ghost use Rattle.std.specs.Prelude.{◌≡◌, map, option_map};
ghost use Rattle.std.specs.String.{string_bytes};
ghost use Rattle.std.specs.List.{list_all};
ghost use Rattle.desk_names.specs.Name.{is_name};
ghost use Rattle.tool_risk.specs.Words.{are_names, size_in, size_of, request_in, request_with};

use desk_names::is_name;
use fixed_amount::{Rate, read_decimal};
use tool_frame::{MarketRequest, is_word};

// The most units that a size has: as many as a rate.
const MOST_SIZE: i64 = 1_000_000_000_000_000_000;

// How many places a size has at most.
const SIZE_PLACES: u8 = 9;

// What the words ask for: the path of a market, how far quotes are moved, and the names of instruments.
#[derive(Clone, Copy)]
pub(crate) struct Request<'a> {
    pub(crate) market: &'a str,
    pub(crate) size: Rate,
    pub(crate) names: &'a [String],
}

impl<'a> MarketRequest<'a> for Request<'a> {
    ghost use Rattle.tool_risk.specs.Words.{Request, request_in, request_of};

    ghost Meaning = { Request };

    ghost meaning = { request_in };

    ghost path = { λ request. request.market };

    ghost request_of = { request_of };

    fn from_words(words: &'a [String]) -> Option<Self> {
        match words {
            [market, size, names @ ..] => request_with(market, size, names),
            _ => None,
        }
    }

    fn market(self) -> &'a str {
        self.market
    }
}

fn request_with<'a>(market: &'a str, size: &str, names: &'a [String]) -> Option<Request<'a>>
    ensures { option_map request_in result ≡ request_with market.now size.now (map string_bytes names.now) }
{
    if !is_word(market) || !are_names(names) {
        return None;
    }
    let size = size_of(size)?;
    Some(Request {
        market,
        size,
        names,
    })
}

// Whether there are words, and each has the form of a name.
fn are_names(words: &[String]) -> bool
    ensures { result ≡ are_names (map string_bytes words.now) }
{
    !words.is_empty() && all_names(words)
}

fn all_names(words: &[String]) -> bool
    ensures { result ≡ list_all is_name (map string_bytes words.now) }
{
    for word in words {
        if !is_name(word.as_bytes()) {
            return false;
        }
    }
    true
}

// The size that a word writes, where it is a decimal of at most nine places above 0 and within the limit of rates.
fn size_of(word: &str) -> Option<Rate>
    ensures { result ≡ size_of word.now }
{
    match read_decimal(word.as_bytes(), SIZE_PLACES) {
        Ok(units) => size_in(units),
        Err(_) => None,
    }
}

// A size of so many units, where it is within its limits.
fn size_in(units: i64) -> Option<Rate>
    ensures { result ≡ size_in units }
{
    if 1 <= units && units <= MOST_SIZE {
        Some(Rate(units))
    } else {
        None
    }
}
