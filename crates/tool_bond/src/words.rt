// The words of the command line.
ghost use Rattle.std.specs.Prelude.{◌≡◌, ◌∷◌, [], option_map, IfSome};
ghost use Rattle.jiff_core.specs.Calendar.{IsWithin};
ghost use Rattle.tool_bond.specs.Words.{most_price, price_of, price_in, request_in, request_of};

use day_number::{Day, read_day};
use fixed_amount::{Amount, read_decimal};
use tool_frame::{MarketRequest, is_word};

// The greatest price either way, in units of 10^-6: 10^12.
const MOST_PRICE: u64 = 1_000_000_000_000_000_000;

// How many places a price has at most.
const PRICE_PLACES: u8 = 6;

// What the words ask for: the path of a market, the name of a bond, a settlement day and a clean price.
#[derive(Clone, Copy)]
pub(crate) struct Request<'a> {
    pub(crate) market: &'a str,
    pub(crate) name: &'a str,
    pub(crate) settle: Day,
    pub(crate) clean: Amount,
}

impl<'a> MarketRequest<'a> for Request<'a> {
    ghost use Rattle.jiff_core.specs.Calendar.{IsWithin};
    ghost use Rattle.tool_bond.specs.Words.{Request, most_price, request_in, request_of};

    ghost Meaning = { Request };

    ghost meaning = { request_in };

    ghost path = { λ request. request.market };

    ghost request_of = { request_of };

    ghost IsTaken = { λ request. IsWithin most_price request.clean };

    fn from_words(words: &'a [String]) -> Option<Self> {
        match words {
            [market, name, day, price] => request_with(market, name, day, price),
            _ => None,
        }
    }

    fn market(self) -> &'a str {
        self.market
    }
}

fn request_with<'a>(market: &'a str, name: &'a str, day: &str, price: &str) -> Option<Request<'a>>
    ensures request { option_map request_in result ≡ request_of (market.now ∷ name.now ∷ day.now ∷ price.now ∷ []) }
    ensures price { IfSome result (λ request. IsWithin most_price request.clean) }
{
    if !is_word(market) || !is_word(name) {
        return None;
    }
    let settle = read_day(day.as_bytes())?;
    let clean = price_of(price)?;
    Some(Request {
        market,
        name,
        settle,
        clean,
    })
}

// The price that a word writes, where it is a decimal of at most six places within the limit.
fn price_of(word: &str) -> Option<Amount>
    ensures price { result ≡ price_of word.now }
    ensures range { IfSome result (IsWithin most_price) }
{
    match read_decimal(word.as_bytes(), PRICE_PLACES) {
        Ok(units) => price_in(units),
        Err(_) => None,
    }
}

// A price of so many units, where it is within the limit.
fn price_in(units: i64) -> Option<Amount>
    ensures price { result ≡ price_in units }
    ensures range { IfSome result (IsWithin most_price) }
{
    if units.unsigned_abs() > MOST_PRICE {
        return None;
    }
    Some(Amount(i128::from(units)))
}
