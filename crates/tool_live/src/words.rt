// The words of the command line.
ghost use Rattle.std.specs.Prelude.{◌≡◌, Some, map, option_map};
ghost use Rattle.std.specs.String.{string_bytes};
ghost use Rattle.tool_live.specs.Words.{given_in, request_in, request_of, with_words, with_word, with_order, with_ready, with_path, finished, none_given};

use desk_words::{is_path, joined_order, order_of};
use watch_rounds::Order;

// What words ask for: a market, the script whose commands are done before the lines, where one is named, the order in which due
// watchers run, and whether each line is told as done.
#[derive(Clone, Copy)]
pub(crate) struct Request<'a> {
    pub(crate) market: &'a str,
    pub(crate) script: Option<&'a str>,
    pub(crate) order: Order,
    pub(crate) ready: bool,
}

// What words gave so far; it waits behind `--order` for the text of an order.
#[derive(Clone, Copy)]
pub(crate) struct Given<'a> {
    waits: bool,
    market: Option<&'a str>,
    script: Option<&'a str>,
    order: Option<Order>,
    ready: bool,
}

// The request that words are, if they are one.
pub(crate) fn request_of(words: &[String]) -> Option<Request<'_>>
    ensures { option_map request_in result ≡ request_of (map string_bytes words.now) }
{
    match with_words(none_given(), words) {
        Some(given) => finished(given),
        None => None,
    }
}

// With words more.
fn with_words<'a>(given: Given<'a>, words: &'a [String]) -> Option<Given<'a>>
    ensures { option_map given_in result ≡ with_words (Some (given_in given.entry)) (map string_bytes words.now) }
{
    match words {
        [] => Some(given),
        [word, rest @ ..] => match with_word(given, word) {
            Some(given) => with_words(given, rest),
            None => None,
        },
    }
}

fn none_given<'a>() -> Given<'a>
    ensures { given_in result ≡ none_given }
{
    Given {
        waits: false,
        market: None,
        script: None,
        order: None,
        ready: false,
    }
}

// With one word more.
fn with_word<'a>(given: Given<'a>, word: &'a str) -> Option<Given<'a>>
    ensures { option_map given_in result ≡ with_word (given_in given.entry) word.now }
{
    if given.waits {
        return with_order(given, word);
    }
    if word == "--order" {
        return Some(Given {
            waits: true,
            ..given
        });
    }
    if let Some(order) = joined_order(word) {
        return with_order(given, order);
    }
    if word == "--ready" {
        return with_ready(given);
    }
    with_path(given, word)
}

// With an order, of which there is one at most.
fn with_order<'a>(given: Given<'a>, text: &str) -> Option<Given<'a>>
    ensures { option_map given_in result ≡ with_order (given_in given.entry) text.now }
{
    match (given.order, order_of(text)) {
        (None, Some(order)) => Some(Given {
            waits: false,
            order: Some(order),
            ..given
        }),
        (None, None) => None,
        (Some(_), _) => None,
    }
}

fn with_ready(given: Given<'_>) -> Option<Given<'_>>
    ensures { option_map given_in result ≡ with_ready (given_in given.entry) }
{
    if given.ready {
        return None;
    }
    Some(Given {
        ready: true,
        ..given
    })
}

// With a path: the market's, and then the script's.
fn with_path<'a>(given: Given<'a>, word: &'a str) -> Option<Given<'a>>
    ensures { option_map given_in result ≡ with_path (given_in given.entry) word.now }
{
    if !is_path(word) {
        return None;
    }
    match (given.market, given.script) {
        (None, _) => Some(Given {
            market: Some(word),
            ..given
        }),
        (Some(_), None) => Some(Given {
            script: Some(word),
            ..given
        }),
        (Some(_), Some(_)) => None,
    }
}

// What they ask for, where none is missing.
fn finished(given: Given<'_>) -> Option<Request<'_>>
    ensures { option_map request_in result ≡ finished (Some (given_in given.entry)) }
{
    if given.waits {
        return None;
    }
    match given.market {
        Some(market) => Some(Request {
            market,
            script: given.script,
            order: given.order.unwrap_or(Order::First),
            ready: given.ready,
        }),
        None => None,
    }
}
