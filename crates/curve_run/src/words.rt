// The words of the command line.
ghost use Rattle.std.specs.Prelude.{◌≡◌, map, option_map, codes};
ghost use Rattle.std.specs.String.{string_bytes};
ghost use Rattle.std.specs.Str.{bytes_eq};
ghost use Rattle.std.specs.List.{list_all};
ghost use Rattle.tool_frame.specs.Words.{is_word};
ghost use Rattle.curve_run.specs.Words.{is_flag, plot_flag, request_in, request_drawn, request_with};

use curve_drawing::Plot;
use tool_frame::{MarketRequest, is_word};

/// How many curves are drawn at most: as many as there are colours.
pub(crate) const MOST_CURVES: usize = 8;

// What the words ask for: a table or a picture, what is drawn, the path of a market, and the names of curves.
#[derive(Clone, Copy)]
pub(crate) struct Request<'a> {
    pub(crate) as_table: bool,
    pub(crate) plot: Plot,
    pub(crate) market: &'a str,
    pub(crate) curves: &'a [String],
}

impl<'a> MarketRequest<'a> for Request<'a> {
    ghost use Rattle.curve_run.specs.Words.{Request, request_in, request_of};

    ghost Meaning = { Request };

    ghost meaning = { request_in };

    ghost path = { λ request. request.market };

    ghost request_of = { request_of };

    fn from_words(words: &'a [String]) -> Option<Self> {
        match words {
            [] => None,
            [first, rest @ ..] => {
                if is_flag(first) {
                    request_drawn(true, rest)
                } else {
                    request_drawn(false, words)
                }
            }
        }
    }

    fn market(self) -> &'a str {
        self.market
    }
}

// The same of the words behind `--csv`, or of all where it is not there.
fn request_drawn(as_table: bool, words: &[String]) -> Option<Request<'_>>
    ensures { option_map request_in result ≡ request_drawn as_table (map string_bytes words.now) }
{
    match words {
        [] => None,
        [first, rest @ ..] => match plot_flag(first) {
            None => request_with(as_table, Plot::Factors, words),
            Some(plot) => request_with(as_table, plot, rest),
        },
    }
}

// What is drawn by an option.
fn plot_flag(word: &str) -> Option<Plot>
    ensures { result ≡ plot_flag word.now }
{
    if word == "--zero" {
        Some(Plot::Zeros)
    } else if word == "--forward" {
        Some(Plot::Forwards)
    } else if word == "--par" {
        Some(Plot::Pars)
    } else {
        None
    }
}

// The same of the words behind all options.
fn request_with(as_table: bool, plot: Plot, words: &[String]) -> Option<Request<'_>>
    ensures { option_map request_in result ≡ request_with as_table plot (map string_bytes words.now) }
{
    match words {
        [] => None,
        [market, curves @ ..] => {
            if !is_word(market)
                || curves.is_empty()
                || curves.len() > MOST_CURVES
                || !are_words(curves)
            {
                return None;
            }
            Some(Request {
                as_table,
                plot,
                market,
                curves,
            })
        }
    }
}

// Whether each word is taken.
fn are_words(words: &[String]) -> bool
    ensures { result ≡ list_all is_word (map string_bytes words.now) }
{
    for word in words {
        if !is_word(word) {
            return false;
        }
    }
    true
}

// Whether a word is `--csv`.
fn is_flag(word: &str) -> bool
    ensures { result ≡ is_flag word.now }
{
    word == "--csv"
}
