// The words of a command line.
ghost use Rattle.std.specs.Prelude.{◌≡◌, ◌∷◌, [], map, option_map};
ghost use Rattle.std.specs.String.{string_bytes};
ghost use Rattle.tool_frame.specs.Words.{is_word, pair_in, pair_of};

/// The path of a market, and a word after it.
#[derive(Clone, Copy)]
pub struct Pair<'a> {
    pub market: &'a str,
    pub other: &'a str,
}

/// Returns the pair of two accepted words, or none for any other words.
pub fn pair_of(words: &[String]) -> Option<Pair<'_>>
    ensures { option_map pair_in result ≡ pair_of (map string_bytes words.now) }
{
    match words {
        [market, other] => pair_with(market, other),
        _ => None,
    }
}

fn pair_with<'a>(market: &'a str, other: &'a str) -> Option<Pair<'a>>
    ensures { option_map pair_in result ≡ pair_of (market.now ∷ other.now ∷ []) }
{
    if !is_word(market) || !is_word(other) {
        return None;
    }
    Some(Pair { market, other })
}

/// Returns true where a word is accepted: it is not empty and does not begin with `-`.
pub fn is_word(word: &str) -> bool
    ensures { result ≡ is_word word.now }
{
    match word.as_bytes() {
        [] => false,
        [first, ..] => *first != b'-',
    }
}
