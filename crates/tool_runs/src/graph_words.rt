// The words of the command line.
ghost use Rattle.std.specs.Prelude.{◌≡◌, ◌∷◌, [], option_map};
ghost use Rattle.desk_words.specs.Words.{is_path};
ghost use Rattle.tool_runs.specs.GraphWords.{paths_in, paths_of};

use tool_script::ScriptRequest;

// The paths of a market and of a script.
#[derive(Clone, Copy)]
pub(crate) struct Paths<'a> {
    pub(crate) market: &'a str,
    pub(crate) script: &'a str,
}

impl<'a> ScriptRequest<'a> for Paths<'a> {
    ghost use Rattle.tool_runs.specs.GraphWords.{Paths, paths_in, paths_of};

    ghost Meaning = { Paths };

    ghost meaning = { paths_in };

    ghost market = { λ paths. paths.market };

    ghost script = { λ paths. paths.script };

    ghost request_of = { paths_of };

    fn from_words(words: &'a [String]) -> Option<Self> {
        match words {
            [market, script] => paths_with(market, script),
            _ => None,
        }
    }

    fn market(self) -> &'a str {
        self.market
    }

    fn script(self) -> &'a str {
        self.script
    }
}

fn paths_with<'a>(market: &'a str, script: &'a str) -> Option<Paths<'a>>
    ensures { option_map paths_in result ≡ paths_of (market.now ∷ script.now ∷ []) }
{
    if !is_path(market) || !is_path(script) {
        return None;
    }
    Some(Paths { market, script })
}

// Whether a word may be a path: it is not empty, no option, and not `help`.
fn is_path(word: &str) -> bool
    ensures { result ≡ is_path word.now }
{
    match word.as_bytes() {
        [] => false,
        [first, ..] => *first != b'-' && word != "help",
    }
}
