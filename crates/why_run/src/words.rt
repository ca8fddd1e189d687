// The words of the command line.
ghost use Rattle.std.specs.Prelude.{◌≡◌, ◌∷◌, [], option_map};
ghost use Rattle.why_run.specs.Words.{triple_in, triple_of};

use desk_names::is_name;
use tool_frame::is_word;
use tool_script::ScriptRequest;

// The path of a market, that of a script, and a name.
#[derive(Clone, Copy)]
pub(crate) struct Triple<'a> {
    pub(crate) market: &'a str,
    pub(crate) script: &'a str,
    pub(crate) name: &'a str,
}

impl<'a> ScriptRequest<'a> for Triple<'a> {
    ghost use Rattle.why_run.specs.Words.{Triple, triple_in, triple_of};

    ghost Meaning = { Triple };

    ghost meaning = { triple_in };

    ghost market = { λ triple. triple.market };

    ghost script = { λ triple. triple.script };

    ghost request_of = { triple_of };

    fn from_words(words: &'a [String]) -> Option<Self> {
        match words {
            [market, script, name] => triple_with(market, script, name),
            _ => None,
        }
    }

    fn market(self) -> &'a str {
        self.market
    }

    fn script(self) -> &'a str {
        self.script
    }
}

fn triple_with<'a>(market: &'a str, script: &'a str, name: &'a str) -> Option<Triple<'a>>
    ensures { option_map triple_in result ≡ triple_of (market.now ∷ script.now ∷ name.now ∷ []) }
{
    if !is_word(market) || !is_word(script) || !is_name(name.as_bytes()) {
        return None;
    }
    Some(Triple {
        market,
        script,
        name,
    })
}
