// What words ask for of a script over a market.
ghost use Rattle.std.specs.Prelude.{map, IfOk};
ghost use Rattle.std.specs.String.{string_bytes};
ghost use Rattle.tool_script.specs.Asking.{script_asks, found_in};
ghost use Rattle.tool_script.specs.Found.{CanRun};
ghost use Rattle.tool_script.specs.Status.{script_ends};
ghost use Rattle.tool_frame.specs.Tool.{Finds, shelf_turn};

use crate::{ScriptRun, Status, open_run};
use desk_edge::Shelf;
use std::alloc::Global;
use tool_frame::{Pair, pair_of};

/// What words ask for of a script over a market, by their paths.
pub trait ScriptRequest<'a>: Copy {
    ghost use Rattle.std.specs.Prelude.{◌≡◌, ℕ, List, Option, map, option_map};
    ghost use Rattle.std.specs.String.{string_bytes};

    /// What is asked for, as the definitions see it.
    ghost Meaning: { Type 0 };

    ghost meaning: { Self → Self.Meaning };

    /// The path of the market, and that of the script.
    ghost market: { Self.Meaning → List ℕ };

    ghost script: { Self.Meaning → List ℕ };

    /// What words ask for, if they are some that are taken.
    ghost request_of: { List (List ℕ) → Option Self.Meaning };

    /// What the words ask for, if they are some that are taken.
    fn from_words(words: &'a [String]) -> Option<Self>
        ensures { option_map Self.meaning result ≡ Self.request_of (map string_bytes words.now) };

    /// The path of the market.
    fn market(self) -> &'a str
        ensures { result.now ≡ Self.market (Self.meaning self) };

    /// The path of the script.
    fn script(self) -> &'a str
        ensures { result.now ≡ Self.script (Self.meaning self) };
}

/// A script over a market that were read, and what is asked of them.
#[derive(Drop)]
pub struct FoundRun<R> {
    pub run: ScriptRun,
    pub request: R,
}

/// What the words and the files ask for of a script over a market: the first failure is the answer, that of the words and
/// then that of the files in reading order.
pub fn find_run<'a, R: ScriptRequest<'a>, H: Shelf>(
    alloc: Global,
    words: &'a [String],
    shelf: &mut H,
) -> Result<FoundRun<R>, Status>
    ensures found { Finds script_ends (script_asks R.request_of R.market R.script) (found_in R.meaning) (map string_bytes words.now) result
        (shelf_turn H.contents H.faults H.misses H.calls shelf.old shelf.new) }
    ensures can { IfOk result (λ found. CanRun found.run) }
{
    let Some(request) = R::from_words(words) else {
        return Err(Status::Usage);
    };
    match open_run(alloc, shelf, request.market(), request.script()) {
        Ok(run) => Ok(FoundRun { run, request }),
        Err(status) => Err(status),
    }
}

impl<'a> ScriptRequest<'a> for Pair<'a> {
    ghost use Rattle.tool_frame.specs.Words.{Pair, pair_in, pair_of};

    ghost Meaning = { Pair };

    ghost meaning = { pair_in };

    ghost market = { λ pair. pair.market };

    ghost script = { λ pair. pair.other };

    ghost request_of = { pair_of };

    fn from_words(words: &'a [String]) -> Option<Self> {
        pair_of(words)
    }

    fn market(self) -> &'a str {
        self.market
    }

    fn script(self) -> &'a str {
        self.other
    }
}
