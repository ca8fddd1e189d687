// Makes sessions of a market and a script.
ghost use Rattle.std.specs.Prelude.{◌≡◌, false, All, IfOk};
ghost use Rattle.desk_terms.specs.Reading.{Calc};
ghost use Rattle.desk_model.specs.Sound.{IsSound};
ghost use Rattle.market_file.specs.Standing.{IsReady};
ghost use Rattle.script_words.specs.Given.{Grows};
ghost use Rattle.session_commands.specs.Whole.{IsScript};
ghost use Rattle.session_lang.specs.Given.{GivesAt};
ghost use Rattle.session_lang.specs.Reading.{script_meaning};
ghost use Rattle.session_model.specs.Standing.{IsKnown};
ghost use Rattle.pricing_session.specs.Opening.{opened};

use crate::{ActionCount, PricingSession};
use day_number::Day;
use desk_names::Names;
use desk_terms::Bench;
use market_file::MadeList;
use market_session::{begun, watched_session};
use session_commands::{CommandList, Script};
use session_lang::{ScriptFault, read_script};
use session_rounds::WatchedSession;
use std::alloc::Global;
use watch_rounds::Picker;

/// A market as `read_market` returns it: the names of its objects, its evaluation date, and the objects in order of creation.
#[derive(Drop)]
pub struct NamedMarket {
    pub names: Names,
    pub today: Day,
    pub made: MadeList,
}

/// Makes the session, without a bench, of a market and a script. Returns it with the commands of the script outside blocks, none
/// of which is done yet. The names are those of the market and of the script, the actions those of the script. The session
/// meets all that a step and a change require of it, and knows each of these commands.
///
/// # Errors
///
/// The first fault of the script, or `NoMemory`.
pub fn session_for<P: Picker + Drop>(
    alloc: Global,
    market: NamedMarket,
    text: &[u8],
    picker: P,
) -> Result<(WatchedSession<P>, CommandList), ScriptFault>
    requires ready { IsReady market.names market.made.items }
    ensures opens { GivesAt (λ begun. (begun.0, begun.1)) result
        (opened picker market.names market.today market.made.items text.now) }
    ensures running { IfOk result (λ begun. begun.0.standing.stopped ≡ false) }
    ensures known { IfOk result (λ begun. All (IsKnown begun.0.standing) begun.1) }
    ensures sound { IfOk result (λ begun. (calc : Calc) → IsSound calc begun.0.standing.state) }
{
    let NamedMarket {
        mut names,
        today,
        made,
    } = market;
    let script = read(alloc, text, &mut names)?;
    let begun = begun(alloc, names, today, made, script, picker)?;
    Ok(begun)
}

impl<P: Picker + Drop, B: Bench + Drop> PricingSession<P, B> {
    /// Makes the session of a market and a script. Returns it with the commands of the script outside blocks, none of which is done
    /// yet: hand them to `step`. The names are those of the market and of the script, the actions those of the script.
    ///
    /// # Errors
    ///
    /// The first fault of the script, or `NoMemory`.
    pub fn open(
        alloc: Global,
        market: NamedMarket,
        script: &[u8],
        picker: P,
        bench: B,
    ) -> Result<(PricingSession<P, B>, CommandList), ScriptFault>
        requires ready { IsReady market.names market.made.items }
        ensures opens { GivesAt (λ begun. (begun.0.running, begun.1)) result
            (opened picker market.names market.today market.made.items script.now) }
        ensures bench { IfOk result (λ begun. begun.0.bench ≡ bench) }
    {
        let NamedMarket {
            mut names,
            today,
            made,
        } = market;
        let script = read(alloc, script, &mut names)?;
        let beside = ActionCount {
            actions: script.actions.len(),
        };
        let session = watched_session(alloc, names, today, made, script.actions, picker)?;
        let session = PricingSession {
            session,
            bench,
            beside,
        };
        Ok((session, script.commands))
    }
}

// Reads a script.
pub(crate) fn read(alloc: Global, text: &[u8], names: &mut Names) -> Result<Script, ScriptFault>
    ensures gives { GivesAt (λ s. (s, names.new)) result (script_meaning names.old text.now) }
    ensures whole { IfOk result (λ s. IsScript names.new s) }
    ensures grows { Grows names.old names.new }
{
    let _ = names.len();
    read_script(alloc, text, names)
}
