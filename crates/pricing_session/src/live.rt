// A session that takes lines, with its bench.
ghost use Rattle.std.specs.Prelude.{◌≡◌, ◌⊎◌, ◌↔◌, ◌^◌, ◌-◌, true, false, All, IfOk, OnOk, IsErrOf};
ghost use Rattle.market_file.specs.Standing.{IsReady};
ghost use Rattle.session_lang.specs.Given.{GivesAt};
ghost use Rattle.session_model.specs.Standing.{IsKnown};
ghost use Rattle.session_rounds.specs.Goes.{Halts};
ghost use Rattle.live_model.specs.Live.{said};
ghost use Rattle.live_session.specs.Saying.{IsSaid, as_course, IsCutShort};
ghost use Rattle.pricing_session.specs.Speaking.{as_live, live_market, live_opened};

use crate::opening::read;
use crate::{LiveSession, NamedMarket};
use desk_names::Names;
use desk_terms::Bench;
use live_session::{Lines, SayFault, texts_of};
use market_session::watched_session;
use session_commands::{Actions, CommandList};
use session_lang::ScriptFault;
use std::alloc::{AllocError, Global};
use watch_rounds::Picker;

impl<P: Picker + Drop, B: Bench + Drop> LiveSession<P, B> {
    /// Makes the session of a market as `read_market` returns it, without actions.
    ///
    /// # Errors
    ///
    /// `AllocError` where memory runs out.
    pub fn new(
        alloc: Global,
        market: NamedMarket,
        picker: P,
        bench: B,
    ) -> Result<LiveSession<P, B>, AllocError>
        requires ready { IsReady market.names market.made.items }
        ensures begins { IfOk result (λ begun. as_live begun
            ≡ live_market picker market.names market.today market.made.items) }
        ensures running { IfOk result (λ begun. begun.running.standing.stopped ≡ false) }
        ensures bench { IfOk result (λ begun. begun.bench ≡ bench) }
    {
        let NamedMarket { names, today, made } = market;
        let session = watched_session(alloc, names, today, made, Actions::new(alloc), picker)?;
        Ok(LiveSession {
            session,
            bench,
            beside: Lines::new(alloc, Names::new(alloc)),
        })
    }

    /// Makes the session of a market and a script. Returns it with the commands of the script outside blocks, none of which is done
    /// yet: hand them to `step`. The names are those of the market and of the script, the actions those of the script.
    ///
    /// # Errors
    ///
    /// The first fault of the script, or `NoMemory`.
    pub fn open(
        alloc: Global,
        market: NamedMarket,
        script: &[u8],
        picker: P,
        bench: B,
    ) -> Result<(LiveSession<P, B>, CommandList), ScriptFault>
        requires ready { IsReady market.names market.made.items }
        ensures opens { GivesAt (λ begun. (as_live begun.0, begun.1)) result
            (live_opened picker market.names market.today market.made.items script.now) }
        // It is not stopped, and knows each of these commands.
        ensures running { IfOk result (λ begun. begun.0.running.standing.stopped ≡ false) }
        ensures known { IfOk result (λ begun. All (IsKnown begun.0.running.standing) begun.1) }
        ensures bench { IfOk result (λ begun. begun.0.bench ≡ bench) }
    {
        let NamedMarket {
            mut names,
            today,
            made,
        } = market;
        let script = read(alloc, script, &mut names)?;
        let begun = texts_of(alloc, &names, script.action_names.items())?;
        let session = watched_session(alloc, names, today, made, script.actions, picker)?;
        let session = LiveSession {
            session,
            bench,
            beside: Lines::new(alloc, begun),
        };
        Ok((session, script.commands))
    }

    /// Carries out a line and appends what it writes: the lines of its round, or its fault, which changes nothing else. `line` has
    /// no newline. A line longer than 65,536 bytes may be cut to any longer prefix. Lines are counted from 1.
    ///
    /// # Errors
    ///
    /// Those of `Lines::say`.
    pub fn say(&mut self, line: &[u8], out: &mut Vec<u8>) -> Result<(), SayFault>
        ensures says { OnOk result (IsSaid P (said (record { calc = B.calc self.old.bench; at = P.at; after = P.after }) (as_live self.old) line.now)
            (as_live self.new) (record { lines = out.old.items; count = B.count self.old.bench; log = B.log self.old.bench })
            (record { lines = out.new.items; count = B.count self.new.bench; log = B.log self.new.bench })) }
        ensures calc { B.calc self.new.bench ≡ B.calc self.old.bench }
        ensures runs { OnOk result (self.new.running.standing.stopped ≡ false) }
        // Out of memory, the line is not counted, and a prefix of what it writes was appended.
        ensures halts { IsErrOf result SayFault.NoMemory → Halts P (as_course (said (record { calc = B.calc self.old.bench; at = P.at; after = P.after }) (as_live self.old) line.now))
            (record { lines = out.old.items; count = B.count self.old.bench; log = B.log self.old.bench })
            (record { lines = out.new.items; count = B.count self.new.bench; log = B.log self.new.bench }) }
        ensures cut { IsErrOf result SayFault.NoMemory → IsCutShort P line.now (as_live self.old) (as_live self.new) }
        // It is not tried exactly in these cases. Then nothing has changed.
        ensures stopped { IsErrOf result SayFault.Stopped ↔ (self.old.running.standing.stopped ≡ true) }
        ensures many { IsErrOf result SayFault.TooManyLines
            ↔ ((self.old.running.standing.stopped ≡ false) × (self.old.beside.line ≡ 2 ^ 64 - 1)) }
        ensures same { IsErrOf result SayFault.Stopped ⊎ IsErrOf result SayFault.TooManyLines
            → (self.new ≡ self.old) × (out.new.items ≡ out.old.items) }
    {
        let mut words = self.beside.words();
        self.beside
            .say(&mut self.session, line, &mut words, &mut self.bench, out)
    }
}
