// Quiet commands by themselves, and asks, without a round.
ghost use Rattle.std.specs.Prelude.{◌≡◌, true, false, IfOk, OnErr};
ghost use Rattle.std.specs.Result.{result_err};
ghost use Rattle.desk_terms.specs.Reading.{Calc};
ghost use Rattle.desk_model.specs.Links.{is_lazy_at};
ghost use Rattle.desk_model.specs.Sound.{IsSound, KeepsCurrent};
ghost use Rattle.session_core.specs.Pricing.{Prices, StopsShort};
ghost use Rattle.session_model.specs.Pricing.{asking};
ghost use Rattle.session_model.specs.Standing.{IsKnown};
ghost use Rattle.session_model.specs.Quiet.{is_quiet};
ghost use Rattle.session_model.specs.Resolve.{resolve};
ghost use Rattle.session_model.specs.Turn.{turn};
ghost use Rattle.session_model.specs.Course.{taken};

use crate::WatchedSession;
use crate::acting::settle;
use desk_names::ObjId;
use desk_terms::{Asked, Bench};
use session_commands::{Command, Refusal};
use std::alloc::AllocError;
use watch_rounds::Picker;

impl<P: Picker> WatchedSession<P> {
    /// Carries out a quiet command by itself and returns why it is refused, if it is. A refused command changes nothing. No watcher
    /// runs and no line is written. Its notifications are kept, and forgotten when the next step begins its round. Computes nothing
    /// and takes no memory.
    pub fn change(&mut self, command: &Command) -> Option<Refusal>
        requires running { self.old.standing.stopped ≡ false }
        requires known { IsKnown self.old.standing command.now }
        requires quiet { is_quiet command.now ≡ true }
        // It does what a step of the command does before its notifications are handed out.
        ensures turns { (calc : Calc) → self.new ≡ (taken (turn calc self.old.standing command.now) self.old).next }
        ensures refusal { result ≡ result_err (resolve self.old.standing command.now) }
        ensures running { self.new.standing.stopped ≡ false }
        ensures names { self.new.standing.names ≡ self.old.standing.names }
        ensures actions { self.new.standing.actions ≡ self.old.standing.actions }
        ensures keeps { KeepsCurrent self.old.standing.state self.new.standing.state }
        ensures sound { (calc : Calc) → IsSound calc self.old.standing.state → IsSound calc self.new.standing.state }
    {
        self.heard = false;
        self.session.watchers();
        let refusal = self.session.change(command);
        settle(&mut self.rounds, &self.session, false);
        self.settled = true;
        refusal
    }

    /// Asks a lazy object between rounds. Recomputes only what it uses and is out of date, and notifies nobody.
    ///
    /// # Errors
    ///
    /// `AllocError` where memory runs out. Then objects that were recomputed keep their values.
    pub fn ask<B: Bench>(&mut self, object: ObjId, bench: &mut B) -> Result<Asked, AllocError>
        requires lazy { is_lazy_at self.old.standing.state.market object ≡ true }
        requires sound { IsSound (B.calc bench.old) self.old.standing.state }
        ensures same { B.calc bench.new ≡ B.calc bench.old }
        ensures prices { IfOk result (λ answer. Prices (asking (B.calc bench.old) object self.old.standing.state)
            object self.old.standing self.new.standing answer (B.count bench.old) (B.count bench.new)
            (B.log bench.old) (B.log bench.new)) }
        ensures stops { OnErr result (StopsShort (asking (B.calc bench.old) object self.old.standing.state)
            self.old.standing self.new.standing (B.count bench.old) (B.count bench.new)
            (B.log bench.old) (B.log bench.new)) }
        ensures sound { IsSound (B.calc bench.old) self.new.standing.state }
        ensures rounds { self.new ≡ record self.old { standing = self.new.standing } }
    {
        self.settled = false;
        self.heard = false;
        let session = &mut self.session;
        session.desk.ask(object, bench)
    }
}
