// A session with its bench.
ghost use Rattle.std.specs.Prelude.{◌≡◌, ◌⊎◌, ◌↔◌, true, false, None, IfOk, IfSome, OnOk, OnErr, IsErrOf, IsOk, IsTrue};
ghost use Rattle.std.specs.Result.{result_err};
ghost use Rattle.desk_names.specs.Names.{has_text, place_of};
ghost use Rattle.desk_terms.specs.Reading.{Calc};
ghost use Rattle.session_core.specs.Values.{held_of};
ghost use Rattle.session_model.specs.Course.{taken, round_of, opened as begun};
ghost use Rattle.session_model.specs.Resolve.{resolve};
ghost use Rattle.session_model.specs.Standing.{IsKnown};
ghost use Rattle.session_model.specs.Turn.{turn};
ghost use Rattle.session_rounds.specs.Goes.{Does, Halts, Stays, HasEnded};
ghost use Rattle.session_rounds.specs.Quiet.{IsQuiet};
ghost use Rattle.pricing_session.specs.Taking.{Takes, Misses, LeavesToAStep};

use crate::known::is_known;
use crate::{ActionCount, Beside, ChangeFault, StepFault};
use desk_names::NameId;
use desk_terms::{Asked, Bench};
use live_session::Lines;
use session_commands::{Command, Refusal};
use session_model::is_quiet;
use session_rounds::WatchedSession;
use std::alloc::AllocError;
use std::marker::Model;
use std::ops::Deref;
use watch_rounds::Picker;

/// A session with the bench by which it prices, and data beside it. All its values were computed by that bench.
pub struct BenchSession<P: Picker + Drop, B: Bench + Drop, L: Beside<P> + Drop> {
    pub(crate) session: WatchedSession<P>,
    pub(crate) bench: B,
    /// The data beside it: the lines of a live session, or the number of actions.
    pub beside: L,
}

/// A session with its bench that takes commands as values.
pub type PricingSession<P, B> = BenchSession<P, B, ActionCount>;

/// A session with its bench that takes lines. Lines make objects and actions. Calls by number ask, too.
pub type LiveSession<P, B> = BenchSession<P, B, Lines>;

// Each exit of an owner of a session calls this once, instead of dropping each field.
impl<P: Picker + Drop, B: Bench + Drop, L: Beside<P> + Drop> Drop for BenchSession<P, B, L> {
    fn drop(self) {
        let BenchSession {
            session: _,
            bench: _,
            beside: _,
        } = self;
    }
}

impl<P: Picker + Drop, B: Bench + Drop, L: Beside<P> + Drop> Model for BenchSession<P, B, L> {
    ghost use Rattle.desk_model.specs.Sound.{IsSound};
    ghost use Rattle.pricing_session.specs.Pricing.{Pricing};

    ghost Value = { Pricing P B L };

    ghost view = { λ s. record { running = s.session; bench = s.bench; beside = s.beside } };

    ghost invariant = { λ s. IsSound (B.calc s.bench) s.session.standing.state × L.stands s.session s.beside };
}

// The calls that read the session.
impl<P: Picker + Drop, B: Bench + Drop, L: Beside<P> + Drop> Deref for BenchSession<P, B, L> {
    type Target = WatchedSession<P>;

    fn deref(&self) -> &WatchedSession<P>
        ensures { result.now ≡ self.now.running }
    {
        &self.session
    }
}

impl<P: Picker + Drop, B: Bench + Drop, L: Beside<P> + Drop> BenchSession<P, B, L> {
    /// Returns whether the session knows a command: its names and actions are those of the session, and its numbers are within their
    /// limits.
    pub fn knows(&self, command: &Command) -> bool
        ensures { IsTrue result ↔ IsKnown self.now.running.standing command.now }
    {
        let actions = self.beside.actions(&self.session);
        is_known(self.names().len(), actions, command)
    }

    /// Returns the number of a name of the session. Takes no memory.
    pub fn name(&self, text: &[u8]) -> Option<NameId>
        ensures none { (result ≡ None) ↔ (has_text self.now.running.standing.names text.now ≡ false) }
        ensures place { IfSome result (λ name. name ≡ place_of self.now.running.standing.names text.now) }
    {
        self.names().find(text)
    }

    /// Returns the result of an ask of the live lazy object of a name, if it is frozen, late or current: its last value, or that it
    /// has none. `None` exactly if it is none of these, or there is no such object. Computes nothing and takes no memory.
    pub fn ask_held(&mut self, name: NameId) -> Option<Asked>
        ensures answer { result ≡ held_of self.old.running.standing name }
        ensures same { self.new ≡ self.old }
    {
        self.session.session.ask_held(name)
    }

    /// Carries out a quiet command by itself and returns why it is refused, if it is. A refused command changes nothing. No watcher
    /// runs and no line is written. Computes nothing and takes no memory. Its notifications are forgotten when the next step begins.
    ///
    /// # Errors
    ///
    /// `Stopped`, `Unknown` or `NotQuiet`, exactly as `stopped` and the clauses after it say. Then nothing has changed.
    pub fn change(&mut self, command: &Command) -> Result<Option<Refusal>, ChangeFault>
        ensures turns { OnOk result ((calc : Calc) → self.new.running ≡ (taken (turn calc self.old.running.standing command.now) self.old.running).next) }
        ensures refusal { IfOk result (λ refusal. refusal ≡ result_err (resolve self.old.running.standing command.now)) }
        ensures refused { IfOk result (λ refusal. IfSome refusal (λ _. self.new.running.standing ≡ self.old.running.standing)) }
        ensures same { OnErr result (self.new ≡ self.old) }
        // The bench is not called, and the session keeps its names and its actions.
        ensures bench { self.new ≡ record self.old { running = self.new.running } }
        ensures stops { self.new.running.standing.stopped ≡ self.old.running.standing.stopped }
        ensures names { self.new.running.standing.names ≡ self.old.running.standing.names }
        ensures actions { self.new.running.standing.actions ≡ self.old.running.standing.actions }
        // It is not tried exactly in these cases.
        ensures stopped { IsErrOf result ChangeFault.Stopped ↔ (self.old.running.standing.stopped ≡ true) }
        ensures unknown { IsErrOf result ChangeFault.Unknown ↔ Misses self.old.running.standing command.now }
        ensures not_quiet { IsErrOf result ChangeFault.NotQuiet ↔ LeavesToAStep self.old.running.standing command.now }
    {
        if self.is_stopped() {
            return Err(ChangeFault::Stopped);
        }
        if !self.knows(command) {
            return Err(ChangeFault::Unknown);
        }
        if !is_quiet(command) {
            return Err(ChangeFault::NotQuiet);
        }
        Ok(self.session.change(command))
    }

    /// Runs the round of a command: the command with its notifications, and the runs of the due watchers. Appends the lines of the
    /// round.
    ///
    /// # Errors
    ///
    /// `Stopped` or `Unknown`, where nothing has changed, and `NoMemory` where memory runs out in the round. Then the session is
    /// stopped.
    pub fn step(&mut self, command: &Command, lines: &mut Vec<u8>) -> Result<(), StepFault>
        ensures plays { OnOk result (Does P (round_of (record { calc = B.calc self.old.bench; at = P.at; after = P.after }) self.old.running command.now)
            self.new.running (record { lines = lines.old.items; count = B.count self.old.bench; log = B.log self.old.bench }) (record { lines = lines.new.items; count = B.count self.new.bench; log = B.log self.new.bench })) }
        ensures halts { IsErrOf result StepFault.NoMemory → Halts P (round_of (record { calc = B.calc self.old.bench; at = P.at; after = P.after }) self.old.running command.now)
            (record { lines = lines.old.items; count = B.count self.old.bench; log = B.log self.old.bench }) (record { lines = lines.new.items; count = B.count self.new.bench; log = B.log self.new.bench }) }
        ensures calc { B.calc self.new.bench ≡ B.calc self.old.bench }
        ensures beside { self.new.beside ≡ self.old.beside }
        ensures stops { IsErrOf result StepFault.NoMemory → self.new.running.standing.stopped ≡ true }
        ensures runs { OnOk result (self.new.running.standing.stopped ≡ false) }
        ensures ends { OnOk result (HasEnded self.new.running.round) }
        ensures stays { Stays (B.calc self.old.bench) self.old.running.standing self.new.running.standing }
        // A command that takes no memory, is not refused, and makes no watcher due and no name over, is done even without free memory.
        ensures ready { Takes self.old.running.standing command.now
            → IsQuiet P (record { calc = B.calc self.old.bench; at = P.at; after = P.after }) (begun self.old.running) command.now
            → IsOk result }
        // It is not tried exactly in these cases. Then nothing has changed.
        ensures stopped { IsErrOf result StepFault.Stopped ↔ (self.old.running.standing.stopped ≡ true) }
        ensures unknown { IsErrOf result StepFault.Unknown ↔ Misses self.old.running.standing command.now }
        ensures same { IsErrOf result StepFault.Stopped ⊎ IsErrOf result StepFault.Unknown
            → (self.new ≡ self.old) × (lines.new.items ≡ lines.old.items) }
    {
        if self.is_stopped() {
            return Err(StepFault::Stopped);
        }
        if !self.knows(command) {
            return Err(StepFault::Unknown);
        }
        match self.session.step(command, &mut self.bench, lines) {
            Ok(()) => Ok(()),
            Err(AllocError) => Err(StepFault::NoMemory),
        }
    }
}
