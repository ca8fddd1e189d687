// A session with watchers, and its rounds.
ghost use Rattle.std.specs.Prelude.{◌≡◌, ◌≤◌, true, false, length, is_err, is_ok, IfOk, OnOk, OnErr, ◌+◌, ◌==◌, if◌then◌else◌, ℕ, [], Some, None, OnSome, IfSome, IfNone, slice_index_or};
ghost use Rattle.desk_terms.specs.Reading.{Calc};
ghost use Rattle.desk_model.specs.Sound.{IsSound};
ghost use Rattle.session_model.specs.Standing.{IsKnown, name_of};
ghost use Rattle.session_model.specs.Course.{running, opened, round_of, course_of_all, action_of, runs_by};
ghost use Rattle.session_model.specs.Moments.{moments_of_round, moments_of_all, moments_of_runs};
ghost use Rattle.session_rounds.specs.Fits.{AreKnown, IsHeard, IsLive};
ghost use Rattle.session_rounds.specs.Goes.{Does, Halts, Stays, HasEnded};
ghost use Rattle.session_rounds.specs.Quiet.{IsQuiet};
ghost use Rattle.session_rounds.specs.Stopped.{HaltsIn};
ghost use Rattle.watch_rounds.specs.Round.{runs_left, watcher_at, with_run};

use desk_names::ObjId;
use desk_terms::Bench;
use lazy_objects::Desk;
use session_commands::{ActionId, Command};
use session_core::Session;
use std::alloc::{AllocError, Global};
use std::marker::Model;
use std::ops::Deref;
use watch_rounds::{Picker, Rounds};

/// A session whose watchers run their actions, and the picker of the watcher that runs next.
pub struct WatchedSession<P> {
    /// The session with its objects and their names. A change from outside leaves the due watchers as they are.
    pub session: Session,
    pub(crate) rounds: Rounds,
    pub(crate) picker: P,
    // True if each due watcher is known to have a registration.
    pub(crate) settled: bool,
    // True if it is known that no notification is left.
    pub(crate) heard: bool,
    pub(crate) alloc: Global,
}

// Each exit of an owner of a session calls this once, instead of dropping each field.
impl<P: Drop> Drop for WatchedSession<P> {
    fn drop(self) {
        let WatchedSession {
            session: _,
            rounds: _,
            picker: _,
            settled: _,
            heard: _,
            alloc: _,
        } = self;
    }
}

impl<P> Model for WatchedSession<P> {
    ghost use Rattle.session_model.specs.Course.{Running};
    ghost use Rattle.session_rounds.specs.Fits.{Fits, IsHeard, IsSettled};

    ghost Value = { Running P };

    ghost view = { λ s. record { standing = s.session; round = s.rounds.round; picker = s.picker } };

    ghost invariant = { λ s. Fits P (record { standing = s.session; round = s.rounds.round; picker = s.picker })
        s.rounds.nodes × (IsSettled s.settled s.session.state s.rounds.round.due × IsHeard s.heard s.session.state) };
}

impl<P: Picker + Drop> WatchedSession<P> {
    /// Makes a session with watchers, in which no round has begun.
    ///
    /// # Errors
    ///
    /// `AllocError` where memory runs out.
    pub fn new(alloc: Global, session: Session, picker: P) -> Result<WatchedSession<P>, AllocError>
        requires known { AreKnown session }
        ensures begins { IfOk result (λ watched. watched ≡ running picker session) }
    {
        let mut rounds = Rounds::new(alloc);
        rounds.grow(session.names().len(), session.numbers() + 1)?;
        Ok(WatchedSession {
            session,
            rounds,
            picker,
            settled: false,
            heard: false,
            alloc,
        })
    }
}

// The calls that read the session.
impl<P> Deref for WatchedSession<P> {
    type Target = Session;

    fn deref(&self) -> &Session
        ensures { result.now ≡ self.now.standing }
    {
        &self.session
    }
}

impl<P: Picker> WatchedSession<P> {
    /// Returns the session with its objects and their names.
    pub fn session(&self) -> &Session
        ensures { result.now ≡ self.now.standing }
    {
        &self.session
    }

    /// Runs the round of a command: the command with its notifications, and then the due watchers, one at a time, until none is
    /// due. Appends the lines of the round.
    ///
    /// # Errors
    ///
    /// `AllocError` where memory runs out. Then the lines of all that was done before are appended, a prefix of the round's
    /// computations was begun, of which at most the last did not end, and the session is stopped.
    pub fn step<B: Bench>(
        &mut self,
        command: &Command,
        bench: &mut B,
        lines: &mut Vec<u8>,
    ) -> Result<(), AllocError>
        requires running { self.old.standing.stopped ≡ false }
        requires known { IsKnown self.old.standing command.now }
        requires sound { IsSound (B.calc bench.old) self.old.standing.state }
        ensures same { B.calc bench.new ≡ B.calc bench.old }
        // The round is exactly that of the definition.
        ensures plays { OnOk result (Does P (round_of (record { calc = B.calc bench.old; at = P.at; after = P.after }) self.old command.now)
            self.new (record { lines = lines.old.items; count = B.count bench.old; log = B.log bench.old })
            (record { lines = lines.new.items; count = B.count bench.new; log = B.log bench.new })) }
        ensures halts { OnErr result (Halts P (round_of (record { calc = B.calc bench.old; at = P.at; after = P.after }) self.old command.now)
            (record { lines = lines.old.items; count = B.count bench.old; log = B.log bench.old })
            (record { lines = lines.new.items; count = B.count bench.new; log = B.log bench.new })) }
        // Out of memory, the lines of all that was done before are complete: memory ran out in one of the round's moments.
        ensures so_far { OnErr result (HaltsIn (B.calc bench.old) (moments_of_round (record { calc = B.calc bench.old; at = P.at; after = P.after }) self.old command.now)
            (record { lines = lines.old.items; count = B.count bench.old; log = B.log bench.old })
            (record { lines = lines.new.items; count = B.count bench.new; log = B.log bench.new })) }
        // A command that takes no memory, is not refused, and makes no watcher due and no name over, is done even without free memory.
        ensures ready { IsQuiet P (record { calc = B.calc bench.old; at = P.at; after = P.after }) (opened self.old) command.now
            → is_ok result ≡ true }
        // The round ends: no watcher is due, and no name ran more than eight times.
        ensures ends { OnOk result (HasEnded self.new.round) }
        ensures stays { Stays (B.calc bench.old) self.old.standing self.new.standing }
        ensures stopped { self.new.standing.stopped ≡ is_err result }
    {
        let done = self.round(command, bench, lines);
        if done.is_err() {
            self.session.stop();
        }
        done
    }

    // Runs one round: the command, and the due watchers.
    #[inline(always)]
    fn round<B: Bench>(
        &mut self,
        command: &Command,
        bench: &mut B,
        lines: &mut Vec<u8>,
    ) -> Result<(), AllocError>
        requires running { self.old.standing.stopped ≡ false }
        requires known { IsKnown self.old.standing command.now }
        requires sound { IsSound (B.calc bench.old) self.old.standing.state }
        ensures same { B.calc bench.new ≡ B.calc bench.old }
        ensures ok { OnOk result (Does P (round_of (record { calc = B.calc bench.old; at = P.at; after = P.after }) self.old command.now)
            self.new (record { lines = lines.old.items; count = B.count bench.old; log = B.log bench.old })
            (record { lines = lines.new.items; count = B.count bench.new; log = B.log bench.new })) }
        ensures err { OnErr result (Halts P (round_of (record { calc = B.calc bench.old; at = P.at; after = P.after }) self.old command.now)
            (record { lines = lines.old.items; count = B.count bench.old; log = B.log bench.old })
            (record { lines = lines.new.items; count = B.count bench.new; log = B.log bench.new })) }
        ensures so_far { OnErr result (HaltsIn (B.calc bench.old) (moments_of_round (record { calc = B.calc bench.old; at = P.at; after = P.after }) self.old command.now)
            (record { lines = lines.old.items; count = B.count bench.old; log = B.log bench.old })
            (record { lines = lines.new.items; count = B.count bench.new; log = B.log bench.new })) }
        ensures ready { IsQuiet P (record { calc = B.calc bench.old; at = P.at; after = P.after }) (opened self.old) command.now
            → is_ok result ≡ true }
        ensures stays { Stays (B.calc bench.old) self.old.standing self.new.standing }
        ensures running { OnOk result (self.new.standing.stopped ≡ false) }
        ensures ends { OnOk result (HasEnded self.new.round) }
    {
        self.open();
        self.command(command, bench, lines)?;
        self.run_all(bench, lines)
    }

    // Begins a round.
    fn open(&mut self)
        ensures opens { self.new ≡ opened self.old }
        ensures sound { (calc : Calc) → IsSound calc self.old.standing.state → IsSound calc self.new.standing.state }
    {
        let session = &mut self.session;
        forget_notices(&mut session.desk, self.heard);
        self.heard = true;
        self.rounds.begin();
        self.settled = true;
    }

    // Runs the due watchers, one at a time, until none is due.
    fn run_all<B: Bench>(&mut self, bench: &mut B, lines: &mut Vec<u8>) -> Result<(), AllocError>
        requires running { self.old.standing.stopped ≡ false }
        requires sound { IsSound (B.calc bench.old) self.old.standing.state }
        ensures same { B.calc bench.new ≡ B.calc bench.old }
        ensures ok { OnOk result ((k : ℕ) → runs_left self.old.round ≤ k
            → Does P (runs_by (record { calc = B.calc bench.old; at = P.at; after = P.after }) k self.old)
            self.new (record { lines = lines.old.items; count = B.count bench.old; log = B.log bench.old })
            (record { lines = lines.new.items; count = B.count bench.new; log = B.log bench.new })) }
        ensures err { OnErr result ((k : ℕ) → runs_left self.old.round ≤ k
            → Halts P (runs_by (record { calc = B.calc bench.old; at = P.at; after = P.after }) k self.old)
            (record { lines = lines.old.items; count = B.count bench.old; log = B.log bench.old })
            (record { lines = lines.new.items; count = B.count bench.new; log = B.log bench.new })) }
        ensures so_far { OnErr result ((k : ℕ) → runs_left self.old.round ≤ k
            → HaltsIn (B.calc bench.old) (moments_of_runs (record { calc = B.calc bench.old; at = P.at; after = P.after }) k self.old)
            (record { lines = lines.old.items; count = B.count bench.old; log = B.log bench.old })
            (record { lines = lines.new.items; count = B.count bench.new; log = B.log bench.new })) }
        ensures stays { Stays (B.calc bench.old) self.old.standing self.new.standing }
        ensures running { OnOk result (self.new.standing.stopped ≡ false) }
        ensures ends { OnOk result (HasEnded self.new.round) }
        ensures ready { self.old.round.due ≡ [] → is_ok result ≡ true }
    {
        while let Some(watcher) = self.begin_run() {
            self.run(watcher, bench, lines)?;
        }
        Ok(())
    }

    // Begins the run of the watcher that the picker chooses, if one is due.
    fn begin_run(&mut self) -> Option<ObjId>
        ensures due { result ≡ watcher_at (P.at self.old.picker (length self.old.round.due)) self.old.round }
        ensures begun { self.new ≡ record self.old {
          round = with_run (P.at self.old.picker (length self.old.round.due)) self.old.round;
          picker = (if length self.old.round.due == 0 then self.old.picker else P.after self.old.picker (length self.old.round.due));
        } }
        ensures left { OnSome result (runs_left self.new.round + 1 ≡ runs_left self.old.round) }
        ensures none { IfNone result (length self.old.round.due ≡ 0) }
        ensures ends { IfNone result (HasEnded self.new.round) }
        ensures live { IfSome result (IsLive self.old.standing) }
    {
        self.rounds.next_due(&mut self.picker)
    }

    // Runs the action of the chosen watcher.
    fn run<B: Bench>(
        &mut self,
        watcher: ObjId,
        bench: &mut B,
        lines: &mut Vec<u8>,
    ) -> Result<(), AllocError>
        requires live { IsLive self.old.standing watcher }
        requires running { self.old.standing.stopped ≡ false }
        requires sound { IsSound (B.calc bench.old) self.old.standing.state }
        ensures same { B.calc bench.new ≡ B.calc bench.old }
        ensures ok { OnOk result (Does P (course_of_all (record { calc = B.calc bench.old; at = P.at; after = P.after })
            (action_of self.old.standing (Some watcher)) self.old)
            self.new (record { lines = lines.old.items; count = B.count bench.old; log = B.log bench.old })
            (record { lines = lines.new.items; count = B.count bench.new; log = B.log bench.new })) }
        ensures err { OnErr result (Halts P (course_of_all (record { calc = B.calc bench.old; at = P.at; after = P.after })
            (action_of self.old.standing (Some watcher)) self.old)
            (record { lines = lines.old.items; count = B.count bench.old; log = B.log bench.old })
            (record { lines = lines.new.items; count = B.count bench.new; log = B.log bench.new })) }
        ensures so_far { OnErr result (HaltsIn (B.calc bench.old) (moments_of_all (record { calc = B.calc bench.old; at = P.at; after = P.after })
            (action_of self.old.standing (Some watcher)) self.old)
            (record { lines = lines.old.items; count = B.count bench.old; log = B.log bench.old })
            (record { lines = lines.new.items; count = B.count bench.new; log = B.log bench.new })) }
        ensures stays { Stays (B.calc bench.old) self.old.standing self.new.standing }
        ensures running { OnOk result (self.new.standing.stopped ≡ false) }
    {
        match self.action_of(watcher) {
            Some(action) => self.play(action, bench, lines),
            None => Ok(()),
        }
    }

    // Returns the action of a watcher.
    fn action_of(&self, watcher: ObjId) -> Option<ActionId>
        requires { IsLive self.now.standing watcher }
        ensures { result ≡ slice_index_or self.now.standing.watching (name_of self.now.standing watcher) None }
    {
        self.session.watchers();
        let name = self.session.name_of(watcher);
        self.session.action_of(name)
    }

    // Carries out the commands of an action.
    fn play<B: Bench>(
        &mut self,
        action: ActionId,
        bench: &mut B,
        lines: &mut Vec<u8>,
    ) -> Result<(), AllocError>
        requires running { self.old.standing.stopped ≡ false }
        requires sound { IsSound (B.calc bench.old) self.old.standing.state }
        ensures same { B.calc bench.new ≡ B.calc bench.old }
        ensures ok { OnOk result (Does P (course_of_all (record { calc = B.calc bench.old; at = P.at; after = P.after })
            (slice_index_or self.old.standing.actions action []) self.old)
            self.new (record { lines = lines.old.items; count = B.count bench.old; log = B.log bench.old })
            (record { lines = lines.new.items; count = B.count bench.new; log = B.log bench.new })) }
        ensures err { OnErr result (Halts P (course_of_all (record { calc = B.calc bench.old; at = P.at; after = P.after })
            (slice_index_or self.old.standing.actions action []) self.old)
            (record { lines = lines.old.items; count = B.count bench.old; log = B.log bench.old })
            (record { lines = lines.new.items; count = B.count bench.new; log = B.log bench.new })) }
        ensures so_far { OnErr result (HaltsIn (B.calc bench.old) (moments_of_all (record { calc = B.calc bench.old; at = P.at; after = P.after })
            (slice_index_or self.old.standing.actions action []) self.old)
            (record { lines = lines.old.items; count = B.count bench.old; log = B.log bench.old })
            (record { lines = lines.new.items; count = B.count bench.new; log = B.log bench.new })) }
        ensures stays { Stays (B.calc bench.old) self.old.standing self.new.standing }
        ensures running { OnOk result (self.new.standing.stopped ≡ false) }
    {
        let mut at: usize = 0;
        while let Some(command) = self.session.command_at(action, at) {
            self.command(&command, bench, lines)?;
            at += 1;
        }
        Ok(())
    }
}

// Forgets the notifications that are left, if there may be any.
#[inline(always)]
fn forget_notices(desk: &mut Desk, heard: bool)
    requires { IsHeard heard desk.old }
    ensures drained { desk.new ≡ record desk.old { noticed = [] } }
    ensures sound { (calc : Calc) → IsSound calc desk.old → IsSound calc desk.new }
{
    if !heard {
        drain(desk);
    }
}

// Forgets the notifications that are left.
#[inline(never)]
fn drain(desk: &mut Desk)
    ensures drained { desk.new ≡ record desk.old { noticed = [] } }
    ensures sound { (calc : Calc) → IsSound calc desk.old → IsSound calc desk.new }
{
    while let Some(watcher) = desk.next_told() {
        let _ = watcher;
    }
}
