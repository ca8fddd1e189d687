// One command of a round, the watchers that its notifications make due, and the due watchers without a registration.
ghost use Rattle.std.specs.Prelude.{◌≡◌, ◌⊎◌, ◌∷◌, ◌≤◌, ◌+◌, true, false, [], length, is_ok, OnOk, OnErr, ◌++◌};
ghost use Rattle.desk_model.specs.Sound.{IsSound};
ghost use Rattle.session_model.specs.Standing.{IsKnown, name_of};
ghost use Rattle.session_model.specs.Resolve.{resolve};
ghost use Rattle.session_model.specs.Turn.{turn};
ghost use Rattle.session_model.specs.Course.{taken, course_of, notice, over_lines, heard, undue};
ghost use Rattle.session_core.specs.Steps.{is_without_memory};
ghost use Rattle.session_model.specs.Moments.{moment_of};
ghost use Rattle.session_rounds.specs.Goes.{Does, Halts, Stays, lines_alone};
ghost use Rattle.session_rounds.specs.Stopped.{StopsWithin, StopsBehind, HaltsIn};
ghost use Rattle.desk_terms.specs.Reading.{Calc};
ghost use Rattle.session_core.specs.Watchers.{IsAWatcher};
ghost use Rattle.desk_model.specs.Told.{is_watching};
ghost use Rattle.watch_rounds.specs.declared.notice.Notice.TheVariants.{Due};
ghost use Rattle.session_rounds.specs.Fits.{AreWatching, IsSettled, may_idle};

use crate::WatchedSession;
use desk_names::{NameId, ObjId};
use desk_terms::Bench;
use price_report::over_line;
use session_commands::Command;
use session_core::Session;
use std::alloc::AllocError;
use watch_rounds::{Notice, Picker, Rounds};

impl<P: Picker> WatchedSession<P> {
    // Carries out one command, at the top or in an action, with its notifications.
    pub(crate) fn command<B: Bench>(
        &mut self,
        command: &Command,
        bench: &mut B,
        lines: &mut Vec<u8>,
    ) -> Result<(), AllocError>
        requires running { self.old.standing.stopped ≡ false }
        requires known { IsKnown self.old.standing command.now }
        requires sound { IsSound (B.calc bench.old) self.old.standing.state }
        ensures same { B.calc bench.new ≡ B.calc bench.old }
        ensures ok { OnOk result (Does P (course_of (record { calc = B.calc bench.old; at = P.at; after = P.after }) self.old command.now)
            self.new (record { lines = lines.old.items; count = B.count bench.old; log = B.log bench.old })
            (record { lines = lines.new.items; count = B.count bench.new; log = B.log bench.new })) }
        ensures err { OnErr result (Halts P (course_of (record { calc = B.calc bench.old; at = P.at; after = P.after }) self.old command.now)
            (record { lines = lines.old.items; count = B.count bench.old; log = B.log bench.old })
            (record { lines = lines.new.items; count = B.count bench.new; log = B.log bench.new })) }
        ensures so_far { OnErr result (HaltsIn (B.calc bench.old) (moment_of (record { calc = B.calc bench.old; at = P.at; after = P.after }) self.old command.now ∷ [])
            (record { lines = lines.old.items; count = B.count bench.old; log = B.log bench.old })
            (record { lines = lines.new.items; count = B.count bench.new; log = B.log bench.new })) }
        ensures stays { Stays (B.calc bench.old) self.old.standing self.new.standing }
        ensures running { OnOk result (self.new.standing.stopped ≡ false) }
        ensures ready { is_without_memory (resolve self.old.standing command.now) ≡ true
            → (course_of (record { calc = B.calc bench.old; at = P.at; after = P.after }) self.old command.now).lines ≡ []
            → is_ok result ≡ true }
    {
        self.act(command, bench, lines)?;
        self.hear(lines)
    }

    // Carries out or refuses a command, before its notifications are handed out. Out of memory, no watcher is due.
    fn act<B: Bench>(
        &mut self,
        command: &Command,
        bench: &mut B,
        lines: &mut Vec<u8>,
    ) -> Result<(), AllocError>
        requires running { self.old.standing.stopped ≡ false }
        requires known { IsKnown self.old.standing command.now }
        requires sound { IsSound (B.calc bench.old) self.old.standing.state }
        ensures same { B.calc bench.new ≡ B.calc bench.old }
        ensures ok { OnOk result (Does P (taken (turn (B.calc bench.old) self.old.standing command.now) self.old)
            self.new (record { lines = lines.old.items; count = B.count bench.old; log = B.log bench.old })
            (record { lines = lines.new.items; count = B.count bench.new; log = B.log bench.new })) }
        ensures err { OnErr result (Halts P (taken (turn (B.calc bench.old) self.old.standing command.now) self.old)
            (record { lines = lines.old.items; count = B.count bench.old; log = B.log bench.old })
            (record { lines = lines.new.items; count = B.count bench.new; log = B.log bench.new })) }
        ensures so_far { OnErr result
            (StopsWithin (B.calc bench.old) (moment_of (record { calc = B.calc bench.old; at = P.at; after = P.after }) self.old command.now)
            (record { lines = lines.old.items; count = B.count bench.old; log = B.log bench.old })
            (record { lines = lines.new.items; count = B.count bench.new; log = B.log bench.new })
            ⊎ StopsBehind (B.calc bench.old) (moment_of (record { calc = B.calc bench.old; at = P.at; after = P.after }) self.old command.now)
            (record { lines = lines.old.items; count = B.count bench.old; log = B.log bench.old })
            (record { lines = lines.new.items; count = B.count bench.new; log = B.log bench.new })) }
        ensures stays { Stays (B.calc bench.old) self.old.standing self.new.standing }
        ensures running { OnOk result (self.new.standing.stopped ≡ false) }
        ensures ready { is_without_memory (resolve self.old.standing command.now) ≡ true → is_ok result ≡ true }
    {
        let settled = stays_settled(self.settled, command);
        self.heard = false;
        self.session.watchers();
        match self.session.act(command, bench, lines) {
            Ok(()) => {
                settle(&mut self.rounds, &self.session, settled);
                self.settled = true;
                make_room(&mut self.rounds, &mut self.session)
            }
            Err(fault) => {
                self.rounds.begin();
                self.settled = false;
                Err(fault)
            }
        }
    }

    // Hands out the notifications of a command, to each notified watcher by creation.
    fn hear(&mut self, lines: &mut Vec<u8>) -> Result<(), AllocError>
        ensures ok { OnOk result (Does P (heard self.old) self.new (lines_alone lines.old.items) (lines_alone lines.new.items)) }
        ensures err { OnErr result (Halts P (heard self.old) (lines_alone lines.old.items) (lines_alone lines.new.items)) }
        ensures ready { (heard self.old).lines ≡ [] → is_ok result ≡ true }
        ensures names { self.new.standing.names ≡ self.old.standing.names }
        ensures actions { self.new.standing.actions ≡ self.old.standing.actions }
        ensures stopped { self.new.standing.stopped ≡ self.old.standing.stopped }
        ensures sound { (calc : Calc) → IsSound calc self.old.standing.state → IsSound calc self.new.standing.state }
    {
        loop {
            let session = &mut self.session;
            let Some(watcher) = session.desk.next_told() else {
                self.heard = true;
                return Ok(());
            };
            self.notice(watcher, lines)?;
        }
    }

    // Notifies a watcher: it becomes due, or its name is over, which writes a line the first time.
    fn notice(&mut self, watcher: ObjId, lines: &mut Vec<u8>) -> Result<(), AllocError>
        requires { IsAWatcher self.old.standing watcher }
        ensures ok { OnOk result (Does P (notice watcher self.old) self.new (lines_alone lines.old.items) (lines_alone lines.new.items)) }
        ensures err { OnErr result (Halts P (notice watcher self.old) (lines_alone lines.old.items) (lines_alone lines.new.items)) }
        ensures ready { (notice watcher self.old).lines ≡ [] → is_ok result ≡ true }
        ensures standing { self.new.standing ≡ self.old.standing }
    {
        if self.rounds.stays_due(watcher) {
            return Ok(());
        }
        let name = self.session.name_of(watcher);
        let notice = self.rounds.told(watcher, name);
        self.settled = settled_with(self.settled, notice, &self.session, watcher);
        self.say(notice, name, lines)
    }

    // Appends the line of a name that is over.
    fn say(&self, notice: Notice, name: NameId, lines: &mut Vec<u8>) -> Result<(), AllocError>
        ensures ok { OnOk result (lines.new.items ≡ lines.old.items ++ over_lines self.now.standing.names name notice) }
        ensures err { OnErr result (lines.new.items ≡ lines.old.items) }
        ensures ready { over_lines self.now.standing.names name notice ≡ [] → is_ok result ≡ true }
    {
        match notice {
            Notice::Due => Ok(()),
            Notice::OverFirst => over_line(self.alloc, name, self.session.names(), lines),
            Notice::OverAgain => Ok(()),
        }
    }
}

// For how many objects room is reserved at once.
const ROOM: u32 = 64;

// Reserves room for one more object, if the last command took the room. Out of memory, it stops the session.
fn make_room(rounds: &mut Rounds, session: &mut Session) -> Result<(), AllocError>
    requires room { length session.old.of_object ≤ rounds.old.nodes }
    ensures round { rounds.new.round ≡ rounds.old.round }
    ensures room { length session.new.of_object ≤ rounds.new.nodes }
    ensures spare { session.new.stopped ≡ false → length session.new.of_object + 1 ≤ rounds.new.nodes }
    ensures ok { OnOk result (session.new ≡ session.old) }
    ensures err { OnErr result (session.new ≡ record session.old { stopped = true }) }
    ensures ready { length session.old.of_object + 1 ≤ rounds.old.nodes → is_ok result ≡ true }
{
    let numbers = session.numbers();
    if rounds.has_room_for(numbers) {
        return Ok(());
    }
    match rounds.grow(0, numbers + ROOM) {
        Ok(()) => Ok(()),
        Err(fault) => {
            session.stop();
            Err(fault)
        }
    }
}

// Returns whether a command may leave a watcher without a registration.
fn may_idle(command: &Command) -> bool
    ensures { result ≡ may_idle command.now }
{
    matches!(command, Command::Unregister(_, _) | Command::Drop(_))
}

// Returns whether each due watcher is still known to have a registration after a command.
fn stays_settled(settled: bool, command: &Command) -> bool
    ensures { (result ≡ true) → (settled ≡ true) × (may_idle command.now ≡ false) }
{
    settled && !may_idle(command)
}

// Returns whether each due watcher is still known to have a registration after a notification of a watcher.
fn settled_with(settled: bool, notice: Notice, session: &Session, watcher: ObjId) -> bool
    ensures { result ≡ true
        → (settled ≡ true) × (notice ≡ Due → is_watching session.now.state watcher ≡ true) }
{
    settled && (notice != Notice::Due || session.watching(watcher))
}

// Removes due watchers without a registration, unless each is known to have one.
pub(crate) fn settle(rounds: &mut Rounds, session: &Session, settled: bool)
    requires { IsSettled settled session.now.state rounds.old.round.due }
    ensures undue { rounds.new ≡ record rounds.old { round = undue session.now.state rounds.old.round } }
    ensures watching { AreWatching session.now.state rounds.new.round.due }
{
    if settled {
        return;
    }
    forget_idle(rounds, session);
}

// Removes due watchers without a registration.
fn forget_idle(rounds: &mut Rounds, session: &Session)
    ensures undue { rounds.new ≡ record rounds.old { round = undue session.now.state rounds.old.round } }
    ensures watching { AreWatching session.now.state rounds.new.round.due }
{
    let mut at = rounds.due().len();
    while at > 0 {
        at -= 1;
        let watcher = rounds.due()[at].watcher;
        if !session.watching(watcher) {
            rounds.gone(watcher);
        }
    }
}
