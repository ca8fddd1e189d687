// Carries out one command: its turn, its change, running out of memory in it, and the watchers that it notifies.
ghost use Rattle.std.specs.Prelude.{◌≡◌, ◌++◌, true, false, is_err, is_ok, IfSome, OnOk, OnErr, ◌≤◌};
ghost use Rattle.desk_terms.specs.Reading.{Calc};
ghost use Rattle.desk_model.specs.Sound.{IsSound, KeepsCurrent};
ghost use Rattle.price_report.specs.Line.{refusal_line};
ghost use Rattle.session_commands.specs.Parts.{command_word};
ghost use Rattle.session_model.specs.Standing.{IsKnown};
ghost use Rattle.session_model.specs.Resolve.{resolve};
ghost use Rattle.session_core.specs.Allowed.{IsAllowed, MayChange, MayGrow};
ghost use Rattle.session_core.specs.Steps.{Acts, Halts, Carries, BreaksOff, takes_no_memory, is_without_memory, with_state};
ghost use Rattle.std.specs.Result.{result_err};
ghost use Rattle.desk_model.specs.declared.slot.Slot.TheVariants.{Today};
ghost use Rattle.desk_model.specs.Market.{live_count, slot_at};
ghost use Rattle.session_model.specs.Change.{changed, grown};
ghost use Rattle.session_model.specs.Quiet.{is_quiet, is_quiet_act};
ghost use Rattle.session_model.specs.Turn.{turn, effect_of};

use crate::Session;
use desk_terms::{Bench, FixFault};
use lazy_objects::Desk;
use price_report::refusal_line;
use session_commands::{Command, Refusal};
use session_model::{Act, Change, Growth, How};
use std::alloc::AllocError;

impl Session {
    /// Carries out one command and appends its line, if it writes one: the result of an ask or a recalculation, or why the command
    /// is refused. A refused command changes nothing. Notified watchers are kept for `Desk::next_told`.
    ///
    /// # Errors
    ///
    /// `AllocError` where memory runs out. Then the session is stopped, values that were computed stay, and no line is appended. If
    /// only the line found no memory, the command is done.
    pub fn act<B: Bench>(
        &mut self,
        command: &Command,
        bench: &mut B,
        lines: &mut Vec<u8>,
    ) -> Result<(), AllocError>
        requires running { self.old.stopped ≡ false }
        requires known { IsKnown self.old command.now }
        requires sound { IsSound (B.calc bench.old) self.old.state }
        ensures same { B.calc bench.new ≡ B.calc bench.old }
        // The command takes exactly its turn.
        ensures acts { OnOk result (Acts (B.calc bench.old) command.now self.old self.new
            lines.old.items lines.new.items (B.count bench.old) (B.count bench.new)
            (B.log bench.old) (B.log bench.new)) }
        // Out of memory: a prefix of its computations is done, and no byte of its line is appended.
        ensures halts { OnErr result (Halts (B.calc bench.old) command.now self.old self.new
            lines.old.items lines.new.items (B.count bench.old) (B.count bench.new)
            (B.log bench.old) (B.log bench.new)) }
        // A quiet command that is not refused never runs out of memory.
        ensures ends { is_without_memory (resolve self.old command.now) ≡ true → is_ok result ≡ true }
        ensures names { self.new.names ≡ self.old.names }
        ensures actions { self.new.actions ≡ self.old.actions }
        ensures sound { IsSound (B.calc bench.old) self.new.state }
        ensures stopped { self.new.stopped ≡ is_err result }
    {
        match self.turn(command, bench, lines) {
            Ok(()) => Ok(()),
            Err(fault) => {
                self.stop();
                Err(fault)
            }
        }
    }

    // Carries out or refuses one command.
    fn turn<B: Bench>(
        &mut self,
        command: &Command,
        bench: &mut B,
        lines: &mut Vec<u8>,
    ) -> Result<(), AllocError>
        requires known { IsKnown self.old command.now }
        requires sound { IsSound (B.calc bench.old) self.old.state }
        ensures same { B.calc bench.new ≡ B.calc bench.old }
        ensures acts { OnOk result (Acts (B.calc bench.old) command.now self.old self.new
            lines.old.items lines.new.items (B.count bench.old) (B.count bench.new)
            (B.log bench.old) (B.log bench.new)) }
        ensures halts { OnErr result (Halts (B.calc bench.old) command.now self.old self.new
            lines.old.items lines.new.items (B.count bench.old) (B.count bench.new)
            (B.log bench.old) (B.log bench.new)) }
        ensures ends { is_without_memory (resolve self.old command.now) ≡ true → is_ok result ≡ true }
        ensures sound { IsSound (B.calc bench.old) self.new.state }
    {
        if let Command::Set(quote, value) = command
            && let Some(object) = self.named(*quote)
            && self.is_quote(object)
        {
            self.apply(Change::Set(object, Some(*value)));
            return Ok(());
        }
        if let Command::Ask(name) = command
            && let Some(object) = self.named(*name)
            && self.is_priced(object)
        {
            return self.price(*name, object, &How::Ask, bench, lines);
        }
        self.carry(command, bench, lines)
    }

    // Carries out the resolved command, or appends why it is refused.
    #[inline(never)]
    fn carry<B: Bench>(
        &mut self,
        command: &Command,
        bench: &mut B,
        lines: &mut Vec<u8>,
    ) -> Result<(), AllocError>
        requires known { IsKnown self.old command.now }
        requires sound { IsSound (B.calc bench.old) self.old.state }
        ensures same { B.calc bench.new ≡ B.calc bench.old }
        ensures acts { OnOk result (Acts (B.calc bench.old) command.now self.old self.new
            lines.old.items lines.new.items (B.count bench.old) (B.count bench.new)
            (B.log bench.old) (B.log bench.new)) }
        ensures halts { OnErr result (Halts (B.calc bench.old) command.now self.old self.new
            lines.old.items lines.new.items (B.count bench.old) (B.count bench.new)
            (B.log bench.old) (B.log bench.new)) }
        ensures ends { is_without_memory (resolve self.old command.now) ≡ true → is_ok result ≡ true }
        ensures sound { IsSound (B.calc bench.old) self.new.state }
    {
        match self.resolve(command) {
            Ok(act) => self.carry_out(act, bench, lines),
            Err(refusal) => self.refuse(command, &refusal, lines),
        }
    }

    // Carries out a resolved command.
    #[inline(always)]
    fn carry_out<B: Bench>(
        &mut self,
        act: Act,
        bench: &mut B,
        lines: &mut Vec<u8>,
    ) -> Result<(), AllocError>
        requires allowed { IsAllowed self.old act }
        requires sound { IsSound (B.calc bench.old) self.old.state }
        ensures same { B.calc bench.new ≡ B.calc bench.old }
        ensures steps { OnOk result (Carries (B.calc bench.old) act self.old self.new lines.old.items lines.new.items
            (B.count bench.old) (B.count bench.new)
            (B.log bench.old) (B.log bench.new)) }
        ensures stops { OnErr result (BreaksOff (B.calc bench.old) act self.old self.new lines.old.items lines.new.items
            (B.count bench.old) (B.count bench.new)
            (B.log bench.old) (B.log bench.new)) }
        ensures ends { takes_no_memory act ≡ true → is_ok result ≡ true }
        ensures sound { IsSound (B.calc bench.old) self.new.state }
    {
        match act {
            Act::Make(name, terms) => match self.add(name, terms) {
                Ok(_) => Ok(()),
                Err(fault) => Err(fault),
            },
            Act::Watch(name, action) => self.watch(name, action),
            Act::Quiet(change) => {
                self.apply(change);
                Ok(())
            }
            Act::Grow(growth) => self.grow(growth),
            Act::Price(name, object, how) => self.price(name, object, &how, bench, lines),
        }
    }

    // Appends the line of a refused command.
    #[inline(never)]
    fn refuse(
        &self,
        command: &Command,
        refusal: &Refusal,
        lines: &mut Vec<u8>,
    ) -> Result<(), AllocError>
        ensures ok { OnOk result (lines.new.items
            ≡ lines.old.items
            ++ refusal_line self.now.names self.now.of_object (command_word command.now) refusal.now) }
        ensures err { OnErr result (lines.new.items ≡ lines.old.items) }
    {
        refusal_line(self.alloc, command.word(), refusal, &self.namer(), lines)
    }

    /// Carries out a quiet command by itself and returns why it is refused, if it is. A refused command changes nothing. Notified
    /// watchers are kept for `Desk::next_told`. Computes nothing, writes no line and takes no memory.
    pub fn change(&mut self, command: &Command) -> Option<Refusal>
        requires running { self.old.stopped ≡ false }
        requires known { IsKnown self.old command.now }
        requires quiet { is_quiet command.now ≡ true }
        // It takes the turn of the command, which is the same for every bench.
        ensures turns { (calc : Calc) → self.new ≡ (turn calc self.old command.now).next }
        ensures refusal { result ≡ result_err (resolve self.old command.now) }
        ensures same { IfSome result (λ _. self.new ≡ self.old) }
        // Only the state of the session changes.
        ensures alike { self.new ≡ record self.old { state = self.new.state } }
        ensures keeps { KeepsCurrent self.old.state self.new.state }
        ensures sound { (calc : Calc) → IsSound calc self.old.state → IsSound calc self.new.state }
    {
        match self.resolve(command) {
            Ok(act) => {
                self.carry_change(&act);
                None
            }
            Err(refusal) => Some(refusal),
        }
    }

    // Makes the change of a resolved quiet command.
    fn carry_change(&mut self, act: &Act)
        requires quiet { is_quiet_act act.now ≡ true }
        requires allowed { IsAllowed self.old act.now }
        ensures next { (calc : Calc) → self.new ≡ (effect_of calc self.old act.now).next }
        ensures alike { self.new ≡ record self.old { state = self.new.state } }
        ensures keeps { KeepsCurrent self.old.state self.new.state }
        ensures sound { (calc : Calc) → IsSound calc self.old.state → IsSound calc self.new.state }
    {
        match act {
            Act::Quiet(change) => self.apply(*change),
            Act::Make(_, _) | Act::Watch(_, _) | Act::Grow(_) | Act::Price(_, _, _) => {
                unreachable!()
            }
        }
    }

    // Makes a change, by itself or in a turn. A dropped object leaves its name free.
    #[inline(always)]
    fn apply(&mut self, change: Change)
        requires may { MayChange self.old.state change }
        ensures set { self.new ≡ with_state (changed change self.old.state) self.old }
        ensures keeps { KeepsCurrent self.old.state self.new.state }
        ensures sound { (calc : Calc) → IsSound calc self.old.state → IsSound calc self.new.state }
    {
        change_desk(&mut self.desk, &change);
        if let Change::Drop(object) = &change {
            let name = self.of_object.items()[object.place()];
            self.of_name[name.place()] = None;
            self.live -= 1;
        }
    }

    // Makes a change that needs memory. Out of memory, the session is as before.
    fn grow(&mut self, growth: Growth) -> Result<(), AllocError>
        requires may { MayGrow self.old.state growth }
        ensures set { OnOk result (self.new ≡ with_state (grown growth self.old.state) self.old) }
        ensures err { OnErr result (self.new ≡ self.old) }
        ensures sound { (calc : Calc) → IsSound calc self.old.state → IsSound calc self.new.state }
    {
        grow_desk(&mut self.desk, growth)
    }
}

// Makes a change of the objects.
#[inline(always)]
#[tactic(auto, unfolding(session_model::specs::Change::changed))]
fn change_desk(desk: &mut Desk, change: &Change)
    requires may { MayChange desk.old change.now }
    requires today { slot_at desk.old.market 0 ≡ Today }
    ensures set { desk.new ≡ changed change.now desk.old }
    ensures keeps { KeepsCurrent desk.old desk.new }
    ensures sound { (calc : Calc) → IsSound calc desk.old → IsSound calc desk.new }
{
    match change {
        Change::Set(quote, value) => desk.set_quote(*quote, *value),
        Change::Link(handle, target) => desk.relink(*handle, *target),
        Change::Engine(instrument, engine) => desk.set_engine(*instrument, *engine),
        Change::Today(day) => desk.set_today(*day),
        Change::Freeze(object) => desk.freeze(*object),
        Change::Thaw(object) => desk.thaw(*object),
        Change::Forward(object, is_on) => desk.forward(*object, *is_on),
        Change::Defer => desk.defer(),
        Change::Resume => desk.resume(),
        Change::Unregister(watcher, object) => {
            desk.unregister(*watcher, *object);
        }
        Change::Drop(object) => desk.remove(*object),
    }
}

// Makes a change of the objects that needs memory. Out of memory, they are as before.
#[tactic(auto, unfolding(session_model::specs::Change::grown))]
fn grow_desk(desk: &mut Desk, growth: Growth) -> Result<(), AllocError>
    requires may { MayGrow desk.old growth }
    requires few { live_count desk.old.market ≤ 4096 }
    ensures set { OnOk result (desk.new ≡ grown growth desk.old) }
    ensures same { OnErr result (desk.new ≡ desk.old) }
    ensures sound { (calc : Calc) → IsSound calc desk.old → IsSound calc desk.new }
{
    match growth {
        Growth::Member(composite, member, weight) => {
            desk.shape();
            desk.set_member(composite, member, weight)
        }
        Growth::Fixing(index, day, rate) => match desk.add_fixing(index, day, rate) {
            Ok(()) => Ok(()),
            Err(FixFault::Exists(_)) => unreachable!(),
            Err(FixFault::NoMemory) => Err(AllocError),
        },
        Growth::Register(watcher, object) => match desk.register(watcher, object) {
            Ok(_) => Ok(()),
            Err(fault) => Err(fault),
        },
    }
}
