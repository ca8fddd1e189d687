// The calls of a session that is kept.
ghost use Rattle.std.specs.Prelude.{◌≡◌, ◌⊎◌, ◌↔◌, ◌^◌, ◌-◌, ◌<◌, ◌≤◌, [], true, false, unsigned_abs};
ghost use Rattle.desk_names.specs.Names.{has_text};
ghost use Rattle.desk_c.specs.Calls.{Says, IsCutOff, Sets, IsNotSet, IsHalted, standing_of};
ghost use Rattle.desk_c.specs.declared.status.TheConstants.{DONE, NO_MEMORY, STOPPED, NO_NAME, REFUSED, RANGE};

use crate::kept::Kept;
use crate::status::{DONE, NO_MEMORY, NO_NAME, RANGE, REFUSED, STOPPED};
use fixed_amount::Rate;
use live_session::SayFault;
use pricing_session::ChangeFault;
use session_commands::Command;

// The most units of a quote's value.
const MOST_UNITS: u64 = 1_000_000_000_000_000_000;

impl Kept {
    // What a line says is done, and its lines are kept.
    pub(crate) fn say(&mut self, line: &[u8]) -> u32
        ensures says { result ≡ DONE → Says line.now self.old self.new }
        ensures front { result ≡ NO_MEMORY → IsCutOff line.now self.old self.new }
        ensures stopped { result ≡ STOPPED ↔ (((standing_of self.old).stopped ≡ true) ⊎ (self.old.session.beside.line ≡ 2 ^ 64 - 1)) }
        ensures same { result ≡ STOPPED → (self.new.session ≡ self.old.session) × (self.new.text.items ≡ []) }
        ensures ends { (result ≡ DONE) ⊎ ((result ≡ NO_MEMORY) ⊎ (result ≡ STOPPED)) }
    {
        self.text.clear();
        match self.session.say(line, &mut self.text) {
            Ok(()) => DONE,
            Err(SayFault::NoMemory) => NO_MEMORY,
            Err(SayFault::Stopped | SayFault::TooManyLines) => STOPPED,
        }
    }

    // Gives a quote a value.
    pub(crate) fn set(&mut self, name: &[u8], units: i64) -> u32
        ensures sets { result ≡ DONE → Sets name.now units self.old self.new }
        ensures refused { result ≡ REFUSED → IsNotSet name.now units self.old self.new }
        ensures no_name { result ≡ NO_NAME ↔ (has_text (standing_of self.old).names name.now ≡ false) }
        ensures range { result ≡ RANGE ↔ ((has_text (standing_of self.old).names name.now ≡ true) × (10 ^ 18 < unsigned_abs units)) }
        ensures within { (result ≡ DONE) ⊎ (result ≡ REFUSED) → unsigned_abs units ≤ 10 ^ 18 }
        ensures stopped { result ≡ STOPPED ↔ IsHalted name.now units self.old }
        ensures same { (result ≡ NO_NAME) ⊎ ((result ≡ RANGE) ⊎ (result ≡ STOPPED)) → self.new ≡ self.old }
        ensures ends { (result ≡ DONE) ⊎ ((result ≡ REFUSED) ⊎ ((result ≡ NO_NAME) ⊎ ((result ≡ RANGE) ⊎ (result ≡ STOPPED)))) }
    {
        let Some(name) = self.session.name(name) else {
            return NO_NAME;
        };
        if units.unsigned_abs() > MOST_UNITS {
            return RANGE;
        }
        match self.session.change(&Command::Set(name, Rate(units))) {
            Ok(None) => DONE,
            Ok(Some(_)) => REFUSED,
            Err(ChangeFault::Stopped) => STOPPED,
            // It knows the name, the number is within its limit, and a quote's value is a quiet change.
            Err(ChangeFault::Unknown) => unreachable!(),
            Err(ChangeFault::NotQuiet) => unreachable!(),
        }
    }
}
