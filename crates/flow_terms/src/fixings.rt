// The stored rates of an index. A clause sees them as the list of the days with their rates.
ghost use Rattle.std.specs.Prelude.{◌≡◌, ◌↔◌, ℤ, [], length, IfOk, IfSome, OnOk, OnErr, Err, Some};
ghost use Rattle.flow_terms.specs.Fixings.{IsRate, AreByDay, fixing_on, with_fixing};

use day_number::Day;
use fixed_amount::Rate;
use std::alloc::{AllocError, AllocFailed, Global};
use std::collections::BTreeMap;
use std::marker::Model;
use thiserror::Error;

/// The stored rates of an index by the days of their fixings, each within 10 either way (QuantLib's `TimeSeries`). A
/// clause sees the days with their rates, in the order of time and each day once.
pub struct Fixings {
    rates: BTreeMap<Day, Rate>,
}

// One call at each exit of who lets it go.
impl Drop for Fixings {
    fn drop(self) {
        let Fixings { rates: _ } = self;
    }
}

impl Model for Fixings {
    ghost use Rattle.std.specs.Prelude.{List, ℤ};
    ghost use Rattle.std.specs.List.{All};
    ghost use Rattle.std.specs.Map.{values_of};
    ghost use Rattle.flow_terms.specs.Fixings.{IsRate};

    ghost Value = { List (ℤ × ℤ) };

    ghost view = { λ f. f.rates.entries };

    ghost invariant = { λ f. All IsRate (values_of f.rates.entries) };
}

/// Why a rate is not stored.
#[derive(Clone, Copy, Debug, PartialEq, Eq, Error)]
pub enum FixFault {
    /// The day has a rate already, this one.
    #[error("the day has a rate already")]
    Exists(Rate),
    /// Memory is wanting.
    #[error("out of memory")]
    NoMemory,
}

impl<T: Drop> From<AllocFailed<T>> for FixFault {
    ghost use Rattle.std.specs.Prelude.{◌≡◌};
    ghost use Rattle.flow_terms.specs.declared.fixings.FixFault.TheVariants.{NoMemory};

    ghost from_gives = { λ _ e. e ≡ NoMemory };

    fn from(_: AllocFailed<T>) -> FixFault {
        FixFault::NoMemory
    }
}

impl Fixings {
    /// No stored rates, which takes no memory. They grow in this memory.
    pub fn new(alloc: Global) -> Fixings
        ensures { result ≡ [] }
    {
        Fixings {
            rates: BTreeMap::new(alloc),
        }
    }

    /// How many days have a rate.
    pub fn len(&self) -> usize
        ensures count { result ≡ length self.now }
        ensures order { AreByDay self.now }
    {
        self.rates.len()
    }

    /// The rate that is stored for a day, within 10 either way; none where the day has none.
    pub fn get(&self, day: Day) -> Option<Rate>
        ensures value { result ≡ fixing_on self.now day }
        ensures range { IfSome result IsRate }
    {
        self.rates.get(&day).copied()
    }

    /// Stores a rate of at most 10 either way for a day that has none. A rate that is there stays; want of memory
    /// changes nothing.
    pub fn add(&mut self, day: Day, rate: Rate) -> Result<(), FixFault>
        requires { IsRate rate }
        ensures exists { (kept : ℤ) → (result ≡ Err (FixFault.Exists kept)) ↔ (fixing_on self.old day ≡ Some kept) }
        ensures added { OnOk result (self.new ≡ with_fixing self.old day rate) }
        ensures same { OnErr result (self.new ≡ self.old) }
    {
        if let Some(kept) = self.get(day) {
            return Err(FixFault::Exists(kept));
        }
        self.rates.insert(day, rate)?;
        Ok(())
    }

    /// The same rates, in memory of their own.
    pub fn copy(&self) -> Result<Fixings, AllocError>
        ensures { IfOk result (λ copy. copy ≡ self.now) }
    {
        let rates = self.rates.clone()?;
        Ok(Fixings { rates })
    }
}
