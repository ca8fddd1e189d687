//! The values of the quotes of a session: a finite map from the numbers of quotes to a value or none (QuantLib's
//! `SimpleQuote`).
//!
//! `Quotes`. A clause asks what stands at a number by `entry`, and speaks of a changed board by `IsPut`.
#![tactic(auto)]

ghost use Rattle.std.specs.Prelude.{◌≡◌, ◌≢◌, ◌≤◌, ◌<◌, ℕ, length, None, Some, IsOk, OnOk, not};
ghost use Rattle.quote_board.specs.Board.{entry, is_equal, IsPut, IsSame};

use desk_names::ObjId;
use fixed_amount::Rate;
use std::alloc::{AllocError, Global};
use std::marker::Model;

/// The values of quotes by number. At a number stands nothing, or a quote with its value or with none.
pub struct Quotes {
    entries: Vec<Option<Option<Rate>>>,
}

// One call at each exit of who lets it go.
impl Drop for Quotes {
    fn drop(self) {
        let Quotes { entries: _ } = self;
    }
}

impl Model for Quotes {
    ghost use Rattle.std.specs.Prelude.{List, Option, ℤ};

    ghost Value = { List (Option (Option ℤ)) };

    ghost view = { λ q. q.entries.items };
}

impl Quotes {
    /// A board without quotes, which takes no memory. It grows in this memory.
    pub fn new(alloc: Global) -> Quotes
        ensures { (x : ℕ) → entry result x ≡ None }
    {
        Quotes {
            entries: Vec::new(alloc),
        }
    }

    /// Makes room for a quote of this number. The board stays as it was. No memory is wanted where room was made, as
    /// for a quote that is there.
    pub fn reserve(&mut self, quote: ObjId) -> Result<(), AllocError>
        ensures room { OnOk result (quote < length self.new) }
        ensures ready { quote < length self.old → IsOk result }
        ensures there { entry self.old quote ≢ None → IsOk result }
        ensures same { IsSame self.old self.new }
    {
        grow(&mut self.entries, quote.place() + 1)
    }

    /// Writes a quote with its value or with none, where room was made for it.
    pub fn put(&mut self, quote: ObjId, value: Option<Rate>)
        requires room { quote < length self.old }
        ensures { IsPut quote (Some value) self.old self.new }
    {
        self.entries[quote.place()] = Some(value);
    }

    /// Sets or unsets a quote. Answers whether its value changed.
    pub fn set(&mut self, quote: ObjId, value: Option<Rate>) -> bool
        requires { entry self.old quote ≢ None }
        ensures changed { result ≡ not (is_equal (entry self.old quote) (Some value)) }
        ensures set { IsPut quote (Some value) self.old self.new }
    {
        if holds(&self.entries[quote.place()], &value) {
            return false;
        }
        self.entries[quote.place()] = Some(value);
        true
    }

    /// The value of a quote, or none.
    pub fn get(&self, quote: ObjId) -> Option<Rate>
        requires { entry self.now quote ≢ None }
        ensures { entry self.now quote ≡ Some result }
    {
        match &self.entries[quote.place()] {
            Some(value) => *value,
            None => unreachable!(),
        }
    }

    /// Takes a quote out, if there is one.
    pub fn remove(&mut self, quote: ObjId)
        ensures { IsPut quote None self.old self.new }
    {
        if quote.place() < self.entries.len() {
            self.entries[quote.place()] = None;
        }
    }
}

// The list is at least this long, and nothing stands at the new places.
fn grow(entries: &mut Vec<Option<Option<Rate>>>, count: usize) -> Result<(), AllocError>
    ensures same { IsSame entries.old.items entries.new.items }
    ensures long { OnOk result (count ≤ length entries.new.items) }
    ensures ready { count ≤ length entries.old.items → IsOk result }
{
    while entries.len() < count {
        entries.push(None)?;
    }
    Ok(())
}

// Whether a quote with this value stands there.
fn holds(entry: &Option<Option<Rate>>, value: &Option<Rate>) -> bool
    ensures { result ≡ is_equal entry.now (Some value.now) }
{
    match entry {
        Some(held) => *held == *value,
        None => false,
    }
}
