// The objects of a market so far.
ghost use Rattle.std.specs.Prelude.{◌≡◌, ◌<◌, ◌≤◌, ◌+◌, length, Ok, IfOk, IfErr, OnOk, OnErr};
ghost use Rattle.desk_names.specs.Name.{IsName};
ghost use Rattle.desk_names.specs.Names.{place_of, with_text, most_names};
ghost use Rattle.market_tables.specs.declared.fault.TableFault.TheVariants.{NoMemory};
ghost use Rattle.market_tables.specs.Given.{Gives};

use crate::fixings::fix_at;
use day_number::Day;
use desk_names::{NameFault, NameId, Names, ObjId};
use desk_terms::{Kind, Terms};
use fixed_amount::Rate;
use market_calendars::Calendars;
use market_fields::{Earlier, Version};
use market_tables::{MarketKind, TableFault};
use std::alloc::Global;
use std::marker::Model;

/// The greatest number of objects of a market, with `today`.
const MOST_OBJECTS: usize = 4096;

/// The objects of a market without `today`, in order of creation, each with its name and its terms.
pub type MadeList = Vec<(NameId, Terms)>;

/// The names, the kinds and the terms of the objects so far, the calendars, and the version of the format.
pub struct Board {
    names: Names,
    kinds: Vec<Kind>,
    made: MadeList,
    calendars: Calendars,
    version: Version,
    alloc: Global,
}

// Each exit of an owner of a board calls this once, instead of dropping each field.
impl Drop for Board {
    fn drop(self) {
        let Board {
            names: _,
            kinds: _,
            made: _,
            calendars: _,
            version: _,
            alloc: _,
        } = self;
    }
}

impl Model for Board {
    ghost use Rattle.std.specs.Prelude.{length, ◌≤◌};
    ghost use Rattle.market_fields.specs.Earlier.{Earlier};
    ghost use Rattle.market_objects.specs.Board.{HaveFlowsInRange};

    ghost Value = { Earlier };

    ghost view = { λ b. record { names = b.names; kinds = b.kinds.items; made = b.made.items; calendars = b.calendars; version = b.version } };

    ghost invariant = { λ b. (length b.names ≤ length b.kinds.items) × (length b.kinds.items ≤ 4096) × HaveFlowsInRange b.made.items };
}

// Returns the number of a name, which is added if it is new.
fn number_of(names: &mut Names, text: &[u8]) -> Result<NameId, TableFault>
    requires named { IsName text.now }
    requires room { length names.old < most_names }
    ensures place { IfOk result (λ n. n ≡ place_of names.old text.now) }
    ensures kept { OnOk result (names.new ≡ with_text names.old text.now) }
    ensures err { OnErr result (names.new ≡ names.old) }
    ensures cause { IfErr result (λ e. e ≡ NoMemory) }
    ensures count { length names.new ≤ length names.old + 1 }
{
    match names.intern(text) {
        Ok(name) => Ok(name),
        Err(NameFault::Form) => unreachable!(),
        Err(NameFault::Full) => unreachable!(),
        Err(NameFault::NoMemory) => Err(TableFault::NoMemory),
    }
}

impl Board {
    ghost use Rattle.std.specs.Prelude.{◌≡◌, Ok};
    ghost use Rattle.desk_names.specs.Name.{IsName};
    ghost use Rattle.market_tables.specs.Given.{Gives};
    ghost use Rattle.market_tables.specs.Refusals.{Refuses};
    ghost use Rattle.market_fields.specs.Earlier.{seen};
    ghost use Rattle.flow_terms.specs.Fixings.{IsRate};
    ghost use Rattle.market_objects.specs.Board.{started, added, HasFlowsInRange, HaveFlowsInRange};
    ghost use Rattle.market_objects.specs.Fixings.{with_fixing_of};

    /// Starts with `today` alone, in a version of the format and over some calendars.
    ///
    /// # Errors
    ///
    /// `NoMemory` where memory runs out.
    pub fn start(alloc: Global, version: Version, calendars: Calendars) -> Result<Board, TableFault>
        ensures { Gives (λ board. board) result (Ok (started version calendars)) }
    {
        let mut names = Names::new(alloc);
        number_of(&mut names, b"today")?;
        let mut kinds = Vec::new(alloc);
        kinds.push(Kind::Today)?;
        let made = Vec::new(alloc);
        Ok(Board {
            names,
            kinds,
            made,
            calendars,
            version,
            alloc,
        })
    }

    /// Returns the allocator of the board.
    pub(crate) fn alloc(&self) -> Global {
        self.alloc
    }

    /// Returns the market so far.
    pub(crate) fn earlier(&self) -> Earlier<'_>
        ensures { seen result ≡ self.now }
    {
        Earlier {
            names: &self.names,
            kinds: self.kinds.as_slice(),
            made: self.made.as_slice(),
            calendars: &self.calendars,
            version: self.version,
        }
    }

    /// Appends an object with its name, or refuses it with `Limit` where there are 4,096 objects, which takes no memory.
    pub(crate) fn add(&mut self, name: &[u8], terms: Terms) -> Result<(), TableFault>
        requires named { IsName name.now }
        requires ranged { HasFlowsInRange terms }
        ensures board { Gives (λ _. self.new) result (added self.old name.now terms) }
        ensures told { Refuses result (added self.old name.now terms) }
    {
        if self.kinds.len() >= MOST_OBJECTS {
            return Err(TableFault::Kind(MarketKind::Limit));
        }
        self.kinds.push(terms.kind())?;
        let number = number_of(&mut self.names, name)?;
        self.made.push((number, terms))?;
        Ok(())
    }

    /// Stores a fixing of an index. Returns `Kind` where the object is no index and `Exists` where the day has a fixing, without
    /// memory.
    pub(crate) fn fix(&mut self, index: ObjId, day: Day, rate: Rate) -> Result<(), TableFault>
        requires { IsRate rate }
        ensures board { Gives (λ _. self.new) result (with_fixing_of self.old index day rate) }
        ensures told { Refuses result (with_fixing_of self.old index day rate) }
    {
        let at = index.place().saturating_sub(1);
        fix_at(&mut self.made, at, day, rate)?;
        Ok(())
    }

    /// Returns the names and the objects without `today`.
    pub fn into_parts(self) -> (Names, MadeList)
        ensures names { result.0 ≡ self.names }
        ensures made { result.1.items ≡ self.made }
        ensures range { HaveFlowsInRange result.1.items }
    {
        let Board {
            names,
            kinds: _,
            made,
            calendars: _,
            version: _,
            alloc: _,
        } = self;
        (names, made)
    }
}
