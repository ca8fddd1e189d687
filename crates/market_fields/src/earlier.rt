// The part of a market before an object's table.
ghost use Rattle.std.specs.Prelude.{◌≡◌, IfOk};
ghost use Rattle.desk_names.specs.Name.{IsName};
ghost use Rattle.market_tables.specs.Given.{Gives, Says};
ghost use Rattle.market_tables.specs.Refusals.{Refuses};
ghost use Rattle.market_fields.specs.Earlier.{seen, named_object, new_name, served, index_in, index_terms};

use crate::Version;
use desk_names::{NameId, Names, ObjId, is_name};
use desk_terms::{IndexTerms, Kind, Terms, Wanted};
use market_calendars::Calendars;
use market_tables::{MarketKind, NameText, TableFault};
use std::alloc::Global;

/// A named object with its kind.
#[derive(Clone, Copy)]
pub struct Named {
    pub object: ObjId,
    pub kind: Kind,
}

/// The part of a market before an object's table: the names so far, the kind of each object with `today` first, the terms of each
/// object but `today`, the calendars, and the version of the format.
#[derive(Clone, Copy)]
pub struct Earlier<'a> {
    pub names: &'a Names,
    pub kinds: &'a [Kind],
    pub made: &'a [(NameId, Terms)],
    pub calendars: &'a Calendars,
    pub version: Version,
}

impl<'a> Earlier<'a> {
    /// Returns the object of a name.
    ///
    /// # Errors
    ///
    /// `Name` where the text is no name, `Unknown` where it names no object.
    pub fn named_object(&self, text: &[u8]) -> Result<Named, TableFault>
        ensures object { Says (λ n. n) result (named_object (seen self.now) text.now) }
    {
        if !is_name(text) {
            return Err(TableFault::Kind(MarketKind::Name));
        }
        match self.names.find(text) {
            Some(name) => match self.kinds.get(name.place()) {
                Some(kind) => Ok(Named {
                    object: ObjId(name.0),
                    kind: *kind,
                }),
                None => Err(TableFault::Kind(MarketKind::Unknown)),
            },
            None => Err(TableFault::Kind(MarketKind::Unknown)),
        }
    }

    /// Checks a new name.
    ///
    /// # Errors
    ///
    /// `Name` where the text is no name, `Taken` where it names an object.
    pub fn test_new(&self, text: &[u8]) -> Result<(), TableFault>
        ensures name { Says (λ _. text.now) result (new_name (seen self.now) text.now) }
        ensures form { IfOk result (λ _. IsName text.now) }
    {
        if !is_name(text) {
            return Err(TableFault::Kind(MarketKind::Name));
        }
        if self.names.find(text).is_some() {
            return Err(TableFault::Kind(MarketKind::Taken));
        }
        Ok(())
    }

    /// Returns the text as a new name.
    ///
    /// # Errors
    ///
    /// `Name` where the text is no name, `Taken` where it names an object, both without memory, and `NoMemory`.
    pub(crate) fn new_name(&self, alloc: Global, text: &[u8]) -> Result<NameText, TableFault>
        ensures name { Gives (λ name. name) result (new_name (seen self.now) text.now) }
        ensures told { Refuses result (new_name (seen self.now) text.now) }
    {
        self.test_new(text)?;
        NameText::read(alloc, text)
    }

    /// Returns the terms of an index.
    ///
    /// # Errors
    ///
    /// `Kind` where the object is no index.
    pub fn index_terms(&self, index: ObjId) -> Result<&IndexTerms, TableFault>
        ensures { Says (λ terms. terms.now) result (index_terms (seen self.now) index) }
    {
        match self.made.get(index.place().saturating_sub(1)) {
            Some((_, terms)) => index_in(terms),
            None => Err(TableFault::Kind(MarketKind::Kind)),
        }
    }
}

// Returns the terms of an index from terms of any kind, or `Kind`.
fn index_in(terms: &Terms) -> Result<&IndexTerms, TableFault>
    ensures { Says (λ terms. terms.now) result (index_in terms.now) }
{
    match terms {
        Terms::Index(terms, _) => Ok(terms),
        Terms::Quote(_)
        | Terms::Derived { .. }
        | Terms::Handle { .. }
        | Terms::Curve(_)
        | Terms::Implied { .. }
        | Terms::Engine { .. }
        | Terms::Stock { .. }
        | Terms::Composite(_)
        | Terms::Flows(..) => Err(TableFault::Kind(MarketKind::Kind)),
    }
}

/// Returns the object, if it is of the required kind.
///
/// # Errors
///
/// `Kind` where it is not.
pub fn served(named: Named, wanted: Wanted) -> Result<ObjId, TableFault>
    ensures object { Says (λ object. object) result (served wanted named) }
{
    if named.kind.serves(wanted) {
        return Ok(named.object);
    }
    Err(TableFault::Kind(MarketKind::Kind))
}
