// The keys of a kind of table as data, and the readers of their values.
use crate::TableFault;
use toml::{Table, Value};

/// A key of a kind of table: its word, when it is required, and what it takes.
pub type Key<W, P> = (&'static str, W, P);

/// Reads the keys of some kind of table, given the market before it.
pub trait Places {
    ghost use Rattle.std.specs.Prelude.{◌≡◌, Result, Bool};
    ghost use Rattle.toml.specs.Data.{Data, Members};
    ghost use Rattle.toml.specs.View.{view, table_view};
    ghost use Rattle.market_tables.specs.declared.fault.MarketKind.{MarketKind};
    ghost use Rattle.market_tables.specs.Given.{Gives, Says};

    /// When a key is required.
    type Presence: Copy + 'static;
    /// The value that a key takes.
    type Place: Copy + 'static;
    /// The field that a key gives.
    type Field: Drop;

    /// Says if a key is required in a table, or the fault of the table's keys that is reported at this key.
    ghost required: { Self → Self.Presence → Members → Result Bool MarketKind };

    /// The field of a value, or its fault.
    ghost gives: { Self → Self.Place → Data → Result Self.Field MarketKind };

    /// Returns whether a key is required in the table.
    ///
    /// # Errors
    ///
    /// The fault of the table's keys that is reported at this key.
    fn must_stand(&self, presence: Self::Presence, table: &Table) -> Result<bool, TableFault>
        ensures { Says (λ must. must) result (required self.now presence (table_view table.now)) };

    /// Returns the field of a value.
    ///
    /// # Errors
    ///
    /// The fault of the value, or `NoMemory`.
    fn field(&self, place: Self::Place, value: &Value) -> Result<Self::Field, TableFault>
        ensures { Gives (λ field. field) result (gives self.now place (view value.now)) };
}

/// Reads tables whose key `kind` decides which other keys they have.
pub trait Kinds: Places {
    ghost use Rattle.std.specs.Prelude.{◌≡◌, List, ℕ, Option, map};
    ghost use Rattle.market_tables.specs.Table as words;

    /// A kind of table.
    type Kind: Copy;

    /// The kind with this word.
    ghost kind_of: { List ℕ → Option Self.Kind };

    /// The keys of a kind besides `kind`, in listed order.
    ghost keys_of: { Self.Kind → List (words.Key Self.Presence Self.Place) };

    /// Returns the kind with this word.
    fn kind(word: &str) -> Option<Self::Kind>
        ensures { result ≡ kind_of word.now };

    /// Returns the keys of a kind besides `kind`, in listed order.
    fn keys(kind: Self::Kind) -> &'static [Key<Self::Presence, Self::Place>]
        ensures { map words.listed result.now ≡ keys_of kind };
}
