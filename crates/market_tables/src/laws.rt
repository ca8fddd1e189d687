// Laws of tables, each the clause of a function that does nothing.
ghost use Rattle.std.specs.Prelude.{◌≡◌, ◌↔◌, ℕ, Err};
ghost use Rattle.toml.specs.Data.{Items, Members};
ghost use Rattle.market_tables.specs.declared.fault.MarketKind.{MarketKind};
ghost use Rattle.market_tables.specs.Entries.{entries_from};
ghost use Rattle.market_tables.specs.Table.{entry_of};
ghost use Rattle.market_tables.specs.Faulty.{listed, IsFirstFaulty, IsFirstOfTable};

use crate::{Kinds, TakesTables};

/// A law: the tables of a section give a fault and a number exactly if the table of that number, from 1, is the first with a fault,
/// and this is its first.
pub fn first_entry_law<T: TakesTables>()
    ensures { (s : T) (tables : Items) (n : ℕ) (k : MarketKind)
        → (entries_from T.behind s 1 tables ≡ Err (n, k)) ↔ IsFirstFaulty T.behind s (listed tables) n k }
{}

/// A law: a table gives a fault exactly if it is its first: that of its kind, then `Key` for an unlisted key, then those of its keys
/// in listed order.
pub fn first_of_table_law<R: Kinds>()
    ensures { (reader : R) (table : Members) (k : MarketKind)
        → (entry_of R.kind_of R.keys_of (R.required reader) (R.gives reader) table ≡ Err k)
        ↔ IsFirstOfTable R.kind_of R.keys_of (R.required reader) (R.gives reader) table k }
{}
