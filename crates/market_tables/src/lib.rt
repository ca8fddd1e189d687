//! The tables of a market file. The keys of each kind of table are data, and the steps of reading a table, an array of tables and a
//! section are written once, for any keys.
//!
//! `Key` and `Presence` are the data, `Places` and `Kinds` the readers. `row_of` and `entry_of` read a table, `each` an array by
//! an `Element`, `take_tables` a section by `TakesTables`. Values: `text_in`, `integer_in`, `day_in`, `items_in`, `tables_in`,
//! `table_in`, `decimal_of`, `NameText`. Faults: `MarketKind`, `TableFault`, `EntryFault`. Functions whose names end in `law` do
//! nothing: their contracts are what is proved of the definitions.
//!
//! ```text
//! let (kind, mut fields) = entry_of(alloc, &reader, table)?;
//! let name = take_field(&mut fields, 0);
//! ```
#![tactic(auto)]

mod arrays;
mod entries;
mod entry;
mod fault;
mod fields;
mod key;
mod laws;
mod name_text;
mod presence;
mod table;
mod values;

pub use arrays::{Element, each};
pub use entries::{EntryFault, TakesTables, fault_at, next_entry, take_tables};
pub use entry::entry_of;
pub use fault::{MarketKind, TableFault};
pub use fields::take_field;
pub use key::{Key, Kinds, Places};
pub use laws::{first_entry_law, first_of_table_law};
pub use name_text::NameText;
pub use presence::Presence;
pub use table::{row_of, value_at};
pub use values::{day_in, decimal_of, integer_in, items_in, table_in, tables_in, text_in};
