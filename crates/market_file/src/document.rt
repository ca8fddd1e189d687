// The document of a market's text.
ghost use Rattle.std.specs.Prelude.{◌≡◌, Option};
ghost use Rattle.toml.specs.Parse.{parse_document};
ghost use Rattle.toml.specs.View.{table_view};
ghost use Rattle.market_tables.specs.Given.{Gives};
ghost use Rattle.market_file.specs.Document.{or_toml, document_of};

use market_tables::{MarketKind, TableFault};
use std::alloc::Global;
use toml::Table;

// The document of a text that is UTF-8.
fn document(alloc: Global, text: &str) -> Result<Table, TableFault>
    ensures { Gives table_view result (or_toml (parse_document text.now)) }
{
    match toml::table_from_str(alloc, text) {
        Ok(table) => Ok(table),
        Err(error) if error.is_memory() => Err(TableFault::NoMemory),
        Err(_) => Err(TableFault::Kind(MarketKind::Toml)),
    }
}

/// The document of a text, or `Toml` where it is none.
pub(crate) fn read_document(alloc: Global, text: &[u8]) -> Result<Table, TableFault>
    ensures { Gives table_view result (document_of text.now) }
{
    match std::str::from_utf8(text) {
        Ok(text) => document(alloc, text),
        Err(_) => Err(TableFault::Kind(MarketKind::Toml)),
    }
}
