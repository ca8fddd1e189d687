// The files that a market names.
ghost use Rattle.std.specs.Prelude.{◌≡◌};
ghost use Rattle.market_tables.specs.Given.{Gives};
ghost use Rattle.market_file.specs.Fault.{Answers, at_entry};
ghost use Rattle.market_file.specs.Paths.{paths_of, market_paths};
ghost use Rattle.market_file.specs.declared.fault.Section.TheVariants.{Top};

use crate::document::read_document;
use crate::fault::{MarketFault, Section, fault_at};
use crate::top::read_top;
use desk_names::PathText;
use market_tables::TableFault;
use std::alloc::Global;

/// The files that a market names, each path as it is written there.
#[derive(Drop)]
pub struct Paths {
    /// The file of the quotes.
    pub quotes: Option<PathText>,
    /// The file of the fixings.
    pub fixings: Option<PathText>,
}

fn paths_of(alloc: Global, text: &[u8]) -> Result<Paths, TableFault>
    ensures { Gives (λ paths. paths) result (paths_of text.now) }
{
    let document = read_document(alloc, text)?;
    let top = read_top(alloc, &document)?;
    Ok(Paths {
        quotes: top.quotes,
        fixings: top.fixings,
    })
}

/// The files that a market names, or the first fault of its text or its top table. Whether the text is too long is left
/// to the reader of the file.
pub fn market_paths(alloc: Global, text: &[u8]) -> Result<Paths, MarketFault>
    ensures { Answers (λ paths. paths) result (market_paths text.now) }
{
    match paths_of(alloc, text) {
        Ok(paths) => Ok(paths),
        Err(fault) => Err(fault_at(Section::Top, 0, fault)),
    }
}
