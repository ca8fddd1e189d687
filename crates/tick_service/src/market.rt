// A market by its path.
ghost use Rattle.std.specs.Prelude.{IfOk};
ghost use Rattle.market_file.specs.Standing.{IsReady};

use desk_edge::FileShelf;
use desk_names::Names;
use market_file::Market;
use market_loader::load_market;
use std::io;
use std::io::{Error, ErrorKind};

// Reads a market with the tables that it names; the names become those of its objects.
pub(crate) fn load(rt: &HostRuntime, path: &str, names: &mut Names) -> io::Result<Market>
    ensures { IfOk result (λ market. IsReady names.new market.made.items) }
{
    let mut shelf = FileShelf::new(rt.clone()?);
    match load_market(rt.alloc(), path, &mut shelf, names) {
        Ok(market) => Ok(market),
        Err(_) => Err(Error::from(ErrorKind::InvalidData)),
    }
}
