// Laws of the reader's definition, the clause of a function with nothing to do.
ghost use Rattle.std.specs.Prelude.{◌≡◌, ◌↔◌, ℕ, List, Err};
ghost use Rattle.market_tables.specs.declared.fault.MarketKind.{MarketKind};
ghost use Rattle.market_file.specs.declared.fault.Section.{Section};
ghost use Rattle.market_file.specs.FirstFault.{IsFirstFault};
ghost use Rattle.market_file.specs.Market.{read_market};

/// A market gives a fault of an entry of a section exactly where that entry is the first with a fault in the order of
/// reading, and its first: the top table, the sizes of the tables beside it, the calendars, the quotes, the objects, the
/// fixings, each section entry by entry over what stands behind the entries before.
pub fn first_fault_law()
    ensures { (text quotes fixings : List ℕ) (s : Section) (n : ℕ) (kind : MarketKind)
        → (read_market text quotes fixings ≡ Err (s, n, kind)) ↔ IsFirstFault text quotes fixings s n kind }
{}
