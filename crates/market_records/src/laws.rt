// A law of the steps of records, the clause of a function with nothing to do.
ghost use Rattle.std.specs.Prelude.{◌≡◌, ◌↔◌, ℕ, List, Err};
ghost use Rattle.market_tables.specs.declared.fault.MarketKind.{MarketKind};
ghost use Rattle.market_records.specs.Records.{behind_records};
ghost use Rattle.market_records.specs.Faulty.{IsFirstFaultyRecord};

use crate::TakesRecords;

/// The records of a table give a fault and a number exactly where the record of that number is the first with a fault,
/// and this is its first: record 0, with `Header`, where the first is not the stated one.
pub fn first_record_law<T: TakesRecords>()
    ensures { (s : T) (rows : List (List (List ℕ))) (n : ℕ) (k : MarketKind)
        → (behind_records T.header T.behind s 0 rows ≡ Err (n, k)) ↔ IsFirstFaultyRecord T.header T.behind s rows n k }
{}
