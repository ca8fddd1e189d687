// The fields of a record.
ghost use Rattle.std.specs.Prelude.{◌≡◌};
ghost use Rattle.csv.specs.Records.{fields_of};
ghost use Rattle.market_records.specs.Row.{field};

use csv::ByteRecord;

/// The field at a place, counted from 0, or no bytes where the record has none there.
pub fn field(row: &ByteRecord, at: usize) -> &[u8]
    ensures { result.now ≡ field (fields_of row.now) at }
{
    match row.get(at) {
        Some(field) => field,
        None => &[],
    }
}
