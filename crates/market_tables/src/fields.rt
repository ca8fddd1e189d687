// The fields of a table, by position.
ghost use Rattle.std.specs.Prelude.{◌≡◌};
ghost use Rattle.market_tables.specs.Fields.{field_in, without};

/// Takes out the field at a position, if the table has it.
#[tactic(auto, using(crate::proofs::FieldPlaces::got, crate::proofs::FieldPlaces::set, crate::proofs::FieldPlaces::past, crate::proofs::FieldPlaces::same))]
pub fn take_field<F: Drop>(fields: &mut Vec<Option<F>>, at: usize) -> Option<F>
    ensures taken { result ≡ field_in fields.old.items at }
    ensures rest { fields.new.items ≡ without fields.old.items at }
{
    if at < fields.len() {
        fields[at].take()
    } else {
        None
    }
}
