// Laws of words, each the clause of a function with nothing to do.
ghost use Rattle.std.specs.Prelude.{◌≡◌, ◌<◌, ◌≤◌, ◌^◌, ℕ, ℤ, List, Some, None, Ok, slice_get, unsigned_abs};
ghost use Rattle.fixed_amount.specs.Decimal.{decimal_text};
ghost use Rattle.day_number.specs.Day.{IsDayNumber, day_text};
ghost use Rattle.day_number.specs.Text.{day_of_text};
ghost use Rattle.desk_names.specs.Names.{IsNames};
ghost use Rattle.session_commands.specs.Sorts.{IsOf};
ghost use Rattle.session_commands.specs.declared.field.Field.{Field};
ghost use Rattle.session_commands.specs.declared.table.Kind.{Kind};
ghost use Rattle.script_words.specs.Word.{number_within, numbered, weight_of, fault_of, field_of};

/// What is printed of a name, a decimal, a weight and a day is read back as it was; and a word without a fault gives a
/// field of its kind's sort.
pub fn words_law()
    ensures name { (names : List (List ℕ)) (n : ℕ) (text : List ℕ) → IsNames names → slice_get names n ≡ Some text
        → numbered names text ≡ Ok (n, names) }
    ensures decimal { (units : ℤ) (limit : ℕ) → limit < 2 ^ 63 → unsigned_abs units ≤ limit
        → number_within 9 limit (decimal_text units 9) ≡ Some units }
    ensures weight { (weight : ℤ) → unsigned_abs weight ≤ 1_000_000 → weight_of (decimal_text weight 0) ≡ Some weight }
    ensures day { (day : ℤ) → IsDayNumber day → day_of_text (day_text day) ≡ Some day }
    ensures sorted { (names : List (List ℕ)) (k : Kind) (word : List ℕ) (f : Field) (after : List (List ℕ))
        → fault_of k word ≡ None → field_of names k word ≡ Ok (f, after) → IsOf k f }
{}
