// Laws of reader and printer, each the clause of a function that does nothing.
ghost use Rattle.std.specs.Prelude.{◌≡◌, ◌≤◌, ◌↔◌, ℕ, List, Ok, Err, length};
ghost use Rattle.std.specs.Str.Lines.{lines};
ghost use Rattle.desk_names.specs.Names.{IsNames};
ghost use Rattle.session_commands.specs.Whole.{IsScript};
ghost use Rattle.session_commands.specs.declared.script.Script.{Script};
ghost use Rattle.session_commands.specs.declared.script_kind.ScriptKind.{ScriptKind};
ghost use Rattle.session_lang.specs.Printing.{script_text};
ghost use Rattle.session_lang.specs.FirstFault.{IsFirstFault, names_after};
ghost use Rattle.session_lang.specs.Reading.{most_bytes, script_meaning};

/// A law: a script that was read is whole, that is, its names and actions exist and its values are within their limits. The
/// printed text of a whole script reads back to that script, over the same names, if it is no longer than a script may be.
/// So does that of each script that was read.
pub fn round_trip_law()
    ensures whole { (names : List (List ℕ)) (text : List ℕ) (s : Script) (after : List (List ℕ)) → IsNames names
        → script_meaning names text ≡ Ok (s, after) → IsScript after s }
    ensures back { (names : List (List ℕ)) (s : Script) → IsScript names s → length (script_text names s) ≤ most_bytes
        → script_meaning names (script_text names s) ≡ Ok (s, names) }
    ensures again { (names : List (List ℕ)) (text : List ℕ) (s : Script) (after : List (List ℕ)) → IsNames names
        → script_meaning names text ≡ Ok (s, after) → length (script_text after s) ≤ most_bytes
        → script_meaning after (script_text after s) ≡ Ok (s, after) }
{}

/// A law: reading a text returns a fault, with its line from 1, exactly if that is its first fault: the first faulty line with
/// the first fault of that line, the line of a block that does not end, or the first line that names an action without a
/// block. Reading a text without one adds the names of its lines, numbered in order of first use.
pub fn first_fault_law()
    ensures told { (names : List (List ℕ)) (text : List ℕ) (n : ℕ) (kind : ScriptKind) → IsNames names
        → (script_meaning names text ≡ Err (n, kind)) ↔ IsFirstFault names text n kind }
    ensures names { (names : List (List ℕ)) (text : List ℕ) (s : Script) (after : List (List ℕ)) → IsNames names
        → script_meaning names text ≡ Ok (s, after) → after ≡ names_after names (lines text) }
{}
