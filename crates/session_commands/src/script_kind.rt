// The faults of a script.
ghost use Rattle.std.specs.Prelude.{◌≡◌};
ghost use Rattle.session_commands.specs.ScriptKind.{kind_text};

use std::fmt;

/// The fault of a line of a script. The first fault of a line in this order is reported. `Name`, `Number`, `Date` and `Choice`
/// are looked for word by word from the left. (This project's profile.)
#[derive(Clone, Copy, Debug, PartialEq, Eq)]
pub enum ScriptKind {
    /// The script has more than 8,388,608 bytes. Reported with line 0.
    TooLong,
    /// The line has a byte that is neither a tab nor one from 32 to 126.
    Byte,
    /// The first word is no word of the language.
    Word,
    /// The line has more or fewer words than its command takes.
    Count,
    /// `action` inside a block.
    Nested,
    /// `end` outside a block.
    End,
    /// A word in the place of a name is no name.
    Name,
    /// A block of that name began on an earlier line.
    Twice,
    /// A decimal or whole number has a wrong form or is beyond its limit.
    Number,
    /// A day has a wrong form or is out of range.
    Date,
    /// A word is not one of the choices.
    Choice,
    /// The name would be the 65,537th.
    Names,
    /// The script ends inside a block. Reported with the line of its `action`.
    Unclosed,
    /// A watch names an action that no block defines. Reported with the first such line.
    NoAction,
}

impl ScriptKind {
    // Returns the word that it prints as.
    fn word(self) -> &'static str
        ensures { result.now ≡ kind_text self }
    {
        match self {
            ScriptKind::TooLong => "toolong",
            ScriptKind::Byte => "byte",
            ScriptKind::Word => "word",
            ScriptKind::Count => "count",
            ScriptKind::Nested => "nested",
            ScriptKind::End => "end",
            ScriptKind::Name => "name",
            ScriptKind::Twice => "twice",
            ScriptKind::Number => "number",
            ScriptKind::Date => "date",
            ScriptKind::Choice => "choice",
            ScriptKind::Names => "names",
            ScriptKind::Unclosed => "unclosed",
            ScriptKind::NoAction => "noaction",
        }
    }
}

// A fault prints as its word.
impl fmt::Display for ScriptKind {
    ghost use Rattle.std.specs.Prelude.{Some};
    ghost use Rattle.session_commands.specs.ScriptKind.{kind_text};

    ghost output = { λ k. Some (kind_text k) };

    fn fmt<W: fmt::Write>(&self, f: &mut fmt::Formatter<W>) -> fmt::Result {
        f.write_str(self.word())
    }
}
