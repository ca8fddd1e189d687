// The table of commands: the first word of each, and the kinds of its arguments.
ghost use Rattle.std.specs.Prelude.{◌≡◌, length};
ghost use Rattle.session_commands.specs.Table.{row_of, verb_of, words_in};

/// The kind of an argument.
#[derive(Clone, Copy, PartialEq, Eq)]
pub enum Kind {
    /// No argument.
    Nothing,
    /// A name.
    Name,
    /// A decimal of at most 10^9 in size, or `unset`.
    Value,
    /// A decimal of at most 10^9 in size.
    Number,
    /// A decimal of at most 10 in size.
    Rate,
    /// A day.
    Day,
    /// A whole number of at most 1,000,000 in size.
    Weight,
    /// A name, or `none`.
    Engine,
    /// `quote` or `curve`.
    Target,
    /// `off` or `on`.
    Switch,
    /// The name of an action.
    Action,
}

/// The first word of a command.
#[derive(Clone, Copy, PartialEq, Eq)]
pub enum Verb {
    Quote,
    Sum,
    Difference,
    Handle,
    Stock,
    Composite,
    Member,
    Set,
    Unset,
    Link,
    Unlink,
    Engine,
    Today,
    Fixing,
    Freeze,
    Thaw,
    Recalc,
    Forward,
    Defer,
    Resume,
    Watch,
    Register,
    Unregister,
    Drop,
    Ask,
    Df,
}

/// All first words, in the order of the language's page.
pub const VERBS: [Verb; 26] = [
    Verb::Quote,
    Verb::Sum,
    Verb::Difference,
    Verb::Handle,
    Verb::Stock,
    Verb::Composite,
    Verb::Member,
    Verb::Set,
    Verb::Unset,
    Verb::Link,
    Verb::Unlink,
    Verb::Engine,
    Verb::Today,
    Verb::Fixing,
    Verb::Freeze,
    Verb::Thaw,
    Verb::Recalc,
    Verb::Forward,
    Verb::Defer,
    Verb::Resume,
    Verb::Watch,
    Verb::Register,
    Verb::Unregister,
    Verb::Drop,
    Verb::Ask,
    Verb::Df,
];

impl Verb {
    /// Returns the row of a command: its first word, and the kinds of its arguments.
    #[tactic(auto, unfolding(crate::specs::Table::row_of))]
    pub fn row(self) -> (&'static [u8], Kind, Kind, Kind)
        ensures word { result.0.now ≡ (row_of self).word }
        ensures kinds { (result.1 ≡ (row_of self).first) × (result.2 ≡ (row_of self).second) × (result.3 ≡ (row_of self).third) }
    {
        match self {
            Verb::Quote => (b"quote", Kind::Name, Kind::Value, Kind::Nothing),
            Verb::Sum => (b"sum", Kind::Name, Kind::Name, Kind::Name),
            Verb::Difference => (b"difference", Kind::Name, Kind::Name, Kind::Name),
            Verb::Handle => (b"handle", Kind::Name, Kind::Target, Kind::Nothing),
            Verb::Stock => (b"stock", Kind::Name, Kind::Name, Kind::Nothing),
            Verb::Composite => (b"composite", Kind::Name, Kind::Nothing, Kind::Nothing),
            Verb::Member => (b"member", Kind::Name, Kind::Name, Kind::Weight),
            Verb::Set => (b"set", Kind::Name, Kind::Number, Kind::Nothing),
            Verb::Unset => (b"unset", Kind::Name, Kind::Nothing, Kind::Nothing),
            Verb::Link => (b"link", Kind::Name, Kind::Name, Kind::Nothing),
            Verb::Unlink => (b"unlink", Kind::Name, Kind::Nothing, Kind::Nothing),
            Verb::Engine => (b"engine", Kind::Name, Kind::Engine, Kind::Nothing),
            Verb::Today => (b"today", Kind::Day, Kind::Nothing, Kind::Nothing),
            Verb::Fixing => (b"fixing", Kind::Name, Kind::Day, Kind::Rate),
            Verb::Freeze => (b"freeze", Kind::Name, Kind::Nothing, Kind::Nothing),
            Verb::Thaw => (b"thaw", Kind::Name, Kind::Nothing, Kind::Nothing),
            Verb::Recalc => (b"recalc", Kind::Name, Kind::Nothing, Kind::Nothing),
            Verb::Forward => (b"forward", Kind::Name, Kind::Switch, Kind::Nothing),
            Verb::Defer => (b"defer", Kind::Nothing, Kind::Nothing, Kind::Nothing),
            Verb::Resume => (b"resume", Kind::Nothing, Kind::Nothing, Kind::Nothing),
            Verb::Watch => (b"watch", Kind::Name, Kind::Action, Kind::Nothing),
            Verb::Register => (b"register", Kind::Name, Kind::Name, Kind::Nothing),
            Verb::Unregister => (b"unregister", Kind::Name, Kind::Name, Kind::Nothing),
            Verb::Drop => (b"drop", Kind::Name, Kind::Nothing, Kind::Nothing),
            Verb::Ask => (b"ask", Kind::Name, Kind::Nothing, Kind::Nothing),
            Verb::Df => (b"df", Kind::Name, Kind::Day, Kind::Nothing),
        }
    }

    /// Returns the command with this first word. It tries `ask` and `set` first, since most lines of a long script begin with them.
    #[tactic(auto, unfolding(crate::specs::Table::verb_of))]
    pub fn of_word(word: &[u8]) -> Option<Verb>
        ensures { result ≡ verb_of word.now }
    {
        if word == Verb::Ask.row().0 {
            return Some(Verb::Ask);
        }
        if word == Verb::Set.row().0 {
            return Some(Verb::Set);
        }
        VERBS.iter().copied().find(|verb| verb.row().0 == word)
    }
}
