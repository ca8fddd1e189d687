// The kinds of calendars and their keys.
ghost use Rattle.std.specs.Prelude.{◌≡◌, map};
ghost use Rattle.market_tables.specs.Table.{listed};
ghost use Rattle.market_calendars.specs.Keys.{kind_word, kind_of, keys_of};

use market_tables::{Key, Presence};

/// A kind of calendar.
#[derive(Clone, Copy, PartialEq, Eq)]
pub enum CalendarKind {
    Null,
    Weekends,
    Target,
    Bespoke,
    Joint,
}

/// The value that a key of a calendar takes.
#[derive(Clone, Copy, PartialEq, Eq)]
pub enum CalendarPlace {
    /// A new name among the calendars.
    NewName,
    /// An array of weekdays, not all.
    Weekend,
    /// An array of days.
    Holidays,
    /// `holidays` or `business`.
    Rule,
    /// An array of one to eight names of earlier calendars that are not joint.
    Parts,
}

const KINDS: [CalendarKind; 5] = [
    CalendarKind::Null,
    CalendarKind::Weekends,
    CalendarKind::Target,
    CalendarKind::Bespoke,
    CalendarKind::Joint,
];

impl CalendarKind {
    fn word(self) -> &'static str
        ensures { result.now ≡ kind_word self }
    {
        match self {
            CalendarKind::Null => "null",
            CalendarKind::Weekends => "weekends",
            CalendarKind::Target => "target",
            CalendarKind::Bespoke => "bespoke",
            CalendarKind::Joint => "joint",
        }
    }

    // Returns the kind with this word.
    pub(crate) fn of_word(word: &str) -> Option<CalendarKind>
        ensures { result ≡ kind_of word.now }
    {
        KINDS.iter().copied().find(|kind| kind.word() == word)
    }

    // Returns the keys of a kind, in listed order.
    pub(crate) fn keys(self) -> &'static [Key<Presence, CalendarPlace>]
        ensures { map listed result.now ≡ keys_of self }
    {
        match self {
            CalendarKind::Null | CalendarKind::Weekends | CalendarKind::Target => {
                &[("name", Presence::Always, CalendarPlace::NewName)]
            }
            CalendarKind::Bespoke => &[
                ("name", Presence::Always, CalendarPlace::NewName),
                ("weekend", Presence::Always, CalendarPlace::Weekend),
                ("holidays", Presence::Always, CalendarPlace::Holidays),
            ],
            CalendarKind::Joint => &[
                ("name", Presence::Always, CalendarPlace::NewName),
                ("rule", Presence::Always, CalendarPlace::Rule),
                ("parts", Presence::Always, CalendarPlace::Parts),
            ],
        }
    }
}
