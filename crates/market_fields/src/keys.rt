// The kinds of objects and their keys, with those of version 2.
ghost use Rattle.std.specs.Prelude.{◌≡◌, map};
ghost use Rattle.market_tables.specs.Table.{listed};
ghost use Rattle.market_fields.specs.Keys as keys;

use crate::presence::KeyPresence;
use desk_terms::Wanted;
use market_tables::{Key, Presence};

/// A kind of object that a table makes.
#[derive(Clone, Copy, PartialEq, Eq)]
pub enum ObjectKind {
    Sum,
    Difference,
    Handle,
    Curve,
    Implied,
    Index,
    Engine,
    Stock,
    Composite,
    Bond,
    Swap,
    Fra,
}

/// A kind of a curve's helper.
#[derive(Clone, Copy, PartialEq, Eq)]
pub enum HelperKind {
    Deposit,
    Swap,
}

/// The value that a key of an object takes.
#[derive(Clone, Copy)]
pub enum ObjectPlace {
    /// A new name.
    NewName,
    /// The name of an object of the required kind.
    Object(Wanted),
    /// The name of any object. The table checks its kind.
    AnyObject,
    /// `quote` or `curve`, the target of a handle.
    Target,
    /// A day.
    Day,
    /// A weight from -1,000,000 to 1,000,000, and not 0.
    Weight,
    /// The tables of a composite's parts.
    Parts,
    /// The name of a calendar.
    Calendar,
    /// A number of days from 0 to 30.
    Count,
    /// The tables of a curve's helpers, 1 to 64.
    Helpers,
    /// A tenor.
    Tenor,
    /// A tenor of months or years.
    Months,
    /// A rule of schedules.
    Rule,
    /// A business-day convention.
    Convention,
    /// `true` or `false`.
    Flag,
    /// A day counter.
    Counter,
    /// A notional above 0, up to 10^18 units.
    Notional,
    /// A rate of at most 10 in size.
    Rate,
    /// `pay` or `receive`, for the fixed leg of a swap.
    Leg,
    /// `long` or `short`, of a forward rate agreement.
    Position,
}

const KINDS: [ObjectKind; 12] = [
    ObjectKind::Sum,
    ObjectKind::Difference,
    ObjectKind::Handle,
    ObjectKind::Curve,
    ObjectKind::Implied,
    ObjectKind::Index,
    ObjectKind::Engine,
    ObjectKind::Stock,
    ObjectKind::Composite,
    ObjectKind::Bond,
    ObjectKind::Swap,
    ObjectKind::Fra,
];

// Returns the keys of a curve.
fn curve_keys() -> &'static [Key<KeyPresence, ObjectPlace>]
    ensures { map listed result.now ≡ keys.keys_of ObjectKind.Curve }
{
    &[
        ("name", KeyPresence::Always, ObjectPlace::NewName),
        ("calendar", KeyPresence::Always, ObjectPlace::Calendar),
        ("settlement", KeyPresence::Start, ObjectPlace::Count),
        ("reference", KeyPresence::Optional, ObjectPlace::Day),
        ("helpers", KeyPresence::Always, ObjectPlace::Helpers),
    ]
}

// Returns the keys of an index.
fn index_keys() -> &'static [Key<KeyPresence, ObjectPlace>]
    ensures { map listed result.now ≡ keys.keys_of ObjectKind.Index }
{
    &[
        ("name", KeyPresence::Always, ObjectPlace::NewName),
        ("calendar", KeyPresence::Always, ObjectPlace::Calendar),
        ("fixing_days", KeyPresence::Always, ObjectPlace::Count),
        ("tenor", KeyPresence::Always, ObjectPlace::Tenor),
        ("convention", KeyPresence::Always, ObjectPlace::Convention),
        ("month_end", KeyPresence::Optional, ObjectPlace::Flag),
        ("counter", KeyPresence::Always, ObjectPlace::Counter),
        (
            "curve",
            KeyPresence::Always,
            ObjectPlace::Object(Wanted::CurveInput),
        ),
    ]
}

// Returns the keys of a bond.
fn bond_keys() -> &'static [Key<KeyPresence, ObjectPlace>]
    ensures { map listed result.now ≡ keys.keys_of ObjectKind.Bond }
{
    &[
        ("name", KeyPresence::Always, ObjectPlace::NewName),
        ("notional", KeyPresence::Always, ObjectPlace::Notional),
        ("start", KeyPresence::Always, ObjectPlace::Day),
        ("end", KeyPresence::Always, ObjectPlace::Day),
        ("calendar", KeyPresence::Always, ObjectPlace::Calendar),
        (
            "engine",
            KeyPresence::Optional,
            ObjectPlace::Object(Wanted::Engine),
        ),
        ("payment_lag", KeyPresence::Optional, ObjectPlace::Count),
        ("coupon", KeyPresence::Structure, ObjectPlace::Rate),
        (
            "index",
            KeyPresence::Optional,
            ObjectPlace::Object(Wanted::Index),
        ),
        ("spread", KeyPresence::Optional, ObjectPlace::Rate),
        ("every", KeyPresence::WithCoupons, ObjectPlace::Tenor),
        ("rule", KeyPresence::Optional, ObjectPlace::Rule),
        ("convention", KeyPresence::Optional, ObjectPlace::Convention),
        (
            "end_convention",
            KeyPresence::Optional,
            ObjectPlace::Convention,
        ),
        ("month_end", KeyPresence::Optional, ObjectPlace::Flag),
        ("counter", KeyPresence::WithCoupons, ObjectPlace::Counter),
        ("first", KeyPresence::Optional, ObjectPlace::Day),
        ("last", KeyPresence::Optional, ObjectPlace::Day),
    ]
}

// Returns the keys of a swap.
fn swap_keys() -> &'static [Key<KeyPresence, ObjectPlace>]
    ensures { map listed result.now ≡ keys.keys_of ObjectKind.Swap }
{
    &[
        ("name", KeyPresence::Always, ObjectPlace::NewName),
        ("notional", KeyPresence::Always, ObjectPlace::Notional),
        ("side", KeyPresence::Always, ObjectPlace::Leg),
        ("start", KeyPresence::Always, ObjectPlace::Day),
        ("end", KeyPresence::Always, ObjectPlace::Day),
        ("calendar", KeyPresence::Always, ObjectPlace::Calendar),
        (
            "engine",
            KeyPresence::Optional,
            ObjectPlace::Object(Wanted::Engine),
        ),
        ("payment_lag", KeyPresence::Optional, ObjectPlace::Count),
        ("rule", KeyPresence::Optional, ObjectPlace::Rule),
        ("convention", KeyPresence::Optional, ObjectPlace::Convention),
        (
            "end_convention",
            KeyPresence::Optional,
            ObjectPlace::Convention,
        ),
        ("month_end", KeyPresence::Optional, ObjectPlace::Flag),
        ("fixed_rate", KeyPresence::Always, ObjectPlace::Rate),
        ("fixed_every", KeyPresence::Always, ObjectPlace::Tenor),
        ("fixed_counter", KeyPresence::Always, ObjectPlace::Counter),
        (
            "index",
            KeyPresence::Always,
            ObjectPlace::Object(Wanted::Index),
        ),
        ("spread", KeyPresence::Optional, ObjectPlace::Rate),
        ("float_every", KeyPresence::Always, ObjectPlace::Tenor),
        ("float_counter", KeyPresence::Always, ObjectPlace::Counter),
    ]
}

// Returns the keys of a forward rate agreement.
fn forward_keys() -> &'static [Key<KeyPresence, ObjectPlace>]
    ensures { map listed result.now ≡ keys.keys_of ObjectKind.Fra }
{
    &[
        ("name", KeyPresence::Always, ObjectPlace::NewName),
        ("notional", KeyPresence::Always, ObjectPlace::Notional),
        ("side", KeyPresence::Always, ObjectPlace::Position),
        (
            "index",
            KeyPresence::Always,
            ObjectPlace::Object(Wanted::Index),
        ),
        ("start", KeyPresence::Always, ObjectPlace::Day),
        ("strike", KeyPresence::Always, ObjectPlace::Rate),
        (
            "engine",
            KeyPresence::Optional,
            ObjectPlace::Object(Wanted::Engine),
        ),
    ]
}

impl ObjectKind {
    fn word(self) -> &'static str
        ensures { result.now ≡ keys.kind_word self }
    {
        match self {
            ObjectKind::Sum => "sum",
            ObjectKind::Difference => "difference",
            ObjectKind::Handle => "handle",
            ObjectKind::Curve => "curve",
            ObjectKind::Implied => "implied",
            ObjectKind::Index => "index",
            ObjectKind::Engine => "engine",
            ObjectKind::Stock => "stock",
            ObjectKind::Composite => "composite",
            ObjectKind::Bond => "bond",
            ObjectKind::Swap => "swap",
            ObjectKind::Fra => "fra",
        }
    }

    /// Returns the kind with this word.
    pub fn of_word(word: &str) -> Option<ObjectKind>
        ensures { result ≡ keys.kind_of word.now }
    {
        KINDS.iter().copied().find(|kind| kind.word() == word)
    }

    /// Returns the keys of a kind, in listed order.
    pub fn keys(self) -> &'static [Key<KeyPresence, ObjectPlace>]
        ensures { map listed result.now ≡ keys.keys_of self }
    {
        match self {
            ObjectKind::Sum | ObjectKind::Difference => &[
                ("name", KeyPresence::Always, ObjectPlace::NewName),
                (
                    "first",
                    KeyPresence::Always,
                    ObjectPlace::Object(Wanted::QuoteInput),
                ),
                (
                    "second",
                    KeyPresence::Always,
                    ObjectPlace::Object(Wanted::QuoteInput),
                ),
            ],
            ObjectKind::Handle => &[
                ("name", KeyPresence::Always, ObjectPlace::NewName),
                ("target", KeyPresence::Always, ObjectPlace::Target),
                ("to", KeyPresence::Optional, ObjectPlace::AnyObject),
            ],
            ObjectKind::Curve => curve_keys(),
            ObjectKind::Implied => &[
                ("name", KeyPresence::Always, ObjectPlace::NewName),
                (
                    "curve",
                    KeyPresence::Always,
                    ObjectPlace::Object(Wanted::CurveInput),
                ),
                ("reference", KeyPresence::Always, ObjectPlace::Day),
            ],
            ObjectKind::Index => index_keys(),
            ObjectKind::Engine => &[
                ("name", KeyPresence::Always, ObjectPlace::NewName),
                (
                    "curve",
                    KeyPresence::Always,
                    ObjectPlace::Object(Wanted::CurveInput),
                ),
            ],
            ObjectKind::Stock => &[
                ("name", KeyPresence::Always, ObjectPlace::NewName),
                (
                    "quote",
                    KeyPresence::Always,
                    ObjectPlace::Object(Wanted::QuoteInput),
                ),
            ],
            ObjectKind::Composite => &[
                ("name", KeyPresence::Always, ObjectPlace::NewName),
                ("parts", KeyPresence::Optional, ObjectPlace::Parts),
            ],
            ObjectKind::Bond => bond_keys(),
            ObjectKind::Swap => swap_keys(),
            ObjectKind::Fra => forward_keys(),
        }
    }
}

impl HelperKind {
    /// Returns the kind with this word.
    pub fn of_word(word: &str) -> Option<HelperKind>
        ensures { result ≡ keys.helper_kind_of word.now }
    {
        match word {
            "deposit" => Some(HelperKind::Deposit),
            "swap" => Some(HelperKind::Swap),
            _ => None,
        }
    }

    // Returns the keys of a kind, in listed order.
    pub(crate) fn keys(self) -> &'static [Key<Presence, ObjectPlace>]
        ensures { map listed result.now ≡ keys.helper_keys_of self }
    {
        match self {
            HelperKind::Deposit => &[
                (
                    "quote",
                    Presence::Always,
                    ObjectPlace::Object(Wanted::QuoteInput),
                ),
                ("tenor", Presence::Always, ObjectPlace::Tenor),
                ("convention", Presence::Always, ObjectPlace::Convention),
                ("month_end", Presence::Optional, ObjectPlace::Flag),
                ("counter", Presence::Always, ObjectPlace::Counter),
            ],
            HelperKind::Swap => &[
                (
                    "quote",
                    Presence::Always,
                    ObjectPlace::Object(Wanted::QuoteInput),
                ),
                ("tenor", Presence::Always, ObjectPlace::Months),
                ("every", Presence::Always, ObjectPlace::Months),
                ("convention", Presence::Always, ObjectPlace::Convention),
                ("month_end", Presence::Optional, ObjectPlace::Flag),
                ("counter", Presence::Always, ObjectPlace::Counter),
            ],
        }
    }
}

// Returns the keys of a composite's part.
pub(crate) fn part_keys() -> &'static [Key<Presence, ObjectPlace>]
    ensures { map listed result.now ≡ keys.part_keys }
{
    &[
        (
            "part",
            Presence::Always,
            ObjectPlace::Object(Wanted::Member),
        ),
        ("weight", Presence::Always, ObjectPlace::Weight),
    ]
}
