// The numbers of the header for C.
ghost use Rattle.std.specs.Prelude.{◌≡◌, ◌↔◌, IsSome, IfSome};
ghost use Rattle.session_model.specs.Place.{kind_number};
ghost use Rattle.desk_c.specs.Numbers.{mark_number, section_number, market_number, script_number, day_code, day_of, IsDay};

use day_number::Day;
use desk_terms::{Kind, Mark};
use tool_script::{MarketKind, ScriptKind, Section};

// The number of a mark.
pub(crate) fn mark_number(mark: Mark) -> u32
    ensures { result ≡ mark_number mark }
{
    match mark {
        Mark::Fresh => 0,
        Mark::Frozen => 1,
        Mark::Late => 2,
        Mark::Held => 3,
        Mark::Recalc => 4,
    }
}

// The number of a kind of object.
pub(crate) fn kind_number(kind: Kind) -> u32
    ensures { result ≡ kind_number kind }
{
    match kind {
        Kind::Today => 0,
        Kind::Quote => 1,
        Kind::Derived => 2,
        Kind::QuoteHandle => 3,
        Kind::CurveHandle => 4,
        Kind::Index => 5,
        Kind::Engine => 6,
        Kind::Curve => 7,
        Kind::Implied => 8,
        Kind::Stock => 9,
        Kind::Composite => 10,
        Kind::Flows => 11,
        Kind::Watcher => 12,
    }
}

// The number of a section of a market.
pub(crate) fn section_number(section: Section) -> u32
    ensures { result ≡ section_number section }
{
    match section {
        Section::Top => 1,
        Section::Calendars => 2,
        Section::Quotes => 3,
        Section::Objects => 4,
        Section::Fixings => 5,
    }
}

// The number of a fault of a market.
pub(crate) fn market_number(kind: MarketKind) -> u32
    ensures { result ≡ market_number kind }
{
    match kind {
        MarketKind::TooLong => 1,
        MarketKind::Toml => 2,
        MarketKind::Key => 3,
        MarketKind::Name => 4,
        MarketKind::Taken => 5,
        MarketKind::Unknown => 6,
        MarketKind::Kind => 7,
        MarketKind::Number => 8,
        MarketKind::Date => 9,
        MarketKind::Choice => 10,
        MarketKind::Weekend => 11,
        MarketKind::Parts => 12,
        MarketKind::Plan => 13,
        MarketKind::Range => 14,
        MarketKind::Flows => 15,
        MarketKind::Exists => 16,
        MarketKind::Header => 17,
        MarketKind::Record => 18,
        MarketKind::Limit => 19,
    }
}

// The number of a fault of a script.
pub(crate) fn script_number(kind: ScriptKind) -> u32
    ensures { result ≡ script_number kind }
{
    match kind {
        ScriptKind::TooLong => 1,
        ScriptKind::Byte => 2,
        ScriptKind::Word => 3,
        ScriptKind::Count => 4,
        ScriptKind::Nested => 5,
        ScriptKind::End => 6,
        ScriptKind::Name => 7,
        ScriptKind::Twice => 8,
        ScriptKind::Number => 9,
        ScriptKind::Date => 10,
        ScriptKind::Choice => 11,
        ScriptKind::Names => 12,
        ScriptKind::Unclosed => 13,
        ScriptKind::NoAction => 14,
    }
}

// The day of a number YYYYMMDD.
pub(crate) fn day_of(code: u32) -> Option<Day>
    ensures found { IsSome result ↔ IsDay code }
    ensures value { IfSome result (λ day. day ≡ day_of code) }
{
    Day::of(
        (code / 10_000) as i32,
        (code / 100 % 100) as u8,
        (code % 100) as u8,
    )
}

// The number YYYYMMDD of a day.
pub(crate) fn day_code(day: Day) -> u32
    ensures { result ≡ day_code day }
{
    let (year, month, day) = day.parts();
    year.unsigned_abs() * 10_000 + u32::from(month) * 100 + u32::from(day)
}
