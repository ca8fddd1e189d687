// Tenors, and their texts.
ghost use Rattle.std.specs.Prelude.{◌≡◌};
ghost use Rattle.day_number.specs.Text.{tenor_of_text};

use crate::digits::number_of;

/// What a tenor counts.
#[derive(Clone, Copy, PartialEq, Eq)]
pub enum Unit {
    /// Days, `D` in a text.
    Days,
    /// Weeks of seven days, `W` in a text.
    Weeks,
    /// Months of the calendar, `M` in a text.
    Months,
    /// Years of twelve months, `Y` in a text.
    Years,
}

/// A length of time as a count of a unit. One that was read counts 1 to 22,000 days, 3,100 weeks, 720 months or 60
/// years.
#[derive(Clone, Copy, PartialEq, Eq)]
pub struct Tenor {
    pub count: i32,
    pub unit: Unit,
}

impl Unit {
    ghost use Rattle.day_number.specs.Tenor.{unit_of_letter, unit_limit};

    /// The unit that a letter names.
    fn of_letter(letter: u8) -> Option<Unit>
        ensures { result ≡ unit_of_letter letter }
    {
        match letter {
            b'D' => Some(Unit::Days),
            b'W' => Some(Unit::Weeks),
            b'M' => Some(Unit::Months),
            b'Y' => Some(Unit::Years),
            _ => None,
        }
    }

    /// The greatest count of the unit in a text.
    fn limit(self) -> u32
        ensures { result ≡ unit_limit self }
    {
        match self {
            Unit::Days => 22_000,
            Unit::Weeks => 3_100,
            Unit::Months => 720,
            Unit::Years => 60,
        }
    }
}

/// The tenor that a text names: one to five decimal digits without a leading zero and one of `D`, `W`, `M`, `Y`, with
/// a count within the unit's limit. None for any other text.
#[tactic(auto, unfolding(crate::specs::Text::tenor_of_text))]
pub fn read_tenor(text: &[u8]) -> Option<Tenor>
    ensures { result ≡ tenor_of_text text.now }
{
    let (letter, digits) = text.split_last()?;
    let unit = Unit::of_letter(*letter)?;
    if digits.len() > 5 || digits.starts_with(b"0") {
        return None;
    }
    let count = number_of(digits)?;
    if count < 1 || count > unit.limit() {
        return None;
    }
    Some(Tenor {
        count: count as i32,
        unit,
    })
}
