// The text of a day.
ghost use Rattle.std.specs.Prelude.{◌≡◌, ◌++◌, ◌<◌, OnOk, OnErr, IfOk, string_bytes};
ghost use Rattle.std.specs.Int.{IsInRange};
ghost use Rattle.day_number.specs.Day.{date_text, day_text};
ghost use Rattle.day_number.specs.Text.{day_of_text};

use crate::Day;
use crate::digits::number_of;
use std::alloc::{AllocError, Global};

/// The day that a text `YYYY-MM-DD` names, with four, two and two decimal digits, and none for any other text.
#[tactic(auto, unfolding(crate::specs::Text::day_of_text))]
pub fn read_day(text: &[u8]) -> Option<Day>
    ensures { result ≡ day_of_text text.now }
{
    if text.len() != 10 || text[4] != b'-' || text[7] != b'-' {
        return None;
    }
    let year = number_of(&text[0..4])?;
    let month = number_of(&text[5..7])?;
    let day = number_of(&text[8..10])?;
    Day::of(year as i32, month as u8, day as u8)
}

/// Appends the day as `YYYY-MM-DD`, ten bytes, to `out`, which stays as it was where memory is wanting.
pub fn print_day(alloc: Global, day: Day, out: &mut Vec<u8>) -> Result<(), AllocError>
    ensures ok { OnOk result (out.new.items ≡ out.old.items ++ day_text day) }
    ensures err { OnErr result (out.new.items ≡ out.old.items) }
{
    let (year, month, day) = day.parts();
    let text = date_string(alloc, year as u32, month, day)?;
    out.extend_from_slice(text.as_bytes())
}

// A date of the range as `YYYY-MM-DD`.
fn date_string(alloc: Global, year: u32, month: u8, day: u8) -> Result<String, AllocError>
    requires year { IsInRange 1000 9999 year }
    requires month { month < 100 }
    requires day { day < 100 }
    ensures { IfOk result (λ text. string_bytes text ≡ date_text year month day) }
{
    format!(in alloc; "{year:04}-{month:02}-{day:02}")
}
