// A fast path for most lines: an ask or a set of known names.
ghost use Rattle.std.specs.Prelude.{◌≡◌, ◌≤◌, ◌++◌, ◌∷◌, ℕ, List, Bool, length, codes, nat_lt, false, Ok, IfSome};
ghost use Rattle.std.specs.List.{prefix_len};
ghost use Rattle.session_lang.specs.declared.statement.Statement.TheVariants.{Run};
ghost use Rattle.session_lang.specs.Statement.{line_meaning};
ghost use Rattle.session_lang.specs.Reading.{IsSaidFirst};

use crate::met::Met;
use desk_names::Names;
use script_words::number_of_word;
use session_commands::Command;

/// Returns the command of a text's first line and the text after that line, if the line is outside blocks, is an ask or a set
/// of known names, and ends with a newline.
pub(crate) fn known_first<'a>(
    text: &'a [u8],
    names: &Names,
    met: &mut Met,
    inside: bool,
) -> Option<(Command, &'a [u8])>
    ensures first { IfSome result (λ first. IsSaidFirst names.now text.now first.0 (10 ∷ first.1.now)) }
    ensures outside { IfSome result (λ _. inside ≡ false) }
{
    if inside {
        return None;
    }
    match said_first(text, names, met) {
        Some((command, [b'\n', after @ ..])) => Some((command, after)),
        _ => None,
    }
}

/// Returns the command of a line, if it is an ask or a set of known names.
pub(crate) fn known_line(line: &[u8], names: &Names, met: &mut Met) -> Option<Command>
    ensures { IfSome result (λ command. (begun : List (List ℕ)) (inside : Bool) →
        line_meaning (record { names = names.now; begun = begun }) inside line.now
        ≡ Ok (Run command, record { names = names.now; begun = begun })) }
{
    match said_first(line, names, met) {
        Some((command, [])) => Some(command),
        _ => None,
    }
}

// Returns the command of a text's first words and the text after them, if these are an ask or a set of known names with one
// space between words, and the end of the text or a newline follows. Most lines of a long script have this form. They are not
// split into words first, since no name and no decimal has a byte that ends a word.
#[inline(always)]
fn said_first<'a>(text: &'a [u8], names: &Names, met: &mut Met) -> Option<(Command, &'a [u8])>
    ensures { IfSome result (λ said. IsSaidFirst names.now text.now said.0 said.1.now) }
{
    match text {
        [b'a', b's', b'k', b' ', rest @ ..] => ask_said(rest, names, met),
        [b's', b'e', b't', b' ', rest @ ..] => set_said(rest, names, met),
        _ => None,
    }
}

// Does the same for the text after `ask `.
#[inline(always)]
fn ask_said<'a>(text: &'a [u8], names: &Names, met: &mut Met) -> Option<(Command, &'a [u8])>
    ensures { IfSome result (λ said. IsSaidFirst names.now (codes "ask " ++ text.now) said.0 said.1.now) }
{
    let (name, behind) = text.split_at(bytes_to_blank(text));
    if !is_end(behind) {
        return None;
    }
    Some((Command::Ask(met.number_of(name, names)?), behind))
}

// Does the same for the text after `set `.
#[inline(always)]
fn set_said<'a>(text: &'a [u8], names: &Names, met: &mut Met) -> Option<(Command, &'a [u8])>
    ensures { IfSome result (λ said. IsSaidFirst names.now (codes "set " ++ text.now) said.0 said.1.now) }
{
    let (name, behind) = text.split_at(bytes_to_blank(text));
    let [b' ', rest @ ..] = behind else {
        return None;
    };
    let (value, behind) = rest.split_at(bytes_to_blank(rest));
    if !is_end(behind) {
        return None;
    }
    Some((
        Command::Set(met.number_of(name, names)?, number_of_word(value)?),
        behind,
    ))
}

// Returns whether a line may end before this text. It only saves the search, and decides no result.
fn is_end(text: &[u8]) -> bool {
    matches!(text, [] | [b'\n', ..])
}

// Returns how many bytes come before the first that is a space or less, or all of them.
fn bytes_to_blank(text: &[u8]) -> usize
    ensures value { result ≡ prefix_len (λ byte. nat_lt 32 byte) text.now }
    ensures bound { result ≤ length text.now }
{
    text.iter().take_while(|byte| b' ' < **byte).count()
}
