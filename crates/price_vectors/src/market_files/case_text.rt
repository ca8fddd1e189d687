// The bytes that a case's text stands for.
use std::alloc::{AllocError, Global};

/// The bytes of a text in which `\x` and two digits stand for a byte, `\+` and a number at the end for as many newlines
/// as make the text so long, and `\=`, a number and `;` for so many records of quotes without a value.
pub(crate) fn decoded(alloc: Global, text: &str) -> Result<Vec<u8>, AllocError> {
    let mut bytes = Vec::new(alloc);
    let mut escaped = false;
    for part in text.split('\\') {
        if escaped {
            push_escaped(alloc, part, &mut bytes)?;
        } else {
            bytes.extend_from_slice(part.as_bytes())?;
        }
        escaped = true;
    }
    Ok(bytes)
}

// Appends what stands behind a `\`.
fn push_escaped(alloc: Global, part: &str, out: &mut Vec<u8>) -> Result<(), AllocError> {
    match part.as_bytes() {
        [b'x', high, low, rest @ ..] => {
            out.push((digit(*high) << 4) | digit(*low))?;
            out.extend_from_slice(rest)
        }
        [b'+', ..] => push_newlines(number(part.trim_start_matches('+')), out),
        [b'=', ..] => push_quotes(alloc, part, out),
        _ => Ok(()),
    }
}

// The value of a hexadecimal digit in small letters.
fn digit(byte: u8) -> u8 {
    match byte {
        b'0'..=b'9' => byte - b'0',
        b'a'..=b'f' => byte - b'a' + 10,
        _ => 0,
    }
}

// The whole number that a text writes, or 0.
fn number(text: &str) -> usize {
    text.parse().unwrap_or(0)
}

// Appends newlines up to a length.
fn push_newlines(length: usize, out: &mut Vec<u8>) -> Result<(), AllocError> {
    for _ in out.len()..length {
        out.push(b'\n')?;
    }
    Ok(())
}

// Appends the records `q1,`, `q2,` and so on, as many as the text says before its `;`, and the rest of the text.
fn push_quotes(alloc: Global, part: &str, out: &mut Vec<u8>) -> Result<(), AllocError> {
    let Some((count, rest)) = part.split_once(';') else {
        return Ok(());
    };
    for place in 1..=number(count.trim_start_matches('=')) {
        out.extend_from_slice(format!(in alloc; "q{place},\n")?.as_bytes())?;
    }
    out.extend_from_slice(rest.as_bytes())
}
