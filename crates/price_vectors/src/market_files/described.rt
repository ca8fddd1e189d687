// Paths and markets as text.
use crate::market_files::described_terms::{push_curve, push_flows, push_index};
use day_number::print_day;
use desk_names::{NameId, Names, PathText};
use desk_terms::{HandleKind, Part, Terms};
use fixed_amount::{Rate, print_decimal};
use market_file::{Market, Paths};
use std::alloc::{AllocError, Global};

// The most objects of which each is written.
const MOST_LINES: usize = 99;

/// Appends the line of the paths that a market names.
pub(crate) fn push_paths(
    alloc: Global,
    paths: &Paths,
    out: &mut Vec<u8>,
) -> Result<(), AllocError> {
    let quotes = path_text(&paths.quotes);
    let fixings = path_text(&paths.fixings);
    out.extend_from_slice(format!(in alloc; "paths [{quotes}] [{fixings}]\n")?.as_bytes())
}

fn path_text(path: &Option<PathText>) -> &str {
    match path {
        Some(path) => path.text(),
        None => "",
    }
}

/// Appends a line of the evaluation date and a line for each object; of many objects the first and their number.
pub(crate) fn push_market(
    alloc: Global,
    names: &Names,
    market: &Market,
    out: &mut Vec<u8>,
) -> Result<(), AllocError> {
    out.extend_from_slice(b"today ")?;
    print_day(alloc, market.today, out)?;
    out.push(b'\n')?;
    let made = market.made.as_slice();
    let shown = if made.len() > MOST_LINES {
        1
    } else {
        made.len()
    };
    for (name, terms) in made.iter().take(shown) {
        push_object(alloc, names, *name, terms, out)?;
    }
    if shown < made.len() {
        let count = made.len();
        out.extend_from_slice(format!(in alloc; "... {count}\n")?.as_bytes())?;
    }
    Ok(())
}

fn push_object(
    alloc: Global,
    names: &Names,
    name: NameId,
    terms: &Terms,
    out: &mut Vec<u8>,
) -> Result<(), AllocError> {
    if name.0 < names.len() {
        out.extend_from_slice(names.text(name))?;
    }
    push_terms(alloc, terms, out)?;
    out.push(b'\n')?;
    Ok(())
}

fn push_terms(alloc: Global, terms: &Terms, out: &mut Vec<u8>) -> Result<(), AllocError> {
    match terms {
        Terms::Quote(value) => push_value(alloc, *value, out),
        Terms::Derived {
            minus,
            first,
            second,
        } => {
            let word = if *minus { "difference" } else { "sum" };
            let (first, second) = (first.0, second.0);
            out.extend_from_slice(format!(in alloc; " {word} {first} {second}")?.as_bytes())
        }
        Terms::Handle {
            target_kind,
            target,
        } => {
            let word = match target_kind {
                HandleKind::Quote => "quote",
                HandleKind::Curve => "curve",
            };
            out.extend_from_slice(format!(in alloc; " handle {word}")?.as_bytes())?;
            match target {
                Some(target) => push_number(alloc, target.0, out),
                None => out.extend_from_slice(b" none"),
            }
        }
        Terms::Implied { curve, reference } => {
            out.extend_from_slice(b" implied")?;
            push_number(alloc, curve.0, out)?;
            out.push(b' ')?;
            print_day(alloc, *reference, out)
        }
        Terms::Engine { curve } => {
            out.extend_from_slice(b" engine")?;
            push_number(alloc, curve.0, out)
        }
        Terms::Stock { quote } => {
            out.extend_from_slice(b" stock")?;
            push_number(alloc, quote.0, out)
        }
        Terms::Composite(parts) => push_parts(alloc, parts.items(), out),
        Terms::Curve(terms) => push_curve(alloc, terms, out),
        Terms::Index(terms, fixings) => push_index(alloc, terms, fixings, out),
        Terms::Flows(terms, engine) => push_flows(alloc, terms, *engine, out),
    }
}

pub(crate) fn push_number(alloc: Global, number: u32, out: &mut Vec<u8>) -> Result<(), AllocError> {
    out.extend_from_slice(format!(in alloc; " {number}")?.as_bytes())
}

fn push_value(alloc: Global, value: Option<Rate>, out: &mut Vec<u8>) -> Result<(), AllocError> {
    out.extend_from_slice(b" quote ")?;
    match value {
        Some(rate) => print_decimal(alloc, i128::from(rate.units()), 9, out),
        None => out.extend_from_slice(b"unset"),
    }
}

fn push_parts(alloc: Global, parts: &[Part], out: &mut Vec<u8>) -> Result<(), AllocError> {
    out.extend_from_slice(b" composite")?;
    for part in parts {
        let (weight, member) = (part.weight, part.member.0);
        out.extend_from_slice(format!(in alloc; " {weight}*{member}")?.as_bytes())?;
    }
    Ok(())
}
