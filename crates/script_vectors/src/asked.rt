// Live sessions that are asked by number: the lines of conversations are said to a session of its own each, and what they write, and what
// the session then answers by number, is compared with what an independent model of the language writes.
use crate::cases::{Cases, compare};
use crate::push_file;
use crate::spoken::{Session, opened, say_all};
use crate::wholes::parted;
use desk_edge::{CallList, FileList, MemoryShelf};
use desk_names::NameId;
use desk_terms::{Asked, Value};
use fixed_amount::print_decimal;
use std::alloc::{AllocError, Global};
use std::{fs, io};
use watch_rounds::Order;

// How many places an amount of money is printed with.
const MONEY_PLACES: u8 = 6;

/// What a conversation begins with: a market and its quotes, and the script that runs before it, which is empty where there is none.
#[derive(Clone, Copy)]
pub(crate) struct Opening<'a> {
    market: &'a str,
    quotes: &'a str,
    script: &'a str,
}

/// Compares what is written and answered: `conversations` begin with the market alone, those of `behind` with a script.
pub(crate) fn compare_answers(rt: &HostRuntime) -> io::Result<()> {
    let market = fs::read_to_string(rt, "market.toml")?;
    let quotes = fs::read_to_string(rt, "quotes.csv")?;
    let script = fs::read_to_string(rt, "script")?;
    compare_file(rt, &market, &quotes, "", "conversations")?;
    compare_file(rt, &market, &quotes, &script, "behind")
}

// Compares the conversations of a file.
fn compare_file<'a>(
    rt: &HostRuntime,
    market: &'a str,
    quotes: &'a str,
    script: &'a str,
    file: &str,
) -> io::Result<()> {
    let opening = Opening {
        market,
        quotes,
        script,
    };
    compare(rt, Cases::Asked(opening), file)
}

/// Whether a conversation with a session of its own writes what it is to write, and is answered as it is to be.
pub(crate) fn agrees(alloc: Global, opening: Opening<'_>, case: &str) -> Result<bool, AllocError> {
    let mut written = Vec::new(alloc);
    let mut shelf = shelf(alloc, opening)?;
    let script = if opening.script.is_empty() {
        None
    } else {
        Some(opening.script.as_bytes())
    };
    match opened(alloc, "m", Order::First, script, &mut shelf, &mut written)? {
        Some(mut session) => talks(alloc, &mut session, case, &mut written),
        None => Ok(false),
    }
}

// A shelf of the market `m` and its quotes.
fn shelf(alloc: Global, opening: Opening<'_>) -> Result<MemoryShelf, AllocError> {
    let mut files = FileList::new(alloc);
    push_file(alloc, "m", opening.market.as_bytes(), &mut files)?;
    push_file(alloc, "quotes.csv", opening.quotes.as_bytes(), &mut files)?;
    Ok(MemoryShelf::new(files, 4096, CallList::new(alloc)))
}

// Whether a session does what a case says. A line `--` stands between what is said, what that writes, and the answers.
fn talks(
    alloc: Global,
    session: &mut Session,
    case: &str,
    written: &mut Vec<u8>,
) -> Result<bool, AllocError> {
    let (said, behind) = parted(case, "--\n");
    let (wanted, answers) = parted(behind, "--\n");
    talk(alloc, session, said.as_bytes(), written)?;
    if written.as_slice() != wanted.as_bytes() {
        return Ok(false);
    }
    Ok(answers_of(alloc, session, answers)?.as_slice() == answers.as_bytes())
}

// Says lines, and appends what they write, and behind them the fault of a block that stands open, or that the session takes
// no further line.
fn talk(
    alloc: Global,
    session: &mut Session,
    said: &[u8],
    out: &mut Vec<u8>,
) -> Result<(), AllocError> {
    if say_all(session, said, out).is_err() {
        out.extend_from_slice(b"stopped\n")?;
    }
    if let Some(line) = session.beside.open_block() {
        out.extend_from_slice(format!(in alloc; "fault {line} unclosed\n")?.as_bytes())?;
    }
    Ok(())
}

// The answers for the names with which these lines begin, a line each.
fn answers_of(alloc: Global, session: &mut Session, lines: &str) -> Result<Vec<u8>, AllocError> {
    let mut out = Vec::new(alloc);
    for line in lines.lines() {
        let (name, _) = parted(line, " ");
        out.extend_from_slice(name.as_bytes())?;
        push_answer(alloc, session, name.as_bytes(), &mut out)?;
        out.push(b'\n')?;
    }
    Ok(out)
}

// Appends the answer of the object that has a name, if one does.
fn push_answer(
    alloc: Global,
    session: &mut Session,
    name: &[u8],
    out: &mut Vec<u8>,
) -> Result<(), AllocError> {
    let Some(name) = session.name(name) else {
        return out.extend_from_slice(b" refused");
    };
    match session.ask(name) {
        Ok(asked) => push_asked(alloc, session, name, &asked, out),
        Err(_) => out.extend_from_slice(b" refused"),
    }
}

// Appends what an ask answers: its price, that it is a curve, or that it has no value; the mark where it has one; and how
// many computations it made.
fn push_asked(
    alloc: Global,
    session: &mut Session,
    name: NameId,
    asked: &Asked,
    out: &mut Vec<u8>,
) -> Result<(), AllocError> {
    out.push(b' ')?;
    match (&asked.cause, session.value(name)) {
        (None, Some(Value::Money(_))) => push_price(alloc, session, name, out)?,
        (None, Some(Value::Curve(_))) => out.extend_from_slice(b"curve")?,
        (None, None) => out.extend_from_slice(b"nothing")?,
        (Some(_), _) => out.extend_from_slice(b"none")?,
    }
    if asked.cause.is_none() {
        out.push(b' ')?;
        out.extend_from_slice(asked.mark.word())?;
    }
    let runs = asked.runs;
    out.extend_from_slice(format!(in alloc; " {runs}")?.as_bytes())
}

// Appends what an object is worth.
fn push_price(
    alloc: Global,
    session: &mut Session,
    name: NameId,
    out: &mut Vec<u8>,
) -> Result<(), AllocError> {
    match session.price(name) {
        Ok(price) => print_decimal(alloc, price.0, MONEY_PLACES, out),
        Err(_) => out.extend_from_slice(b"no price"),
    }
}
