// The words of the command line.
ghost use Rattle.std.specs.Prelude.{◌≡◌, ◌∷◌, map, None, Some, IfOk};
ghost use Rattle.std.specs.String.{string_bytes};
ghost use Rattle.desk_words.specs.declared.words.WordsFault.TheVariants.{NoMemory};
ghost use Rattle.desk_words.specs.Words.{is_path, joined_order, request_of, run_of, joined_run, split_run, sized, number_of, short_of};
ghost use Rattle.desk_words.specs.Answers.{Answers, IsSized};

use crate::order::{joined_order, number_of, order_of};
use crate::run_command::{ordered_parts, run_parts};
use desk_names::PathText;
use std::alloc::{AllocError, Global};
use thiserror::Error;
use watch_rounds::Order;

/// What the words ask for, each file by its path.
#[derive(Drop)]
pub enum Request {
    /// A run of a script over a market, and the order in which its due watchers run.
    Run {
        market: PathText,
        script: PathText,
        order: Order,
    },
    /// A load of the size `n`, from 1 to 1,000.
    Load {
        n: u32,
    },
    /// A check of a market.
    Check {
        market: PathText,
    },
}

/// Why words are no request: they are no list that is taken, or memory is wanting.
#[derive(Clone, Copy, Debug, Error, PartialEq, Eq)]
pub enum WordsFault {
    #[error("usage")]
    Usage,
    #[error("out of memory")]
    NoMemory,
}

impl From<AllocError> for WordsFault {
    ghost from_gives = { λ _ e. e ≡ NoMemory };

    fn from(_e: AllocError) -> WordsFault {
        WordsFault::NoMemory
    }
}

/// Reads the words behind the program's name. The lists that are taken are `check MARKET`, `load SIZE`, and `run MARKET
/// SCRIPT` with at most one `--order ORDER` or `--order=ORDER` at any place behind `run`. A path is not empty, does not
/// begin with `-`, and is not `help`; a size is from 1 to 1,000; an order is `first`, `last` or a number of 64 bits.
/// Numbers have no sign and no leading zeros.
pub fn read_words(alloc: Global, words: &[String]) -> Result<Request, WordsFault>
    ensures answers { Answers result (request_of (map string_bytes words.now)) }
    ensures sized { IfOk result IsSized }
{
    match words {
        [verb, word] => short_request(alloc, verb, word),
        [verb, market, script] => plain_run(alloc, verb, market, script),
        [verb, a, b, c] => joined_run(alloc, verb, a, b, c),
        [verb, a, b, c, d] => split_run(alloc, verb, a, b, c, d),
        [] | [_] => Err(WordsFault::Usage),
        [_, _, _, _, _, _, ..] => Err(WordsFault::Usage),
    }
}

// A run in three words, one of which gives its order.
fn joined_run<'x>(
    alloc: Global,
    verb: &str,
    a: &'x str,
    b: &'x str,
    c: &'x str,
) -> Result<Request, WordsFault>
    ensures answers { Answers result (joined_run verb.now (joined_order a.now) (joined_order b.now) (joined_order c.now) a.now b.now c.now) }
    ensures sized { IfOk result IsSized }
{
    match (joined_order(a), joined_order(b), joined_order(c)) {
        (Some(order), _, _) => ordered_run(alloc, verb, order, b, c),
        (None, Some(order), _) => ordered_run(alloc, verb, order, a, c),
        (None, None, Some(order)) => ordered_run(alloc, verb, order, a, b),
        (None, None, None) => Err(WordsFault::Usage),
    }
}

// A run in four words, two of which give its order.
fn split_run<'x>(
    alloc: Global,
    verb: &str,
    a: &'x str,
    b: &'x str,
    c: &'x str,
    d: &'x str,
) -> Result<Request, WordsFault>
    ensures answers { Answers result (split_run verb.now a.now b.now c.now d.now) }
    ensures sized { IfOk result IsSized }
{
    if a == "--order" {
        ordered_run(alloc, verb, b, c, d)
    } else if b == "--order" {
        ordered_run(alloc, verb, c, a, d)
    } else if c == "--order" {
        ordered_run(alloc, verb, d, a, b)
    } else {
        Err(WordsFault::Usage)
    }
}

// A run whose order is given.
fn ordered_run<'x>(
    alloc: Global,
    verb: &str,
    order: &'x str,
    market: &'x str,
    script: &'x str,
) -> Result<Request, WordsFault>
    ensures answers { Answers result (run_of verb.now (Some order.now) market.now script.now) }
    ensures sized { IfOk result IsSized }
{
    if verb != "run" || !is_path(market) || !is_path(script) || order_of(order).is_none() {
        return Err(WordsFault::Usage);
    }
    let (market, script, order) = ordered_parts(alloc, order, market, script)?;
    Ok(Request::Run {
        market,
        script,
        order,
    })
}

// A run whose order is not given.
fn plain_run<'x>(
    alloc: Global,
    verb: &str,
    market: &'x str,
    script: &'x str,
) -> Result<Request, WordsFault>
    ensures answers { Answers result (run_of verb.now None market.now script.now) }
    ensures sized { IfOk result IsSized }
{
    if verb != "run" || !is_path(market) || !is_path(script) {
        return Err(WordsFault::Usage);
    }
    let (market, script) = run_parts(alloc, market, script)?;
    Ok(Request::Run {
        market,
        script,
        order: Order::First,
    })
}

// A check or a load.
fn short_request(alloc: Global, verb: &str, word: &str) -> Result<Request, WordsFault>
    ensures answers { Answers result (short_of verb.now word.now) }
    ensures sized { IfOk result IsSized }
{
    if verb == "check" && is_path(word) {
        let market = PathText::new(word.to_string(alloc)?);
        return Ok(Request::Check { market });
    }
    if verb == "load" {
        return sized(number_of(word));
    }
    Err(WordsFault::Usage)
}

// A load of the size that a word writes.
fn sized(size: Option<u64>) -> Result<Request, WordsFault>
    ensures answers { Answers result (sized size) }
    ensures sized { IfOk result IsSized }
{
    match size {
        Some(size) if (1..=1_000).contains(&size) => Ok(Request::Load { n: size as u32 }),
        Some(_) => Err(WordsFault::Usage),
        None => Err(WordsFault::Usage),
    }
}

/// Whether a word may be a path: it is not empty, no option, and not `help`.
pub fn is_path(word: &str) -> bool
    ensures { result ≡ is_path word.now }
{
    match word.as_bytes() {
        [] => false,
        [first, ..] => *first != b'-' && word != "help",
    }
}
