// The parts of a run, as `clap` finds them.
ghost use Rattle.std.specs.Prelude.{◌≡◌, ◌∷◌, [], true, codes, Some, map, is_some, IfOk, IfErr};
ghost use Rattle.clap.specs.Words.{app_of, first_value, found_of, kind_of};
ghost use Rattle.desk_words.specs.Words.{is_path, order_of};
ghost use Rattle.desk_words.specs.RunCommand.{run_app, AreRun, Finds};

use crate::order::order_of;
use clap::error::ErrorKind;
use clap::{Arg, ArgMatches, Command, Error};
use desk_names::PathText;
use std::alloc::{AllocError, Global};
use watch_rounds::Order;

/// The paths of a run whose words are a market and a script.
pub(crate) fn run_parts<'x>(
    alloc: Global,
    market: &'x str,
    script: &'x str,
) -> Result<(PathText, PathText), AllocError>
    requires market { is_path market.now ≡ true }
    requires script { is_path script.now ≡ true }
    ensures { IfOk result (λ parts. (parts.0 ≡ market.now) × (parts.1 ≡ script.now)) }
{
    let words = [market, script];
    let Ok(matches) = run_matches(alloc, &words) else {
        return Err(AllocError);
    };
    match (matches.get_str("market"), matches.get_str("script")) {
        (Some(market), Some(script)) => {
            let market = PathText::new(market.to_string(alloc)?);
            let script = PathText::new(script.to_string(alloc)?);
            Ok((market, script))
        },
        // Both are required.
        (None, _) => unreachable!(),
        (_, None) => unreachable!(),
    }
}

/// The paths and the order of a run whose words are an order, a market and a script.
pub(crate) fn ordered_parts<'x>(
    alloc: Global,
    order: &'x str,
    market: &'x str,
    script: &'x str,
) -> Result<(PathText, PathText, Order), AllocError>
    requires order { is_some (order_of order.now) ≡ true }
    requires market { is_path market.now ≡ true }
    requires script { is_path script.now ≡ true }
    ensures { IfOk result (λ parts. (parts.0 ≡ market.now) × (parts.1 ≡ script.now) × (Some parts.2 ≡ order_of order.now)) }
{
    let option = format!(in alloc; "--order={order}")?;
    let words = [option.as_str(), market, script];
    let Ok(matches) = run_matches(alloc, &words) else {
        return Err(AllocError);
    };
    let order = match matches.get_str("order") {
        Some(order) => order_of(order),
        None => None,
    };
    match (matches.get_str("market"), matches.get_str("script"), order) {
        (Some(market), Some(script), Some(order)) => {
            let market = PathText::new(market.to_string(alloc)?);
            let script = PathText::new(script.to_string(alloc)?);
            Ok((market, script, order))
        },
        // Both paths are required, and the order is one.
        (None, _, _) => unreachable!(),
        (_, None, _) => unreachable!(),
        (_, _, None) => unreachable!(),
    }
}

// What `clap` makes of the words of a run. It fails for want of memory alone.
fn run_matches<'a>(alloc: Global, words: &'a [&'a str]) -> Result<ArgMatches<'a>, Error>
    requires { AreRun (map (λ word. word.now) words.now) }
    ensures found { IfOk result (λ matches. Finds matches (map (λ word. word.now) words.now)) }
    ensures fails { IfErr result (λ e. kind_of e ≡ ErrorKind.OutOfMemory) }
{
    let command = run_command(alloc)?;
    command.try_get_matches_from(words)
}

// The command that takes a market and a script, both required, and an order.
fn run_command<'a>(alloc: Global) -> Result<Command<'a>, AllocError>
    ensures { IfOk result (λ command. app_of command ≡ run_app) }
{
    let market = Arg::new(alloc, "market").required(true);
    let script = Arg::new(alloc, "script").required(true);
    let order = Arg::new(alloc, "order").long("order");
    Command::new(alloc, "run")
        .no_binary_name(true)
        .arg(market)?
        .arg(script)?
        .arg(order)
}
