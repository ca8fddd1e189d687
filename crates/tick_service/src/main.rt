//! A pricing service that takes each tick though memory is short. `tick_service MARKET SCRIPT` opens a session of the market
//! and the script, and carries the script out: a quiet command by `change`, an ask by `ask_held` where what is held is the
//! answer, and all else by a step. It writes each command with what it was answered, and the lines of each step.
//!
//! With the names of an engine and of a quote behind these, `tick_service MARKET SCRIPT ENGINE QUOTE`, the session then grows:
//! a bond, which the engine prices, and a watcher that asks it where the quote moves.
//!
//! With a second market as the last word it then makes a desk of its objects, without names, and shows what is held of its
//! last object before and after its first one, a quote, is moved.
#![tactic(auto)]

mod desk;
mod growth;
mod market;
mod service;

use std::{env, io};

fn main(rt: HostRuntime) -> io::Result<()> {
    let words: Vec<String> = env::args(&rt)?.skip(1).collect(rt.alloc())?;
    match words.as_slice() {
        [market, script] => service::serve(&rt, market, script, None),
        [market, script, other] => {
            service::serve(&rt, market, script, None)?;
            desk::show(&rt, other)
        }
        [market, script, engine, quote] => {
            service::serve(&rt, market, script, Some((engine, quote)))
        }
        [market, script, engine, quote, other] => {
            service::serve(&rt, market, script, Some((engine, quote)))?;
            desk::show(&rt, other)
        }
        _ => println!(rt; "tick_service MARKET SCRIPT [ENGINE QUOTE] [DESK]"),
    }
}
