// A session whose quiet commands are changes.
use crate::growth::grow;
use crate::market::load;
use desk_bench::DeskBench;
use desk_names::Names;
use desk_terms::Bench;
use pricing_session::{ChangeFault, NamedMarket, PricingSession};
use session_commands::{Command, CommandList};
use std::io::{Error, ErrorKind, Write};
use std::{fs, io};
use watch_rounds::Order;

// Opens the session of a market and a script, carries out the script's commands, and has the session grow where an engine
// and a quote are named.
pub(crate) fn serve(
    rt: &HostRuntime,
    path: &str,
    script: &str,
    named: Option<(&str, &str)>,
) -> io::Result<()> {
    let (mut session, commands) = opened(rt, path, script)?;
    take_all(rt, &mut session, commands.items())?;
    match named {
        Some((engine, quote)) => grow(rt, &mut session, engine, quote),
        None => Ok(()),
    }
}

// The session of a market and a script, and the script's commands.
fn opened(
    rt: &HostRuntime,
    path: &str,
    script: &str,
) -> io::Result<(PricingSession<Order, DeskBench>, CommandList)> {
    let mut names = Names::new(rt.alloc());
    let market = load(rt, path, &mut names)?;
    let text = fs::read(rt, script)?;
    let opened = PricingSession::open(
        rt.alloc(),
        NamedMarket {
            names,
            today: market.today,
            made: market.made,
        },
        &text,
        Order::First,
        DeskBench::new(),
    );
    match opened {
        Ok(opened) => Ok(opened),
        Err(_) => Err(Error::from(ErrorKind::InvalidData)),
    }
}

// Takes each command.
fn take_all<B: Bench + Drop>(
    rt: &HostRuntime,
    session: &mut PricingSession<Order, B>,
    commands: &[Command],
) -> io::Result<()> {
    for command in commands {
        take(rt, session, command)?;
    }
    Ok(())
}

// Makes the change of a quiet command, and leaves each other one to a step.
fn take<B: Bench + Drop>(
    rt: &HostRuntime,
    session: &mut PricingSession<Order, B>,
    command: &Command,
) -> io::Result<()> {
    match session.change(command) {
        Err(ChangeFault::NotQuiet) => answer(rt, session, command),
        taken => println!(rt; "change {command:?}: {taken:?}"),
    }
}

// Answers an ask from what is held, where that is the answer, and runs the round of all else.
fn answer<B: Bench + Drop>(
    rt: &HostRuntime,
    session: &mut PricingSession<Order, B>,
    command: &Command,
) -> io::Result<()> {
    if let Command::Ask(name) = command {
        if let Some(asked) = session.ask_held(*name) {
            let value = session.value(*name);
            return println!(rt; "held {command:?}: {asked:?}, {value:?}");
        }
    }
    step(rt, session, command)
}

// Runs the round of a command, and writes its lines.
pub(crate) fn step<B: Bench + Drop>(
    rt: &HostRuntime,
    session: &mut PricingSession<Order, B>,
    command: &Command,
) -> io::Result<()> {
    let mut lines = Vec::new(rt.alloc());
    let done = session.step(command, &mut lines);
    println!(rt; "step {command:?}: {done:?}")?;
    io::writer(rt).write_all(&lines)
}
