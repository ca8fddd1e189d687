// A session that grows while it runs.
use crate::service::step;
use day_number::Day;
use desk_names::{NameId, ObjId};
use desk_terms::{Bench, FlowTerm, FlowTermList, FlowTerms, Terms};
use fixed_amount::{Amount, Rate};
use pricing_session::PricingSession;
use session_commands::{Command, CommandList};
use std::alloc::Global;
use std::io;
use std::io::{Error, ErrorKind};
use watch_rounds::Order;

// What the bond pays, in units of 10^-6, and the value that the quote is moved to, in units of 10^-9.
const REDEMPTION: i128 = 100_000_000;

const RATE: i64 = 41_000_000;

// Makes a bond that this engine prices, and who watches this quote; nothing where a name stands for no object.
pub(crate) fn grow<B: Bench + Drop>(
    rt: &HostRuntime,
    session: &mut PricingSession<Order, B>,
    engine: &str,
    quote: &str,
) -> io::Result<()> {
    let (Some(engine), Some(quote)) = (
        session.name(engine.as_bytes()),
        session.name(quote.as_bytes()),
    ) else {
        return Ok(());
    };
    match session.object(engine) {
        Some(engine) => {
            let note = issue(rt, session, engine)?;
            watch(rt, session, note, quote)
        }
        None => Ok(()),
    }
}

// Makes a bond of one payment, which this engine prices, and answers its name.
fn issue<B: Bench + Drop>(
    rt: &HostRuntime,
    session: &mut PricingSession<Order, B>,
    engine: ObjId,
) -> io::Result<NameId> {
    let note = named(rt, session, b"note")?;
    let terms = bond(rt.alloc(), engine)?;
    let made = session.make(note, terms);
    println!(rt; "make {note:?}: {made:?}")?;
    Ok(note)
}

// The terms of the bond.
fn bond(alloc: Global, engine: ObjId) -> io::Result<Terms> {
    let Some(paid) = Day::of(2024, 4, 11) else {
        return Err(Error::from(ErrorKind::InvalidData));
    };
    let mut flows = FlowTermList::new(alloc);
    flows.push(FlowTerm::Known {
        paid,
        amount: Amount(REDEMPTION),
        period: None,
    })?;
    Ok(Terms::Flows(FlowTerms { flows, index: None }, Some(engine)))
}

// Makes a watcher that asks the bond where the quote moves, moves the quote, and asks the bond once more by number.
fn watch<B: Bench + Drop>(
    rt: &HostRuntime,
    session: &mut PricingSession<Order, B>,
    note: NameId,
    quote: NameId,
) -> io::Result<()> {
    let mut block = CommandList::new(rt.alloc());
    block.push(Command::Ask(note))?;
    let added = session.add_action(block);
    println!(rt; "add_action: {added:?}")?;
    let clerk = named(rt, session, b"clerk")?;
    if let Ok(action) = added {
        step(rt, session, &Command::Watch(clerk, action))?;
        step(rt, session, &Command::Register(clerk, quote))?;
        step(rt, session, &Command::Set(quote, Rate(RATE)))?;
    }
    let asked = session.ask(note);
    println!(rt; "ask {note:?}: {asked:?}")?;
    let price = session.price(note);
    println!(rt; "price {note:?}: {price:?}")
}

// The number of a name, which is new.
fn named<B: Bench + Drop>(
    rt: &HostRuntime,
    session: &mut PricingSession<Order, B>,
    text: &[u8],
) -> io::Result<NameId> {
    match session.intern(text) {
        Ok(name) => {
            println!(rt; "intern: {name:?}")?;
            Ok(name)
        }
        Err(_) => Err(Error::from(ErrorKind::InvalidData)),
    }
}
