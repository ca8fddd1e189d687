// A desk without names.
ghost use Rattle.desk_bench.specs.Pricing.{desk_calc};
ghost use Rattle.desk_model.specs.Sound.{IsSound};

use crate::market::load;
use desk_bench::DeskBench;
use desk_names::{Names, ObjId};
use desk_terms::{Asked, Kind};
use fixed_amount::Rate;
use lazy_objects::Desk;
use market_desk::desk_of;
use std::io;

// The values that the first object, a quote, is moved to: 2 and 3, in units of 10^-9.
const FIRST_MOVE: i64 = 2_000_000_000;

const SECOND_MOVE: i64 = 3_000_000_000;

// Makes the desk of a market, and shows what is held of its last object.
pub(crate) fn show(rt: &HostRuntime, path: &str) -> io::Result<()> {
    let mut names = Names::new(rt.alloc());
    show_desk(rt, path, &mut names)
}

// The same; the names become those of the market's objects.
fn show_desk(rt: &HostRuntime, path: &str, names: &mut Names) -> io::Result<()> {
    let market = load(rt, path, names)?;
    let last = ObjId(names.len().saturating_sub(1));
    let mut desk = desk_of(rt.alloc(), market.today, market.made)?;
    show_moves(rt, &mut desk, last)
}

// Asks an object, moves the first and asks again; then writes what is held of the object before and after another move.
fn show_moves(rt: &HostRuntime, desk: &mut Desk, object: ObjId) -> io::Result<()>
    requires { IsSound desk_calc desk.old }
{
    ask(rt, desk, object)?;
    move_first(desk, Rate(FIRST_MOVE));
    ask(rt, desk, object)?;
    show_held(rt, desk, object)?;
    move_first(desk, Rate(SECOND_MOVE));
    show_held(rt, desk, object)
}

// Asks an object, and writes the answer.
fn ask(rt: &HostRuntime, desk: &mut Desk, object: ObjId) -> io::Result<()>
    requires { IsSound desk_calc desk.old }
    ensures { IsSound desk_calc desk.new }
{
    let asked = asked_of(desk, object);
    println!(rt; "ask {object:?}: {asked:?}")
}

// What a composite answers; none where memory is wanting.
#[tactic(auto, using(crate::proofs::Composite::composite_lazy))]
fn asked_of(desk: &mut Desk, object: ObjId) -> Option<Asked>
    requires { IsSound desk_calc desk.old }
    ensures { IsSound desk_calc desk.new }
{
    if let Some(Kind::Composite) = desk.kind(object) {
        return match desk.ask(object, &mut DeskBench::new()) {
            Ok(asked) => Some(asked),
            Err(_) => None,
        };
    }
    None
}

// Writes what is held of an object, and its last value.
fn show_held(rt: &HostRuntime, desk: &mut Desk, object: ObjId) -> io::Result<()> {
    let held = held_of(desk, object);
    let last = desk.last(object);
    println!(rt; "held {object:?}: {held:?}, {last:?}")
}

// What is held of a composite.
#[tactic(auto, using(crate::proofs::Composite::composite_lazy))]
fn held_of(desk: &mut Desk, object: ObjId) -> Option<Asked> {
    if let Some(Kind::Composite) = desk.kind(object) {
        return desk.ask_held(object);
    }
    None
}

// Moves the first object, where it is a quote.
fn move_first(desk: &mut Desk, value: Rate)
    ensures { IsSound desk_calc desk.old → IsSound desk_calc desk.new }
{
    let first = ObjId(1);
    if let Some(Kind::Quote) = desk.kind(first) {
        desk.set_quote(first, Some(value));
    }
}
