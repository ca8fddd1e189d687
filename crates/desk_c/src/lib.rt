//! A session for C: a market's texts and a script open it, lines are said to it, and quick calls set a quote and ask a price
//! by name. Each export states what the session's own call states; none has a premise beyond its types, none ends the
//! process, and a handle that holds nothing is answered by `CLOSED`. `examples/c/doqsheley.h` is its header, docs/reference/c.md its page.
#![tactic(auto)]

ghost use Rattle.std.specs.Prelude.{◌≡◌, ◌≢◌, ◌⊎◌, ◌↔◌, ◌^◌, ◌-◌, ◌<◌, ◌≤◌, [], None, true, false, drop, length, unsigned_abs, IsErr};
ghost use Rattle.desk_model.specs.Market.{kind_at};
ghost use Rattle.desk_names.specs.Names.{has_text};
ghost use Rattle.tool_script.specs.Status.{words_of};
ghost use Rattle.tool_script.specs.declared.status.Status.TheVariants as status;
ghost use Rattle.session_model.specs.declared.place.Place.TheVariants.{Priced};
ghost use Rattle.session_model.specs.Resolve.{find};
ghost use Rattle.desk_c.specs.Calls.{standing_of, number_of, text_of, Both, Holds, Says, IsCutOff, Sets, IsNotSet, Asks, IsPriced, IsUnpriced, IsCurve, IsNotAsked, IsAskCut, IsHalted};
ghost use Rattle.desk_c.specs.Curves.{Discounts, IsFactor, IsNoFactor, IsNoCurve, IsDiscountCut, IsNode, IsPast, HasNone, HasMoney};
ghost use Rattle.desk_c.specs.Numbers.{IsDay, day_of};
ghost use Rattle.desk_c.specs.Header.{AreNumbers};
ghost use Rattle.desk_c.specs.Objects.{IsObject};
ghost use Rattle.desk_c.specs.Opening.{IsOpen, IsTold};
ghost use Rattle.desk_c.specs.Orders.{order_in};
ghost use Rattle.desk_c.specs.Tables.{NamesTables, NamesNone};
ghost use Rattle.desk_c.specs.Texts.{laid};
ghost use Rattle.desk_c.specs.declared.status.TheConstants.{VERSION, DONE, USAGE, MARKET, SCRIPT, NO_MEMORY, CLOSED, STOPPED, NO_NAME, REFUSED, RANGE, UNPRICED, NOT_MONEY, NOT_CURVE};

mod asking;
mod calling;
mod curves;
mod handle;
mod kept;
mod loose;
mod numbers;
mod objects;
mod opening;
mod playing;
mod status;
mod tables;
mod texts;

use crate::opening::{opened, order_of};
use crate::status::{CLOSED, DONE, USAGE, VERSION};
use crate::tables::{tables, tell};
use crate::texts::lay;
pub use handle::{Desk, Handle};
pub use kept::Kept;
use std::alloc::Global;

/// The version of the library, 1,000 for each major one and the minor one; and each number that the header names.
#[unsafe(no_mangle)]
pub extern "C" fn desk_c_version() -> u32
    ensures version { result ≡ VERSION }
    ensures numbers { AreNumbers }
{
    VERSION
}

/// Lays the paths of the tables that a market names into two rooms, as much of each as fits, with their lengths. `named` is 1
/// where it names quotes, 2 where it names fixings, 3 where it names both, else 0.
///
/// `DONE`; `MARKET` with the first fault of the top table, in words and numbers; `NO_MEMORY`. Nothing is written but what is
/// said here: the paths at `DONE`, the numbers of the fault at `MARKET`.
#[unsafe(no_mangle)]
pub extern "C" fn desk_c_tables(
    alloc: Global,
    market: &[u8],
    named: &mut u32,
    quotes: &mut [u8],
    quotes_size: &mut usize,
    fixings: &mut [u8],
    fixings_size: &mut usize,
    section: &mut u32,
    entry: &mut u32,
    kind: &mut u32,
    message: &mut [u8],
) -> u32
    ensures names { result ≡ DONE → NamesTables market.now named.new quotes.old quotes.new quotes_size.new fixings.old fixings.new fixings_size.new }
    ensures told { result ≡ MARKET → NamesNone market.now (section.new, entry.new, kind.new) message.old message.new }
    ensures short { result ≡ NO_MEMORY → (message.new ≡ message.old) ⊎ (message.new ≡ laid (words_of status.NoMemory) message.old) }
    ensures same { (result ≡ DONE) ⊎ ((named.new ≡ named.old) × (quotes.new ≡ quotes.old) × (quotes_size.new ≡ quotes_size.old)
        × (fixings.new ≡ fixings.old) × (fixings_size.new ≡ fixings_size.old)) }
    ensures unfaulted { (result ≡ MARKET) ⊎ ((section.new ≡ section.old) × (entry.new ≡ entry.old) × (kind.new ≡ kind.old)) }
    ensures quiet { result ≡ DONE → message.new ≡ message.old }
    ensures ends { (result ≡ DONE) ⊎ ((result ≡ MARKET) ⊎ (result ≡ NO_MEMORY)) }
{
    tables(
        alloc,
        market,
        named,
        quotes,
        quotes_size,
        fixings,
        fixings_size,
        section,
        entry,
        kind,
        message,
    )
}

/// Opens the session of a market's texts behind the commands of a script: its texts are those of the files, of which a table
/// that the market does not name is not read. `order` is 0, 1 or 2: due watchers run by creation, the other way round, or as a
/// generator picks them that begins with `seed`. The lines of the script's commands are the text then. What the handle held
/// is let go of first.
///
/// `DONE`: it is open. Else the handle holds nothing: `USAGE` where the order is none of these, `MARKET` and `SCRIPT` with
/// the first fault in `message`, as much of it as fits, and by its numbers, section, entry and kind, or 0, line and kind of a
/// script; and `NO_MEMORY`, with its words where there was memory for these.
#[unsafe(no_mangle)]
pub extern "C" fn desk_c_open(
    alloc: Global,
    desk: &mut Desk,
    market: &[u8],
    quotes: &[u8],
    fixings: &[u8],
    script: &[u8],
    order: u32,
    seed: u64,
    section: &mut u32,
    entry: &mut u32,
    kind: &mut u32,
    message: &mut [u8],
) -> u32
    ensures opens { result ≡ DONE → Holds (IsOpen (order_in order seed) market.now quotes.now fixings.now script.now) desk.new.handle.value }
    ensures none { result ≢ DONE → desk.new.handle.value ≡ None }
    ensures usage { result ≡ USAGE ↔ (order_in order seed ≡ None) }
    ensures told { (result ≡ MARKET) ⊎ (result ≡ SCRIPT)
        → IsTold (order_in order seed) market.now quotes.now fixings.now script.now result (section.new, entry.new, kind.new) message.old message.new }
    ensures unfaulted { ((result ≡ MARKET) ⊎ (result ≡ SCRIPT)) ⊎ ((section.new ≡ section.old) × (entry.new ≡ entry.old) × (kind.new ≡ kind.old)) }
    ensures short { result ≡ NO_MEMORY → (message.new ≡ message.old) ⊎ (message.new ≡ laid (words_of status.NoMemory) message.old) }
    ensures quiet { (result ≡ DONE) ⊎ (result ≡ USAGE) → message.new ≡ message.old }
    ensures ends { (result ≡ DONE) ⊎ ((result ≡ USAGE) ⊎ ((result ≡ MARKET) ⊎ ((result ≡ SCRIPT) ⊎ (result ≡ NO_MEMORY)))) }
{
    desk.take(alloc);
    let Some(order) = order_of(order, seed) else {
        return USAGE;
    };
    match opened(alloc, market, quotes, fixings, script, order) {
        Ok(kept) => {
            desk.put(kept);
            DONE
        }
        Err(status) => tell(alloc, status, section, entry, kind, message),
    }
}

/// Says a line, without what ends it, to the session: a command, `action NAME`, a command of its block, or `end`, as a script
/// has them. What it writes is the text then, the line of its fault included; it is laid into `out`, as much of it as fits, and
/// `size` is how many bytes it has. Lines are counted from 1.
///
/// `DONE`: it was taken. `NO_MEMORY`: a front of its lines is the text, and the session is as it was, but for names, or
/// stopped. `STOPPED`: it takes no line any more. `CLOSED`: the handle holds nothing.
#[unsafe(no_mangle)]
pub extern "C" fn desk_c_say(
    alloc: Global,
    desk: &mut Desk,
    line: &[u8],
    out: &mut [u8],
    size: &mut usize,
) -> u32
    ensures says { result ≡ DONE → Both (Says line.now) desk.old.handle.value desk.new.handle.value }
    ensures front { result ≡ NO_MEMORY → Both (IsCutOff line.now) desk.old.handle.value desk.new.handle.value }
    ensures stopped { result ≡ STOPPED ↔ Holds (λ kept. ((standing_of kept).stopped ≡ true) ⊎ (kept.session.beside.line ≡ 2 ^ 64 - 1)) desk.old.handle.value }
    ensures same { result ≡ STOPPED → Both (λ old new. (new.session ≡ old.session) × (new.text.items ≡ [])) desk.old.handle.value desk.new.handle.value }
    ensures closed { (result ≡ CLOSED) ↔ (desk.old.handle.value ≡ None) }
    ensures empty { result ≡ CLOSED → desk.new.handle.value ≡ None }
    ensures out { out.new ≡ laid (text_of desk.new.handle.value) out.old }
    ensures size { size.new ≡ length (text_of desk.new.handle.value) }
    ensures ends { (result ≡ DONE) ⊎ ((result ≡ NO_MEMORY) ⊎ ((result ≡ STOPPED) ⊎ (result ≡ CLOSED))) }
{
    match desk.take(alloc) {
        Some(mut kept) => {
            let result = kept.say(line);
            *size = kept.text.len();
            lay(&kept.text, out);
            desk.put(kept);
            result
        }
        None => {
            *size = 0;
            CLOSED
        }
    }
}

/// Lays the text of the last call that wrote one, `desk_c_open`, `desk_c_say`, `desk_c_ask` or `desk_c_df`, from a byte on, into a room, as much of it as fits. It answers
/// how many bytes the whole text has; 0 where the handle holds nothing.
#[unsafe(no_mangle)]
pub extern "C" fn desk_c_text(alloc: Global, desk: &mut Desk, from: usize, out: &mut [u8]) -> usize
    ensures length { result ≡ length (text_of desk.old.handle.value) }
    ensures laid { out.new ≡ laid (drop from (text_of desk.old.handle.value)) out.old }
    ensures same { desk.new.handle.value ≡ desk.old.handle.value }
{
    match desk.take(alloc) {
        Some(kept) => {
            let length = kept.text.len();
            if from < length {
                lay(&kept.text[from..], out);
            }
            desk.put(kept);
            length
        }
        None => 0,
    }
}

/// Gives the quote of a name a value, in units of 10^-9, at most 10^18 either way. It takes no memory: no watcher runs, no
/// line is written and nothing is computed; `desk_c_say` with `set NAME VALUE` runs who watches it. The text stays as it was.
///
/// `DONE`, `NO_NAME`, `RANGE`, `REFUSED` where the name is no quote's, `STOPPED`, `CLOSED`. But for `DONE` no quote is changed.
#[unsafe(no_mangle)]
pub extern "C" fn desk_c_set(alloc: Global, desk: &mut Desk, name: &[u8], units: i64) -> u32
    ensures sets { result ≡ DONE → Both (Sets name.now units) desk.old.handle.value desk.new.handle.value }
    ensures refused { result ≡ REFUSED → Both (IsNotSet name.now units) desk.old.handle.value desk.new.handle.value }
    ensures no_name { result ≡ NO_NAME ↔ Holds (λ kept. has_text (standing_of kept).names name.now ≡ false) desk.old.handle.value }
    ensures range { result ≡ RANGE ↔ Holds (λ kept. (has_text (standing_of kept).names name.now ≡ true) × (10 ^ 18 < unsigned_abs units)) desk.old.handle.value }
    ensures within { (result ≡ DONE) ⊎ (result ≡ REFUSED) → unsigned_abs units ≤ 10 ^ 18 }
    ensures stopped { result ≡ STOPPED ↔ Holds (IsHalted name.now units) desk.old.handle.value }
    ensures closed { (result ≡ CLOSED) ↔ (desk.old.handle.value ≡ None) }
    ensures same { (result ≡ NO_NAME) ⊎ ((result ≡ RANGE) ⊎ ((result ≡ STOPPED) ⊎ (result ≡ CLOSED))) → desk.new.handle.value ≡ desk.old.handle.value }
    ensures ends { (result ≡ DONE) ⊎ ((result ≡ REFUSED) ⊎ ((result ≡ NO_NAME) ⊎ ((result ≡ RANGE) ⊎ ((result ≡ STOPPED) ⊎ (result ≡ CLOSED))))) }
{
    match desk.take(alloc) {
        Some(mut kept) => {
            let result = kept.set(name, units);
            desk.put(kept);
            result
        }
        None => CLOSED,
    }
}

/// Asks what the object of a name is worth: its price, `high * 10^18 + low` units of 10^-6, at most 10^26 either way; how the
/// answer stands to the market (0 fresh, 1 frozen, 2 late, 3 held, 4 computed again); and how many times the bench was called.
/// No watcher runs. The text is then the line that `ask NAME` writes in a script: the price, the nodes of a curve, the cause or
/// the refusal.
///
/// `DONE`; `REFUSED` where the name is that of no object that is priced; `UNPRICED` where it has no value and `NOT_MONEY` where
/// that is a curve; `NO_MEMORY`, after which the text is empty and the session goes on; `NO_NAME` and `CLOSED`, after which the
/// text is as it was. The numbers are written at `DONE` alone.
#[unsafe(no_mangle)]
pub extern "C" fn desk_c_ask(
    alloc: Global,
    desk: &mut Desk,
    name: &[u8],
    high: &mut i64,
    low: &mut i64,
    mark: &mut u32,
    runs: &mut u64,
) -> u32
    ensures prices { result ≡ DONE → Both (Asks name.now (IsPriced high.new low.new mark.new runs.new)) desk.old.handle.value desk.new.handle.value }
    ensures unpriced { result ≡ UNPRICED → Both (Asks name.now IsUnpriced) desk.old.handle.value desk.new.handle.value }
    ensures curve { result ≡ NOT_MONEY → Both (Asks name.now IsCurve) desk.old.handle.value desk.new.handle.value }
    ensures refused { result ≡ REFUSED → Both (IsNotAsked name.now) desk.old.handle.value desk.new.handle.value }
    ensures short { result ≡ NO_MEMORY → Both (IsAskCut name.now) desk.old.handle.value desk.new.handle.value }
    ensures no_name { result ≡ NO_NAME ↔ Holds (λ kept. has_text (standing_of kept).names name.now ≡ false) desk.old.handle.value }
    ensures closed { (result ≡ CLOSED) ↔ (desk.old.handle.value ≡ None) }
    ensures same { (result ≡ NO_NAME) ⊎ (result ≡ CLOSED) → desk.new.handle.value ≡ desk.old.handle.value }
    ensures quiet { (result ≡ DONE) ⊎ ((high.new ≡ high.old) × (low.new ≡ low.old) × (mark.new ≡ mark.old) × (runs.new ≡ runs.old)) }
    ensures ends { (result ≡ DONE) ⊎ ((result ≡ UNPRICED) ⊎ ((result ≡ NOT_MONEY) ⊎ ((result ≡ REFUSED) ⊎ ((result ≡ NO_MEMORY) ⊎ ((result ≡ NO_NAME) ⊎ (result ≡ CLOSED)))))) }
{
    match desk.take(alloc) {
        Some(mut kept) => {
            let result = kept.ask(alloc, name, high, low, mark, runs);
            desk.put(kept);
            result
        }
        None => CLOSED,
    }
}

/// Asks for the discount factor of a curve at a day, YYYYMMDD as a number, in units of 10^-12, with mark and number of
/// computations as `desk_c_ask` has them. The text is then the line that `df NAME DAY` writes in a script.
///
/// `DONE`; `REFUSED` where the name is none of a curve; `UNPRICED` where there is no factor; `NO_MEMORY`, after which the text is
/// empty and the session goes on; `NO_NAME`, `RANGE` where the number is no day, and `CLOSED`, after which all is as it was. The
/// numbers are written at `DONE` alone.
#[unsafe(no_mangle)]
pub extern "C" fn desk_c_df(
    alloc: Global,
    desk: &mut Desk,
    name: &[u8],
    day: u32,
    units: &mut i64,
    mark: &mut u32,
    runs: &mut u64,
) -> u32
    ensures found { result ≡ DONE → Both (Discounts name.now (day_of day) (IsFactor units.new mark.new runs.new)) desk.old.handle.value desk.new.handle.value }
    ensures none { result ≡ UNPRICED → Both (Discounts name.now (day_of day) IsNoFactor) desk.old.handle.value desk.new.handle.value }
    ensures refused { result ≡ REFUSED → Both (IsNoCurve name.now (day_of day)) desk.old.handle.value desk.new.handle.value }
    ensures short { result ≡ NO_MEMORY → Both (IsDiscountCut name.now) desk.old.handle.value desk.new.handle.value }
    ensures no_name { result ≡ NO_NAME ↔ Holds (λ kept. has_text (standing_of kept).names name.now ≡ false) desk.old.handle.value }
    ensures range { result ≡ RANGE ↔ Holds (λ kept. (has_text (standing_of kept).names name.now ≡ true) × (IsDay day → ⊥)) desk.old.handle.value }
    ensures closed { (result ≡ CLOSED) ↔ (desk.old.handle.value ≡ None) }
    ensures same { (result ≡ NO_NAME) ⊎ ((result ≡ RANGE) ⊎ (result ≡ CLOSED)) → desk.new.handle.value ≡ desk.old.handle.value }
    ensures quiet { (result ≡ DONE) ⊎ ((units.new ≡ units.old) × (mark.new ≡ mark.old) × (runs.new ≡ runs.old)) }
    ensures ends { (result ≡ DONE) ⊎ ((result ≡ UNPRICED) ⊎ ((result ≡ REFUSED) ⊎ ((result ≡ NO_MEMORY) ⊎ ((result ≡ NO_NAME) ⊎ ((result ≡ RANGE) ⊎ (result ≡ CLOSED)))))) }
{
    match desk.take(alloc) {
        Some(mut kept) => {
            let result = kept.discount(alloc, name, day, units, mark, runs);
            desk.put(kept);
            result
        }
        None => CLOSED,
    }
}

/// Gives the node at a place, from 0, of the last value of the curve that has a name: its day, YYYYMMDD as a number, its discount
/// factor in units of 10^-12, and how many nodes there are. Node 0 is the reference day, with the factor 1. Nothing is computed:
/// `desk_c_ask` brings the value up to date. The text stays as it was.
///
/// `DONE`; `RANGE` where there are no more than `at` nodes; `UNPRICED` where the object has no value yet; `NOT_CURVE` where it is
/// worth money; `REFUSED` where the name is that of no object that is priced; `NO_NAME`; `CLOSED`. The node is written at
/// `DONE` alone, `count` also at `RANGE`.
#[unsafe(no_mangle)]
pub extern "C" fn desk_c_node(
    alloc: Global,
    desk: &mut Desk,
    name: &[u8],
    at: usize,
    day: &mut u32,
    units: &mut i64,
    count: &mut usize,
) -> u32
    ensures there { result ≡ DONE → Holds (IsNode name.now at day.new units.new count.new) desk.old.handle.value }
    ensures past { result ≡ RANGE → Holds (IsPast name.now at count.new) desk.old.handle.value }
    ensures none { result ≡ UNPRICED → Holds (HasNone name.now) desk.old.handle.value }
    ensures money { result ≡ NOT_CURVE → Holds (HasMoney name.now) desk.old.handle.value }
    ensures refused { result ≡ REFUSED → Holds (λ kept. IsErr (find Priced (standing_of kept) (number_of name.now kept))) desk.old.handle.value }
    ensures no_name { result ≡ NO_NAME ↔ Holds (λ kept. has_text (standing_of kept).names name.now ≡ false) desk.old.handle.value }
    ensures closed { (result ≡ CLOSED) ↔ (desk.old.handle.value ≡ None) }
    ensures same { desk.new.handle.value ≡ desk.old.handle.value }
    ensures quiet { (result ≡ DONE) ⊎ ((day.new ≡ day.old) × (units.new ≡ units.old)) }
    ensures uncounted { ((result ≡ DONE) ⊎ (result ≡ RANGE)) ⊎ (count.new ≡ count.old) }
    ensures ends { (result ≡ DONE) ⊎ ((result ≡ RANGE) ⊎ ((result ≡ UNPRICED) ⊎ ((result ≡ NOT_CURVE) ⊎ ((result ≡ REFUSED) ⊎ ((result ≡ NO_NAME) ⊎ (result ≡ CLOSED)))))) }
{
    match desk.take(alloc) {
        Some(kept) => {
            let result = kept.node(name, at, day, units, count);
            desk.put(kept);
            result
        }
        None => CLOSED,
    }
}

/// Tells how many numbers were given to objects, from 0 on; `today` has 0.
///
/// `DONE`; `CLOSED`, where it is not written.
#[unsafe(no_mangle)]
pub extern "C" fn desk_c_count(alloc: Global, desk: &mut Desk, count: &mut u32) -> u32
    ensures counts { result ≡ DONE → Holds (λ kept. count.new ≡ length (standing_of kept).of_object) desk.old.handle.value }
    ensures closed { (result ≡ CLOSED) ↔ (desk.old.handle.value ≡ None) }
    ensures same { desk.new.handle.value ≡ desk.old.handle.value }
    ensures quiet { (result ≡ DONE) ⊎ (count.new ≡ count.old) }
    ensures ends { (result ≡ DONE) ⊎ (result ≡ CLOSED) }
{
    match desk.take(alloc) {
        Some(kept) => {
            *count = kept.session.numbers();
            desk.put(kept);
            DONE
        }
        None => CLOSED,
    }
}

/// Tells what stands at a number: the name of the object, as much of it as fits, with its length; its kind; and of a quote
/// whether it has a value, and the value in units of 10^-9. The text stays as it was.
///
/// `DONE`; `REFUSED` where no live object has the number; `CLOSED`. They are written at `DONE` alone.
#[unsafe(no_mangle)]
pub extern "C" fn desk_c_object(
    alloc: Global,
    desk: &mut Desk,
    number: u32,
    name: &mut [u8],
    size: &mut usize,
    kind: &mut u32,
    is_set: &mut u32,
    units: &mut i64,
) -> u32
    ensures there { result ≡ DONE → Holds (λ kept. IsObject number (standing_of kept) name.old name.new size.new kind.new is_set.new units.new) desk.old.handle.value }
    ensures none { result ≡ REFUSED ↔ Holds (λ kept. kind_at (standing_of kept).state.market number ≡ None) desk.old.handle.value }
    ensures closed { (result ≡ CLOSED) ↔ (desk.old.handle.value ≡ None) }
    ensures same { desk.new.handle.value ≡ desk.old.handle.value }
    ensures quiet { (result ≡ DONE) ⊎ ((name.new ≡ name.old) × (size.new ≡ size.old) × (kind.new ≡ kind.old)
        × (is_set.new ≡ is_set.old) × (units.new ≡ units.old)) }
    ensures ends { (result ≡ DONE) ⊎ ((result ≡ REFUSED) ⊎ (result ≡ CLOSED)) }
{
    match desk.take(alloc) {
        Some(kept) => {
            let result = kept.object(number, name, size, kind, is_set, units);
            desk.put(kept);
            result
        }
        None => CLOSED,
    }
}

/// Lets go of what the handle holds. A second time it does nothing.
#[unsafe(no_mangle)]
pub extern "C" fn desk_c_close(alloc: Global, desk: &mut Desk)
    ensures { desk.new.handle.value ≡ None }
{
    desk.take(alloc);
}
