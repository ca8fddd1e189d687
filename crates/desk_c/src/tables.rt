// The files that a market names, and how a fault is told.
ghost use Rattle.std.specs.Prelude.{◌≡◌, ◌⊎◌, length};
ghost use Rattle.tool_script.specs.Refusals.{market_status};
ghost use Rattle.tool_script.specs.Status.{code_of, words_of};
ghost use Rattle.tool_script.specs.declared.status.Status.TheVariants as status;
ghost use Rattle.market_file.specs.declared.paths.Paths.{Paths};
ghost use Rattle.desk_c.specs.Tables.{NamesTables, NamesNone, fault_numbers, numbers_after, named_number, path_text};
ghost use Rattle.desk_c.specs.Texts.{laid};
ghost use Rattle.desk_c.specs.declared.status.TheConstants.{DONE, MARKET, NO_MEMORY};

use crate::numbers::{market_number, script_number, section_number};
use crate::status::{DONE, NO_MEMORY};
use crate::texts::lay;
use desk_names::PathText;
use market_file::{MarketFault, Paths, market_paths};
use std::alloc::Global;
use tool_script::{Status, StatusWords};

// The files that a market names, their paths laid into two rooms, or its first fault.
pub(crate) fn tables(
    alloc: Global,
    market: &[u8],
    named: &mut u32,
    quotes: &mut [u8],
    quotes_size: &mut usize,
    fixings: &mut [u8],
    fixings_size: &mut usize,
    section: &mut u32,
    entry: &mut u32,
    kind: &mut u32,
    message: &mut [u8],
) -> u32
    ensures names { result ≡ DONE → NamesTables market.now named.new quotes.old quotes.new quotes_size.new fixings.old fixings.new fixings_size.new }
    ensures told { result ≡ MARKET → NamesNone market.now (section.new, entry.new, kind.new) message.old message.new }
    ensures short { result ≡ NO_MEMORY → (message.new ≡ message.old) ⊎ (message.new ≡ laid (words_of status.NoMemory) message.old) }
    ensures same { (result ≡ DONE) ⊎ ((named.new ≡ named.old) × (quotes.new ≡ quotes.old) × (quotes_size.new ≡ quotes_size.old)
        × (fixings.new ≡ fixings.old) × (fixings_size.new ≡ fixings_size.old)) }
    ensures unfaulted { (result ≡ MARKET) ⊎ ((section.new ≡ section.old) × (entry.new ≡ entry.old) × (kind.new ≡ kind.old)) }
    ensures quiet { result ≡ DONE → message.new ≡ message.old }
    ensures ends { (result ≡ DONE) ⊎ ((result ≡ MARKET) ⊎ (result ≡ NO_MEMORY)) }
{
    match market_paths(alloc, market) {
        Ok(paths) => {
            *named = named_number(&paths);
            *quotes_size = lay_path(&paths.quotes, quotes);
            *fixings_size = lay_path(&paths.fixings, fixings);
            DONE
        }
        Err(fault) => tell(alloc, market_status(fault), section, entry, kind, message),
    }
}

// Which files are named.
fn named_number(paths: &Paths) -> u32
    ensures { result ≡ named_number paths.now }
{
    u32::from(paths.quotes.is_some()) + 2 * u32::from(paths.fixings.is_some())
}

// Lays a path into a room, as much of it as fits, and answers how many bytes it has.
fn lay_path(path: &Option<PathText>, room: &mut [u8]) -> usize
    ensures laid { room.new ≡ laid (path_text path.now) room.old }
    ensures size { result ≡ length (path_text path.now) }
{
    match path {
        Some(path) => {
            let text = path.text().as_bytes();
            lay(text, room);
            text.len()
        }
        None => 0,
    }
}

// The number of a status, whose words are laid into the room, with the numbers of its fault.
pub(crate) fn tell(
    alloc: Global,
    status: Status,
    section: &mut u32,
    entry: &mut u32,
    kind: &mut u32,
    room: &mut [u8],
) -> u32
    ensures { ((result ≡ code_of status) × (room.new ≡ laid (words_of status) room.old)
        × ((section.new, entry.new, kind.new) ≡ numbers_after (fault_numbers status) (section.old, entry.old, kind.old)))
        ⊎ ((result ≡ NO_MEMORY) × (room.new ≡ room.old) × (section.new ≡ section.old) × (entry.new ≡ entry.old) × (kind.new ≡ kind.old)) }
{
    let words = StatusWords(status);
    match format!(in alloc; "{words}") {
        Ok(text) => {
            lay(text.as_bytes(), room);
            if let Some(numbers) = fault_numbers(status) {
                *section = numbers.0;
                *entry = numbers.1;
                *kind = numbers.2;
            }
            u32::from(status.code())
        }
        Err(_) => NO_MEMORY,
    }
}

// Section, entry and kind of a fault.
fn fault_numbers(status: Status) -> Option<(u32, u32, u32)>
    ensures { result ≡ fault_numbers status }
{
    match status {
        Status::Market(section, entry, kind) => Some((
            section_number(section),
            entry,
            market_number(kind),
        )),
        Status::Script(line, kind) => Some((0, line, script_number(kind))),
        Status::Done
        | Status::Usage
        | Status::ReadFault
        | Status::WriteFault
        | Status::NoMemory
        | Status::Absent(_) => None,
    }
}

// The status of a market that is refused.
pub(crate) fn market_status(fault: MarketFault) -> Status
    ensures { result ≡ market_status fault }
{
    match fault {
        MarketFault::At {
            section,
            entry,
            kind,
        } => Status::Market(section, entry, kind),
        MarketFault::NoMemory => Status::NoMemory,
    }
}
