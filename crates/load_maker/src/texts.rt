// The texts of a load.
ghost use Rattle.std.specs.Prelude.{◌≡◌, ◌≤◌, IfOk};
ghost use Rattle.load_maker.specs.Texts.{market_text, quotes_text, script_text};

use crate::byte_list::ByteList;
use crate::market::market_text;
use crate::quotes::quotes_text;
use crate::script::script_text;
use std::alloc::{AllocError, Global};

/// The texts of a market, of the quotes that it names, and of a script over it.
#[derive(Drop)]
pub struct Texts {
    pub market: ByteList,
    pub quotes: ByteList,
    pub script: ByteList,
}

/// The texts of the load `n`: `n` quotes, a stock on each, a chain of `n` composites over the stocks, and `n` moves of a
/// quote, each with an ask for the end of the chain. `n` is 1 to 1,000. An error is want of memory.
pub fn load_texts(alloc: Global, n: u32) -> Result<Texts, AllocError>
    requires least { 1 ≤ n }
    requires most { n ≤ 1_000 }
    ensures market { IfOk result (λ texts. texts.market ≡ market_text n) }
    ensures quotes { IfOk result (λ texts. texts.quotes ≡ quotes_text n) }
    ensures script { IfOk result (λ texts. texts.script ≡ script_text n) }
{
    let market = ByteList::new(market_text(alloc, n)?);
    let quotes = ByteList::new(quotes_text(alloc, n)?);
    let script = ByteList::new(script_text(alloc, n)?);
    Ok(Texts {
        market,
        quotes,
        script,
    })
}
