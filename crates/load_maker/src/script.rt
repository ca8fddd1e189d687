// The text of the script.
ghost use Rattle.std.specs.Prelude.{◌≡◌, ◌++◌, ◌<◌, ◌≤◌, IfOk, OnOk};
ghost use Rattle.load_maker.specs.Texts.{move_text, script_text};

use std::alloc::{AllocError, Global};
use watch_rounds::{Order, Picker};

// A move of a quote that a generator chooses, and an ask, as often as there are quotes.
#[tactic(auto, using(crate::proofs::ForEach::for_none, crate::proofs::ForEach::generator_none))]
pub(crate) fn script_text(alloc: Global, n: u32) -> Result<Vec<u8>, AllocError>
    requires least { 1 ≤ n }
    requires most { n ≤ 1_000 }
    ensures { IfOk result (λ text. text.items ≡ script_text n) }
{
    let mut order = Order::Seed(u64::from(n));
    let mut text = Vec::new(alloc);
    for at in 0..n {
        let quote = order.pick(n) + 1;
        push_move(alloc, quote, at + 1, n, &mut text)?;
    }
    Ok(text)
}

// Appends the move of a quote, and the ask.
fn push_move(
    alloc: Global,
    quote: u32,
    value: u32,
    n: u32,
    text: &mut Vec<u8>,
) -> Result<(), AllocError>
    ensures { OnOk result (text.new.items ≡ text.old.items ++ move_text quote value n) }
{
    text.extend_from_slice(format!(in alloc; "set q{quote} {value}\nask c{n}\n")?.as_bytes())
}
