// The text of the quotes.
ghost use Rattle.std.specs.Prelude.{◌≡◌, ◌++◌, ◌≤◌, IfOk, OnOk};
ghost use Rattle.load_maker.specs.Texts.{quote_record, quotes_text};

use std::alloc::{AllocError, Global};

// A record for each quote.
#[tactic(auto, using(crate::proofs::ForEach::for_none, crate::proofs::ForEach::for_more))]
pub(crate) fn quotes_text(alloc: Global, n: u32) -> Result<Vec<u8>, AllocError>
    requires { n ≤ 1_000 }
    ensures { IfOk result (λ text. text.items ≡ quotes_text n) }
{
    let mut text = b"name,value\n".to_vec(alloc)?;
    for at in 0..n {
        push_record(alloc, at + 1, &mut text)?;
    }
    Ok(text)
}

// Appends the record of a quote.
fn push_record(alloc: Global, k: u32, text: &mut Vec<u8>) -> Result<(), AllocError>
    ensures { OnOk result (text.new.items ≡ text.old.items ++ quote_record k) }
{
    text.extend_from_slice(format!(in alloc; "q{k},{k}.5\n")?.as_bytes())
}
