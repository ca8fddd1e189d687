// The text of the market.
ghost use Rattle.std.specs.Prelude.{◌≡◌, ◌++◌, ◌≤◌, IfOk, OnOk};
ghost use Rattle.load_maker.specs.Texts.{chain_part, composite_head, composite_table, object_tables, market_text, part_name, part_weight, parts_text, stock_name, stock_part, stock_quote, stock_table};

use std::alloc::{AllocError, Global};

// A stock and a composite for each quote.
#[tactic(auto, using(crate::proofs::ForEach::for_none, crate::proofs::ForEach::for_more))]
pub(crate) fn market_text(alloc: Global, n: u32) -> Result<Vec<u8>, AllocError>
    requires { n ≤ 1_000 }
    ensures { IfOk result (λ text. text.items ≡ market_text n) }
{
    let mut text = b"version = 1\ntoday = \"2024-01-02\"\nquotes = \"quotes.csv\"\n".to_vec(alloc)?;
    for at in 0..n {
        push_objects(alloc, at + 1, &mut text)?;
    }
    Ok(text)
}

// Appends the tables of a stock and of the composite with it.
fn push_objects(alloc: Global, k: u32, text: &mut Vec<u8>) -> Result<(), AllocError>
    requires { 1 ≤ k }
    ensures { OnOk result (text.new.items ≡ text.old.items ++ object_tables k) }
{
    push_stock(alloc, k, text)?;
    push_composite(alloc, k, text)
}

// Appends the table of a stock.
fn push_stock(alloc: Global, k: u32, text: &mut Vec<u8>) -> Result<(), AllocError>
    ensures { OnOk result (text.new.items ≡ text.old.items ++ stock_table k) }
{
    push_stock_name(alloc, k, text)?;
    push_stock_quote(alloc, k, text)
}

// Appends the kind and the name of a stock.
fn push_stock_name(alloc: Global, k: u32, text: &mut Vec<u8>) -> Result<(), AllocError>
    ensures { OnOk result (text.new.items ≡ text.old.items ++ stock_name k) }
{
    text.extend_from_slice(format!(in alloc;
        "[[object]]\nkind = \"stock\"\nname = \"s{k}\"\n"
    )?.as_bytes())
}

// Appends the quote of a stock.
fn push_stock_quote(alloc: Global, k: u32, text: &mut Vec<u8>) -> Result<(), AllocError>
    ensures { OnOk result (text.new.items ≡ text.old.items ++ stock_quote k) }
{
    text.extend_from_slice(format!(in alloc; "quote = \"q{k}\"\n")?.as_bytes())
}

// Appends the table of a composite.
fn push_composite(alloc: Global, k: u32, text: &mut Vec<u8>) -> Result<(), AllocError>
    requires { 1 ≤ k }
    ensures { OnOk result (text.new.items ≡ text.old.items ++ composite_table k) }
{
    push_composite_head(alloc, k, text)?;
    push_parts(alloc, k, text)?;
    text.extend_from_slice(b"]\n")
}

// Appends what comes before the parts of a composite.
fn push_composite_head(alloc: Global, k: u32, text: &mut Vec<u8>) -> Result<(), AllocError>
    ensures { OnOk result (text.new.items ≡ text.old.items ++ composite_head k) }
{
    text.extend_from_slice(format!(in alloc;
        "[[object]]\nkind = \"composite\"\nname = \"c{k}\"\nparts = ["
    )?.as_bytes())
}

// Appends the parts of a composite: the composite before it, and its stock.
fn push_parts(alloc: Global, k: u32, text: &mut Vec<u8>) -> Result<(), AllocError>
    requires { 1 ≤ k }
    ensures { OnOk result (text.new.items ≡ text.old.items ++ parts_text k) }
{
    if k > 1 {
        push_chain_part(alloc, k - 1, text)?;
    }
    push_stock_part(alloc, k, text)
}

// Appends a composite as a part, and what stands between two parts.
fn push_chain_part(alloc: Global, k: u32, text: &mut Vec<u8>) -> Result<(), AllocError>
    ensures { OnOk result (text.new.items ≡ text.old.items ++ chain_part k) }
{
    text.extend_from_slice(format!(in alloc; "{{ part = \"c{k}\", weight = 1 }}, ")?.as_bytes())
}

// Appends a stock as a part.
fn push_stock_part(alloc: Global, k: u32, text: &mut Vec<u8>) -> Result<(), AllocError>
    ensures { OnOk result (text.new.items ≡ text.old.items ++ stock_part k) }
{
    push_part_name(alloc, k, text)?;
    push_part_weight(alloc, k, text)
}

// Appends the name of a stock as a part.
fn push_part_name(alloc: Global, k: u32, text: &mut Vec<u8>) -> Result<(), AllocError>
    ensures { OnOk result (text.new.items ≡ text.old.items ++ part_name k) }
{
    text.extend_from_slice(format!(in alloc; "{{ part = \"s{k}\", ")?.as_bytes())
}

// Appends its weight.
fn push_part_weight(alloc: Global, k: u32, text: &mut Vec<u8>) -> Result<(), AllocError>
    ensures { OnOk result (text.new.items ≡ text.old.items ++ part_weight k) }
{
    text.extend_from_slice(format!(in alloc; "weight = {k} }}")?.as_bytes())
}
