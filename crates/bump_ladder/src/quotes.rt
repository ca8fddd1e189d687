// Which objects of a desk are quotes, and the bumps of each by itself.
ghost use Rattle.std.specs.Prelude.{◌≡◌, ◌≤◌, ◌^◌, ◌++◌, ℕ, List, ◌∷◌, cond, length, map, IfOk, OnOk};
ghost use Rattle.bump_model.specs.declared.ladder.Bump.TheVariants.{One};
ghost use Rattle.bump_model.specs.Moves.{AreQuotes};
ghost use Rattle.bump_model.specs.Quotes.{is_quote, quote_by, quotes_in, beneath};

use bump_model::Bump;
use desk_names::ObjId;
use desk_terms::Kind;
use item_lists::Items;
use lazy_objects::Desk;
use std::alloc::{AllocError, Global};

/// The quotes of a desk in order of creation.
pub fn quotes_of(alloc: Global, desk: &Desk) -> Result<Items<ObjId>, AllocError>
    ensures found { IfOk result (λ quotes. quotes ≡ quotes_in desk.now.market) }
    ensures quotes { IfOk result (λ quotes. AreQuotes desk.now.market quotes) }
    ensures few { IfOk result (λ quotes. length quotes ≤ 2 ^ 16) }
{
    let mut quotes = Items::new(alloc);
    for number in 0..desk.numbers() {
        let object = ObjId(number);
        push_quote(&mut quotes, object, desk.kind(object))?;
    }
    Ok(quotes)
}

// Appends an object by what it is: a quote, or nothing.
fn push_quote(
    quotes: &mut Items<ObjId>,
    object: ObjId,
    kind: Option<Kind>,
) -> Result<(), AllocError>
    ensures { OnOk result (quotes.new ≡ quotes.old ++ quote_by object kind) }
{
    if is_quote(kind) {
        quotes.push(object)?;
    }
    Ok(())
}

fn is_quote(kind: Option<Kind>) -> bool
    ensures { result ≡ is_quote kind }
{
    match kind {
        None => false,
        Some(Kind::Quote) => true,
        Some(
            Kind::Today
            | Kind::Derived
            | Kind::QuoteHandle
            | Kind::CurveHandle
            | Kind::Index
            | Kind::Engine
            | Kind::Curve
            | Kind::Implied
            | Kind::Stock
            | Kind::Composite
            | Kind::Flows
            | Kind::Watcher,
        ) => false,
    }
}

/// Of these quotes those beneath an object, in their order.
pub fn quotes_beneath(
    alloc: Global,
    desk: &mut Desk,
    object: ObjId,
    quotes: &[ObjId],
) -> Result<Items<ObjId>, AllocError>
    ensures found { IfOk result (λ found. found ≡ beneath desk.old.market object quotes.now) }
    ensures same { desk.new ≡ desk.old }
{
    let mut found = Items::new(alloc);
    for quote in quotes {
        push_where(&mut found, *quote, desk.reaches(object, *quote))?;
    }
    Ok(found)
}

// Appends a quote where it passes.
fn push_where(found: &mut Items<ObjId>, quote: ObjId, passes: bool) -> Result<(), AllocError>
    ensures { OnOk result ((others : List ℕ) → found.new ++ others ≡ found.old ++ cond passes (quote ∷ others) others) }
{
    if passes {
        found.push(quote)?;
    }
    Ok(())
}

/// The bumps of these quotes, each by itself.
pub fn each(alloc: Global, quotes: &[ObjId]) -> Result<Vec<Bump>, AllocError>
    ensures { IfOk result (λ bumps. bumps.items ≡ map One quotes.now) }
{
    let mut bumps = Vec::new(alloc);
    for quote in quotes {
        bumps.push(Bump::One(*quote))?;
    }
    Ok(bumps)
}
