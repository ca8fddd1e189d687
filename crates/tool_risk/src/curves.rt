// The curves beneath an instrument, and their parallel shifts.
ghost use Rattle.std.specs.Prelude.{◌≡◌, ◌≤◌, ◌^◌, ◌++◌, length, map, IfOk, OnOk};
ghost use Rattle.tool_risk.specs.Asking.{shift_of};
ghost use Rattle.tool_risk.specs.Curves.{is_beneath, is_curve, where_so, curves_in};

use bump_ladder::{Bump, quotes_beneath};
use desk_names::ObjId;
use desk_terms::Kind;
use item_lists::Items;
use lazy_objects::Desk;
use std::alloc::{AllocError, Global};

// The curves beneath an object, in order of creation.
pub(crate) fn curves_beneath(
    alloc: Global,
    desk: &mut Desk,
    object: ObjId,
) -> Result<Items<ObjId>, AllocError>
    ensures found { IfOk result (λ found. found ≡ curves_in desk.old.market object) }
    ensures few { IfOk result (λ found. length found ≤ 2 ^ 16) }
    ensures same { desk.new ≡ desk.old }
{
    let mut found = Items::new(alloc);
    for number in 0..desk.numbers() {
        let curve = ObjId(number);
        push_where(&mut found, curve, is_beneath(desk, object, curve))?;
    }
    Ok(found)
}

// Whether an object is a curve beneath another.
fn is_beneath(desk: &mut Desk, object: ObjId, curve: ObjId) -> bool
    ensures answer { result ≡ is_beneath desk.old.market object curve }
    ensures same { desk.new ≡ desk.old }
{
    is_curve(desk.kind(curve)) && desk.reaches(object, curve)
}

// Appends an object where it passes.
pub(crate) fn push_where(
    found: &mut Items<ObjId>,
    object: ObjId,
    passes: bool,
) -> Result<(), AllocError>
    ensures { OnOk result (found.new ≡ found.old ++ where_so passes object) }
{
    if passes {
        found.push(object)?;
    }
    Ok(())
}

fn is_curve(kind: Option<Kind>) -> bool
    ensures { result ≡ is_curve kind }
{
    match kind {
        None => false,
        Some(Kind::Curve) => true,
        Some(
            Kind::Today
            | Kind::Quote
            | Kind::Derived
            | Kind::QuoteHandle
            | Kind::CurveHandle
            | Kind::Index
            | Kind::Engine
            | Kind::Implied
            | Kind::Stock
            | Kind::Composite
            | Kind::Flows
            | Kind::Watcher,
        ) => false,
    }
}

// Appends the parallel shift of each curve: of these quotes those beneath it together.
pub(crate) fn push_shifts(
    alloc: Global,
    desk: &mut Desk,
    curves: &[ObjId],
    quotes: &[ObjId],
    bumps: &mut Vec<Bump>,
) -> Result<(), AllocError>
    ensures bumps { OnOk result (bumps.new.items ≡ bumps.old.items ++ map (shift_of desk.old.market quotes.now) curves.now) }
    ensures same { desk.new ≡ desk.old }
{
    for curve in curves {
        let below = quotes_beneath(alloc, desk, *curve, quotes)?;
        bumps.push(Bump::Together {
            label: Some(*curve),
            quotes: below,
        })?;
    }
    Ok(())
}
