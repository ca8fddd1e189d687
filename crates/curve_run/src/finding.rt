// Which curves names stand for.
ghost use Rattle.std.specs.Prelude.{◌≡◌, ◌++◌, length, map, codes, IfOk, OnOk};
ghost use Rattle.std.specs.String.{string_bytes};
ghost use Rattle.desk_terms.specs.declared.kind.Wanted.TheVariants.{CurveTarget};
ghost use Rattle.market_desk.specs.Standing.{object_named};
ghost use Rattle.curve_run.specs.Named.{is_curve, curve_below, object_in, line_in, objects_named, lines_named, unless, named_of, ItemsAre, AreCurves};

use desk_names::{Names, ObjId};
use desk_terms::{Kind, Wanted};
use lazy_objects::Desk;
use market_desk::{object_named, unnamed_line};
use std::alloc::{AllocError, Global};

// The curves that names stand for, and the lines of those that stand for none.
#[derive(Drop)]
struct Found {
    curves: Vec<ObjId>,
    lines: Vec<u8>,
}

// The curves that all names stand for, or lines of what stands against that.
pub(crate) fn curves_named(
    alloc: Global,
    desk: &Desk,
    names: &Names,
    texts: &[String],
) -> Result<Result<Vec<ObjId>, Vec<u8>>, AllocError>
    ensures named { IfOk result (λ found. ItemsAre found (named_of desk.now.market names.now (map string_bytes texts.now))) }
    ensures curves { IfOk result (λ found. IfOk found (λ curves. AreCurves desk.now.market curves.items)) }
{
    if has_curve(desk) {
        all_named(alloc, desk, names, texts)
    } else {
        Ok(Err(none_line(alloc)?))
    }
}

// The line of a market without a curve.
fn none_line(alloc: Global) -> Result<Vec<u8>, AllocError>
    ensures { IfOk result (λ line. line.items ≡ codes "refused curve none\n") }
{
    let mut line = Vec::new(alloc);
    line.extend_from_slice(b"refused curve none\n")?;
    Ok(line)
}

// The curves that all names stand for, or the lines of those that stand for none.
fn all_named(
    alloc: Global,
    desk: &Desk,
    names: &Names,
    texts: &[String],
) -> Result<Result<Vec<ObjId>, Vec<u8>>, AllocError>
    ensures named { IfOk result (λ found. ItemsAre found
        (unless (lines_named desk.now.market names.now (map string_bytes texts.now)) (objects_named desk.now.market names.now (map string_bytes texts.now)))) }
    ensures curves { IfOk result (λ found. IfOk found (λ curves. AreCurves desk.now.market curves.items)) }
{
    let found = found_in(alloc, desk, names, texts)?;
    let Found { curves, lines } = found;
    if lines.is_empty() {
        Ok(Ok(curves))
    } else {
        Ok(Err(lines))
    }
}

// Whether any object of a desk is a curve.
fn has_curve(desk: &Desk) -> bool
    ensures { result ≡ curve_below desk.now.market (length desk.now.market.objects) }
{
    let mut found = false;
    for number in 0..desk.numbers() {
        found = is_curve(desk.kind(ObjId(number))) || found;
    }
    found
}

// Whether an object is a curve.
fn is_curve(kind: Option<Kind>) -> bool
    ensures { result ≡ is_curve kind }
{
    match kind {
        Some(kind) => kind.serves(Wanted::CurveTarget),
        None => false,
    }
}

// The curves that names stand for, and the lines of the names that stand for none.
fn found_in(
    alloc: Global,
    desk: &Desk,
    names: &Names,
    texts: &[String],
) -> Result<Found, AllocError>
    ensures curves { IfOk result (λ found. found.curves.items ≡ objects_named desk.now.market names.now (map string_bytes texts.now)) }
    ensures lines { IfOk result (λ found. found.lines.items ≡ lines_named desk.now.market names.now (map string_bytes texts.now)) }
{
    let curves = Vec::new(alloc);
    let lines = Vec::new(alloc);
    let mut found = Found { curves, lines };
    for text in texts {
        find(desk, names, text.as_bytes(), &mut found)?;
    }
    Ok(found)
}

// Appends the curve that a name stands for, or the line that says that it stands for none.
fn find(desk: &Desk, names: &Names, text: &[u8], found: &mut Found) -> Result<(), AllocError>
    ensures curve { OnOk result (found.new.curves.items ≡ found.old.curves.items ++ object_in (object_named CurveTarget desk.now.market names.now text.now)) }
    ensures line { OnOk result (found.new.lines.items ≡ found.old.lines.items ++ line_in text.now (object_named CurveTarget desk.now.market names.now text.now)) }
{
    match object_named(desk, names, text, Wanted::CurveTarget) {
        Ok(curve) => {
            found.curves.push(curve)?;
            Ok(())
        }
        Err(why) => unnamed_line(b"curve", why, text, &mut found.lines),
    }
}
