// The rows of names.
ghost use Rattle.std.specs.Prelude.{◌≡◌, ◌<◌, ◌≤◌, ◌^◌, ◌++◌, true, length, map, unsigned_abs, IfOk, OnOk};
ghost use Rattle.std.specs.String.{string_bytes};
ghost use Rattle.desk_terms.specs.declared.kind.Wanted.TheVariants.{Member};
ghost use Rattle.desk_model.specs.Market.{kind_at};
ghost use Rattle.desk_model.specs.Links.{serves_as};
ghost use Rattle.desk_model.specs.Sound.{IsSound};
ghost use Rattle.desk_model.specs.Unheld.{HoldsNothing};
ghost use Rattle.bump_model.specs.Asking.{Asks};
ghost use Rattle.bump_model.specs.Moves.{AreBumps};
ghost use Rattle.bump_model.specs.Sides.{worth};
ghost use Rattle.tool_risk.specs.Asking.{AreFew, bumps_in, instrument_asking, name_asking, names_asking};
ghost use Rattle.tool_risk.specs.Lines.{text_by, name_text, names_text, theta_row};
ghost use Rattle.tool_risk.specs.Theta.{theta_asking, theta_of};

use crate::curves::{curves_beneath, push_shifts};
use crate::lines::{ladder_rows, refused_row, theta_row, unnamed_row};
use crate::theta::theta_of;
use bump_ladder::{Bump, LadderFault, each, ladder, quotes_beneath, quotes_of};
use desk_names::ObjId;
use desk_terms::{Bench, Wanted};
use fixed_amount::{Amount, Rate};
use lazy_objects::Desk;
use market_desk::object_named;
use price_report::Namer;
use std::alloc::{AllocError, Global};

// Appends the rows of each name, in order. The market stays on every exit.
pub(crate) fn names_rows<B: Bench>(
    alloc: Global,
    desk: &mut Desk,
    size: Rate,
    texts: &[String],
    namer: &Namer<'_>,
    bench: &mut B,
    lines: &mut Vec<u8>,
) -> Result<(), AllocError>
    requires sound { IsSound (B.calc bench.old) desk.old }
    requires unheld { HoldsNothing desk.old }
    ensures same { B.calc bench.new ≡ B.calc bench.old }
    ensures lines { OnOk result (lines.new.items ≡ lines.old.items
        ++ names_text (B.calc bench.old) size desk.old.market namer.now.names.now namer.now.of_object.now (map string_bytes texts.now)) }
    ensures asks { Asks (names_asking (B.calc bench.old) size namer.now.names.now (map string_bytes texts.now) desk.old) result desk.new
        (B.count bench.old) (B.count bench.new) (B.log bench.old) (B.log bench.new) }
    ensures market { desk.new.market ≡ desk.old.market }
{
    for text in texts {
        name_rows(alloc, desk, size, text.as_bytes(), namer, bench, lines)?;
    }
    Ok(())
}

// Appends the rows of a name: of an instrument, or of what stands against it.
fn name_rows<B: Bench>(
    alloc: Global,
    desk: &mut Desk,
    size: Rate,
    name: &[u8],
    namer: &Namer<'_>,
    bench: &mut B,
    lines: &mut Vec<u8>,
) -> Result<(), AllocError>
    requires sound { IsSound (B.calc bench.old) desk.old }
    requires unheld { HoldsNothing desk.old }
    ensures same { B.calc bench.new ≡ B.calc bench.old }
    ensures lines { OnOk result (lines.new.items ≡ lines.old.items
        ++ name_text (B.calc bench.old) size desk.old.market namer.now.names.now namer.now.of_object.now name.now) }
    ensures asks { Asks (name_asking (B.calc bench.old) size namer.now.names.now name.now desk.old) result desk.new
        (B.count bench.old) (B.count bench.new) (B.log bench.old) (B.log bench.new) }
    ensures market { desk.new.market ≡ desk.old.market }
    ensures sound { IsSound (B.calc bench.old) desk.new }
    ensures unheld { HoldsNothing desk.new }
{
    match object_named(desk, namer.names, name, Wanted::Member) {
        Ok(object) => object_rows(alloc, desk, size, object, namer, bench, lines),
        Err(why) => unnamed_row(name, why, lines),
    }
}

// Appends the rows of an instrument.
fn object_rows<B: Bench>(
    alloc: Global,
    desk: &mut Desk,
    size: Rate,
    object: ObjId,
    namer: &Namer<'_>,
    bench: &mut B,
    lines: &mut Vec<u8>,
) -> Result<(), AllocError>
    requires instrument { serves_as (kind_at desk.old.market object) Member ≡ true }
    requires sound { IsSound (B.calc bench.old) desk.old }
    requires unheld { HoldsNothing desk.old }
    ensures same { B.calc bench.new ≡ B.calc bench.old }
    ensures lines { OnOk result (lines.new.items ≡ lines.old.items
        ++ text_by (B.calc bench.old) size desk.old.market namer.now.names.now namer.now.of_object.now object (worth (B.calc bench.old) desk.old.market object)) }
    ensures asks { Asks (instrument_asking (B.calc bench.old) size object desk.old) result desk.new
        (B.count bench.old) (B.count bench.new) (B.log bench.old) (B.log bench.new) }
    ensures market { desk.new.market ≡ desk.old.market }
    ensures sound { IsSound (B.calc bench.old) desk.new }
    ensures unheld { HoldsNothing desk.new }
{
    let bumps = bumps_of(alloc, desk, object)?;
    match ladder(alloc, desk, object, size, bumps.as_slice(), bench) {
        Ok(ladder) => {
            ladder_rows(alloc, object, bumps.as_slice(), &ladder, namer, lines)?;
            push_theta(alloc, desk, size, object, ladder.base, namer, bench, lines)
        }
        Err(LadderFault::Base { cause, .. }) => refused_row(alloc, object, &cause, namer, lines),
        Err(LadderFault::NoMemory) => Err(AllocError),
    }
}

// Appends the row of the theta of an instrument that is worth so much.
fn push_theta<B: Bench>(
    alloc: Global,
    desk: &mut Desk,
    size: Rate,
    object: ObjId,
    base: Amount,
    namer: &Namer<'_>,
    bench: &mut B,
    lines: &mut Vec<u8>,
) -> Result<(), AllocError>
    requires instrument { serves_as (kind_at desk.old.market object) Member ≡ true }
    requires sound { IsSound (B.calc bench.old) desk.old }
    requires unheld { HoldsNothing desk.old }
    ensures same { B.calc bench.new ≡ B.calc bench.old }
    ensures lines { OnOk result (lines.new.items ≡ lines.old.items
        ++ theta_row namer.now.names.now namer.now.of_object.now object (theta_of (B.calc bench.old) desk.old.market object base)) }
    ensures asks { Asks (theta_asking (B.calc bench.old) size object desk.old) result desk.new
        (B.count bench.old) (B.count bench.new) (B.log bench.old) (B.log bench.new) }
    ensures market { desk.new.market ≡ desk.old.market }
    ensures sound { IsSound (B.calc bench.old) desk.new }
    ensures unheld { HoldsNothing desk.new }
{
    let theta = theta_of(alloc, desk, size, object, base, bench)?;
    theta_row(alloc, object, &theta, namer, lines)
}

// What is moved for an instrument: each quote beneath it by itself, and then those of each curve beneath it together.
fn bumps_of(alloc: Global, desk: &mut Desk, object: ObjId) -> Result<Vec<Bump>, AllocError>
    ensures bumps { IfOk result (λ bumps. bumps.items ≡ bumps_in desk.old.market object) }
    ensures are { IfOk result (λ bumps. AreBumps desk.old.market bumps.items) }
    ensures many { IfOk result (λ bumps. length bumps.items < 2 ^ 32) }
    ensures few { IfOk result (λ bumps. AreFew bumps.items) }
    ensures same { desk.new ≡ desk.old }
{
    let quotes = quotes_of(alloc, desk)?;
    let below = quotes_beneath(alloc, desk, object, quotes.items())?;
    let curves = curves_beneath(alloc, desk, object)?;
    let mut bumps = each(alloc, below.items())?;
    push_shifts(alloc, desk, curves.items(), below.items(), &mut bumps)?;
    Ok(bumps)
}
