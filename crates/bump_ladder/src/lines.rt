// The lines of a name.
ghost use Rattle.std.specs.Prelude.{◌≡◌, ◌⊎◌, ◌++◌, true, IfOk, OnOk};
ghost use Rattle.desk_terms.specs.declared.kind.Wanted.TheVariants.{Member};
ghost use Rattle.desk_model.specs.Market.{kind_at};
ghost use Rattle.desk_model.specs.Links.{serves_as};
ghost use Rattle.desk_model.specs.Sound.{IsSound};
ghost use Rattle.desk_model.specs.Unheld.{HoldsNothing};
ghost use Rattle.desk_model.specs.Visit.{log_of};
ghost use Rattle.bump_model.specs.Asking.{Calls};
ghost use Rattle.market_desk.specs.Standing.{standing};
ghost use Rattle.tool_frame.specs.Calls as tool;
ghost use Rattle.bump_ladder.specs.Lines.{instrument_text, instrument_calls, bump_text, bump_calls, IsNamed};

use crate::bumps::each_then_all;
use crate::report::{ladder_lines, refused_lines};
use crate::{BUMP, ladder, quotes_of};
use bump_model::LadderFault;
use desk_names::ObjId;
use desk_terms::{Bench, Wanted};
use fixed_amount::Rate;
use lazy_objects::Desk;
use market_desk::{object_named, unnamed_line};
use price_report::Namer;
use std::alloc::{AllocError, Global};

// The lines of a name. It has the desk lent: a function that owns one lets it go at each exit.
pub(crate) fn name_lines<B: Bench>(
    alloc: Global,
    desk: &mut Desk,
    name: &[u8],
    namer: &Namer<'_>,
    bench: &mut B,
) -> Result<Vec<u8>, AllocError>
    requires sound { IsSound (B.calc bench.old) desk.old }
    requires unheld { HoldsNothing desk.old }
    ensures lines { IfOk result (λ lines. lines.items
        ≡ bump_text (B.calc bench.old) (standing namer.now.names.now namer.now.of_object.now desk.old) name.now) }
    ensures calls { tool.Calls (log_of (bump_calls (B.calc bench.old) (standing namer.now.names.now namer.now.of_object.now desk.old) name.now))
        result (B.count bench.old) (B.count bench.new) (B.log bench.old) (B.log bench.new) }
    ensures alone { IsNamed (standing namer.now.names.now namer.now.of_object.now desk.old) name.now ⊎ (bench.new ≡ bench.old) }
    ensures market { desk.new.market ≡ desk.old.market }
    ensures same { B.calc bench.new ≡ B.calc bench.old }
{
    let mut lines = Vec::new(alloc);
    bump_lines(alloc, desk, name, namer, bench, &mut lines)?;
    Ok(lines)
}

// Appends the lines of a name: of the ladder over all quotes of the desk, or of what stands against it. The market stays
// on every exit.
fn bump_lines<B: Bench>(
    alloc: Global,
    desk: &mut Desk,
    name: &[u8],
    namer: &Namer<'_>,
    bench: &mut B,
    lines: &mut Vec<u8>,
) -> Result<(), AllocError>
    requires sound { IsSound (B.calc bench.old) desk.old }
    requires unheld { HoldsNothing desk.old }
    ensures same { B.calc bench.new ≡ B.calc bench.old }
    ensures lines { OnOk result (lines.new.items ≡ lines.old.items
        ++ bump_text (B.calc bench.old) (standing namer.now.names.now namer.now.of_object.now desk.old) name.now) }
    ensures calls { Calls (bump_calls (B.calc bench.old) (standing namer.now.names.now namer.now.of_object.now desk.old) name.now)
        result (B.count bench.old) (B.count bench.new) (B.log bench.old) (B.log bench.new) }
    ensures alone { IsNamed (standing namer.now.names.now namer.now.of_object.now desk.old) name.now ⊎ (bench.new ≡ bench.old) }
    ensures market { desk.new.market ≡ desk.old.market }
{
    match object_named(desk, namer.names, name, Wanted::Member) {
        Ok(object) => instrument_lines(alloc, desk, object, namer, bench, lines),
        Err(why) => unnamed_line(b"bump", why, name, lines),
    }
}

// Appends the lines of an instrument.
fn instrument_lines<B: Bench>(
    alloc: Global,
    desk: &mut Desk,
    object: ObjId,
    namer: &Namer<'_>,
    bench: &mut B,
    lines: &mut Vec<u8>,
) -> Result<(), AllocError>
    requires instrument { serves_as (kind_at desk.old.market object) Member ≡ true }
    requires sound { IsSound (B.calc bench.old) desk.old }
    requires unheld { HoldsNothing desk.old }
    ensures same { B.calc bench.new ≡ B.calc bench.old }
    ensures lines { OnOk result (lines.new.items ≡ lines.old.items
        ++ instrument_text (B.calc bench.old) (standing namer.now.names.now namer.now.of_object.now desk.old) object) }
    ensures calls { Calls (instrument_calls (B.calc bench.old) (standing namer.now.names.now namer.now.of_object.now desk.old) object)
        result (B.count bench.old) (B.count bench.new) (B.log bench.old) (B.log bench.new) }
    ensures market { desk.new.market ≡ desk.old.market }
{
    let quotes = quotes_of(alloc, desk)?;
    let bumps = each_then_all(alloc, quotes)?;
    match ladder(alloc, desk, object, Rate(BUMP), bumps.as_slice(), bench) {
        Ok(ladder) => ladder_lines(alloc, object, &ladder, namer, lines),
        Err(LadderFault::Base { cause, runs }) => {
            refused_lines(alloc, object, &cause, runs, namer, lines)
        }
        Err(LadderFault::NoMemory) => Err(AllocError),
    }
}
