// The line of a bond's spread.
ghost use Rattle.std.specs.Prelude.{◌≡◌, true, ◌++◌, codes, OnOk};
ghost use Rattle.desk_bench.specs.Pricing.{desk_calc};
ghost use Rattle.flow_terms.specs.Ranges.{AreFlowsInRange};
ghost use Rattle.market_file.specs.Standing.{IsReady};
ghost use Rattle.market_desk.specs.Making.{names_with};
ghost use Rattle.bond_yield.specs.Fixed.{is_fixed};
ghost use Rattle.bond_spread.specs.Spread.{spread_of};
ghost use Rattle.tool_bond.specs.Asked.{bond_in};
ghost use Rattle.tool_bond.specs.Lines.{refused_line};
ghost use Rattle.tool_bond.specs.Spreads as text;

use crate::Bond;
use crate::pushing::{MONEY_PLACES, RATE_PLACES, push_refused, push_value};
use bond_spread::{SpreadFault, spread};
use bump_ladder::curve_given;
use curve_points::CurveValue;
use desk_bench::DeskBench;
use desk_names::ObjId;
use desk_terms::Cause;
use market_desk::{NamedDesk, named_desk};
use price_report::{Namer, cause_text};
use std::alloc::{AllocError, Global};
use terms_copy::copy_made;

// Appends the line of the spread of a bond over the curve of its engine.
pub(crate) fn push_spread(
    alloc: Global,
    bond: &Bond<'_>,
    out: &mut Vec<u8>,
) -> Result<(), AllocError>
    requires ready { IsReady bond.now.market.now.names bond.now.market.now.made.items }
    requires range { AreFlowsInRange bond.now.flows.now }
    requires fixed { is_fixed bond.now.flows.now.flows ≡ true }
    ensures { OnOk result (out.new.items ≡ out.old.items ++ text.spread_text desk_calc (bond_in bond.now)) }
{
    match bond.engine {
        Some(engine) => push_over(alloc, bond, engine, out),
        None => push_refused(bond.name, b"spread noengine", out),
    }
}

// Appends the line of the spread over the curve of an engine.
fn push_over(
    alloc: Global,
    bond: &Bond<'_>,
    engine: ObjId,
    out: &mut Vec<u8>,
) -> Result<(), AllocError>
    requires ready { IsReady bond.now.market.now.names bond.now.market.now.made.items }
    requires range { AreFlowsInRange bond.now.flows.now }
    requires fixed { is_fixed bond.now.flows.now.flows ≡ true }
    ensures { OnOk result (out.new.items ≡ out.old.items ++ text.engine_text desk_calc (bond_in bond.now) engine) }
{
    let made = copy_made(alloc, &bond.market.made)?;
    let named = named_desk(alloc, bond.market.today, made)?;
    let NamedDesk {
        mut desk,
        of_object,
    } = named;
    let namer = Namer {
        names: &bond.market.names,
        of_object: &of_object,
    };
    match curve_given(alloc, &mut desk, engine, &mut DeskBench::new())? {
        Ok(curve) => push_found(alloc, bond, &curve, &namer, out),
        Err(cause) => push_cause(alloc, bond.name, &cause, &namer, out),
    }
}

// Appends the line of the spread over a curve.
fn push_found(
    alloc: Global,
    bond: &Bond<'_>,
    curve: &CurveValue,
    namer: &Namer<'_>,
    out: &mut Vec<u8>,
) -> Result<(), AllocError>
    requires range { AreFlowsInRange bond.now.flows.now }
    requires fixed { is_fixed bond.now.flows.now.flows ≡ true }
    ensures { OnOk result (out.new.items ≡ out.old.items
        ++ text.found_text namer.now.names.now namer.now.of_object.now bond.now.name.now curve.now.owner
        (spread_of curve.now bond.now.flows.now.flows bond.now.settle bond.now.full)) }
{
    match spread(alloc, bond.flows, bond.settle, curve, bond.full)? {
        Ok(rate) => {
            push_value(
                alloc,
                bond.name,
                b"spread",
                i128::from(rate.units()),
                RATE_PLACES,
                out,
            )
        }
        Err(fault) => push_fault(alloc, bond.name, curve.owner(), fault, namer, out),
    }
}

// Appends the line of a bond that has no spread over the curve of an object.
fn push_fault(
    alloc: Global,
    name: &[u8],
    owner: ObjId,
    fault: SpreadFault,
    namer: &Namer<'_>,
    out: &mut Vec<u8>,
) -> Result<(), AllocError>
    ensures { OnOk result (out.new.items
        ≡ out.old.items ++ text.fault_text namer.now.names.now namer.now.of_object.now name.now owner fault) }
{
    match fault {
        SpreadFault::Before(day) => {
            push_cause(alloc, name, &Cause::Before(owner, day), namer, out)
        }
        SpreadFault::Past(day) => push_cause(alloc, name, &Cause::Past(owner, day), namer, out),
        SpreadFault::TooLarge => push_refused(name, b"spread toolarge", out),
        SpreadFault::Above(price) => {
            push_value(
                alloc,
                name,
                b"refused spread above",
                price.units(),
                MONEY_PLACES,
                out,
            )
        }
        SpreadFault::Below(price) => {
            push_value(
                alloc,
                name,
                b"refused spread below",
                price.units(),
                MONEY_PLACES,
                out,
            )
        }
    }
}

// Appends the line of a bond whose curve is refused, or has no factor on a day.
fn push_cause(
    alloc: Global,
    name: &[u8],
    cause: &Cause,
    namer: &Namer<'_>,
    out: &mut Vec<u8>,
) -> Result<(), AllocError>
    ensures { OnOk result (out.new.items
        ≡ out.old.items ++ text.cause_line namer.now.names.now namer.now.of_object.now name.now cause.now) }
{
    let mut why = Vec::new(alloc);
    why.extend_from_slice(b"spread ")?;
    cause_text(alloc, cause, namer, &mut why)?;
    push_refused(name, &why, out)
}
