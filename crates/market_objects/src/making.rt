// Makes objects from the fields of their tables.
ghost use Rattle.std.specs.Prelude.{◌≡◌, Option, IfOk};
ghost use Rattle.market_tables.specs.Given.{Gives, Says};
ghost use Rattle.market_fields.specs.Earlier.{seen};
ghost use Rattle.market_objects.specs.Board.{HasFlowsInRange};
ghost use Rattle.market_objects.specs.Making.{derived_of, target_wanted, linked, handle_of, start_of, curve_of, implied_of, index_of, engine_of, stock_of, composite_of, parts_of, terms_of, entry_made};

use day_number::Day;
use desk_terms::{
    CurveStart, CurveTerms, Fixings, HandleKind, IndexTerms, PartList, Terms, Wanted,
};
use instrument_terms::{composite, stock};
use market_fields::{
    Earlier, Field, Named, ObjectKind, count_at, day_at, flag_at, named_at, needed_convention,
    needed_count, needed_counter, needed_day, needed_object, needed_target, needed_tenor, served,
    taken_calendar, taken_helpers, taken_name, taken_parts,
};
use market_instruments::{bond, forward_agreement, limit_fault, swap};
use market_tables::{MarketKind, NameText, TableFault, take_field};
use std::alloc::Global;

/// The greatest number of parts of a composite: there are no more objects that they could be.
const MOST_PARTS: usize = 4095;

// Makes a sum or a difference.
fn derived_of(minus: bool, fields: &[Option<Field>]) -> Result<Terms, TableFault>
    ensures terms { Says (λ terms. terms) result (derived_of minus fields.now) }
    ensures range { IfOk result HasFlowsInRange }
{
    let first = needed_object(fields, 1)?;
    let second = needed_object(fields, 2)?;
    Ok(Terms::Derived {
        minus,
        first,
        second,
    })
}

// Returns the kinds that a handle may be linked to.
fn target_wanted(target_kind: HandleKind) -> Wanted
    ensures { result ≡ target_wanted target_kind }
{
    match target_kind {
        HandleKind::Quote => Wanted::QuoteTarget,
        HandleKind::Curve => Wanted::CurveTarget,
    }
}

// Makes a handle with its target, or without one.
fn linked(target_kind: HandleKind, to: Option<Named>) -> Result<Terms, TableFault>
    ensures terms { Says (λ terms. terms) result (linked target_kind to) }
    ensures range { IfOk result HasFlowsInRange }
{
    match to {
        None => Ok(Terms::Handle {
            target_kind,
            target: None,
        }),
        Some(named) => {
            let object = served(named, target_wanted(target_kind))?;
            Ok(Terms::Handle {
                target_kind,
                target: Some(object),
            })
        }
    }
}

fn handle_of(fields: &[Option<Field>]) -> Result<Terms, TableFault>
    ensures terms { Says (λ terms. terms) result (handle_of fields.now) }
    ensures range { IfOk result HasFlowsInRange }
{
    let target_kind = needed_target(fields, 1)?;
    linked(target_kind, named_at(fields, 2)?)
}

// Returns the start of a curve: its settlement days or its reference day. `Key` where it has both or neither.
fn start_of(settlement: Option<u8>, reference: Option<Day>) -> Result<CurveStart, TableFault>
    ensures { Says (λ start. start) result (start_of settlement reference) }
{
    match (settlement, reference) {
        (Some(settlement), None) => Ok(CurveStart::Moving(settlement)),
        (None, Some(reference)) => Ok(CurveStart::Fixed(reference)),
        (Some(_), Some(_)) | (None, None) => Err(TableFault::Kind(MarketKind::Key)),
    }
}

// Makes a curve, and takes its calendar and its helpers out of the fields.
#[tactic(auto, using(market_tables::proofs::FieldPlaces::other))]
fn curve_of(fields: &mut Vec<Option<Field>>) -> Result<Terms, TableFault>
    ensures terms { Says (λ terms. terms) result (curve_of fields.old.items) }
    ensures range { IfOk result HasFlowsInRange }
{
    let settlement = count_at(fields, 2)?;
    let reference = day_at(fields, 3)?;
    let start = start_of(settlement, reference)?;
    let cal = taken_calendar(take_field(fields, 1))?;
    let helpers = taken_helpers(take_field(fields, 4))?;
    Ok(Terms::Curve(CurveTerms {
        cal,
        start,
        helpers,
    }))
}

fn implied_of(fields: &[Option<Field>]) -> Result<Terms, TableFault>
    ensures terms { Says (λ terms. terms) result (implied_of fields.now) }
    ensures range { IfOk result HasFlowsInRange }
{
    let curve = needed_object(fields, 1)?;
    let reference = needed_day(fields, 2)?;
    Ok(Terms::Implied { curve, reference })
}

// Makes an index without fixings, and takes its calendar out of the fields.
fn index_of(alloc: Global, fields: &mut Vec<Option<Field>>) -> Result<Terms, TableFault>
    ensures terms { Says (λ terms. terms) result (index_of fields.old.items) }
    ensures range { IfOk result HasFlowsInRange }
{
    let fixing_days = needed_count(fields, 2)?;
    let tenor = needed_tenor(fields, 3)?;
    let conv = needed_convention(fields, 4)?;
    let eom = flag_at(fields, 5)?.unwrap_or(false);
    let counter = needed_counter(fields, 6)?;
    let curve = needed_object(fields, 7)?;
    let cal = taken_calendar(take_field(fields, 1))?;
    let terms = IndexTerms {
        cal,
        fixing_days,
        tenor,
        conv,
        eom,
        counter,
        curve,
    };
    Ok(Terms::Index(terms, Fixings::new(alloc)))
}

fn engine_of(fields: &[Option<Field>]) -> Result<Terms, TableFault>
    ensures terms { Says (λ terms. terms) result (engine_of fields.now) }
    ensures range { IfOk result HasFlowsInRange }
{
    let curve = needed_object(fields, 1)?;
    Ok(Terms::Engine { curve })
}

fn stock_of(fields: &[Option<Field>]) -> Result<Terms, TableFault>
    ensures terms { Says (λ terms. terms) result (stock_of fields.now) }
    ensures range { IfOk result HasFlowsInRange }
{
    let quote = needed_object(fields, 1)?;
    Ok(stock(quote))
}

// Makes a composite without a member twice. One with more parts than there may be objects has a member twice.
fn composite_of(parts: PartList) -> Result<Terms, TableFault>
    ensures terms { Says (λ terms. terms) result (composite_of parts) }
    ensures range { IfOk result HasFlowsInRange }
{
    if parts.len() > MOST_PARTS {
        return Err(TableFault::Kind(MarketKind::Parts));
    }
    match composite(parts) {
        Ok(terms) => Ok(terms),
        Err(fault) => Err(TableFault::Kind(limit_fault(fault))),
    }
}

// Makes the composite of a key that may be missing, which means no parts.
fn parts_of(alloc: Global, field: Option<Field>) -> Result<Terms, TableFault>
    ensures terms { Says (λ terms. terms) result (parts_of field) }
    ensures range { IfOk result HasFlowsInRange }
{
    match taken_parts(field)? {
        Some(parts) => composite_of(parts),
        None => composite_of(PartList::new(alloc)),
    }
}

// Makes the terms of a kind from the fields after the name, of which it takes some out.
fn terms_of(
    alloc: Global,
    earlier: Earlier<'_>,
    kind: ObjectKind,
    fields: &mut Vec<Option<Field>>,
) -> Result<Terms, TableFault>
    ensures terms { Gives (λ terms. terms) result (terms_of (seen earlier.entry) kind fields.old.items) }
    ensures range { IfOk result HasFlowsInRange }
{
    match kind {
        ObjectKind::Sum => derived_of(false, fields),
        ObjectKind::Difference => derived_of(true, fields),
        ObjectKind::Handle => handle_of(fields),
        ObjectKind::Curve => curve_of(fields),
        ObjectKind::Implied => implied_of(fields),
        ObjectKind::Index => index_of(alloc, fields),
        ObjectKind::Engine => engine_of(fields),
        ObjectKind::Stock => stock_of(fields),
        ObjectKind::Composite => parts_of(alloc, take_field(fields, 1)),
        ObjectKind::Bond => bond(alloc, earlier, fields),
        ObjectKind::Swap => swap(alloc, earlier, fields),
        ObjectKind::Fra => forward_agreement(alloc, earlier, fields),
    }
}

// Makes the name and the terms from the fields of a kind.
pub(crate) fn entry_made(
    alloc: Global,
    earlier: Earlier<'_>,
    kind: ObjectKind,
    fields: Vec<Option<Field>>,
) -> Result<(NameText, Terms), TableFault>
    ensures entry { Gives (λ entry. (entry.0, entry.1)) result (entry_made (seen earlier.entry) kind fields.items) }
    ensures range { IfOk result (λ entry. HasFlowsInRange entry.1) }
{
    let mut fields = fields;
    let name = taken_name(take_field(&mut fields, 0))?;
    let terms = terms_of(alloc, earlier, kind, &mut fields)?;
    Ok((name, terms))
}
