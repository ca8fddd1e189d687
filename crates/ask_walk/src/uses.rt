// The inputs of the prices of curves and of flows, in order.
ghost use Rattle.std.specs.Prelude.{◌≡◌, ◌<◌, ℕ, length, [], ◌∷◌, Some, IfSome, IfOk};
ghost use Rattle.walks.specs.Walk.{Among};
ghost use Rattle.desk_terms.specs.Terms.{helper_references, optional_reference};
ghost use Rattle.desk_terms.specs.declared.terms.Terms.TheVariants.{Flows};
ghost use Rattle.desk_terms.specs.declared.kind.Wanted.TheVariants.{Index};
ghost use Rattle.desk_model.specs.Market.{named, terms_at};
ghost use Rattle.desk_model.specs.Links.{IsLinked, AreOfKind, Serve};
ghost use Rattle.desk_model.specs.Uses.{input_at, helper_entries, uses};
ghost use Rattle.object_store.specs.Market.{market_in};
ghost use Rattle.ask_walk.specs.Reads.{Remembers, forecast_index};

use crate::reader::read;
use desk_model::Entry;
use desk_names::ObjId;
use desk_terms::{Cause, FlowTerms, Helper, expired, needs_forecast};
use object_store::{Market, Scratch, index_of};
use std::alloc::AllocError;

/// Returns the inputs of a curve: what the quotes of its helpers give, in order.
///
/// # Errors
///
/// `AllocError` where memory runs out.
pub fn helper_entries(
    market: &Market,
    scratch: &mut Scratch,
    helpers: &[Helper],
) -> Result<Vec<Entry>, AllocError>
    requires linked { IsLinked (market_in market.now) }
    requires within { (x : ℕ) → Among x (named (helper_references helpers.now)) → x < length market.now.objects }
    requires remembers { Remembers (market_in market.now) scratch.old.entries }
    ensures entries { IfOk result (λ entries. entries.items ≡ helper_entries (input_at (market_in market.now)) helpers.now) }
    ensures remembers { Remembers (market_in market.now) scratch.new.entries }
{
    let _cause: Option<Cause> = None;
    let mut entries: Vec<Entry> = Vec::with_capacity(scratch.alloc(), helpers.len())?;
    for at in 0..helpers.len() {
        let entry = read(market, scratch, helpers[at].quote)?;
        entries.push(entry)?;
    }
    Ok(entries)
}

/// Returns the inputs of an instrument: none if all its flows are paid, else its engine's curve, and its index's curve exactly if
/// a rate has to be forecast.
///
/// # Errors
///
/// `AllocError` where memory runs out.
pub fn flow_entries(
    market: &Market,
    scratch: &mut Scratch,
    object: ObjId,
    flows: &FlowTerms,
    engine: Option<ObjId>,
) -> Result<Vec<Entry>, AllocError>
    requires terms { terms_at (market_in market.now) object ≡ Some (Flows flows.now engine) }
    requires linked { IsLinked (market_in market.now) }
    requires kinds { AreOfKind (market_in market.now) (Some (Flows flows.now engine)) }
    requires remembers { Remembers (market_in market.now) scratch.old.entries }
    ensures entries { IfOk result (λ entries. entries.items ≡ uses (market_in market.now) object) }
    ensures remembers { Remembers (market_in market.now) scratch.new.entries }
{
    if expired(flows, market.today) {
        return Ok(Vec::new(scratch.alloc()));
    }
    let mut entries: Vec<Entry> = Vec::with_capacity(scratch.alloc(), 2)?;
    match engine {
        None => entries.push(Entry::Refuses(Cause::NoEngine(object)))?,
        Some(engine) => {
            let discount = read(market, scratch, engine)?;
            entries.push(discount)?;
            if let Some(index) = forecast_index(market, flows) {
                let forecast = read(market, scratch, index)?;
                entries.push(forecast)?;
            }
        }
    }
    Ok(entries)
}

/// Returns the input of an instrument, if it has exactly one. `None` if all its flows are paid, or a rate has to be forecast.
///
/// # Errors
///
/// `AllocError` where memory runs out.
pub fn only_entry(
    market: &Market,
    scratch: &mut Scratch,
    object: ObjId,
    flows: &FlowTerms,
    engine: Option<ObjId>,
) -> Result<Option<Entry>, AllocError>
    requires terms { terms_at (market_in market.now) object ≡ Some (Flows flows.now engine) }
    requires linked { IsLinked (market_in market.now) }
    requires kinds { AreOfKind (market_in market.now) (Some (Flows flows.now engine)) }
    requires remembers { Remembers (market_in market.now) scratch.old.entries }
    ensures entry { IfOk result (λ found. IfSome found (λ entry. uses (market_in market.now) object ≡ entry ∷ [])) }
    ensures remembers { Remembers (market_in market.now) scratch.new.entries }
{
    if expired(flows, market.today) {
        return Ok(None);
    }
    match forecast_index(market, flows) {
        Some(_) => Ok(None),
        None => match engine {
            None => Ok(Some(Entry::Refuses(Cause::NoEngine(object)))),
            Some(engine) => {
                let discount = read(market, scratch, engine)?;
                Ok(Some(discount))
            }
        },
    }
}

// Returns the index of flows, if a rate has to be forecast.
fn forecast_index(market: &Market, flows: &FlowTerms) -> Option<ObjId>
    requires { Serve (market_in market.now) (optional_reference Index flows.now.index) }
    ensures { result ≡ forecast_index (market_in market.now) flows.now flows.now.index }
{
    match flows.index {
        None => None,
        Some(index) => match index_of(&market.objects, index) {
            None => unreachable!(),
            Some(used) => {
                if needs_forecast(flows, used.fixings, market.today) {
                    Some(index)
                } else {
                    None
                }
            }
        },
    }
}
