// A copy of the terms of objects.
ghost use Rattle.std.specs.Prelude.{◌≡◌, IfOk};

use curve_terms::CurveTerms;
use desk_names::NameId;
use desk_terms::Terms;
use flow_terms::{FlowTerms, IndexTerms};
use std::alloc::{AllocError, Global};

/// The same objects with the same names, in their order and in memory of their own. It fails for want of memory alone, and
/// takes time in proportion to what the terms hold.
pub fn copy_made(
    alloc: Global,
    made: &[(NameId, Terms)],
) -> Result<Vec<(NameId, Terms)>, AllocError>
    ensures { IfOk result (λ copy. copy.items ≡ made.now) }
{
    let mut copy = Vec::with_capacity(alloc, made.len())?;
    for (name, terms) in made {
        let terms = copy_terms(alloc, terms)?;
        copy.push((*name, terms))?;
    }
    Ok(copy)
}

/// The same terms, in memory of their own. It fails for want of memory alone.
pub fn copy_terms(alloc: Global, terms: &Terms) -> Result<Terms, AllocError>
    ensures { IfOk result (λ copy. copy ≡ terms.now) }
{
    Ok(match terms {
        Terms::Quote(value) => Terms::Quote(*value),
        Terms::Derived {
            minus,
            first,
            second,
        } => Terms::Derived {
            minus: *minus,
            first: *first,
            second: *second,
        },
        Terms::Handle {
            target_kind,
            target,
        } => Terms::Handle {
            target_kind: *target_kind,
            target: *target,
        },
        Terms::Curve(curve) => Terms::Curve(copy_curve(alloc, curve)?),
        Terms::Implied { curve, reference } => Terms::Implied {
            curve: *curve,
            reference: *reference,
        },
        Terms::Index(index, fixings) => Terms::Index(copy_index(alloc, index)?, fixings.copy()?),
        Terms::Engine { curve } => Terms::Engine { curve: *curve },
        Terms::Stock { quote } => Terms::Stock { quote: *quote },
        Terms::Composite(parts) => Terms::Composite(parts.copy(alloc)?),
        Terms::Flows(flows, engine) => Terms::Flows(copy_flows(alloc, flows)?, *engine),
    })
}

// The same curve.
fn copy_curve(alloc: Global, curve: &CurveTerms) -> Result<CurveTerms, AllocError>
    ensures { IfOk result (λ copy. copy ≡ curve.now) }
{
    let cal = curve.cal.copy(alloc)?;
    let helpers = curve.helpers.copy(alloc)?;
    Ok(CurveTerms {
        cal,
        start: curve.start,
        helpers,
    })
}

// The same index.
fn copy_index(alloc: Global, index: &IndexTerms) -> Result<IndexTerms, AllocError>
    ensures { IfOk result (λ copy. copy ≡ index.now) }
{
    let cal = index.cal.copy(alloc)?;
    Ok(IndexTerms {
        cal,
        fixing_days: index.fixing_days,
        tenor: index.tenor,
        conv: index.conv,
        eom: index.eom,
        counter: index.counter,
        curve: index.curve,
    })
}

// The same flows.
fn copy_flows(alloc: Global, flows: &FlowTerms) -> Result<FlowTerms, AllocError>
    ensures { IfOk result (λ copy. copy ≡ flows.now) }
{
    let items = flows.flows.copy(alloc)?;
    Ok(FlowTerms {
        flows: items,
        index: flows.index,
    })
}
