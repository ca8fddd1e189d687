// Whether terms are in range.
ghost use Rattle.std.specs.Prelude.{◌↔◌, IsTrue};
ghost use Rattle.desk_terms.specs.Parts.{ArePartsInRange};
ghost use Rattle.desk_terms.specs.Reading.{AreInRange};

use crate::composites::fault_of_parts;
use desk_terms::{Part, Terms};

/// The most parts of a composite.
const MOST_PARTS: usize = 4096;

/// Whether terms are in range: those of a curve, of an index, of a composite and of flows are within their limits. It
/// takes no memory.
pub fn are_in_range(terms: &Terms) -> bool
    ensures { IsTrue result ↔ AreInRange terms.now }
{
    match terms {
        Terms::Curve(curve) => curve_terms::is_in_range(curve),
        Terms::Index(index, _) => index.is_in_range(),
        Terms::Composite(parts) => are_parts(parts.items()),
        Terms::Flows(flows, _) => flows.is_in_range(),
        Terms::Quote(_) => true,
        Terms::Derived { .. } => true,
        Terms::Handle { .. } => true,
        Terms::Implied { .. } => true,
        Terms::Engine { .. } => true,
        Terms::Stock { .. } => true,
    }
}

// Whether the parts of a composite are at most 4,096, each weight is within its limit, and no member stands twice.
fn are_parts(parts: &[Part]) -> bool
    ensures { IsTrue result ↔ ArePartsInRange parts.now }
{
    parts.len() <= MOST_PARTS && fault_of_parts(parts).is_none()
}
