// Copies of curves.
ghost use Rattle.std.specs.Prelude.{◌≡◌, IfOk};

use crate::CurveValue;
use std::alloc::{AllocError, Global};

/// The same curve once more.
pub fn copy_curve(alloc: Global, curve: &CurveValue) -> Result<CurveValue, AllocError>
    ensures { IfOk result (λ copy. copy ≡ curve.now) }
{
    Ok(CurveValue {
        owner: curve.owner,
        reference: curve.reference,
        nodes: curve.nodes.copy(alloc)?,
    })
}
