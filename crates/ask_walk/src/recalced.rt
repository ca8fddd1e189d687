// The result of a recalculation.
use desk_names::ObjId;
use desk_terms::Asked;

/// The result of a recalculation.
#[derive(Clone, Copy, Debug, PartialEq, Eq)]
pub enum Recalced {
    /// This deferred source, the least such, makes the object late. Nothing has changed.
    Deferred(ObjId),
    /// The object was computed, or its computation was refused.
    Done(Asked),
}
