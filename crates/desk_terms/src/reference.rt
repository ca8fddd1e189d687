// The objects that terms name.
use crate::Wanted;
use desk_names::ObjId;
use item_lists::Items;

/// An object that terms name, with what is wanted of it there.
#[derive(Clone, Copy)]
pub struct Reference {
    pub object: ObjId,
    pub wanted: Wanted,
}

/// The objects that terms name, in order.
pub type ReferenceList = Items<Reference>;
