// A list of names by their numbers.
use crate::NameId;
use item_lists::Items;

/// Names in order. A clause sees the list of their numbers.
pub type NameList = Items<NameId>;
