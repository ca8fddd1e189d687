// Lists of days. A clause sees one as the list of their numbers.
use crate::Day;
use item_lists::Items;

/// Days in the order in which they were pushed.
pub type DayList = Items<Day>;
