// The data that an ask reads and does not write.
use crate::objects::Objects;
use day_number::Day;

/// The evaluation date, and the objects by number.
#[derive(Drop)]
pub struct Market {
    pub today: Day,
    pub objects: Objects,
}
