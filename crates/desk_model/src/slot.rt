// What stands at an object's number.
use desk_terms::Terms;

/// What stands at the number of an object: numbers are given in order of creation, and never again.
#[derive(Drop)]
pub enum Slot {
    /// Nothing: the object was dropped.
    Free,
    /// The evaluation date, which is object 0 (QuantLib's `Settings::evaluationDate`).
    Today,
    /// A watcher (this project's profile).
    Watcher,
    /// An object with its terms as they stand now.
    Live(Terms),
}
