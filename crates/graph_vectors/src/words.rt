// The words of a row's steps.
use desk_names::{NameId, ObjId};
use watch_rounds::{Notice, Order};

/// `first`, `last`, or the number that a generator starts from.
pub(crate) fn order_of(word: &str) -> Option<Order> {
    match word {
        "first" => Some(Order::First),
        "last" => Some(Order::Last),
        seed => Some(Order::Seed(seed.parse().ok()?)),
    }
}

/// `due`, `first` or `again`: what a notice does.
pub(crate) fn notice_of(word: &str) -> Option<Notice> {
    match word {
        "due" => Some(Notice::Due),
        "first" => Some(Notice::OverFirst),
        "again" => Some(Notice::OverAgain),
        _ => None,
    }
}

/// A watcher's number.
pub(crate) fn watcher_of(word: &str) -> Option<ObjId> {
    Some(ObjId(word.parse().ok()?))
}

/// A name's number.
pub(crate) fn name_of(word: &str) -> Option<NameId> {
    Some(NameId(word.parse().ok()?))
}
