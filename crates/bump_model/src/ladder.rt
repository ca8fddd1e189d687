// A ladder: what an instrument is worth, and what it gains where quotes are moved.
use desk_names::ObjId;
use desk_terms::Cause;
use fixed_amount::Amount;
use item_lists::Items;
use std::alloc::{AllocError, AllocFailed};
use thiserror::Error;

/// Why an instrument has no price where quotes are moved one way.
#[derive(Clone, Copy)]
pub enum Missing {
    /// It is worth nothing then, for this cause.
    Refused(Cause),
    /// A quote would pass the limit of rates. None is moved.
    Limit,
}

/// What an instrument gains where quotes are moved one way.
#[derive(Clone, Copy)]
pub enum Side {
    /// What it is worth then less what it is worth where none is moved, within 2 * 10^24 units either way.
    Moved(Amount),
    /// It has no price then.
    NoPrice(Missing),
    /// The quote has no value.
    Unset,
}

/// Which quotes are moved on a rung.
#[derive(Drop)]
pub enum Bump {
    /// One quote. Where it has no value, nothing is moved.
    One(ObjId),
    /// Those of these quotes that have a value, together: for the sake of an object, or of none.
    Together {
        label: Option<ObjId>,
        quotes: Items<ObjId>,
    },
}

/// What an instrument gains where a quote, or quotes together, are moved up and down.
#[derive(Clone, Copy)]
pub struct Rung {
    /// The quote; where several are moved, the object for whose sake they are, if they are for one's.
    pub label: Option<ObjId>,
    pub up: Side,
    pub down: Side,
}

/// Rungs in order. A clause sees the list of them.
pub type RungList = Items<Rung>;

/// What an instrument is worth, and what it gains on each rung.
#[derive(Drop)]
pub struct Ladder {
    /// What it is worth where no quote is moved.
    pub base: Amount,
    /// A rung for each bump, in order.
    pub rungs: RungList,
    /// How many times the bench was called.
    pub runs: u64,
}

/// Why there is no ladder.
#[derive(Clone, Copy, Debug, Error, PartialEq, Eq)]
pub enum LadderFault {
    /// The instrument is worth nothing where no quote is moved, for this cause; the bench was called so many times.
    #[error("the instrument is worth nothing")]
    Base { cause: Cause, runs: u64 },
    #[error("out of memory")]
    NoMemory,
}

impl From<AllocError> for LadderFault {
    ghost use Rattle.std.specs.Prelude.{◌≡◌};
    ghost use Rattle.bump_model.specs.declared.ladder.LadderFault.TheVariants.{NoMemory};

    ghost from_gives = { λ _ e. e ≡ NoMemory };

    fn from(_: AllocError) -> Self {
        LadderFault::NoMemory
    }
}

impl<T: Drop> From<AllocFailed<T>> for LadderFault {
    ghost use Rattle.std.specs.Prelude.{◌≡◌};
    ghost use Rattle.bump_model.specs.declared.ladder.LadderFault.TheVariants.{NoMemory};

    ghost from_gives = { λ _ e. e ≡ NoMemory };

    fn from(_: AllocFailed<T>) -> Self {
        LadderFault::NoMemory
    }
}
