// The version, and how a call ended.

/// The version: 1,000 for each major one, and the minor one.
pub const VERSION: u32 = 18;

/// The call was carried out.
pub const DONE: u32 = 0;

/// The order is none of 0, 1 and 2.
pub const USAGE: u32 = 2;

/// The market is refused.
pub const MARKET: u32 = 3;

/// The script is refused.
pub const SCRIPT: u32 = 4;

/// Memory ran out.
pub const NO_MEMORY: u32 = 7;

/// The handle holds no session.
pub const CLOSED: u32 = 10;

/// The session takes no line any more: an earlier call found no memory in a round, or 2^64 - 1 lines were said.
pub const STOPPED: u32 = 11;

/// The session has no such name.
pub const NO_NAME: u32 = 12;

/// The name is refused: nothing has it, or nothing of a kind that the call takes.
pub const REFUSED: u32 = 13;

/// The number is beyond its limit.
pub const RANGE: u32 = 14;

/// It was asked, and has no value.
pub const UNPRICED: u32 = 15;

/// It was asked, and is worth a curve.
pub const NOT_MONEY: u32 = 16;

/// It has a value, which is no curve.
pub const NOT_CURVE: u32 = 18;
