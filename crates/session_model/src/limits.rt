// How many objects a session may have.

/// The most objects that may live, `today` among them.
pub const MOST_LIVE: usize = 4096;

/// The most numbers that may be given to objects, that of `today` among them.
pub const MOST_NUMBERS: usize = 65_536;
