// How long a line may be.

/// The most bytes of a line of input, without what ends it.
pub const MOST_LINE: usize = 65_536;
