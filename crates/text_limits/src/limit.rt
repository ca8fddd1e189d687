// The limit.

/// The most bytes of a text that is read: 8 MiB (this project's profile).
pub const MOST_BYTES: usize = 8_388_608;
