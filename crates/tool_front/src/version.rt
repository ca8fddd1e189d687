// The version of the program.

/// The version: the newest one of the list of changes.
pub const VERSION: &str = "0.18";

/// What the program was built by: the sum of the logic that its proofs were checked in.
pub const BUILD: &str = "logic dac8208d650f15bf";
