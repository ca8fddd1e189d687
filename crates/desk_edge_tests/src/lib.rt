//! Tests of `desk_edge` from outside: what no clause says of the system's files and writers, and that ample memory is
//! found. They stand apart so that a check of `desk_edge` proves it once, and not once more with its tests.
#![tactic(auto)]

#[cfg(test)]
mod tests;
