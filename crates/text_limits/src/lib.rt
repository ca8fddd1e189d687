//! How long a text may be that is read: a script, a market file, or any other. It offers `MOST_BYTES`.
#![tactic(auto)]

mod limit;

pub use limit::MOST_BYTES;
