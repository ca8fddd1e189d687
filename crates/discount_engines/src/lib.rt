//! What instruments are worth: a stock its quote, a composite the weighted sum of its members, a bond, swap or forward
//! rate agreement its discounted flows.
//!
//! `price`, `money_of`, `PriceFault`. Functions whose names end in `law` do nothing: their contracts are what is proved of the
//! definitions.
#![tactic(auto)]

mod faults;
mod flow_values;
mod laws;
mod prices;
mod worths;

pub use faults::PriceFault;
pub use laws::{first_cause_law, worth_of_both_law};
pub use prices::{money_of, price};
