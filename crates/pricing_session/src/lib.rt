//! Sessions with the bench by which they price: the crate for Rust programs that own a session.
//!
//! `PricingSession` takes commands as values, `LiveSession` takes lines; both are a `BenchSession`. `open` requires a market
//! as `read_market` returns it (`NamedMarket`). No other call requires anything, so a program has nothing else to prove.
//! `Answer` and `Worth` are results of an ask; `StepFault`, `ChangeFault`, `BlockFault`, `ObjectFault`, `AskFault` and
//! `PriceFault` say why there is none. `session_for` makes a session without a bench.
//!
//! ```text
//! let (mut session, commands) = PricingSession::open(alloc, market, script, Order::First, bench)?;
//! let quote = session.intern(b"acme")?;
//! session.change(&Command::Set(quote, Rate(41_500_000_000)))?;
//! let share = session.intern(b"share")?;
//! let amount = session.price(share)?;
//! ```
#![tactic(auto)]

mod answer;
mod asking;
mod beside;
mod fault;
mod finding;
mod growing;
mod known;
mod live;
mod opening;
mod serving;
mod session;

pub use answer::{Answer, Worth};
pub use beside::{ActionCount, Beside};
pub use fault::{AskFault, BlockFault, ChangeFault, ObjectFault, PriceFault, StepFault};
pub use opening::{NamedMarket, session_for};
pub use session::{BenchSession, LiveSession, PricingSession};
