// What is kept behind a handle.
ghost use Rattle.std.specs.Prelude.{◌≡◌};

use desk_bench::DeskBench;
use pricing_session::LiveSession;
use watch_rounds::Order;

/// A session, and the lines that the last call wrote.
#[derive(Drop)]
pub struct Kept {
    pub(crate) session: LiveSession<Order, DeskBench>,
    pub(crate) text: Vec<u8>,
}
