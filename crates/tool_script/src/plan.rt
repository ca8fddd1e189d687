// What words and files ask for.
use session_commands::Script;
use tool_frame::OpenMarket;
use watch_rounds::Order;

/// A script over a market. The names are those of the market and of the script.
#[derive(Drop)]
pub struct ScriptRun {
    pub market: OpenMarket,
    pub script: Script,
}

/// What is to be done.
#[derive(Drop)]
pub enum Plan {
    /// A script is to be run, and due watchers in this order.
    Run { run: ScriptRun, order: Order },
    /// The script of a load of this size is to be run, and what it writes to be summed up.
    Load { size: u32, run: ScriptRun },
    /// A market is to be reported that has so many objects and so many stored fixings.
    Check { objects: usize, fixings: u128 },
}
