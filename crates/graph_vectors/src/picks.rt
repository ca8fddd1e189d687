// Rows `seed,due,position`: which of so many due watchers the generator chooses, one pick after another.
use watch_rounds::{Order, Picker};

/// The generator of the rows so far. It begins anew where a row has another seed.
#[derive(Drop)]
pub(crate) struct Picks {
    seed: Option<u64>,
    order: Order,
}

impl Picks {
    /// No row was read.
    pub(crate) fn new() -> Picks {
        Picks {
            seed: None,
            order: Order::First,
        }
    }

    /// Whether the next pick is the row's. None where it is no row.
    pub(crate) fn pick_agrees(&mut self, row: &str) -> Option<bool> {
        let mut fields = row.split(',');
        let seed = fields.next()?.parse().ok()?;
        let due = fields.next()?.parse().ok()?;
        let position: u32 = fields.next()?.parse().ok()?;
        if self.seed != Some(seed) {
            self.seed = Some(seed);
            self.order = Order::Seed(seed);
        }
        if due == 0 {
            return None;
        }
        Some(self.order.pick(due) == position)
    }
}
