// The days of a schedule. A clause sees them as the list of their numbers.
use day_number::Day;
use std::marker::Model;

/// How many days a schedule has at most.
pub const MOST_DAYS: usize = 801;

/// The days of a schedule, each once and in the order of time, from 2 to `MOST_DAYS` of them. Each two that follow each
/// other are a period.
pub struct Schedule {
    pub(crate) days: Vec<Day>,
}

// One call at each exit of who lets it go.
impl Drop for Schedule {
    fn drop(self) {
        let Schedule { days: _ } = self;
    }
}

impl Model for Schedule {
    ghost use Rattle.std.specs.Prelude.{List, length, ℤ};
    ghost use Rattle.std.specs.Int.{IsInRange};
    ghost use Rattle.std.specs.List.Sorted.{IsStrictlySortedBy};
    ghost use Rattle.std.specs.Ordering.{int_cmp};
    ghost use Rattle.schedule_rules.specs.declared.schedules.TheConstants.{MOST_DAYS};

    ghost Value = { List ℤ };

    ghost view = { λ s. s.days.items };

    ghost invariant = { λ s. IsStrictlySortedBy int_cmp s.days.items × IsInRange 2 MOST_DAYS (length s.days.items) };
}

impl Schedule {
    ghost use Rattle.std.specs.Prelude.{◌≡◌, length};
    ghost use Rattle.std.specs.Int.{IsInRange};
    ghost use Rattle.std.specs.List.Sorted.{IsStrictlySortedBy};
    ghost use Rattle.std.specs.Ordering.{int_cmp};
    ghost use Rattle.schedule_rules.specs.declared.schedules.TheConstants.{MOST_DAYS};

    /// The days, strictly rising.
    pub fn dates(&self) -> &[Day]
        ensures days { result.now ≡ self.now }
        ensures rising { IsStrictlySortedBy int_cmp result.now }
        ensures count { IsInRange 2 MOST_DAYS (length result.now) }
    {
        &self.days
    }
}
