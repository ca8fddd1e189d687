// Counts of calls, faults and misses.
ghost use Rattle.std.specs.Prelude.{◌≡◌};
ghost use Rattle.desk_edge.specs.Count.{raised};

// Returns the next count. The greatest count stays as it is.
pub fn one_more(count: u64) -> u64
    ensures { result ≡ raised count }
{
    count.saturating_add(1)
}
