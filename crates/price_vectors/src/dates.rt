// Days, counters, calendars, moved days and schedules with figures from outside, one case a line of a file.
mod calendar_text;
mod counted;
mod days;
mod fault;
mod moved;
mod open_days;
mod schedules;
mod tables;
mod target_days;

use anyhow::Result;
use std::fs;
use tables::TABLES;

/// Prints each line that differs, and how many agree of each file. It ends with an error at a line that it cannot read.
pub(crate) fn compare(rt: &HostRuntime) -> Result<()> {
    for table in TABLES {
        let text = fs::read_to_string(rt, table.name())?;
        tables::compare(rt, rt.alloc(), table, &text)?;
    }
    let years = fs::read_to_string(rt, "target")?;
    target_days::compare(rt, &years)
}
