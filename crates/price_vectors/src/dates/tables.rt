// The files of rows.
use crate::dates::calendar_text::calendar_of;
use crate::dates::counted::{business_agrees, count_agrees};
use crate::dates::days::{
    date_agrees, day_agrees, easter_agrees, later_agrees, place_agrees, tenor_agrees,
};
use crate::dates::fault::RowFault;
use crate::dates::moved::{adjusted_agrees, advanced_agrees};
use crate::dates::open_days::{between_agrees, calendar_agrees};
use crate::dates::schedules::schedule_agrees;
use anyhow::{Result, bail};
use holiday_calendars::Calendar;
use row_markets::Tally;
use std::alloc::Global;
use std::str::Split;

/// A file of rows.
#[derive(Clone, Copy)]
pub(crate) enum Table {
    Days,
    Dates,
    Places,
    Later,
    Tenors,
    Counts,
    Business,
    Easter,
    Calendars,
    Adjusted,
    Advanced,
    Between,
    Schedules,
}

pub(crate) const TABLES: [Table; 13] = [
    Table::Days,
    Table::Dates,
    Table::Places,
    Table::Later,
    Table::Tenors,
    Table::Counts,
    Table::Business,
    Table::Easter,
    Table::Calendars,
    Table::Adjusted,
    Table::Advanced,
    Table::Between,
    Table::Schedules,
];

impl Table {
    /// The file's name in the folder that the program runs in.
    pub(crate) fn name(self) -> &'static str {
        match self {
            Table::Days => "days",
            Table::Dates => "dates",
            Table::Places => "places",
            Table::Later => "later",
            Table::Tenors => "tenors",
            Table::Counts => "counts",
            Table::Business => "business",
            Table::Easter => "easter",
            Table::Calendars => "calendars",
            Table::Adjusted => "adjusted",
            Table::Advanced => "advanced",
            Table::Between => "between",
            Table::Schedules => "schedules",
        }
    }

    // Whether a line's answer is the one that it says.
    fn agrees(self, alloc: Global, line: &str) -> Result<bool, RowFault> {
        let mut row = line.split(',');
        let agrees = self.answer_agrees(alloc, &mut row)?;
        match row.next() {
            None => Ok(agrees),
            Some(_) => Err(RowFault::NotARow),
        }
    }

    fn answer_agrees(self, alloc: Global, row: &mut Split<'_, char>) -> Result<bool, RowFault> {
        let agrees = match self {
            Table::Days => return day_agrees(alloc, row),
            Table::Dates => date_agrees(row),
            Table::Places => place_agrees(row),
            Table::Later => later_agrees(row),
            Table::Tenors => tenor_agrees(row),
            Table::Counts => count_agrees(row),
            Table::Easter => easter_agrees(row),
            Table::Calendars => return calendar_agrees(alloc, row),
            Table::Business
            | Table::Adjusted
            | Table::Advanced
            | Table::Between
            | Table::Schedules => {
                let text = row.next().ok_or(RowFault::NotARow)?;
                return self.agrees_over(alloc, &calendar_of(alloc, text)?, row);
            }
        };
        agrees.ok_or(RowFault::NotARow)
    }

    // The same over the calendar that a line begins with.
    fn agrees_over(
        self,
        alloc: Global,
        calendar: &Calendar,
        row: &mut Split<'_, char>,
    ) -> Result<bool, RowFault> {
        let agrees = match self {
            Table::Business => business_agrees(calendar, row),
            Table::Adjusted => adjusted_agrees(calendar, row),
            Table::Advanced => advanced_agrees(calendar, row),
            Table::Between => between_agrees(calendar, row),
            _ => return schedule_agrees(alloc, calendar, row),
        };
        agrees.ok_or(RowFault::NotARow)
    }
}

/// Prints each line that differs, and how many agree and differ.
pub(crate) fn compare(rt: &impl Print, alloc: Global, table: Table, text: &str) -> Result<()> {
    let name = table.name();
    let mut rows = Tally::new(name);
    for line in text.lines() {
        match table.agrees(alloc, line) {
            Ok(agrees) => rows.count(rt, line, agrees)?,
            Err(fault) => bail!("{name}: {fault}: {line}"),
        }
    }
    rows.tell(rt)?;
    Ok(())
}
