// The tables of rates, curves, values and payments. The first line of each is its heading.
use crate::curves::built::curve_agrees;
use crate::factors::factor_agrees;
use crate::fixings::{forecast_agrees, stored_agrees};
use crate::jobs::value_agrees;
use crate::measures::measures_agree;
use crate::paid::flows_agree;
use anyhow::{Result, bail};
use curve_bootstrap::CurvePlans;
use row_markets::{Markets, Tally};
use std::alloc::Global;
use std::fs;

/// Whether a row agrees by each of the two kinds of its table, where it has a figure of it.
#[derive(Clone, Copy)]
pub(crate) struct Agreed {
    pub(crate) first: Option<bool>,
    pub(crate) second: Option<bool>,
}

/// Whether a row of one kind agrees.
pub(crate) fn of_first(first: bool) -> Agreed {
    Agreed {
        first: Some(first),
        second: None,
    }
}

/// A table of rows.
#[derive(Clone, Copy)]
enum Table {
    Fixings,
    Stored,
    Helpers,
    Cases,
    Values,
    Instruments,
    Flows,
    Derivatives,
    Prices,
    Formulas,
}

const TABLES: [Table; 10] = [
    Table::Fixings,
    Table::Stored,
    Table::Helpers,
    Table::Cases,
    Table::Values,
    Table::Instruments,
    Table::Flows,
    Table::Derivatives,
    Table::Prices,
    Table::Formulas,
];

impl Table {
    // Its file, what a row that cannot be read is told with, and its first and its second kind. The second has no name where it
    // has one kind alone.
    fn names(self) -> [&'static str; 4] {
        match self {
            Table::Fixings => ["fixings.csv", "fixings.csv: ", "forecasts", ""],
            Table::Stored => ["stored.csv", "stored.csv: ", "stored", ""],
            Table::Helpers => ["helpers.csv", "", "curves", ""],
            Table::Cases => ["cases.csv", "", "cases", ""],
            Table::Values => ["values.csv", "values.csv: ", "discount", "implied"],
            Table::Instruments => ["instruments.csv", "instruments.csv: ", "values", "gaps"],
            Table::Flows => ["flows.csv", "flows.csv: ", "flows", "full prices"],
            Table::Derivatives => [
                "derivatives.csv",
                "derivatives: ",
                "measures",
                "derivatives",
            ],
            Table::Prices => [
                "prices.csv",
                "QuantLib's prices: ",
                "measures",
                "QuantLib's prices",
            ],
            Table::Formulas => [
                "formulas.csv",
                "QuantLib's formulas: ",
                "measures",
                "QuantLib's formulas",
            ],
        }
    }

    // Whether a row agrees. None where it cannot be read.
    fn agrees(
        self,
        alloc: Global,
        markets: &Markets<'_>,
        kept: &mut CurvePlans,
        line: &str,
    ) -> Option<Agreed> {
        match self {
            Table::Fixings => forecast_agrees(alloc, markets, line),
            Table::Stored => stored_agrees(alloc, markets, line),
            Table::Helpers | Table::Cases => curve_agrees(alloc, kept, line),
            Table::Values => factor_agrees(alloc, markets, line),
            Table::Instruments => value_agrees(alloc, markets, line),
            Table::Flows => flows_agree(alloc, markets, line),
            Table::Derivatives | Table::Prices | Table::Formulas => {
                measures_agree(alloc, markets, line)
            }
        }
    }
}

/// Prints each row that differs, and how many agree and differ of each kind.
pub(crate) fn compare(rt: &HostRuntime, markets: &Markets<'_>) -> Result<()> {
    for table in TABLES {
        let [file, ..] = table.names();
        let text = fs::read_to_string(rt, file)?;
        compare_rows(
            rt,
            rt.alloc(),
            table,
            markets,
            &mut CurvePlans::new(),
            &text,
        )?;
    }
    Ok(())
}

// The same of the rows of a table, the curves also by what is kept of the rows before.
fn compare_rows(
    rt: &impl Print,
    alloc: Global,
    table: Table,
    markets: &Markets<'_>,
    kept: &mut CurvePlans,
    text: &str,
) -> Result<()> {
    let [_, told, kind, other] = table.names();
    let mut first = Tally::new(kind);
    let mut second = Tally::new(other);
    let mut others = 0u64;
    for line in text.lines().skip(1) {
        let Some(found) = table.agrees(alloc, markets, kept, line) else {
            bail!("{told}this row cannot be read: {line}");
        };
        if let Some(agrees) = found.first {
            first.count(rt, line, agrees)?;
        }
        if let Some(agrees) = found.second {
            second.count(rt, line, agrees)?;
        }
        if found.first.is_none() && found.second.is_none() {
            others = others.saturating_add(1);
        }
    }
    first.tell(rt)?;
    if !other.is_empty() {
        second.tell(rt)?;
    }
    if let Table::Values = table {
        println!(rt; "other rows: {others}")?;
    }
    Ok(())
}
