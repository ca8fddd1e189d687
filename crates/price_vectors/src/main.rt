//! Compares days and schedules, rates of indexes, curves, values of instruments, and readings of market files with figures and
//! answers from outside: each row of `data` that differs is printed, and how many agree. A row that cannot be read is an error.
//!
//! Days are compared with those of Python, of QuantLib 1.29 and of a model; rates, curves and values with QuantLib's; what
//! instruments still pay after a day, and what bonds are worth on it at a yield, with a model's; yields and measures of bonds
//! with a plain model's and, within bounds, with those by derivatives of the exact price (`derivatives.csv`), by QuantLib's
//! prices a basis point apart (`prices.csv`) and by its own duration and convexity (`formulas.csv`). Rates, factors, values and
//! payments stand over the curves of `curves.csv`, which are QuantLib's nodes rounded to units of 10^-12. Each row of
//! `instruments.csv` has QuantLib's value, the value in whole units over these nodes, and the gap between the two: half a unit
//! for each rounding of a known amount or of the value, and for each floating amount what half a unit of 10^-9 of its rate is
//! worth. Market files, most of them faulty, are compared with an independent reading of their format.
#![tactic(auto)]

mod curves;
mod dates;
mod factors;
mod fixings;
mod instruments;
mod jobs;
mod market_files;
mod measures;
mod numbers;
mod paid;
mod tables;
mod words;

use anyhow::Result;
use row_markets::Markets;
use std::fs;

fn main(rt: HostRuntime) -> Result<()> {
    dates::compare(&rt)?;
    let nodes = fs::read_to_string(&rt, "curves.csv")?;
    let markets = Markets::read(rt.alloc(), &nodes)?;
    tables::compare(&rt, &markets)?;
    market_files::compare(&rt)
}
