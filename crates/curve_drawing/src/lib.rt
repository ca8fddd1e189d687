//! Discount curves as a picture and as a table: the text of an SVG of 800 by 520 pixels with their factors or rates by day, and the points as
//! lines of comma-separated values. Both are whole numbers and fixed decimals, worked out by whole-number arithmetic that the definitions
//! state. What is drawn of a curve: its factors, its simple zero rates by the month, its simple forward rates over three months, or the par
//! rates of its helpers beside their quotes, as points.
//!
//! `picture`, `table`; `line_of`, `Quoted`, `Plot`, `PlotLine`, `PlotPoint`, `PlotUnits`.
#![tactic(auto)]

mod curves;
mod days;
mod drawing;
mod line_rows;
mod lines;
mod listing;
mod marks;
mod pars;
mod picture_rows;
mod places;
mod points;
mod rates;
mod scale;
mod texts;

pub use drawing::picture;
pub use lines::{Plot, PlotLine, PlotPoint, PlotUnits, line_of};
pub use listing::table;
pub use pars::Quoted;
