// Rows `market,cal,today,fixing_days,reference,nodes`: a market's calendar, its indexes' fixing days, and its curve of
// nodes `day:units;day:units..`.
ghost use Rattle.std.specs.Prelude.{◌≡◌, IfSome};

use crate::numbers::whole_factor;
use crate::unread::Unread;
use crate::words::calendar_of;
use curve_points::{CurveNode, CurveValue, NodeList, are_rising};
use day_number::{Convention, Day, Tenor, read_day};
use desk_names::ObjId;
use flow_terms::IndexTerms;
use std::alloc::Global;
use year_parts::Counter;

// The number of a market's curve.
const CURVE: ObjId = ObjId(1);

/// A market of the table.
#[derive(Drop)]
pub struct Market<'a> {
    pub name: &'a str,
    pub calendar: &'a str,
    pub today: Day,
    /// How many business days an index's fixing lies before its value day.
    pub fixing_days: u8,
    pub curve: CurveValue,
}

impl Market<'_> {
    /// An index of the market, on its curve and without month ends. None where the calendar is none of the known ones.
    pub fn index(&self, tenor: Tenor, conv: Convention, counter: Counter) -> Option<IndexTerms> {
        Some(IndexTerms {
            cal: calendar_of(self.calendar)?,
            fixing_days: self.fixing_days,
            tenor,
            conv,
            eom: false,
            counter,
            curve: CURVE,
        })
    }
}

/// The markets by their names.
#[derive(Drop)]
pub struct Markets<'a> {
    markets: Vec<Market<'a>>,
}

/// The texts of a row.
#[derive(Clone, Copy)]
struct Row<'a> {
    name: &'a str,
    calendar: &'a str,
    today: &'a str,
    fixing_days: &'a str,
    reference: &'a str,
    nodes: &'a str,
}

impl<'a> Row<'a> {
    // The row of a line.
    fn read(line: &'a str) -> Option<Row<'a>> {
        let mut fields = line.split(',');
        Some(Row {
            name: fields.next()?,
            calendar: fields.next()?,
            today: fields.next()?,
            fixing_days: fields.next()?,
            reference: fields.next()?,
            nodes: fields.next()?,
        })
    }
}

impl<'a> Markets<'a> {
    /// The markets of a table, whose first line is its heading.
    pub fn read(alloc: Global, text: &'a str) -> Result<Markets<'a>, Unread> {
        let mut markets = Vec::new(alloc);
        for line in text.lines().skip(1) {
            let row = Row::read(line).ok_or(Unread::Row)?;
            markets.push(Market {
                name: row.name,
                calendar: row.calendar,
                today: read_day(row.today.as_bytes()).ok_or(Unread::Today)?,
                fixing_days: row.fixing_days.parse().ok().ok_or(Unread::FixingDays)?,
                curve: curve_of(alloc, row.reference, row.nodes)?,
            })?;
        }
        Ok(Markets { markets })
    }

    /// The first market of a name.
    pub fn find(&self, name: &str) -> Option<&Market<'a>>
        ensures { IfSome result (λ market. market.now.name.now ≡ name.now) }
    {
        for market in &self.markets {
            if market.name == name {
                return Some(market);
            }
        }
        None
    }
}

// The curve of nodes `day:units;day:units..`.
fn curve_of(alloc: Global, reference: &str, nodes: &str) -> Result<CurveValue, Unread> {
    let reference = read_day(reference.as_bytes()).ok_or(Unread::Reference)?;
    let mut list = NodeList::new(alloc);
    for node in nodes.split(';') {
        list.push(node_of(node).ok_or(Unread::Node)?)?;
    }
    if !are_rising(reference, list.items()) {
        return Err(Unread::Order);
    }
    Ok(CurveValue::new(CURVE, reference, list))
}

// The node of a text `day:units`.
fn node_of(text: &str) -> Option<CurveNode> {
    let (day, units) = text.split_once(':')?;
    Some(CurveNode {
        day: read_day(day.as_bytes())?,
        factor: whole_factor(units)?,
    })
}
