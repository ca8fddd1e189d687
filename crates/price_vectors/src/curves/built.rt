// Rows `market,today,cal,settlement,reference,helpers,ql_nodes,profile_nodes,why,greatest_gap`: curves that are built from
// the helpers of a row, beside the nodes of the row. The reference day is nothing where there is no curve; QuantLib's nodes are
// `error ..` where it has none; those of the profile are in units of 10^-12, or `refused ..`; why the two differ is nothing
// where they do not; and the greatest gap between them is in units of 10^-12.
use crate::curves::calendars::calendar_with_own;
use crate::curves::terms::Asked;
use crate::numbers::{is_within, rounded_gap};
use crate::tables::{Agreed, of_first};
use crate::words::next_three;
use curve_bootstrap::{BuildFault, CurvePlans, build, build_by};
use curve_points::{CurveNode, CurveValue};
use curve_terms::{CurveStart, is_in_range};
use day_number::{Day, read_day};
use desk_names::ObjId;
use row_markets::whole_factor;
use std::alloc::Global;

// How many units of 10^-18 a unit of a factor has.
const FINE: u32 = 1_000_000;

/// What a row says of its curve.
#[derive(Clone, Copy)]
struct Wanted<'a> {
    reference: &'a str,
    quantlib: &'a str,
    profile: &'a str,
    why: &'a str,
    gap: &'a str,
}

/// Whether what a row's helpers give is the row's, also by what is kept of the rows before it. None where it cannot be read,
/// or its terms are out of range.
pub(crate) fn curve_agrees(alloc: Global, kept: &mut CurvePlans, line: &str) -> Option<Agreed> {
    let mut words = line.split(',');
    let (_, today, cal) = next_three(&mut words)?;
    let (settlement, reference, helpers) = next_three(&mut words)?;
    let (quantlib, profile, why) = next_three(&mut words)?;
    let gap = words.next()?;
    let wanted = Wanted {
        reference,
        quantlib,
        profile,
        why,
        gap,
    };
    let today = read_day(today.as_bytes())?;
    let start = CurveStart::Moving(settlement.parse().ok()?);
    let mut asked = Asked::new(alloc, calendar_with_own(alloc, cal)?, start);
    are_built(alloc, kept, &mut asked, helpers, today, &wanted)
}

// Whether the curves of terms that have no helpers yet are the row's, once the row's are added.
fn are_built(
    alloc: Global,
    kept: &mut CurvePlans,
    asked: &mut Asked,
    helpers: &str,
    today: Day,
    wanted: &Wanted<'_>,
) -> Option<Agreed> {
    asked.push(helpers)?;
    if !is_in_range(&asked.terms) || asked.rates.len() != asked.terms.helpers.len() {
        return None;
    }
    let found = build(alloc, ObjId(1), &asked.terms, today, &asked.rates);
    let mut agrees = is_answer(alloc, found, wanted)?;
    for _ in 0..2 {
        let found = build_by(alloc, ObjId(1), &asked.terms, today, &asked.rates, kept);
        agrees &= is_answer(alloc, found, wanted)?;
    }
    Some(of_first(agrees))
}

// Whether an answer is the row's.
fn is_answer(
    alloc: Global,
    answer: Result<CurveValue, BuildFault>,
    wanted: &Wanted<'_>,
) -> Option<bool> {
    match answer {
        Ok(curve) => is_curve(&curve, wanted),
        Err(fault) => is_refused(alloc, fault, wanted.profile),
    }
}

// Whether a fault is the one of a text.
fn is_refused(alloc: Global, fault: BuildFault, text: &str) -> Option<bool> {
    let (word, place) = match fault {
        BuildFault::Pillar(k) => ("refused pillar ", Some(k)),
        BuildFault::Discount(k) => ("refused discount ", Some(k)),
        BuildFault::Negative(k) => ("refused negative ", Some(k)),
        BuildFault::RateRange => ("refused raterange", None),
        BuildFault::DateRange => ("refused daterange", None),
        BuildFault::NoMemory => return None,
    };
    match (text.strip_prefix(word), place) {
        (Some(rest), Some(k)) => Some(format!(in alloc; "{k}").ok()?.as_str() == rest),
        (Some(rest), None) => Some(rest.is_empty()),
        (None, _) => Some(false),
    }
}

// Whether a curve is the row's. Its nodes are compared with QuantLib's where the row gives no reason why they differ.
fn is_curve(curve: &CurveValue, wanted: &Wanted<'_>) -> Option<bool> {
    if wanted.profile.starts_with("refused") {
        return Some(false);
    }
    let there = read_day(wanted.reference.as_bytes())? == curve.reference();
    let near = if wanted.why.is_empty() && !wanted.quantlib.starts_with("error") {
        are_nodes(
            curve.nodes(),
            wanted.quantlib,
            Some(rounded_gap(wanted.gap)?),
        )?
    } else {
        true
    };
    Some(there && near && are_nodes(curve.nodes(), wanted.profile, None)?)
}

// Whether the nodes are those of a text, in their order, or where there is a gap, no factor is farther from its own than that.
fn are_nodes(nodes: &[CurveNode], text: &str, gap: Option<u128>) -> Option<bool> {
    let mut left = nodes.iter();
    for word in text.split(';') {
        match left.next() {
            Some(node) if is_node(node, word, gap)? => {}
            _ => return Some(false),
        }
    }
    Some(left.next().is_none())
}

// Whether the node is the one of a text `day:units`, or where there is a gap, no farther than that from that of `day:factor`.
fn is_node(node: &CurveNode, text: &str, gap: Option<u128>) -> Option<bool> {
    let (day, factor) = text.split_once(':')?;
    let same = match gap {
        None => node.factor == whole_factor(factor)?,
        Some(gap) => is_within(node.factor.units(), FINE, factor, gap)?,
    };
    Some(same && node.day == read_day(day.as_bytes())?)
}
