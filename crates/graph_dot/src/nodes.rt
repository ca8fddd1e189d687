// The nodes.
ghost use Rattle.std.specs.Prelude.{◌≡◌, ◌++◌, OnOk};
ghost use Rattle.price_report.specs.Line.{point_text};
ghost use Rattle.graph_dot.specs.Dot.{line, date_line, point_line, shown_lines, finding_lines, border_of, deferred_lines, label_text, node_text, nodes_text};

use crate::node::{Finding, GraphNode, Shown};
use crate::texts::{DEFERRED, LABEL, LINE, NODE, NODE_END, SHAPE};
use crate::words::{colour_of, node_word, shape_of};
use curve_points::CurveNode;
use day_number::{Day, print_day};
use fixed_amount::print_decimal;
use price_report::Namer;
use std::alloc::{AllocError, Global};

// How many places rates, amounts of money and discount factors are printed with.
const RATE_PLACES: u8 = 9;

const MONEY_PLACES: u8 = 6;

const FACTOR_PLACES: u8 = 12;

// Appends the nodes.
pub(crate) fn push_nodes(
    alloc: Global,
    nodes: &[GraphNode],
    namer: &Namer<'_>,
    out: &mut Vec<u8>,
) -> Result<(), AllocError>
    ensures { OnOk result (out.new.items
        ≡ out.old.items ++ nodes_text namer.now.names.now namer.now.of_object.now nodes.now) }
{
    for node in nodes {
        push_node(alloc, node, namer, out)?;
    }
    Ok(())
}

// Appends a node.
#[tactic(auto, unfolding(crate::specs::Dot::node_text))]
fn push_node(
    alloc: Global,
    node: &GraphNode,
    namer: &Namer<'_>,
    out: &mut Vec<u8>,
) -> Result<(), AllocError>
    ensures { OnOk result (out.new.items
        ≡ out.old.items ++ node_text namer.now.names.now namer.now.of_object.now node.now) }
{
    let name = namer.object(node.object);
    out.extend_from_slice(NODE)?;
    out.extend_from_slice(name)?;
    out.extend_from_slice(SHAPE)?;
    out.extend_from_slice(shape_of(node.kind))?;
    out.extend_from_slice(colour_of(node.finding))?;
    out.extend_from_slice(border_of(node.is_deferred))?;
    out.extend_from_slice(LABEL)?;
    push_label(alloc, name, node, out)?;
    out.extend_from_slice(NODE_END)
}

// Appends a label.
#[tactic(auto, unfolding(crate::specs::Dot::label_text))]
fn push_label(
    alloc: Global,
    name: &[u8],
    node: &GraphNode,
    out: &mut Vec<u8>,
) -> Result<(), AllocError>
    ensures { OnOk result (out.new.items ≡ out.old.items ++ label_text name.now node.now) }
{
    out.extend_from_slice(name)?;
    push_line(node_word(node.kind, node.flows), out)?;
    push_shown(alloc, node.shown, out)?;
    push_finding(node.finding, out)?;
    push_deferred(node.is_deferred, out)
}

// Appends a line of a label.
#[tactic(auto, unfolding(crate::specs::Dot::line))]
fn push_line(text: &[u8], out: &mut Vec<u8>) -> Result<(), AllocError>
    ensures { OnOk result (out.new.items ≡ out.old.items ++ line text.now) }
{
    out.extend_from_slice(LINE)?;
    out.extend_from_slice(text)
}

// Appends what is shown of a value.
#[tactic(auto, unfolding(crate::specs::Dot::line))]
fn push_shown(alloc: Global, shown: Shown, out: &mut Vec<u8>) -> Result<(), AllocError>
    ensures { OnOk result (out.new.items ≡ out.old.items ++ shown_lines shown) }
{
    match shown {
        Shown::Nothing => Ok(()),
        Shown::Date(day) => push_date(alloc, day, out),
        Shown::Unset => push_line(b"unset", out),
        Shown::Rate(rate) => {
            out.extend_from_slice(LINE)?;
            print_decimal(alloc, i128::from(rate.units()), RATE_PLACES, out)
        }
        Shown::Money(amount) => {
            out.extend_from_slice(LINE)?;
            print_decimal(alloc, amount.units(), MONEY_PLACES, out)
        }
        Shown::Point(point) => push_point(alloc, &point, out),
    }
}

// Appends a date.
#[tactic(auto, unfolding(crate::specs::Dot::line, crate::specs::Dot::date_line))]
fn push_date(alloc: Global, day: Day, out: &mut Vec<u8>) -> Result<(), AllocError>
    ensures { OnOk result (out.new.items ≡ out.old.items ++ date_line day) }
{
    out.extend_from_slice(LINE)?;
    print_day(alloc, day, out)
}

// Appends the last point of a curve.
#[tactic(auto, unfolding(crate::specs::Dot::line, crate::specs::Dot::point_line))]
fn push_point(alloc: Global, point: &CurveNode, out: &mut Vec<u8>) -> Result<(), AllocError>
    ensures { OnOk result (out.new.items ≡ out.old.items ++ point_line point.now) }
{
    out.extend_from_slice(LINE)?;
    push_factor(alloc, point, out)
}

// Appends a day, and the discount factor there.
#[tactic(auto, unfolding(price_report::specs::Line::point_text))]
fn push_factor(alloc: Global, point: &CurveNode, out: &mut Vec<u8>) -> Result<(), AllocError>
    ensures { OnOk result (out.new.items ≡ out.old.items ++ point_text point.now.day point.now.factor) }
{
    print_day(alloc, point.day, out)?;
    out.extend_from_slice(b" ")?;
    print_decimal(alloc, i128::from(point.factor.units()), FACTOR_PLACES, out)
}

// Appends what an ask would find.
fn push_finding(finding: Finding, out: &mut Vec<u8>) -> Result<(), AllocError>
    ensures { OnOk result (out.new.items ≡ out.old.items ++ finding_lines finding) }
{
    match finding {
        Finding::Unasked => Ok(()),
        Finding::NotCurrent => push_line(b"not current", out),
        Finding::Kept(mark) => push_line(mark.word(), out),
        Finding::Missing(mark) => {
            push_line(mark.word(), out)?;
            push_line(b"unpriced", out)
        }
    }
}

// The border of a node.
fn border_of(is_deferred: bool) -> &'static [u8]
    ensures { result.now ≡ border_of is_deferred }
{
    if is_deferred { DEFERRED } else { b"" }
}

// Appends that an object is a deferred source.
fn push_deferred(is_deferred: bool, out: &mut Vec<u8>) -> Result<(), AllocError>
    ensures { OnOk result (out.new.items ≡ out.old.items ++ deferred_lines is_deferred) }
{
    if is_deferred {
        return push_line(b"deferred", out);
    }
    Ok(())
}
