// The text of a curve.
ghost use Rattle.std.specs.Prelude.{◌≡◌, ◌++◌, OnOk, codes};
ghost use Rattle.price_report.specs.Line.{point_text, node_texts, curve_text};

use curve_points::{CurveNode, CurveValue, ONE};
use day_number::{Day, print_day};
use fixed_amount::{Discount, print_decimal};
use std::alloc::{AllocError, Global};

// How many places a discount factor is printed with.
const FACTOR_PLACES: u8 = 12;

// Appends a curve: the factor 1 at its reference day, then its nodes in order.
#[tactic(auto, unfolding(crate::specs::Line::node_texts))]
pub(crate) fn push_curve(
    alloc: Global,
    curve: &CurveValue,
    line: &mut Vec<u8>,
) -> Result<(), AllocError>
    ensures { OnOk result (line.new.items ≡ line.old.items ++ curve_text curve.now) }
{
    let first = CurveNode {
        day: curve.reference(),
        factor: Discount(ONE),
    };
    line.extend_from_slice(b"curve")?;
    push_node(alloc, &first, line)?;
    push_nodes(alloc, curve.nodes(), line)
}

// Appends nodes.
fn push_nodes(alloc: Global, nodes: &[CurveNode], line: &mut Vec<u8>) -> Result<(), AllocError>
    ensures { OnOk result (line.new.items ≡ line.old.items ++ node_texts nodes.now) }
{
    for node in nodes {
        push_node(alloc, node, line)?;
    }
    Ok(())
}

// Appends a space and a node.
fn push_node(alloc: Global, node: &CurveNode, line: &mut Vec<u8>) -> Result<(), AllocError>
    ensures { OnOk result (line.new.items ≡ line.old.items ++ (codes " " ++ point_text node.now.day node.now.factor)) }
{
    line.extend_from_slice(b" ")?;
    push_point(alloc, node.day, node.factor, line)
}

// Appends a day and the discount factor there.
#[tactic(auto, unfolding(crate::specs::Line::point_text))]
pub(crate) fn push_point(
    alloc: Global,
    day: Day,
    factor: Discount,
    line: &mut Vec<u8>,
) -> Result<(), AllocError>
    ensures { OnOk result (line.new.items ≡ line.old.items ++ point_text day factor) }
{
    print_day(alloc, day, line)?;
    line.extend_from_slice(b" ")?;
    print_decimal(alloc, i128::from(factor.units()), FACTOR_PLACES, line)
}
