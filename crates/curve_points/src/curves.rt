// A discount curve. A clause sees it as its owner, its reference day and its nodes.
ghost use Rattle.std.specs.Prelude.{◌↔◌, IsTrue};
ghost use Rattle.curve_points.specs.Curve.{IsRisingFrom};

use crate::NodeList;
use day_number::Day;
use desk_names::ObjId;
use fixed_amount::Discount;
use std::marker::Model;

/// The discount factor 1, in units of 10^-12.
pub const ONE: i64 = 1_000_000_000_000;

/// The greatest discount factor, in units of 10^-12.
pub const MOST: i64 = 4_000_000_000_000;

/// A day, and the discount factor that a curve has there.
#[derive(Clone, Copy, Debug)]
pub struct CurveNode {
    pub day: Day,
    pub factor: Discount,
}

/// A curve of discount factors: 1 at the reference day, and nodes whose days rise strictly, the first after the
/// reference day (QuantLib's `InterpolatedDiscountCurve`).
#[derive(Debug, Drop)]
pub struct CurveValue {
    pub(crate) owner: ObjId,
    pub(crate) reference: Day,
    pub(crate) nodes: NodeList,
}

impl Model for CurveValue {
    ghost use Rattle.curve_points.specs.Curve.{Curve, IsRisingFrom};

    ghost Value = { Curve };

    ghost view = { λ c. record { owner = c.owner; reference = c.reference; nodes = c.nodes } };

    ghost invariant = { λ c. IsRisingFrom c.reference c.nodes };
}

impl CurveValue {
    ghost use Rattle.std.specs.Prelude.{◌≡◌};
    ghost use Rattle.curve_points.specs.Curve.{Curve, IsRisingFrom};

    /// The curve of an owner, a reference day and nodes.
    pub fn new(owner: ObjId, reference: Day, nodes: NodeList) -> CurveValue
        requires { IsRisingFrom reference nodes }
        ensures owner { result.owner ≡ owner }
        ensures reference { result.reference ≡ reference }
        ensures nodes { result.nodes ≡ nodes }
    {
        CurveValue {
            owner,
            reference,
            nodes,
        }
    }

    /// The object whose curve it is.
    pub fn owner(&self) -> ObjId
        ensures { result ≡ self.now.owner }
    {
        self.owner
    }

    /// The day at which the factor is 1.
    pub fn reference(&self) -> Day
        ensures { result ≡ self.now.reference }
    {
        self.reference
    }

    /// The nodes, their days strictly rising after the reference day.
    pub fn nodes(&self) -> &[CurveNode]
        ensures nodes { result.now ≡ self.now.nodes }
        ensures rising { IsRisingFrom self.now.reference result.now }
    {
        self.nodes.items()
    }
}

/// Whether the nodes' days rise strictly, the first after the reference day.
pub fn are_rising(reference: Day, nodes: &[CurveNode]) -> bool
    ensures { IsTrue result ↔ IsRisingFrom reference nodes.now }
{
    let mut before = reference;
    for node in nodes {
        if node.day <= before {
            return false;
        }
        before = node.day;
    }
    true
}
