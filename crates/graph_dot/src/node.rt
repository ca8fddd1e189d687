// What is drawn of a session.
use curve_points::CurveNode;
use day_number::Day;
use desk_names::ObjId;
use desk_terms::{Kind, Mark};
use fixed_amount::{Amount, Rate};

/// What an ask of an object would find.
#[derive(Clone, Copy)]
pub enum Finding {
    /// The object is not priced: it is a source, passes notices on, or is a watcher.
    Unasked,
    /// It is not current: an ask would compute it.
    NotCurrent,
    /// An ask would answer its last value, with this mark.
    Kept(Mark),
    /// An ask would be refused: the object is held, as this mark says, and has no value.
    Missing(Mark),
}

/// What is shown of the value of an object.
#[derive(Clone, Copy)]
pub enum Shown {
    /// It has none.
    Nothing,
    /// The evaluation date.
    Date(Day),
    /// A quote without a value.
    Unset,
    /// The rate of a quote.
    Rate(Rate),
    /// What an instrument was worth last.
    Money(Amount),
    /// The last point of a curve: its day, and the discount factor there.
    Point(CurveNode),
}

/// What an instrument is whose terms are a list of flows.
#[derive(Clone, Copy)]
pub enum FlowKind {
    Bond,
    Swap,
    /// A forward rate agreement.
    Agreement,
}

/// An object.
#[derive(Clone, Copy)]
pub struct GraphNode {
    pub object: ObjId,
    pub kind: Kind,
    /// What it is among the instruments of flows, if it is one.
    pub flows: Option<FlowKind>,
    pub shown: Shown,
    pub finding: Finding,
    /// Whether it is a deferred source: it changed while notices are held back, and has told nobody yet.
    pub is_deferred: bool,
}

/// An object and one that it observes.
#[derive(Clone, Copy)]
pub struct GraphEdge {
    pub observer: ObjId,
    pub subject: ObjId,
    /// Whether the observer is a watcher that is registered with the subject.
    pub is_registration: bool,
}
